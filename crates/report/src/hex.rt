// Bytes as hexadecimal digits.
ghost use Rattle.std.specs.Prelude.{Some};
ghost use Rattle.std.specs.Fmt.{WritesOnOk};
ghost use Rattle.report.specs.Hex.{pair, hex_of};

use std::fmt;

// A byte as `0a`. Its two characters are written one by one: `{:02x}` would take half as long again, and this is most of
// what the programs do.
fn write_byte<W: fmt::Write>(f: &mut fmt::Formatter<W>, byte: u8) -> fmt::Result
    ensures { WritesOnOk W.write_str_gives f.old result (pair byte) f.new }
{
    f.write_char(char::from_digit(u32::from(byte / 16), 16).unwrap())?;
    f.write_char(char::from_digit(u32::from(byte % 16), 16).unwrap())
}

// Bytes that are shown as `00 ff 0a`.
#[derive(Clone, Copy)]
pub struct Hex<'a>(pub &'a [u8]);

impl fmt::Display for Hex<'_> {
    ghost output = { λ h. Some (hex_of h.0.now) };

    fn fmt<W: fmt::Write>(&self, f: &mut fmt::Formatter<W>) -> fmt::Result {
        let [first, rest @ ..] = self.0 else {
            return Ok(());
        };
        write_byte(f, *first)?;
        for b in rest {
            f.write_char(' ')?;
            write_byte(f, *b)?;
        }
        Ok(())
    }
}
