// Calls as lines of text.
ghost use Rattle.std.specs.Prelude.{◌≡◌};
ghost use Rattle.text.specs.Lines.{run_of, named, call_of};

use crate::arguments::last_number;
use crate::numbers::hex_byte;
pub use crate::unreadable::Unreadable;
use crate::words::{next_word, split_name};
use calls::call::Call;

// A run, by the byte and the count behind its name.
fn run(text: &[u8]) -> Result<Call, Unreadable>
    ensures { result ≡ run_of text.now }
{
    let (word, rest) = next_word(text);
    let byte = hex_byte(word).ok_or(Unreadable::NoByte)?;
    let count = last_number(rest)?;
    Ok(Call::Run { byte, count })
}

// The call of that name, with its numbers from `rest`.
fn call_named(name: &[u8], rest: &[u8]) -> Result<Call, Unreadable>
    ensures { result ≡ named name.now rest.now }
{
    match name {
        b"run" => run(rest),
        b"cut" => last_number(rest).map(|n| Call::Cut { n }),
        b"advance" => last_number(rest).map(|n| Call::Advance { n }),
        b"write_out" => last_number(rest).map(|n| Call::WriteOut { n }),
        _ => Err(Unreadable::UnknownCall),
    }
}

// The call that a line says, if it has a word at all. The words are judged in their order.
pub fn read_call(line: &[u8]) -> Result<Option<Call>, Unreadable>
    ensures { result ≡ call_of line.now }
{
    match split_name(line) {
        Some((name, rest)) => call_named(name, rest).map(Some),
        None => Ok(None),
    }
}

#[cfg(test)]
mod tests {
    use super::*;

    #[test]
    fn reads_calls(rt: HostRuntime) {
        let run = Call::Run {
            byte: 255,
            count: 12,
        };
        assert_eq!(rt; read_call(b"\t run fF 012 # twelve bytes\r"), Ok(Some(run)));
        let most = Call::WriteOut { n: usize::MAX };
        assert_eq!(rt;
            read_call(b"write_out 18446744073709551615"),
            Ok(Some(most))
        );
        assert_eq!(rt; read_call(b"cut 3"), Ok(Some(Call::Cut { n: 3 })));
        assert_eq!(rt; read_call(b"advance 0#"), Ok(Some(Call::Advance { n: 0 })));
        assert_eq!(rt; read_call(b" \t\r"), Ok(None));
        assert_eq!(rt; read_call(b"# run 00 1"), Ok(None));
    }

    #[test]
    fn refuses_other_lines(rt: HostRuntime) {
        assert_eq!(rt; read_call(b"Run 00 1"), Err(Unreadable::UnknownCall));
        assert_eq!(rt; read_call(b"run 7 1"), Err(Unreadable::NoByte));
        assert_eq!(rt; read_call(b"run"), Err(Unreadable::NoByte));
        assert_eq!(rt; read_call(b"cut +3"), Err(Unreadable::NoNumber));
        assert_eq!(rt; read_call(b"cut # 3"), Err(Unreadable::NoNumber));
        assert_eq!(rt;
            read_call(b"cut 18446744073709551616"),
            Err(Unreadable::NoNumber)
        );
        assert_eq!(rt; read_call(b"cut 3 4"), Err(Unreadable::TooMuch));
    }
}
