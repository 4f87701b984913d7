// Numbers as words.
ghost use Rattle.std.specs.Prelude.{◌≡◌};
ghost use Rattle.text.specs.Numbers.{digit_of, byte_of, decimal_of};

// The value of a hexadecimal digit.
fn hex_digit(b: u8) -> Option<u8>
    ensures { result ≡ digit_of b }
{
    let digit = (b as char).to_digit(16)?;
    Some(digit as u8)
}

// The byte that two hexadecimal digits write. The library's `from_str_radix` would take a sign.
pub fn hex_byte(word: &[u8]) -> Option<u8>
    ensures { result ≡ byte_of word.now }
{
    let [high, low] = word else {
        return None;
    };
    let high = hex_digit(*high)?;
    let low = hex_digit(*low)?;
    Some(16 * high + low)
}

// The number that decimal digits write, where it fits.
pub fn decimal(word: &[u8]) -> Option<usize>
    ensures { result ≡ decimal_of word.now }
{
    if word.is_empty() {
        return None;
    }
    let mut value: usize = 0;
    // A loop: the library's `parse` takes a sign and wants text, so a word would be gone over three times.
    for b in word {
        if !b.is_ascii_digit() {
            return None;
        }
        value = value.checked_mul(10)?.checked_add((*b - b'0') as usize)?;
    }
    Some(value)
}
