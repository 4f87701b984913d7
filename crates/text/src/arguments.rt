// What a call is given: the words behind its name.
ghost use Rattle.std.specs.Prelude.{◌≡◌};
ghost use Rattle.text.specs.Arguments.{lone, last_number};

use crate::numbers::decimal;
use crate::unreadable::Unreadable;
use crate::words::next_word;

// What was found, if no word stands behind it.
pub fn alone<T: Drop>(found: T, rest: &[u8]) -> Result<T, Unreadable>
    ensures { result ≡ lone found rest.now }
{
    let (extra, _) = next_word(rest);
    if extra.is_empty() {
        Ok(found)
    } else {
        Err(Unreadable::TooMuch)
    }
}

// The number that is the only word of a text.
pub fn last_number(text: &[u8]) -> Result<usize, Unreadable>
    ensures { result ≡ last_number text.now }
{
    let (word, rest) = next_word(text);
    let n = decimal(word).ok_or(Unreadable::NoNumber)?;
    alone(n, rest)
}
