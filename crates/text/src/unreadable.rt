// Why a line cannot be read, and what is told of it.
ghost use Rattle.std.specs.Prelude.{◌≡◌, Some};
ghost use Rattle.text.specs.Unreadable.{said};
ghost use Rattle.text.specs.declared.unreadable.Unreadable.TheVariants.{NoMemory};

use std::alloc::AllocFailed;
use std::fmt;

// Why a line cannot be read.
#[derive(Clone, Copy, PartialEq, Eq, Debug)]
pub enum Unreadable {
    // The first word names no call.
    UnknownCall,
    // Where a byte should be stands no word of two hexadecimal digits.
    NoByte,
    // Where a chunk should be stands no word `BYTExCOUNT`.
    NoChunk,
    // Where a number should be stands no word of decimal digits below 2^64.
    NoNumber,
    // Words stand behind the call.
    TooMuch,
    // There is no memory for what the line says.
    NoMemory,
}

impl fmt::Display for Unreadable {
    ghost output = { λ e. Some (said e) };

    fn fmt<W: fmt::Write>(&self, f: &mut fmt::Formatter<W>) -> fmt::Result {
        f.write_str(match self {
            Unreadable::UnknownCall => "not a call",
            Unreadable::NoByte => "a byte of two hexadecimal digits is missing",
            Unreadable::NoChunk => "a chunk as BYTExCOUNT is missing",
            Unreadable::NoNumber => "a decimal number below 2^64 is missing",
            Unreadable::TooMuch => "more words than the call takes",
            Unreadable::NoMemory => "no memory",
        })
    }
}

impl<T: Drop> From<AllocFailed<T>> for Unreadable {
    ghost from_gives = { λ _ e. e ≡ NoMemory };

    fn from(_failed: AllocFailed<T>) -> Self {
        Self::NoMemory
    }
}
