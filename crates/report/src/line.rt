// Lines that a program reads.
ghost use Rattle.std.specs.Prelude.{◌≡◌, IfOk};

use anyhow::anyhow;
use std::fmt::Display;

// Prints a line, by what it was found to say, and passes that on. A line that says nothing is not printed; where one
// cannot be read, the reason is printed on standard error, and the answer is an error.
pub fn announce<T: Drop, E: Display + Drop>(
    rt: &(impl Print + Eprint),
    number: usize,
    line: &str,
    found: Result<Option<T>, E>,
) -> anyhow::Result<Option<T>>
    ensures { IfOk result (λ said. found ≡ Ok said) }
{
    match found {
        Ok(Some(said)) => {
            println!(rt; "{number}: {line}")?;
            Ok(Some(said))
        }
        Ok(None) => Ok(None),
        Err(why) => {
            eprintln!(rt; "line {number}: {why}: {line}")?;
            Err(anyhow!("a line cannot be read"))
        }
    }
}

#[cfg(test)]
mod tests {
    use super::*;

    #[test]
    fn announces_a_line(rt: HostRuntime) {
        let said: Result<Option<u8>, &str> = Ok(Some(3));
        let found = announce(&rt, 1, "cut 3", said);
        assert!(rt; matches!(found, Ok(Some(3))));
        let nothing: Result<Option<u8>, &str> = Ok(None);
        assert!(rt; matches!(announce(&rt, 2, "", nothing), Ok(None)));
        let unread: Result<Option<u8>, &str> = Err("not a call");
        assert!(rt; announce(&rt, 3, "cot 3", unread).is_err());
    }
}
