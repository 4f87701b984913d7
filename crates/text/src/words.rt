// The words of a line.
ghost use Rattle.std.specs.Prelude.{◌≡◌};
ghost use Rattle.std.specs.Iterator.{YieldsFirstRef, item_count};
ghost use Rattle.std.specs.Option.{option_map};
ghost use Rattle.text.specs.Words.{blank, text_of, first_word, past_word, name_of, words};

fn is_blank(b: u8) -> bool
    ensures { result ≡ blank b }
{
    matches!(b, b' ' | b'\t' | b'\r')
}

// The line without its remark.
pub fn text_of(line: &[u8]) -> &[u8]
    ensures { result.now ≡ text_of line.now }
{
    let len = line.iter().take_while(|b| **b != b'#').count();
    &line[..len]
}

// The first word, which is empty where there is none, and what stands behind it.
pub fn next_word(text: &[u8]) -> (&[u8], &[u8])
    ensures word { result.0.now ≡ first_word text.now }
    ensures rest { result.1.now ≡ past_word text.now }
{
    let gap = text.iter().take_while(|b| is_blank(**b)).count();
    let (_, rest) = text.split_at(gap);
    let len = rest.iter().take_while(|b| !is_blank(**b)).count();
    rest.split_at(len)
}

// The first word of a line, and what stands behind it in the line's text, if there is a word.
pub fn split_name(line: &[u8]) -> Option<(&[u8], &[u8])>
    ensures { option_map (λ p. (p.0.now, p.1.now)) result ≡ name_of line.now }
{
    let (name, rest) = next_word(text_of(line));
    if name.is_empty() {
        return None;
    }
    Some((name, rest))
}

// The words of a text, from the first on.
#[derive(Drop)]
pub struct Words<'a>(pub &'a [u8]);

impl<'a> Iterator for Words<'a> {
    type Item = &'a [u8];

    ghost next_gives = { YieldsFirstRef (λ s. words s.0.now) };

    ghost remaining = { item_count (λ s. words s.0.now) };

    #[tactic(auto, using(crate::proofs::Listed::words_more))]
    fn next(&mut self) -> Option<&'a [u8]> {
        let (word, rest) = next_word(self.0);
        if word.is_empty() {
            return None;
        }
        self.0 = rest;
        Some(word)
    }
}

#[cfg(test)]
mod tests {
    use super::*;

    #[test]
    fn goes_over_words(rt: HostRuntime) {
        let mut words = Words(b"\trun  00 1\r");
        assert_eq!(rt; words.next(), Some(b"run".as_slice()));
        assert_eq!(rt; words.next(), Some(b"00".as_slice()));
        assert_eq!(rt; words.count(), 1);
    }
}
