// Calls as lines of text.
ghost use Rattle.std.specs.Prelude.{◌≡◌, vec_items};
ghost use Rattle.std.specs.Option.{option_map};
ghost use Rattle.container_text.specs.Lines.{last_chunk, chunks_of, named, spoken, spoken_as, line_of, Reads};
ghost use Rattle.text.specs.Words.{words};

use crate::chunks::{Spelled, chunk_word};
use container_calls::call::Call;
use std::alloc::Global;
use text::arguments::{alone, last_number};
pub use text::unreadable::Unreadable;
use text::words::{Words, next_word, split_name};

// What a line says.
#[derive(PartialEq, Eq, Debug, Drop)]
pub enum Line {
    // The container is filled with these chunks.
    FromChunks(Vec<Spelled>),
    Call(Call<Spelled>),
}

// The chunk that is the only word of what stands behind a call's name. It stays beside `last_number`: a trait for the
// two types that a word can be read as would be longer than both.
fn last_chunk(text: &[u8]) -> Result<Spelled, Unreadable>
    ensures { result ≡ last_chunk text.now }
{
    let (word, rest) = next_word(text);
    let chunk = chunk_word(word).ok_or(Unreadable::NoChunk)?;
    alone(chunk, rest)
}

// The chunks that the words of a text write.
fn chunk_list(heap: Global, text: &[u8]) -> Result<Vec<Spelled>, Unreadable>
    ensures { Reads vec_items result (chunks_of (words text.now)) }
{
    let mut chunks = Vec::new(heap);
    for word in Words(text) {
        let chunk = chunk_word(word).ok_or(Unreadable::NoChunk)?;
        chunks.push(chunk)?;
    }
    Ok(chunks)
}

// The call of that name, with what it is given from `rest`.
#[tactic(auto, using(crate::proofs::Names::unknown))]
fn call_named(name: &[u8], rest: &[u8]) -> Result<Call<Spelled>, Unreadable>
    ensures { result ≡ named name.now rest.now }
{
    match name {
        b"append" => last_chunk(rest).map(Call::Append),
        b"prepend" => last_chunk(rest).map(Call::Prepend),
        b"advance" => last_number(rest).map(Call::Advance),
        b"split_to" => last_number(rest).map(Call::SplitTo),
        b"copy_to_bytes" => last_number(rest).map(Call::CopyToBytes),
        _ => Err(Unreadable::UnknownCall),
    }
}

// What is said under that name, with what stands behind it.
fn line_named(heap: Global, name: &[u8], rest: &[u8]) -> Result<Line, Unreadable>
    ensures { Reads spoken result (spoken_as name.now rest.now) }
{
    if name == b"from_chunks".as_slice() {
        chunk_list(heap, rest).map(Line::FromChunks)
    } else {
        call_named(name, rest).map(Line::Call)
    }
}

// What a line says, if it has a word at all. The words are judged in their order.
pub fn read_line(heap: Global, line: &[u8]) -> Result<Option<Line>, Unreadable>
    ensures { Reads (option_map spoken) result (line_of line.now) }
{
    match split_name(line) {
        Some((name, rest)) => line_named(heap, name, rest).map(Some),
        None => Ok(None),
    }
}

#[cfg(test)]
mod tests {
    use super::*;
    use std::test::Fail;

    #[test]
    fn reads_calls(rt: HostRuntime) {
        let heap = rt.alloc();
        let page = Spelled {
            byte: 255,
            count: 12,
        };
        let append = Line::Call(Call::Append(page));
        assert_eq!(rt;
            read_line(heap, b"\t append fFx012 # a page\r"),
            Ok(Some(append))
        );
        let prepend = Line::Call(Call::Prepend(page));
        assert_eq!(rt; read_line(heap, b"prepend FFx12"), Ok(Some(prepend)));
        let most = Line::Call(Call::CopyToBytes(usize::MAX));
        assert_eq!(rt;
            read_line(heap, b"copy_to_bytes 18446744073709551615"),
            Ok(Some(most))
        );
        let split_to = Line::Call(Call::SplitTo(3));
        assert_eq!(rt; read_line(heap, b"split_to 3"), Ok(Some(split_to)));
        let advance = Line::Call(Call::Advance(0));
        assert_eq!(rt; read_line(heap, b"advance 0#"), Ok(Some(advance)));
        assert_eq!(rt; read_line(heap, b"# advance 1"), Ok(None));
    }

    #[test]
    fn reads_chunks(rt: HostRuntime) -> Result<(), Fail> {
        let heap = rt.alloc();
        let none = Line::FromChunks(Vec::new(heap));
        assert_eq!(rt; read_line(heap, b"from_chunks"), Ok(Some(none)));
        let great = Spelled { byte: 1, count: 16 };
        let swell = Spelled { byte: 2, count: 0 };
        let both = Line::FromChunks(vec![in heap; great, swell]?);
        assert_eq!(rt; read_line(heap, b"from_chunks 01x16 02x0"), Ok(Some(both)));
        assert_eq!(rt;
            read_line(heap, b"from_chunks 01x16 2x0"),
            Err(Unreadable::NoChunk)
        );
        Ok(())
    }

    #[test]
    fn refuses_other_lines(rt: HostRuntime) {
        let heap = rt.alloc();
        assert_eq!(rt; read_line(heap, b"cut 3"), Err(Unreadable::UnknownCall));
        assert_eq!(rt; read_line(heap, b"append"), Err(Unreadable::NoChunk));
        assert_eq!(rt; read_line(heap, b"append 00X1"), Err(Unreadable::NoChunk));
        assert_eq!(rt; read_line(heap, b"append 0gx1"), Err(Unreadable::NoChunk));
        assert_eq!(rt; read_line(heap, b"prepend 00x"), Err(Unreadable::NoChunk));
        assert_eq!(rt; read_line(heap, b"split_to +3"), Err(Unreadable::NoNumber));
        assert_eq!(rt; read_line(heap, b"split_to # 3"), Err(Unreadable::NoNumber));
        assert_eq!(rt;
            read_line(heap, b"advance 18446744073709551616"),
            Err(Unreadable::NoNumber)
        );
        assert_eq!(rt; read_line(heap, b"advance 3 4"), Err(Unreadable::TooMuch));
    }
}
