// A call that puts bytes into a container of shared chunks, or takes them out, with what it is given. It is a value, since
// lists of calls are read, and the laws speak of them.
#[derive(Clone, Copy, PartialEq, Eq, Debug)]
pub enum Call<K> {
    Append(K),
    Prepend(K),
    Advance(usize),
    SplitTo(usize),
    CopyToBytes(usize),
}
