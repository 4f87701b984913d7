// The form of a container, which says how bytes are taken from it.
#[derive(Clone, Copy)]
pub enum Form {
    // One chunk, or none.
    One,
    // Two or three.
    Small,
    // Four or more.
    Many,
}
