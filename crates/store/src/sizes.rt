// How many bytes a store has, and a chunk at most.
pub const STORE_SIZE: usize = 16384;

// How many chunks a container keeps at most.
pub const CHUNK_LIMIT: usize = 64;
