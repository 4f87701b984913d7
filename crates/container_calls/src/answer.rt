use store::fault::Fault;

// What a call answered: how many bytes it copied out, if it is one that copies, or why it was refused. What it handed
// out stands in its target, or in its output.
pub type Answer = Result<Option<usize>, Fault>;
