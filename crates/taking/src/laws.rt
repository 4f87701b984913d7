ghost use Rattle.rules.specs.Laws.{TakenTogether};
ghost use Rattle.rules.specs.Taking.{left_after, left_after_copy};
ghost use Rattle.taking.specs.Laws.{AdvanceLaw, CopyLaw};

use iobuf::chunk::Chunk;

// These functions do nothing. Their contracts name the laws, so that the check asks for the proofs.

fn advance_law<K: Chunk>()
    ensures { AdvanceLaw K.Chunk }
{}

fn copy_law<K: Chunk>()
    ensures { CopyLaw K.Chunk }
{}

// Of chunks without tails, taking m and then n leaves the same chunks as taking m + n.
fn together_law()
    ensures advance { TakenTogether left_after left_after left_after }
    ensures copy { TakenTogether left_after_copy left_after_copy left_after_copy }
{}
