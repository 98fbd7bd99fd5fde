// Moves a part of a block to its front.
#![tactic(auto)]

ghost use Rattle.program_keep.specs.Keep.{Keeps};

// Moves what a block has from place `at` up to place `end` to its front, and gives the number. Of
// places outside the block nothing moves.
pub fn keep(block: &mut [u8], at: usize, end: usize) -> usize
    ensures { Keeps block.old at end result block.new }
{
    let end = end.min(block.len());
    let at = at.min(end);
    block.copy_within(at..end, 0);
    end - at
}
