// The rate keeper: from a rate p / q of client bytes a frame it gives the count of each frame, and
// keeps the remainder; its counts add up, the total of a new one is nearest to the rate's, and the
// numbers of its refusals ascend. Its calls are in the crate gmp_keeper_call.
#![tactic(auto)]

ghost use Rattle.gmp_keeper.specs.Keeper.{NumbersAscend};
ghost use Rattle.gmp_keeper.specs.Sum.{CountsAddUp};
ghost use Rattle.gmp_keeper.specs.Nearest.{TotalsAreNearest};

use gmp_refusal::Refusal;

// The answer, and the remainder to go on from.
#[derive(Clone, Copy)]
pub struct KeeperResult {
    pub answer: Result<u32, Refusal>,
    pub remainder: u32,
}

// A call is turned back by the lowest number that applies.
#[tactic(auto, using(crate::proofs::Laws::numbers_ascend))]
pub fn numbers_ascend()
    ensures { NumbersAscend }
{}

// The counts of a keeper add up, from any remainder below q and of a new keeper to the rounded
// total, and each lies in the window. So it is over every list of calls, refused ones among them,
// in which each gets the remainder that the call before it returned and the accepted ones share p
// and q.
#[tactic(auto, using(crate::proofs::Sum::counts_add_up))]
pub fn counts_add_up()
    ensures { CountsAddUp }
{}

// The first t counts of a new keeper add up, over such a list and for every q from 1 on, to the
// whole number nearest to t times p / q, exact halves going up, and no other number is nearest.
#[tactic(auto, using(crate::proofs::Sum::totals_are_nearest))]
pub fn totals_are_nearest()
    ensures { TotalsAreNearest }
{}
