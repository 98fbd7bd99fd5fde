// Demand 3, of two sinks as 01 has it, the recovery of one alone, that 768 frames hold three
// numbered 0, that one wrong control bit costs nothing where it is mended, that with the type check
// on a new sink hands out only while the last type of three frames numbered 0 running, taken with
// it on, is the expected one, and the sum of each port's tally and the card's total, each as the
// contract of a function with an empty body.
#![tactic(auto)]

ghost use Rattle.claim_recovery.specs.Demand.{Demand3, RecoveryAlone, ThreeCome};
ghost use Rattle.claim_recovery.specs.Mended.{CostsNothing, SinksOwn};
ghost use Rattle.claim_recovery.specs.Swapped.{OnlyExpectedType};
ghost use Rattle.claim_recovery.specs.Tallied.{TallySums};

// Two unharmed frames find the count from any state, and with it the bytes. Where the payload type
// is checked, and each call is told the frame's own number and the source's type as the expected
// one, the bytes come behind the third frame numbered 0 at the latest. Up to three wrong control
// bits a frame, or two where mending is on, give no false count.
#[tactic(auto, using(crate::proofs::Claims::demand))]
pub fn demand_3()
    ensures { Demand3 }
{}

// Two unharmed frames bring one sink back from any state, with no second sink beside it.
pub fn recovers_alone()
    ensures { RecoveryAlone }
{}

// Any 768 frames in succession hold three numbered 0.
pub fn three_come()
    ensures { ThreeCome }
{}

// With mending on, a sink that holds the source's count keeps it and delivers each frame with at
// most one wrong control bit, its other bytes unharmed; one in any state does so after two such
// frames. Where the payload type is checked too, its bytes come as they do by unharmed frames.
#[tactic(auto, using(crate::proofs::Claims::costs_nothing))]
pub fn mending_costs_nothing()
    ensures { CostsNothing }
{}

// Sources do not look at mending or at the type check, so the claims hold of a sink that mends or
// checks behind a source whose settings say nothing of it.
#[tactic(auto, using(crate::proofs::Flagged::sinks_own))]
pub fn flags_are_the_sinks()
    ensures { SinksOwn }
{}

// With the type check on, a new sink hands out a byte of a frame only where the last type that
// three frames numbered 0 running had, as it took them with the type check on before, is the
// expected one.
#[tactic(auto, using(crate::proofs::Swapped::only_expected_type))]
pub fn only_expected_type()
    ensures { OnlyExpectedType }
{}

// Each port's tally is the sum over the accepted calls that named it, of all sinks of a card, and
// the card's total is the sum of the eight.
#[tactic(auto, using(crate::proofs::Tallied::tally_sums))]
pub fn tally_sums()
    ensures { TallySums }
{}
