// That calls of the rate keeper which keep their contracts give counts that add up, to the nearest
// whole number, and that such calls there are, each as the contract of a function with an empty
// body; and that the keeper's calls do keep them, as contracts of functions that make one call.
#![tactic(auto)]

ghost use Rattle.std.specs.Prelude.{◌≡◌};
ghost use Rattle.gmp_keeper.specs.Keeper.{result_meaning, keeper_call, first_remainder};
ghost use Rattle.claim_keeper.specs.Observed.{ObservedCounts};
ghost use Rattle.claim_keeper.specs.Worked.{WorkedCalls};

use gmp_keeper::KeeperResult;
use gmp_settings::Settings;

// What is known of a call is the promise of its contract: `KeeperSeen.kept` is that. Functions that
// look alike stand here and in the other claims: each holds its promise to a call of its own.
pub fn next_count_kept(settings: Settings, p: u32, q: u32, remainder: u32) -> KeeperResult
    ensures { result_meaning result ≡ keeper_call settings p q remainder }
{
    gmp_keeper_call::next_count(settings, p, q, remainder)
}

// And of what a new keeper begins with.
pub fn first_remainder_kept(q: u32) -> u32
    ensures { result ≡ first_remainder q }
{
    gmp_keeper_call::first_remainder(q)
}

// Calls of `next_count` that keep its contract, each with the remainder that the one before it
// returned, give counts that add up; from what `first_remainder` returns on, to the whole number
// nearest to the rate's total, exact halves going up. Refused calls may stand among them, and the
// accepted ones share p and q.
#[tactic(auto, using(crate::proofs::Observed::observed_counts))]
pub fn observed_counts_add_up()
    ensures { ObservedCounts }
{}

// Worked calls of a new keeper at the gigabit client's rate, a refused one among them.
#[tactic(auto, using(crate::proofs::Worked::worked_calls))]
pub fn worked_calls()
    ensures { WorkedCalls }
{}
