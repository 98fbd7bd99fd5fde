// The rate keeper's calls: the remainder to begin with, and the count of the next frame.
#![tactic(auto)]

ghost use Rattle.std.specs.Prelude.{◌≡◌, ◌/◌};
ghost use Rattle.gmp_refusal.specs.Refusal.{verdict_number};
ghost use Rattle.gmp_keeper.specs.Keeper.{bad_divisor, bad_rate, keeper_refusal, result_meaning, keeper_call, first_remainder};

use gmp_keeper::KeeperResult;
use gmp_refusal::Refusal;
use gmp_settings::Settings;

// The remainder of a new keeper with the divisor q: half of q, rounded down, so that its total is
// rounded to the nearest.
pub fn first_remainder(q: u32) -> u32
    ensures { result ≡ first_remainder q }
{
    q / 2
}

// The next count at the rate p / q from the remainder r. A refused call returns the remainder that
// it was given. p and q stand apart, as in the paper and in the theorem `ContractsPromise`.
#[tactic(auto, using(gmp_refusal::proofs::Laws::refused_has_number, gmp_keeper::proofs::Laws::accepted_knows, gmp_keeper::proofs::Laws::total_lt, gmp_keeper::proofs::Laws::call_accepted, gmp_keeper::proofs::Laws::call_refused))]
pub fn next_count(settings: Settings, p: u32, q: u32, r: u32) -> KeeperResult
    ensures { result_meaning result ≡ keeper_call settings p q r }
{
    if let Err(refusal) = judge_call(settings, p, q, r) {
        return KeeperResult {
            answer: Err(refusal),
            remainder: r,
        };
    }
    let total = r + p;
    KeeperResult {
        answer: Ok(total / q),
        remainder: total % q,
    }
}

// Numbers 1 to 5 and 14, in ascending order.
#[tactic(auto, unfolding(gmp_keeper::specs::Keeper::keeper_refusal))]
fn judge_call(settings: Settings, p: u32, q: u32, r: u32) -> Result<(), Refusal>
    ensures { verdict_number result ≡ keeper_refusal settings p q r }
{
    let fit = gmp_settings_judge::judge_grid_and_window(settings);
    let divisor = gmp_refusal::refuse_if(fit, is_bad_divisor(q), Refusal::Divisor);
    let rate = gmp_refusal::refuse_if(divisor, is_bad_rate(settings, p, q), Refusal::Rate);
    let state = gmp_refusal::refuse_if(rate, q <= r, Refusal::State);
    let bad_patterns = gmp_settings_judge::is_bad_patterns(settings);
    gmp_refusal::refuse_if(state, bad_patterns, Refusal::Patterns)
}

// Number 3: q is 0 or above 65,535.
fn is_bad_divisor(q: u32) -> bool
    ensures { result ≡ bad_divisor q }
{
    q == 0 || 65535 < q
}

// Number 4: the whole part of p / q is below lo, or p is above hi times q.
fn is_bad_rate(settings: Settings, p: u32, q: u32) -> bool
    ensures { result ≡ bad_rate settings p q }
{
    whole_part(p, q) < settings.lo || (settings.hi as u64) * (q as u64) < p as u64
}

// The whole part of p / q; 0 where q is 0.
fn whole_part(p: u32, q: u32) -> u32
    ensures { result ≡ p / q }
{
    p.checked_div(q).unwrap_or(0)
}
