// The source: its state, what it answers, that the numbers of its refusals ascend, and a new
// source. The call that writes a frame is in the crate gmp_source_call.
#![tactic(auto)]

ghost use Rattle.std.specs.Prelude.{◌≡◌};
ghost use Rattle.refusals.specs.Table.{lowest};
ghost use Rattle.gmp_refusal.specs.Refusal.{verdict_number};
ghost use Rattle.gmp_source.specs.Source.{state_reasons, start_refusal, NumbersAscend, new_source, start_meaning};

use gmp_refusal::Refusal;
use gmp_settings::Settings;

// The present count, the multiframe number and the payload type.
#[repr(C)]
#[derive(Clone, Copy)]
pub struct SourceState {
    pub count: u32,
    pub multiframe: u32,
    pub payload_type: u8,
}

// Whether the call was accepted, and the state to go on from.
#[derive(Clone, Copy)]
pub struct SourceResult {
    pub answer: Result<(), Refusal>,
    pub state: SourceState,
}

// A new source with this first count and this payload type.
#[tactic(auto, unfolding(crate::specs::Source::new_source))]
pub fn new_source(settings: Settings, first: u32, payload_type: u8) -> Result<SourceState, Refusal>
    ensures { start_meaning result ≡ new_source settings first payload_type }
{
    judge_start(settings, first)?;
    Ok(SourceState {
        count: first,
        multiframe: 0,
        payload_type,
    })
}

// A new source is refused, and a call is turned back, by the lowest number that applies.
#[tactic(auto, using(crate::proofs::Laws::numbers_ascend))]
pub fn numbers_ascend()
    ensures { NumbersAscend }
{}

// Numbers 1, 2, 5 and 14, for the first count of a new source.
#[tactic(auto, unfolding(crate::specs::Source::start_refusal))]
fn judge_start(settings: Settings, first: u32) -> Result<(), Refusal>
    ensures { verdict_number result ≡ start_refusal settings first }
{
    let state = judge_grid_window_and_state(settings, first);
    let bad_patterns = gmp_settings_judge::is_bad_patterns(settings);
    gmp_refusal::refuse_if(state, bad_patterns, Refusal::Patterns)
}

// Numbers 1, 2 and 5, for the first count of a new source or the present one of a call.
pub fn judge_grid_window_and_state(settings: Settings, count: u32) -> Result<(), Refusal>
    ensures { verdict_number result ≡ lowest (state_reasons settings count) }
{
    let fit = gmp_settings_judge::judge_grid_and_window(settings);
    let is_outside = gmp_settings_judge::is_outside(settings, count);
    gmp_refusal::refuse_if(fit, is_outside, Refusal::State)
}
