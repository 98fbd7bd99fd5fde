// The sink's call with the tallies of the card's ports, lent to it where the caller keeps them, and
// for a caller that keeps them by value.
#![tactic(auto)]

ghost use Rattle.card_promise.specs.Card.{CardPromise};

use card_count::Counted;
use card_tally::Tallies;
use gmp_payload_type::Expected;
use gmp_settings::Settings;
use gmp_sink::{SinkResult, SinkState};

// One call of the sink of a port. The tallies are changed where the caller keeps them: by an
// accepted call only, and then in the numbers of its own port only.
pub fn sink_call(
    settings: Settings,
    state: SinkState,
    expected: Expected,
    frame: &[u8],
    out: &mut [u8],
    port: u32,
    tallies: &mut Tallies,
) -> SinkResult
    ensures { CardPromise settings state expected frame.now out.old port tallies.old result out.new tallies.new }
{
    let counted = card_count::count_call(settings, state, expected, frame, out, port, *tallies);
    *tallies = counted.tallies;
    counted.result
}

// The same for a caller that keeps its tallies by value: they are lent to `sink_call` and taken
// back.
pub fn lend_call(
    settings: Settings,
    state: SinkState,
    expected: Expected,
    frame: &[u8],
    out: &mut [u8],
    port: u32,
    tallies: Tallies,
) -> Counted
    ensures { CardPromise settings state expected frame.now out.old port tallies result.result out.new result.tallies }
{
    let mut kept = tallies;
    let result = sink_call(settings, state, expected, frame, out, port, &mut kept);
    Counted {
        result: result,
        tallies: kept,
    }
}
