// That calls which keep their contracts make the runs that the claims are about, that such lists of
// calls there are, and what they tell, each as the contract of a function with an empty body; and
// that the calls of source and sink do keep them, as contracts of functions that make one call.
#![tactic(auto)]

ghost use Rattle.std.specs.Prelude.{◌≡◌};
ghost use Rattle.gmp_source.specs.Source.{SourcePromise, start_meaning, new_source};
ghost use Rattle.gmp_sink.specs.Sink.{new_sink};
ghost use Rattle.card_promise.specs.Card.{CardPromise};
ghost use Rattle.claim_calls.specs.Observed.{AsDefined};
ghost use Rattle.claim_calls.specs.Worked.{WorkedSeen};

use card_count::Counted;
use card_tally::Tallies;
use gmp_payload_type::Expected;
use gmp_refusal::Refusal;
use gmp_settings::Settings;
use gmp_sink::{SinkResult, SinkState};
use gmp_source::{SourceResult, SourceState};

// What is known of a call of the source is the promise of its contract: `SourceSeen.kept` is that.
// Functions that look alike stand here and in the other claims: each holds its promise to a call of
// its own.
pub fn source_call_kept(
    settings: Settings,
    state: SourceState,
    next: u32,
    client: &[u8],
    frame: &mut [u8],
) -> SourceResult
    ensures { SourcePromise settings state next client.now frame.old result frame.new }
{
    gmp_source_call::source_call(settings, state, next, client, frame)
}

// A run begins with the source that `new_source` made
pub fn new_source_kept(
    settings: Settings,
    first: u32,
    payload_type: u8,
) -> Result<SourceState, Refusal>
    ensures { start_meaning result ≡ new_source settings first payload_type }
{
    gmp_source::new_source(settings, first, payload_type)
}

// and the sink that `new_sink` made.
pub fn new_sink_kept() -> SinkState
    ensures { result ≡ new_sink }
{
    gmp_sink::new_sink()
}

// What is known of a call of a sink that is lent the card's tallies: `SinkSeen.kept` is that,
pub fn sink_call_kept(
    settings: Settings,
    state: SinkState,
    expected: Expected,
    frame: &[u8],
    out: &mut [u8],
    port: u32,
    tallies: &mut Tallies,
) -> SinkResult
    ensures { CardPromise settings state expected frame.now out.old port tallies.old result out.new tallies.new }
{
    card_sink::sink_call(settings, state, expected, frame, out, port, tallies)
}

// and the same of those that have the tallies by value.
pub fn count_call_kept(
    settings: Settings,
    state: SinkState,
    expected: Expected,
    frame: &[u8],
    out: &mut [u8],
    port: u32,
    tallies: Tallies,
) -> Counted
    ensures { CardPromise settings state expected frame.now out.old port tallies result.result out.new result.tallies }
{
    card_count::count_call(settings, state, expected, frame, out, port, tallies)
}

pub fn lend_call_kept(
    settings: Settings,
    state: SinkState,
    expected: Expected,
    frame: &[u8],
    out: &mut [u8],
    port: u32,
    tallies: Tallies,
) -> Counted
    ensures { CardPromise settings state expected frame.now out.old port tallies result.result out.new result.tallies }
{
    card_sink::lend_call(settings, state, expected, frame, out, port, tallies)
}

// Calls that keep their contracts, one after the other, make the runs that the claims are about.
pub fn runs_as_defined()
    ensures { AsDefined }
{}

// Worked calls of a source and of two sinks of a card, refused ones among them; and how many bytes
// such calls say to hand out, whichever they are.
pub fn worked_calls()
    ensures { WorkedSeen }
{}
