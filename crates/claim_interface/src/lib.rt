// What a caller of the C interface sees are the runs that the claims are about, of source, sink,
// tallies and keeper, as the contract of a function with an empty body; and that the calls of the
// interface keep their contracts, as contracts of functions that make one call.
#![tactic(auto)]

ghost use Rattle.std.specs.Prelude.{◌≡◌};
ghost use Rattle.gmp_keeper.specs.Keeper.{keeper_call, first_remainder};
ghost use Rattle.gmp_source.specs.Source.{new_source, source_frame};
ghost use Rattle.gmp_sink.specs.Sink.{new_sink};
ghost use Rattle.c_settings.specs.Numbers.{settings_from};
ghost use Rattle.c_source.specs.Numbers.{start_reply, source_reply};
ghost use Rattle.c_keeper.specs.Numbers.{keeper_reply};
ghost use Rattle.c_sink_numbers.specs.Numbers.{state_numbers, InterfacePromise};
ghost use Rattle.claim_interface.specs.Observed.{AsClaimed};

use c_keeper::KeeperReply;
use c_settings::SettingsNumbers;
use c_sink_numbers::{SinkNumbers, SinkReply};
use c_source::SourceReply;
use gmp_payload_type::Expected;
use gmp_source::SourceState;

// What is known of a call is the promise of its contract, and what a run begins with is what these
// contracts say. Functions that look alike stand here and in the other claims: each holds its
// promise to a call of its own. They are of the source,
pub fn source_new_kept(settings: SettingsNumbers, first: u32, payload_type: u8) -> SourceReply
    ensures { result ≡ start_reply (new_source (settings_from settings) first payload_type) }
{
    c_source::odu0_source_new(settings, first, payload_type)
}

pub fn source_call_kept(
    settings: SettingsNumbers,
    state: SourceState,
    next: u32,
    client: &[u8],
    frame: &mut [u8],
) -> SourceReply
    ensures { (result ≡ source_reply (settings_from settings) state next client.now frame.old)
        × (frame.new ≡ source_frame (settings_from settings) state next client.now frame.old) }
{
    c_source::odu0_source_call(settings, state, next, client, frame)
}

// of the sink,
pub fn sink_new_kept() -> SinkNumbers
    ensures { result ≡ state_numbers new_sink }
{
    c_sink::odu0_sink_new()
}

pub fn sink_call_kept(
    settings: SettingsNumbers,
    state: SinkNumbers,
    expected: Expected,
    frame: &[u8],
    out: &mut [u8],
    port: u32,
    tallies: &mut [u32; 24],
) -> SinkReply
    ensures { InterfacePromise (settings_from settings) state expected frame.now out.old port tallies.old result out.new tallies.new }
{
    c_sink::odu0_sink_call(settings, state, expected, frame, out, port, tallies)
}

// and of the keeper.
pub fn keeper_new_kept(q: u32) -> u32
    ensures { result ≡ first_remainder q }
{
    c_keeper::odu0_keeper_new(q)
}

pub fn keeper_call_kept(settings: SettingsNumbers, p: u32, q: u32, remainder: u32) -> KeeperReply
    ensures { result ≡ keeper_reply (keeper_call (settings_from settings) p q remainder) }
{
    c_keeper::odu0_keeper_call(settings, p, q, remainder)
}

// Calls of these functions, one after the other, make the runs that the claims are about, and each
// list of calls can be made.
pub fn as_claimed()
    ensures { AsClaimed }
{}
