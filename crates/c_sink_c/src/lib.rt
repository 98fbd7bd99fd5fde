// The sink's calls as C and Rust link them. Each is the function of its name in `c_sink`.
// They stand twice, since what C links has to be exported by the static library itself.
#![tactic(auto)]

ghost use Rattle.std.specs.Prelude.{◌≡◌};
ghost use Rattle.gmp_sink.specs.Sink.{new_sink};
ghost use Rattle.c_settings.specs.Numbers.{settings_from};
ghost use Rattle.c_sink_numbers.specs.Numbers.{state_numbers, InterfacePromise};

use c_settings::SettingsNumbers;
use c_sink_numbers::{SinkNumbers, SinkReply};
use gmp_payload_type::Expected;

#[unsafe(no_mangle)]
pub extern "C" fn odu0_sink_new() -> SinkNumbers
    ensures { result ≡ state_numbers new_sink }
{
    c_sink::odu0_sink_new()
}

#[unsafe(no_mangle)]
pub extern "C" fn odu0_sink_call(
    settings: SettingsNumbers,
    state: SinkNumbers,
    expected: Expected,
    frame: &[u8],
    out: &mut [u8],
    port: u32,
    tallies: &mut [u32; 24],
) -> SinkReply
    ensures { InterfacePromise (settings_from settings) state expected frame.now out.old port tallies.old result out.new tallies.new }
{
    c_sink::odu0_sink_call(settings, state, expected, frame, out, port, tallies)
}
