// Why a call of the sink is turned back, or that it is not.
#![tactic(auto)]

ghost use Rattle.std.specs.Prelude.{◌≡◌};
ghost use Rattle.gmp_refusal.specs.Refusal.{verdict_number};
ghost use Rattle.gmp_sink.specs.Sink.{sink_refusal};

use gmp_refusal::Refusal;
use gmp_settings::Settings;

// Numbers 1, 2, 8, 9, 10 and 14, for a frame and an output buffer of these lengths and this port.
#[tactic(auto, unfolding(gmp_sink::specs::Sink::sink_refusal))]
pub fn judge_call(
    settings: Settings,
    frame_length: usize,
    space: usize,
    port: u32,
) -> Result<(), Refusal>
    ensures { verdict_number result ≡ sink_refusal settings frame_length space port }
{
    let fit = gmp_settings_judge::judge_grid_and_window(settings);
    let length = gmp_settings_judge::frame_length(settings);
    let too_short = space < settings.hi as usize;
    let bad_port = ports::is_bad_port(port);
    let bad_patterns = gmp_settings_judge::is_bad_patterns(settings);
    let frame = gmp_refusal::refuse_if(fit, frame_length != length, Refusal::Frame);
    let out = gmp_refusal::refuse_if(frame, too_short, Refusal::Space);
    let named = gmp_refusal::refuse_if(out, bad_port, Refusal::Port);
    gmp_refusal::refuse_if(named, bad_patterns, Refusal::Patterns)
}
