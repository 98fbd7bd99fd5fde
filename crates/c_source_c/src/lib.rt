// The source's calls as C and Rust link them. Each is the function of its name in `c_source`.
// They stand twice, since what C links has to be exported by the static library itself.
#![tactic(auto)]

ghost use Rattle.std.specs.Prelude.{◌≡◌};
ghost use Rattle.gmp_source.specs.Source.{new_source, source_frame};
ghost use Rattle.c_settings.specs.Numbers.{settings_from};
ghost use Rattle.c_source.specs.Numbers.{start_reply, source_reply};

use c_settings::SettingsNumbers;
use c_source::SourceReply;
use gmp_source::SourceState;

#[unsafe(no_mangle)]
pub extern "C" fn odu0_source_new(
    settings: SettingsNumbers,
    first: u32,
    payload_type: u8,
) -> SourceReply
    ensures { result ≡ start_reply (new_source (settings_from settings) first payload_type) }
{
    c_source::odu0_source_new(settings, first, payload_type)
}

#[unsafe(no_mangle)]
pub extern "C" fn odu0_source_call(
    settings: SettingsNumbers,
    state: SourceState,
    next: u32,
    client: &[u8],
    frame: &mut [u8],
) -> SourceReply
    ensures { (result ≡ source_reply (settings_from settings) state next client.now frame.old)
        × (frame.new ≡ source_frame (settings_from settings) state next client.now frame.old) }
{
    c_source::odu0_source_call(settings, state, next, client, frame)
}
