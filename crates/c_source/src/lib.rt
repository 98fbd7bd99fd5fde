// The source for C and Rust: numbers and buffers in, numbers out. All meaning is in the crates
// below; here values are only converted.
#![tactic(auto)]

ghost use Rattle.std.specs.Prelude.{◌≡◌};
ghost use Rattle.gmp_source.specs.Source.{new_source, start_meaning, source_frame};
ghost use Rattle.c_settings.specs.Numbers.{settings_from};
ghost use Rattle.c_source.specs.Numbers.{start_reply, source_reply};

use c_settings::SettingsNumbers;
use gmp_refusal::Refusal;
use gmp_source::SourceState;

// The refusal's number or 0, and the source's state. A number, and no Result, since C reads this
// struct.
#[repr(C)]
#[derive(Clone, Copy)]
pub struct SourceReply {
    pub refusal: u32,
    pub state: SourceState,
}

pub fn odu0_source_new(settings: SettingsNumbers, first: u32, payload_type: u8) -> SourceReply
    ensures { result ≡ start_reply (new_source (settings_from settings) first payload_type) }
{
    let card = c_settings::settings_from(settings);
    start_reply(gmp_source::new_source(card, first, payload_type))
}

pub fn odu0_source_call(
    settings: SettingsNumbers,
    state: SourceState,
    next: u32,
    client: &[u8],
    frame: &mut [u8],
) -> SourceReply
    ensures { (result ≡ source_reply (settings_from settings) state next client.now frame.old)
        × (frame.new ≡ source_frame (settings_from settings) state next client.now frame.old) }
{
    let card = c_settings::settings_from(settings);
    let result = gmp_source_call::source_call(card, state, next, client, frame);
    SourceReply {
        refusal: gmp_refusal::refusal_number(result.answer),
        state: result.state,
    }
}

fn start_reply(start: Result<SourceState, Refusal>) -> SourceReply
    ensures { result ≡ start_reply (start_meaning start) }
{
    match start {
        Ok(state) => SourceReply { refusal: 0, state },
        Err(refusal) => SourceReply {
            refusal: gmp_refusal::refusal_number(Err(refusal)),
            state: SourceState {
                count: 0,
                multiframe: 0,
                payload_type: 0,
            },
        },
    }
}
