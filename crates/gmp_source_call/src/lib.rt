// The source's call: it maps client bytes into a frame and announces in it the count of the next.
#![tactic(auto)]

ghost use Rattle.std.specs.Prelude.{◌≡◌, length};
ghost use Rattle.gmp_refusal.specs.Refusal.{verdict_number};
ghost use Rattle.gmp_source.specs.Source.{source_refusal, psi, control_bytes, SourcePromise};

use gmp_frame::Control;
use gmp_refusal::Refusal;
use gmp_settings::Settings;
use gmp_source::{SourceResult, SourceState};

// Writes the next frame: the client bytes at the places of the present count, and the word that
// announces the next count. A refused call returns the state that it was given and leaves the
// buffer as it was.
pub fn source_call(
    settings: Settings,
    state: SourceState,
    next: u32,
    client: &[u8],
    buffer: &mut [u8],
) -> SourceResult
    ensures { SourcePromise settings state next client.now buffer.old result buffer.new }
{
    if let Err(refusal) = judge_call(settings, state, next, client.len(), buffer.len()) {
        return SourceResult {
            answer: Err(refusal),
            state,
        };
    }
    let control = control_bytes(settings, state.count, next);
    gmp_frame_write::write_frame(buffer, settings.k, client, control, psi_byte(state));
    SourceResult {
        answer: Ok(()),
        state: SourceState {
            count: next,
            multiframe: (state.multiframe % 256 + 1) % 256,
            payload_type: state.payload_type,
        },
    }
}

// Numbers 1, 2, 5, 6, 7, 8 and 14, for so many client bytes and a frame buffer of this length.
fn judge_call(
    settings: Settings,
    state: SourceState,
    next: u32,
    client_length: usize,
    frame_length: usize,
) -> Result<(), Refusal>
    ensures { verdict_number result ≡ source_refusal settings state next client_length frame_length }
{
    let present = state.count;
    let state = gmp_source::judge_grid_window_and_state(settings, present);
    let is_outside = gmp_settings_judge::is_outside(settings, next);
    let count = gmp_refusal::refuse_if(state, is_outside, Refusal::Count);
    let client = gmp_refusal::refuse_if(count, client_length != present as usize, Refusal::Client);
    let length = gmp_settings_judge::frame_length(settings);
    let frame = gmp_refusal::refuse_if(client, frame_length != length, Refusal::Frame);
    let bad_patterns = gmp_settings_judge::is_bad_patterns(settings);
    gmp_refusal::refuse_if(frame, bad_patterns, Refusal::Patterns)
}

// JC1 to JC3 of the word that announces the next count.
#[tactic(auto, unfolding(gmp_source::specs::Source::control_bytes))]
fn control_bytes(settings: Settings, old: u32, next: u32) -> Control
    ensures { result ≡ control_bytes settings old next }
{
    let word = gmp_control_write::announce(settings, old, next);
    let jc3 = gmp_crc8_read::remainder(word.jc1, word.jc2);
    Control {
        jc1: word.jc1,
        jc2: word.jc2,
        jc3: jc3,
    }
}

// The PSI byte: the payload type in frames numbered 0, else zero.
fn psi_byte(state: SourceState) -> u8
    ensures { result ≡ psi state }
{
    if state.multiframe % 256 == 0 {
        return state.payload_type;
    }
    0
}
