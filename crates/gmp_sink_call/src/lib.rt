// The sink's call without the tallies: it hands out the client bytes of a frame at the places of
// the count that it knew before, where the payload type lets them pass, and follows the control
// word and the type.
#![tactic(auto)]

ghost use Rattle.std.specs.Prelude.{length};
ghost use Rattle.gmp_sink.specs.Sink.{handed, released, SinkPromise};
ghost use Rattle.gmp_sink.proofs.Laws.{Accepted};
ghost use Rattle.gmp_sink_call.specs.Parts.{HandsOut, ReadsFrame, AcceptedPromise};

use gmp_payload_type::Expected;
use gmp_refusal::Refusal;
use gmp_settings::Settings;
use gmp_sink::{SinkResult, SinkState};
use gmp_standing::{Count, Standing};

// What a frame leads to: the answer, the state to go on from, and whether a wrong control bit was
// mended.
#[derive(Clone, Copy)]
struct FrameRead {
    answer: Result<Standing, Refusal>,
    state: SinkState,
    mended: bool,
}

// Takes a frame of this port, told its multiframe number and the payload type that is expected. A
// refused call returns the state that it was given and leaves the output buffer as it was. The
// arguments are those of the paper's call and of its definition, one by one: a struct made for the
// one call would be no plainer.
pub fn take_frame(
    settings: Settings,
    state: SinkState,
    expected: Expected,
    frame: &[u8],
    out: &mut [u8],
    port: u32,
) -> SinkResult
    ensures { SinkPromise settings state expected frame.now out.old port result out.new }
{
    if let Err(refusal) = gmp_sink_judge::judge_call(settings, frame.len(), out.len(), port) {
        return SinkResult {
            answer: Err(refusal),
            state,
            handed: 0,
            mended: false,
        };
    }
    take_accepted(settings, state, expected, frame, out)
}

// The same if nothing is refused, whatever the port. First the client bytes are handed out, by the
// count and the payload type that were known before the frame, and then the frame is read. That the
// lengths are accepted is said of three values that are lent apart, so no type can hold it.
fn take_accepted(
    settings: Settings,
    state: SinkState,
    expected: Expected,
    frame: &[u8],
    out: &mut [u8],
) -> SinkResult
    requires { Accepted settings (length frame.now) (length out.old) }
    ensures { AcceptedPromise settings state expected frame.now out.old result out.new }
{
    let handed = release(settings, state, expected, frame, out);
    let read = read_frame(settings, state, expected, frame);
    let answer = read.answer;
    let after = read.state;
    SinkResult {
        answer: answer,
        state: after,
        handed: handed,
        mended: read.mended,
    }
}

// Hands out the client bytes if the payload type lets them pass, and gives their number.
fn release(
    settings: Settings,
    state: SinkState,
    expected: Expected,
    frame: &[u8],
    out: &mut [u8],
) -> u32
    requires { Accepted settings (length frame.now) (length out.old) }
    ensures { HandsOut (released settings state expected frame.now) out.old result out.new }
{
    let before = state.types;
    let is_open = gmp_payload_type::gate_open(settings.type_check, before, expected);
    if is_open {
        return hand_out(settings, state, frame, out);
    }
    0
}

// Copies the client bytes at the places of a known count to the start of the output buffer, and
// gives their number.
fn hand_out(settings: Settings, state: SinkState, frame: &[u8], out: &mut [u8]) -> u32
    requires { Accepted settings (length frame.now) (length out.old) }
    ensures { HandsOut (handed settings state frame.now) out.old result out.new }
{
    let count = state.count;
    let known = gmp_standing::known_count(settings, count);
    let Count::Known(n) = known else {
        return 0;
    };
    gmp_frame_read::take_client(frame, settings.k, n, out);
    n
}

// Reads the control word of a frame, and then judges its PSI byte.
fn read_frame(settings: Settings, state: SinkState, expected: Expected, frame: &[u8]) -> FrameRead
    ensures { ReadsFrame settings state expected frame.now result.answer result.state result.mended }
{
    let control = gmp_frame::control_of(frame, settings.k);
    let control_read = gmp_sink_control::read_control(settings, state, control);
    let followed = control_read.followed;
    let standing = followed.standing;
    let count = followed.count;
    let word = followed.word;
    let psi = gmp_frame::psi_of(frame, settings.k);
    let before = state.types;
    let types = gmp_payload_type::read_psi(settings.type_check, before, expected, psi);
    FrameRead {
        answer: Ok(standing),
        state: SinkState {
            count: count,
            word: word,
            types: types,
        },
        mended: control_read.mended,
    }
}
