// Takes OPU0 frames on standard input and hands out their client bytes on standard output. With the
// argument "mend" one wrong control bit of a frame is mended. With "type" and a number the payload
// type is checked, this one is expected, and the frames are numbered from the first, which is 0. On
// standard error it writes a line for the first frame's standing, for each change of it, in its
// name or in the count found, for each mended frame and for each change of the accepted type, and
// at the end the tally. Its frames are those of one port, port 1.
#![tactic(auto)]

ghost use Rattle.std.specs.Prelude.{◌≡◌, ◌≤◌, ◌<◌, ◌↔◌, length, IsOk, IsTrue};
ghost use Rattle.program_stream.specs.Gather.{held_bytes, Has, Writes};
ghost use Rattle.odu0demap.specs.Demapping.{frames_in, handed_over, Goes, GoesOn, DemapsAll, Runs};

use card_tally::Tally;
use gmp_standing::Standing;
use program_demap::{Demapper, Wanted};
use program_stream::{End, Held, Stop, Streams};
use std::env::Env;
use std::io::Write;

// What a run of frames came to: their number, the bytes handed out, the demapper before the last of
// them and after it, and what is to be told, if anything: of the last frame the standing, and
// whether it was mended.
#[derive(Clone, Copy)]
struct Run {
    frames: usize,
    handed: usize,
    before: Demapper,
    after: Demapper,
    told: Option<(Standing, bool)>,
}

// What all frames came to: the demapper at their end, and how the run ended.
#[derive(Drop)]
struct Demapped {
    demapper: Demapper,
    end: End,
}

// Takes all frames, or says that the arguments are wrong.
fn main(rt: HostRuntime) {
    let mut streams = Streams {
        input: rt.stdin(),
        output: rt.stdout(),
        error: rt.stderr(),
    };
    let Some(wanted) = read_arguments(&rt) else {
        program_say::tell(
            &mut streams.error,
            b"odu0demap: the arguments are mend, or type and a number from 0 to 255, or both in this order\nusage: odu0demap [mend] [type T], frames on standard input, client bytes on standard output\n",
        );
        return;
    };
    let all = demap_all(&mut streams, wanted);
    program_stream::say_left(&mut streams.error, b"odu0demap: ", &all.end);
    show_tally(&mut streams.error, all.demapper.tally);
}

// What the arguments ask for, if they are right. Without an argument nothing is mended and no type
// is checked.
fn read_arguments(env: &impl Env) -> Option<Wanted> {
    if is_argument(env, 1, b"mend") {
        return read_type(env, true, 2);
    }
    read_type(env, false, 1)
}

// The same of those from i on, if there are any: they are for the type check.
fn read_type(env: &impl Env, mending: bool, i: usize) -> Option<Wanted>
    requires { i ≤ 2 }
{
    let given = program_say::argument_count(env);
    if given <= i {
        return Some(Wanted {
            mending,
            type_check: false,
            payload_type: 0,
        });
    }
    if given != i + 2 || !is_argument(env, i, b"type") {
        return None;
    }
    let number = program_say::argument(env, i + 1)?;
    let payload_type = u8::try_from(number).ok()?;
    Some(Wanted {
        mending,
        type_check: true,
        payload_type,
    })
}

// Whether argument i is this word.
fn is_argument(env: &impl Env, i: usize, word: &[u8; 4]) -> bool {
    let mut text = [0u8; 8];
    let n = env.arg(i, &mut text).unwrap_or(0);
    is_word(&text[..n], word)
}

// Whether a text is this word, and no more.
fn is_word(text: &[u8], word: &[u8]) -> bool
    ensures { IsTrue result ↔ (text.now ≡ word.now) }
{
    text == word
}

// Takes all frames, with room for 16 of them and for the largest loads that these can carry.
fn demap_all(streams: &mut Streams, wanted: Wanted) -> Demapped
    ensures { DemapsAll wanted result }
{
    let mut frames = [0u8; 243840];
    let mut out = [0u8; 230560];
    demap_stream(streams, wanted, &mut frames, &mut out)
}

// Takes run after run of frames from a new demapper on until there is a stop, and gives the
// demapper at their end: that of the last run whose bytes were written. A proved loop has to end:
// this one does where the number of frames could grow past 64 bits, which no input reaches. A for
// would count the runs and not the frames.
fn demap_stream(
    streams: &mut Streams,
    wanted: Wanted,
    frames: &mut [u8; 243840],
    out: &mut [u8; 230560],
) -> Demapped
    ensures { DemapsAll wanted result }
{
    let mut demapper = program_demap::new_demapper();
    let mut held = Held { at: 0, end: 0 };
    let mut taken: u64 = 0;
    while taken < u64::MAX - 16 {
        match take_next(streams, wanted, taken, demapper, held, frames, out) {
            Ok((after, number, behind)) => {
                demapper = after;
                held = behind;
                taken += number as u64;
            }
            Err(stop) => {
                return Demapped {
                    demapper,
                    end: End::Stopped(stop),
                };
            }
        }
    }
    Demapped {
        demapper,
        end: End::Full,
    }
}

// Reads on until a whole frame is held, and takes the next run of them: the demapper to go on from,
// the number of frames taken and the bytes held behind them.
fn take_next(
    streams: &mut Streams,
    wanted: Wanted,
    taken: u64,
    demapper: Demapper,
    held: Held,
    frames: &mut [u8; 243840],
    out: &mut [u8; 230560],
) -> Result<(Demapper, usize, Held), Stop>
    requires { taken < 18446744073709551599 }
    ensures { GoesOn wanted demapper (held_bytes held frames.old) result frames.new }
{
    let name = b"odu0demap: standard input";
    let more = program_stream::supply(streams, frames, held, 15240, name)?;
    take_held(streams, wanted, taken, demapper, more, frames, out)
}

// Takes a run of the frames that are held, writes its client bytes and says what is to be told of
// it. Where the bytes cannot be written nothing is said of the run, and no more is handed out.
fn take_held(
    streams: &mut Streams,
    wanted: Wanted,
    taken: u64,
    demapper: Demapper,
    held: Held,
    frames: &[u8; 243840],
    out: &mut [u8; 230560],
) -> Result<(Demapper, usize, Held), Stop>
    requires { (taken < 18446744073709551599) × Has 15240 held frames.now }
    ensures { Goes wanted demapper (held_bytes held frames.now) result frames.now }
{
    let Held { at, end } = held;
    let whole = &frames[at..end];
    let run = demap_run(wanted, demapper, whole, out);
    let number = run.frames;
    let handed = run.handed;
    let after = run.after;
    // Not `?`: what is said of the run asks for this answer, that the write was done.
    let done = hand_out(streams, wanted, demapper, whole, number, &out[..handed]);
    match done {
        Ok(()) => {
            show_told(&mut streams.error, &done, taken + number as u64, run);
            let behind = Held {
                at: at + 15240 * number,
                end,
            };
            Ok((after, number, behind))
        }
        Err(stop) => Err(stop),
    }
}

// Writes the client bytes of so many frames, all of them and in order, or says why that failed. It
// is no twin of odu0map's `write_frames`: what each requires says whose bytes it writes.
fn hand_out(
    streams: &mut Streams,
    wanted: Wanted,
    demapper: Demapper,
    frames: &[u8],
    number: usize,
    bytes: &[u8],
) -> Result<(), Stop>
    requires { bytes.now ≡ handed_over wanted demapper (frames_in number frames.now) }
    ensures { Writes result }
{
    program_stream::write_out(streams, bytes, b"odu0demap: standard output")
}

// Takes frame after frame, at most 16 and none behind one of which something is to be told. Not by
// chunks of the frames: the loads beside them have lengths of their own.
fn demap_run(wanted: Wanted, first: Demapper, frames: &[u8], out: &mut [u8; 230560]) -> Run
    ensures { Runs wanted first frames.now result out.new }
{
    let mut demapper = first;
    let mut handed = 0;
    for number in 0..16 {
        let at = 15240 * number;
        if frames.len() - at < 15240 {
            return Run {
                frames: number,
                handed,
                before: demapper,
                after: demapper,
                told: None,
            };
        }
        let frame = &frames[at..at + 15240];
        let room = &mut out[handed..handed + 14410];
        let taken = program_demap::demap_frame(wanted, demapper, frame, room);
        handed += taken.handed as usize;
        if !program_told::has_nothing_to_tell(demapper, taken) {
            return Run {
                frames: number + 1,
                handed,
                before: demapper,
                after: taken.after,
                told: Some((taken.standing, taken.mended)),
            };
        }
        demapper = taken.after;
    }
    Run {
        frames: 16,
        handed,
        before: demapper,
        after: demapper,
        told: None,
    }
}

// Says how the last frame of a run changed the standing and the accepted type, where that is to be
// told: only once the bytes of the run are written.
fn show_told(error: &mut impl Write, done: &Result<(), Stop>, frame_number: u64, run: Run)
    requires { IsOk done.now }
{
    let Some((standing, mended)) = run.told else {
        return;
    };
    show_change(error, frame_number, run.before, standing, mended);
    show_type(
        error,
        frame_number,
        program_told::accepted_type(run.before),
        program_told::accepted_type(run.after),
    );
}

// Says the standing of a frame, its count or "-", and that it was mended, where there is anything
// new to say: by one write, since at the usual rate nearly every frame has such a line. The longest
// has 6, 20, 2, 8, 1, 10 and 8 bytes for its seven parts, 55 in all.
fn show_change(
    error: &mut impl Write,
    frame_number: u64,
    before: Demapper,
    standing: Standing,
    mended: bool,
) {
    if program_told::has_no_line(before, standing, mended) {
        return;
    }
    let mut line = [0u8; 64];
    let length = program_line::put_change(&mut line, frame_number, standing, mended);
    program_say::tell(error, &line[..length]);
}

// Says the accepted type where there is one, and it is another than before the frame.
fn show_type(error: &mut impl Write, frame_number: u64, before: Option<u8>, after: Option<u8>) {
    if program_told::is_same_type(before, after) {
        return;
    }
    let Some(accepted) = after else {
        return;
    };
    program_say::say(error, b"frame ", frame_number);
    program_say::say_line(error, b": accepted type ", u64::from(accepted));
}

// Says the tally: frames taken, BADCHECK frames and bytes handed out.
fn show_tally(error: &mut impl Write, tally: Tally) {
    program_say::say(error, b"odu0demap: frames ", u64::from(tally.frames));
    program_say::say(error, b", BADCHECK ", u64::from(tally.badcheck));
    program_say::say_line(error, b", bytes ", u64::from(tally.bytes));
}
