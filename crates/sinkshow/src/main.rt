// The program of 01: it shows what a new sink makes of the 16-byte frames on standard input (K = 2,
// window 0 to 8), a line for each frame, and a last line where the input ends within one. Every
// byte of a line is promised by the functions that make it, and std's write! promises none: so a
// line is made by hand.
#![tactic(auto)]

ghost use Rattle.std.specs.Prelude.{◌≡◌, ◌+◌, ◌≤◌, ◌<◌, length};
ghost use Rattle.gmp_standing.specs.Standing.{standing_meaning};
ghost use Rattle.program_stream.specs.Gather.{Writes, left_of};
ghost use Rattle.sinkshow.specs.Lines.{decimal, count_text, numbers_text, standing_text, rest_line, rest_text};
ghost use Rattle.sinkshow.specs.Show.{new_run, Puts, Shows, Goes, GoesOn, ShowsAll};

use gmp_payload_type::Expected;
use gmp_sink::SinkState;
use gmp_standing::{Count, NAME_LENGTHS, NAMES, Standing};
use program_stream::{End, Stop, Streams};

// How far a run has come: the sink's state, and how many frames it has taken.
#[derive(Clone, Copy)]
struct Run {
    state: SinkState,
    frames: u64,
}

// The length of a frame's line, and the run after the frame.
#[derive(Clone, Copy)]
struct Shown {
    length: usize,
    after: Run,
}

// All frames shown: the run at its end, and how it ended.
#[derive(Drop)]
struct All {
    run: Run,
    end: End,
}

// Shows all frames of the input, and what is left where it ended.
fn main(rt: HostRuntime) {
    let mut streams = Streams {
        input: rt.stdin(),
        output: rt.stdout(),
        error: rt.stderr(),
    };
    let all = show_all(&mut streams);
    show_rest(&mut streams, &all.end);
}

// Shows frame after frame from a new run on until there is a stop, and gives the run at its end. A
// proved loop has to end: this one does at the largest frame number, which no run reaches. A for
// would count the run's frames a second time.
fn show_all(streams: &mut Streams) -> All
    ensures { ShowsAll result }
{
    let mut run = new_run();
    while run.frames < u64::MAX {
        match show_next(streams, run) {
            Ok(after) => run = after,
            Err(stop) => {
                return All {
                    run,
                    end: End::Stopped(stop),
                };
            }
        }
    }
    All {
        run,
        end: End::Full,
    }
}

// A new sink, and no frame yet.
fn new_run() -> Run
    ensures { result ≡ new_run }
{
    Run {
        state: gmp_sink::new_sink(),
        frames: 0,
    }
}

// Reads the next frame and shows it, and gives the run to go on from. That one frame more can be
// counted is asked here and of the two functions below: a type for it would be no plainer.
fn show_next(streams: &mut Streams, run: Run) -> Result<Run, Stop>
    requires { run.frames < 18446744073709551615 }
    ensures { GoesOn run result }
{
    let mut frame = [0u8; 16];
    program_stream::gather(streams, &mut frame, b"sinkshow: standard input")?;
    show_frame(streams, run, &frame)
}

// Takes a frame and writes its line. Where that fails nothing more is shown. Three numbers of up to
// 20 digits, a name of up to 8 letters and 4 bytes between and after them are 72 bytes.
fn show_frame(streams: &mut Streams, run: Run, frame: &[u8; 16]) -> Result<Run, Stop>
    requires { run.frames < 18446744073709551615 }
    ensures { Goes run frame.now result }
{
    let mut line = [0u8; 72];
    let shown = take_frame(run, frame, &mut line);
    write_line(streams, &line[..shown.length])?;
    Ok(shown.after)
}

// Writes the last line, where a byte or more is left.
fn show_rest(streams: &mut Streams, end: &End) {
    let left = program_stream::left(end);
    let mut line = [0u8; 72];
    let length = put_rest(&mut line, left);
    write_rest(streams, end, &line[..length]);
}

// Writes the line of the bytes that are left at this end, all of it.
fn write_rest(streams: &mut Streams, end: &End, line: &[u8])
    requires { line.now ≡ rest_text (left_of end.now) }
{
    let _ = write_line(streams, line);
}

// Writes a line to standard output.
fn write_line(streams: &mut Streams, line: &[u8]) -> Result<(), Stop>
    ensures { Writes result }
{
    program_stream::write_out(streams, line, b"sinkshow: standard output")
}

// Hands a frame to the sink, as one of port 1, and makes its line. The payload type is not checked,
// so what the sink is told of the frame is not looked at. With 16 bytes, these settings, this
// output buffer and this port no call is refused.
fn take_frame(run: Run, frame: &[u8; 16], line: &mut [u8; 72]) -> Shown
    requires { run.frames < 18446744073709551615 }
    ensures { Shows run frame.now line.old result line.new }
{
    let settings = gmp_settings::new_settings(2, 0, 8);
    let mut out = [0u8; 8];
    let untold = Expected {
        multiframe: 0,
        payload_type: 0,
    };
    let result = gmp_sink_call::take_frame(settings, run.state, untold, frame, &mut out, 1);
    let Ok(standing) = result.answer else {
        return Shown {
            length: 0,
            after: run,
        };
    };
    let frame_number = run.frames + 1;
    let at = put_numbers(line, frame_number, result.handed);
    Shown {
        length: put_standing(line, at, standing),
        after: Run {
            state: result.state,
            frames: frame_number,
        },
    }
}

// Makes the last line where a byte or more is left, and gives its length: 0 where there is none.
fn put_rest(line: &mut [u8], left: usize) -> usize
    requires { 26 ≤ length line.old }
    ensures { Puts line.old 0 (rest_text left) result line.new }
{
    if left == 0 {
        return 0;
    }
    put_left(line, left)
}

// Makes the line "LEFT" with the number of bytes left, and gives its length.
fn put_left(line: &mut [u8], left: usize) -> usize
    requires { 26 ≤ length line.old }
    ensures { Puts line.old 0 (rest_line left) result line.new }
{
    let a = put(line, 0, b"LEFT ");
    let b = put_number(line, a, left as u64);
    line[b] = b'\n';
    b + 1
}

// Begins a line with the frame number and the number of bytes handed out, a space behind each, and
// gives its length so far.
fn put_numbers(line: &mut [u8], frame_number: u64, handed: u32) -> usize
    requires { 42 ≤ length line.old }
    ensures { Puts line.old 0 (numbers_text frame_number handed) result line.new }
{
    let a = put_number(line, 0, frame_number);
    line[a] = b' ';
    let b = put_number(line, a + 1, handed as u64);
    line[b] = b' ';
    b + 1
}

// Ends a line of `at` bytes so far with the standing, a space, its count or "-" and a newline, and
// gives the line's length.
fn put_standing(line: &mut [u8], at: usize, standing: Standing) -> usize
    requires { at + 30 ≤ length line.old }
    ensures { Puts line.old at (standing_text (standing_meaning standing)) result line.new }
{
    let a = put_name(line, at, standing);
    line[a] = b' ';
    let b = put_count(line, a + 1, standing);
    line[b] = b'\n';
    b + 1
}

// Puts the name of a standing behind the first `at` bytes of a line, and gives the length then.
// This and `put_number` are no twins of program_line's: those cut what has no room, and promise no
// byte.
fn put_name(line: &mut [u8], at: usize, standing: Standing) -> usize
    requires { at + 8 ≤ length line.old }
    ensures { Puts line.old at (standing_meaning standing).name result line.new }
{
    let number = gmp_standing::standing_number(standing) as usize;
    let name = program_name::name_of(&NAMES, &NAME_LENGTHS, number);
    put(line, at, name)
}

// Puts the count that a standing found there, or "-" where it found none.
fn put_count(line: &mut [u8], at: usize, standing: Standing) -> usize
    requires { at + 20 ≤ length line.old }
    ensures { Puts line.old at (count_text (standing_meaning standing).count) result line.new }
{
    let Count::Known(n) = gmp_standing::found_count(standing) else {
        return put(line, at, b"-");
    };
    put_number(line, at, n as u64)
}

// Puts a number there in decimal.
fn put_number(line: &mut [u8], at: usize, n: u64) -> usize
    requires { at + 20 ≤ length line.old }
    ensures { Puts line.old at (decimal n) result line.new }
{
    let mut digits = [0u8; 20];
    let k = io::decimal(n, &mut digits);
    put(line, at, &digits[..k])
}

// Puts these bytes there.
fn put(line: &mut [u8], at: usize, text: &[u8]) -> usize
    requires { at + length text.now ≤ length line.old }
    ensures { Puts line.old at text.now result line.new }
{
    let end = at + text.len();
    line[at..end].copy_from_slice(text);
    end
}
