// What the programs share: bytes from standard input, whole blocks or as many as there are, bytes
// to standard output, and why a program stops.
#![tactic(auto)]

ghost use Rattle.std.specs.Prelude.{◌≡◌, ◌+◌, ◌≤◌, ◌<◌, length, IsOk, IsErr};
ghost use Rattle.program_stream.specs.Gather.{Gathers, Fills, Supplies, Writes, left_of};

use std::io;
use std::io::{Read, Write};
use std::rt::{Stderr, Stdin, Stdout};

// Where a program reads, where it writes, and where it says why that failed: standard input, output
// and error, and nothing else, since only the runtime makes these.
#[derive(Clone, Copy)]
pub struct Streams {
    pub input: Stdin,
    pub output: Stdout,
    pub error: Stderr,
}

// Why a program stops: the input ended and so many bytes of it are left, fewer than were asked for,
// a read failed, or a write did.
#[derive(Drop)]
pub enum Why {
    Ended(usize),
    Unread,
    Unwritten,
}

// That a program stops, and why. No other crate can make one. Here three functions do, each of what
// a read or a write answered, and of one that failed once that is told.
#[derive(Drop)]
pub struct Stop {
    why: Why,
}

// How a run ended: it was stopped, or it had as many frames as it can count. An Option<Stop> would
// be no plainer: its None would not say that the run was full.
#[derive(Drop)]
pub enum End {
    Stopped(Stop),
    Full,
}

// The bytes of a block that were read and not yet taken: from place `at` up to place `end`. They
// are places and no slice, since the block is written behind them while they are held.
#[derive(Clone, Copy)]
pub struct Held {
    pub at: usize,
    pub end: usize,
}

// Fills a block from standard input, by as many reads as it takes. The name is said where one
// fails.
pub fn gather(streams: &mut Streams, block: &mut [u8], name: &[u8]) -> Result<(), Stop>
    ensures { Gathers block.old result block.new }
{
    let least = block.len();
    read_behind(streams, block, 0, least, name)?;
    Ok(())
}

// Holds at least so many bytes of standard input in a block, those that it holds already first.
// Where they are too few they go to the front, and a read takes what there is, up to the block's
// end, and another one only while that is still too few. Where the block has no room for so many, a
// whole block is enough. Of places outside the block nothing is held. The name is said where a read
// fails.
pub fn supply(
    streams: &mut Streams,
    block: &mut [u8],
    held: Held,
    least: usize,
    name: &[u8],
) -> Result<Held, Stop>
    ensures { Supplies block.old held least result block.new }
{
    let Held { at, end } = held;
    if at <= end && end <= block.len() && least <= end - at {
        return Ok(held);
    }
    let kept = program_keep::keep(block, at, end);
    read_behind(streams, block, kept, least, name)
}

// Reads behind the first `have` bytes of a block until there are `least` of them, the block is full
// or no more come.
fn read_behind(
    streams: &mut Streams,
    block: &mut [u8],
    have: usize,
    least: usize,
    name: &[u8],
) -> Result<Held, Stop>
    requires { have ≤ length block.old }
    ensures { Fills block.old have least result block.new }
{
    let size = block.len();
    let mut end = have;
    // Not a `for`: how many bytes a read gives is not known before.
    while end < least {
        if size <= end {
            return Ok(Held { at: 0, end });
        }
        let part = &mut block[end..];
        let got = streams.input.read(part);
        match got {
            Ok(0) => return Err(ended(size, part, got, end)),
            Ok(n) => end += n,
            Err(_) => return Err(unread(&mut streams.error, got, name)),
        }
    }
    Ok(Held { at: 0, end })
}

// The input ended and so many bytes of it are left: a read that had room gave none, into the part
// behind them of a block of this size.
fn ended(size: usize, part: &[u8], got: io::Result<usize>, left: usize) -> Stop
    requires { (0 < length part.now) × (left + length part.now ≡ size) × (got ≡ Ok 0) }
    ensures { result.why ≡ Why.Ended left }
{
    Stop {
        why: Why::Ended(left),
    }
}

// A read failed: says so, and the system's reason. One function for this and a failed write would
// be no plainer: it would take the reason to stop as an argument, and any of them would do.
fn unread(error: &mut impl Write, got: io::Result<usize>, name: &[u8]) -> Stop
    requires { IsErr got }
    ensures { result.why ≡ Why.Unread }
{
    program_say::say_failed(error, name, got.unwrap_err());
    Stop { why: Why::Unread }
}

// Writes bytes to standard output, all of them, or says by this name that it failed.
pub fn write_out(streams: &mut Streams, bytes: &[u8], name: &[u8]) -> Result<(), Stop>
    ensures { Writes result }
{
    let put = streams.output.write_all(bytes);
    if put.is_ok() {
        return written(put);
    }
    Err(unwritten(&mut streams.error, put, name))
}

// All was written.
fn written(put: io::Result<()>) -> Result<(), Stop>
    requires { IsOk put }
    ensures { result ≡ Ok tt }
{
    Ok(())
}

// A write failed: says so, and the system's reason.
fn unwritten(error: &mut impl Write, put: io::Result<()>, name: &[u8]) -> Stop
    requires { IsErr put }
    ensures { result.why ≡ Why.Unwritten }
{
    program_say::say_failed(error, name, put.unwrap_err());
    Stop {
        why: Why::Unwritten,
    }
}

// How many bytes were left where the input ended, and 0 where the run ended otherwise.
pub fn left(end: &End) -> usize
    ensures { result ≡ left_of end.now }
{
    let End::Stopped(stop) = end else {
        return 0;
    };
    match stop.why {
        Why::Ended(number) => number,
        Why::Unread => 0,
        Why::Unwritten => 0,
    }
}

// Says how many bytes were left where the input ended within a block, if there were any.
pub fn say_left(error: &mut impl Write, name: &[u8], end: &End) {
    let number = left(end);
    if number == 0 {
        return;
    }
    say_rest(error, name, end, number);
}

// Says this number as that of the bytes left.
fn say_rest(error: &mut impl Write, name: &[u8], end: &End, number: usize)
    requires { number ≡ left_of end.now }
{
    program_say::say(error, name, number as u64);
    program_say::tell(error, b" bytes left at the end\n");
}
