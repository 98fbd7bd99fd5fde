// Maps standard input, a stream of client bytes, into OPU0 frames on standard output, at the rate
// p / q of client bytes a frame. The two numbers are the program's arguments; with none the rate is
// 18,671,875 / 1,296.
#![tactic(auto)]

ghost use Rattle.std.specs.Prelude.{◌≡◌, length};
ghost use Rattle.program_stream.specs.Gather.{held_bytes, Has, Writes};
ghost use Rattle.program_map.specs.Frames.{Ready};
ghost use Rattle.odu0map.specs.Mapping.{frames_after, Goes, GoesOn, MapsLoads, Counts};

use gmp_refusal::{NAME_LENGTHS, NAMES, Refusal};
use program_map::{Mapper, Rate};
use program_stream::{End, Held, Stop, Streams};
use std::env::Env;
use std::io::Write;

// The frames of the writes that were done, the client bytes that they carry, modulo 2^64, and how
// the run ended.
#[derive(Drop)]
struct Totals {
    frames: u64,
    bytes: u64,
    end: End,
}

// What some loads came to: the mapper after them, the number of their frames, and the client bytes
// that these carry.
#[derive(Clone, Copy)]
struct Batch {
    mapper: Mapper,
    frames: usize,
    bytes: usize,
}

// Maps the input at the rate asked for, or says why it cannot.
fn main(rt: HostRuntime) {
    let mut streams = Streams {
        input: rt.stdin(),
        output: rt.stdout(),
        error: rt.stderr(),
    };
    let Some(rate) = asked_rate(&rt) else {
        program_say::tell(
            &mut streams.error,
            b"odu0map: the arguments are not two decimal numbers of 32 bits\n",
        );
        show_usage(&mut streams.error);
        return;
    };
    match program_map::new_mapper(rate) {
        Ok(mapper) => {
            let totals = map_all(&mut streams, rate, mapper);
            show_totals(&mut streams.error, &totals);
        }
        Err(refusal) => show_refusal(&mut streams.error, refusal),
    }
}

// The rate that the arguments give, or the usual one where there are none. There is no rate where
// they are wrong.
fn asked_rate(env: &impl Env) -> Option<Rate> {
    let given = program_say::argument_count(env);
    if given < 2 {
        return Some(Rate {
            p: 18671875,
            q: 1296,
        });
    }
    if given != 3 {
        return None;
    }
    let p = program_say::argument(env, 1)?;
    let q = program_say::argument(env, 2)?;
    Some(Rate { p, q })
}

// Maps load after load, with room for 16 of the largest loads and for their frames.
fn map_all(streams: &mut Streams, rate: Rate, new: Mapper) -> Totals
    requires { Ready rate new }
    ensures { Counts rate new result }
{
    let mut client = [0u8; 230560];
    let mut frames = [0u8; 243840];
    map_stream(streams, rate, new, &mut client, &mut frames)
}

// Maps batch after batch, each by the mapper that the one before it left, until there is a stop.
// Where a batch cannot be written the totals are those of the batches before it. A proved loop has
// to end: this one does where the number of frames could grow past 64 bits, which no input reaches.
// A for would count the batches and not the frames.
fn map_stream(
    streams: &mut Streams,
    rate: Rate,
    new: Mapper,
    client: &mut [u8; 230560],
    frames: &mut [u8; 243840],
) -> Totals
    requires { Ready rate new }
    ensures { Counts rate new result }
{
    let mut mapper = new;
    let mut held = Held { at: 0, end: 0 };
    let mut written: u64 = 0;
    let mut bytes: u64 = 0;
    while written < u64::MAX - 16 {
        match map_next(streams, rate, mapper, held, client, frames) {
            Ok((batch, behind)) => {
                mapper = batch.mapper;
                held = behind;
                written += batch.frames as u64;
                bytes = bytes.wrapping_add(batch.bytes as u64);
            }
            Err(stop) => {
                return Totals {
                    frames: written,
                    bytes,
                    end: End::Stopped(stop),
                };
            }
        }
    }
    Totals {
        frames: written,
        bytes,
        end: End::Full,
    }
}

// Reads on until a whole load is held, and maps all that are: what that came to, and the client
// bytes held behind it.
fn map_next(
    streams: &mut Streams,
    rate: Rate,
    mapper: Mapper,
    held: Held,
    client: &mut [u8; 230560],
    frames: &mut [u8; 243840],
) -> Result<(Batch, Held), Stop>
    requires { Ready rate mapper }
    ensures { GoesOn rate mapper (held_bytes held client.old) result client.new }
{
    let least = mapper.source.count as usize;
    let more = program_stream::supply(streams, client, held, least, b"odu0map: standard input")?;
    map_held(streams, rate, mapper, more, client, frames)
}

// Maps the loads that are held and writes their frames. Where that fails nothing more is mapped.
fn map_held(
    streams: &mut Streams,
    rate: Rate,
    mapper: Mapper,
    held: Held,
    client: &[u8; 230560],
    frames: &mut [u8; 243840],
) -> Result<(Batch, Held), Stop>
    requires { Ready rate mapper × Has mapper.source.count held client.now }
    ensures { Goes rate mapper (held_bytes held client.now) result client.now }
{
    let Held { at, end } = held;
    let loads = &client[at..end];
    let batch = map_loads(rate, mapper, loads, frames);
    let length = 15240 * batch.frames;
    write_frames(
        streams,
        rate,
        mapper,
        loads,
        batch.frames,
        &frames[..length],
    )?;
    let behind = Held {
        at: at + batch.bytes,
        end,
    };
    Ok((batch, behind))
}

// Writes the frames of so many loads, all of them and in order, or says why that failed.
fn write_frames(
    streams: &mut Streams,
    rate: Rate,
    mapper: Mapper,
    loads: &[u8],
    number: usize,
    frames: &[u8],
) -> Result<(), Stop>
    requires { frames.now ≡ frames_after rate mapper loads.now number }
    ensures { Writes result }
{
    program_stream::write_out(streams, frames, b"odu0map: standard output")
}

// Maps the whole loads at the start of the client bytes, at most 16, each by the mapper that the
// one before it left. Not by chunks of the frames: the loads have lengths of their own.
fn map_loads(rate: Rate, first: Mapper, client: &[u8], frames: &mut [u8; 243840]) -> Batch
    requires { Ready rate first }
    ensures { MapsLoads rate first client.now result frames.new }
{
    let mut mapper = first;
    let mut at = 0;
    for number in 0..16 {
        let count = mapper.source.count as usize;
        if client.len() - at < count {
            return Batch {
                mapper,
                frames: number,
                bytes: at,
            };
        }
        let load = &client[at..at + count];
        let place = 15240 * number;
        let frame = &mut frames[place..place + 15240];
        mapper = program_map::make_frame(rate, mapper, load, frame);
        at += count;
    }
    Batch {
        mapper,
        frames: 16,
        bytes: at,
    }
}

// Says what is left where the input ended, how many frames the writes had that were done, and how
// many client bytes they carry.
fn show_totals(error: &mut impl Write, totals: &Totals) {
    program_stream::say_left(error, b"odu0map: ", &totals.end);
    program_say::say(error, b"odu0map: frames ", totals.frames);
    program_say::say_line(error, b", bytes ", totals.bytes);
}

// Says why there is no mapper, by the name and the number of the refusal.
fn show_refusal(error: &mut impl Write, refusal: Refusal) {
    program_say::tell(error, b"odu0map: refused, ");
    show_name(error, refusal);
    program_say::say(
        error,
        b" (number ",
        u64::from(gmp_refusal::refusal_number(Err(refusal))),
    );
    program_say::tell(error, b")\n");
    show_usage(error);
}

// Writes the name of a refusal to standard error.
fn show_name(error: &mut impl Write, refusal: Refusal) {
    let place = gmp_refusal::refusal_place(refusal) as usize;
    let name = program_name::name_of(&NAMES, &NAME_LENGTHS, place);
    program_say::tell(error, name);
}

// Says how the program is called.
fn show_usage(error: &mut impl Write) {
    program_say::tell(
        error,
        b"usage: odu0map [P Q], client bytes a frame as P / Q: Q from 1 to 65535, P / Q from 14405 to 14410\n",
    );
}
