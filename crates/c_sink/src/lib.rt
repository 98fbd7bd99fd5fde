// The sink with the card's tallies for C and Rust: numbers and buffers in, numbers out. All meaning
// is in the crates below; here values are only converted.
#![tactic(auto)]

ghost use Rattle.std.specs.Prelude.{◌≡◌};
ghost use Rattle.gmp_sink.specs.Sink.{new_sink, answer_meaning};
ghost use Rattle.c_settings.specs.Numbers.{settings_from};
ghost use Rattle.c_sink_numbers.specs.Numbers.{count_from, count_flag, count_value, seen_from, seen_times, seen_type, state_from, state_numbers, sink_reply_by, InterfacePromise};

use c_settings::SettingsNumbers;
use c_sink_numbers::{SinkNumbers, SinkReply};
use gmp_payload_type::{Expected, Seen, Types};
use gmp_sink::{SinkResult, SinkState};
use gmp_standing::Count;

pub fn odu0_sink_new() -> SinkNumbers
    ensures { result ≡ state_numbers new_sink }
{
    state_numbers(gmp_sink::new_sink())
}

pub fn odu0_sink_call(
    settings: SettingsNumbers,
    state: SinkNumbers,
    expected: Expected,
    frame: &[u8],
    out: &mut [u8],
    port: u32,
    tallies: &mut [u32; 24],
) -> SinkReply
    ensures { InterfacePromise (settings_from settings) state expected frame.now out.old port tallies.old result out.new tallies.new }
{
    let before = c_tally::tallies_from(*tallies);
    let card = c_settings::settings_from(settings);
    let called = card_sink::lend_call(card, state_from(state), expected, frame, out, port, before);
    *tallies = c_tally::tallies_numbers(called.tallies);
    sink_reply(state, called.result)
}

// A refused call returns the very numbers that it was given.
fn sink_reply(given: SinkNumbers, res: SinkResult) -> SinkReply
    ensures { result ≡ sink_reply_by given (answer_meaning res.answer) res.handed res.mended res.state }
{
    let mended = u32::from(res.mended);
    match res.answer {
        Ok(standing) => {
            let (found, count) = count_numbers(gmp_standing::found_count(standing));
            SinkReply {
                refusal: 0,
                standing: gmp_standing::standing_number(standing),
                found,
                count,
                handed: res.handed,
                mended,
                state: state_numbers(res.state),
            }
        }
        Err(refusal) => SinkReply {
            refusal: gmp_refusal::refusal_number(Err(refusal)),
            standing: 0,
            found: 0,
            count: 0,
            handed: res.handed,
            mended,
            state: given,
        },
    }
}

// The sink's state that eight numbers stand for, and the eight numbers of a state. Neither these
// nor those below are a `From`: none of the types is of this crate.
fn state_from(numbers: SinkNumbers) -> SinkState
    ensures { result ≡ state_from numbers }
{
    let types = Types {
        accepted: (numbers.accepted != 0).then_some(numbers.accepted_type),
        seen: seen_from(numbers.seen, numbers.seen_type),
    };
    SinkState {
        count: count_from(numbers.known, numbers.count),
        word: (numbers.remembered != 0).then_some(numbers.word),
        types,
    }
}

fn state_numbers(state: SinkState) -> SinkNumbers
    ensures { result ≡ state_numbers state }
{
    let (known, count) = count_numbers(state.count);
    let types = state.types;
    let (seen, seen_type) = seen_numbers(types.seen);
    SinkNumbers {
        known,
        count,
        remembered: u32::from(state.word.is_some()),
        word: state.word.unwrap_or(0),
        accepted: u32::from(types.accepted.is_some()),
        seen,
        accepted_type: types.accepted.unwrap_or(0),
        seen_type,
    }
}

// A count or none.
fn count_from(flag: u32, n: u32) -> Count
    ensures { result ≡ count_from flag n }
{
    if flag == 0 {
        Count::Unknown
    } else {
        Count::Known(n)
    }
}

fn count_numbers(count: Count) -> (u32, u32)
    ensures { (result.0 ≡ count_flag count) × (result.1 ≡ count_value count) }
{
    match count {
        Count::Known(n) => (1, n),
        Count::Unknown => (0, 0),
    }
}

// The type that was seen last, and how often.
fn seen_from(times: u32, payload_type: u8) -> Seen
    ensures { result ≡ seen_from times payload_type }
{
    match times {
        0 => Seen::Never,
        1 => Seen::Once(payload_type),
        _ => Seen::Twice(payload_type),
    }
}

fn seen_numbers(seen: Seen) -> (u32, u8)
    ensures { (result.0 ≡ seen_times seen) × (result.1 ≡ seen_type seen) }
{
    match seen {
        Seen::Never => (0, 0),
        Seen::Once(last) => (1, last),
        Seen::Twice(last) => (2, last),
    }
}
