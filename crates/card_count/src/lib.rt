// The sink's call with the card's tallies by value. That which is lent them is in the crate
// card_sink.
#![tactic(auto)]

ghost use Rattle.std.specs.Prelude.{◌≡◌};
ghost use Rattle.gmp_standing.specs.Standing.{standing_meaning};
ghost use Rattle.gmp_sink.specs.Sink.{answer_meaning};
ghost use Rattle.card_promise.specs.Card.{bad_frames, tallies_by, CardPromise};

use card_tally::Tallies;
use gmp_payload_type::Expected;
use gmp_refusal::Refusal;
use gmp_settings::Settings;
use gmp_sink::{SinkResult, SinkState};
use gmp_standing::Standing;

// What a call returns, with the tallies after it.
#[derive(Clone, Copy)]
pub struct Counted {
    pub result: SinkResult,
    pub tallies: Tallies,
}

// The call with the tallies by value, over which `card_sink::sink_call` stands.
#[tactic(auto, unfolding(card_promise::specs::Card::tallies_after))]
pub fn count_call(
    settings: Settings,
    state: SinkState,
    expected: Expected,
    frame: &[u8],
    out: &mut [u8],
    port: u32,
    tallies: Tallies,
) -> Counted
    ensures { CardPromise settings state expected frame.now out.old port tallies result.result out.new result.tallies }
{
    let result = gmp_sink_call::take_frame(settings, state, expected, frame, out, port);
    let answer = result.answer;
    Counted {
        result: result,
        tallies: count_answer(tallies, port, answer, result.handed),
    }
}

// The tallies after an answer to a call of this port: a refused call leaves them.
fn count_answer(
    tallies: Tallies,
    port: u32,
    answer: Result<Standing, Refusal>,
    handed: u32,
) -> Tallies
    ensures { result ≡ tallies_by (answer_meaning answer) port handed tallies }
{
    let Ok(standing) = answer else {
        return tallies;
    };
    card_tally::count_frame(tallies, port, bad_frames(standing), handed)
}

// How many BADCHECK frames a frame with this standing is.
fn bad_frames(standing: Standing) -> u32
    ensures { result ≡ bad_frames (standing_meaning standing) }
{
    match standing {
        Standing::Read(_) => 0,
        Standing::Tracked(_) => 0,
        Standing::Paired(_) => 0,
        Standing::BadCheck => 1,
        Standing::Waiting => 0,
        Standing::Outside => 0,
    }
}
