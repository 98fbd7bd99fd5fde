// The sink: its state, what it answers, a new sink, that the numbers of its refusals ascend, that
// with mending off and with the type check off all is as 01 says, that counts are followed whatever
// the types are, and that the port matters to number 10 alone. The call that takes a frame is in
// the crate gmp_sink_call.
#![tactic(auto)]

ghost use Rattle.std.specs.Prelude.{◌≡◌};
ghost use Rattle.gmp_sink.specs.Sink.{new_sink, NumbersAscend, AnyPort, OffAsBefore, UncheckedAsBefore, CountsFollowed};

use gmp_control::Followed;
use gmp_payload_type::Types;
use gmp_refusal::Refusal;
use gmp_standing::{Count, Standing};

// A known count or none, a remembered word or none, and what is remembered of payload types.
#[derive(Clone, Copy)]
pub struct SinkState {
    pub count: Count,
    pub word: Option<u32>,
    pub types: Types,
}

// The answer, the state to go on from, the number of bytes handed out, and whether a wrong control
// bit was mended.
#[derive(Clone, Copy)]
pub struct SinkResult {
    pub answer: Result<Standing, Refusal>,
    pub state: SinkState,
    pub handed: u32,
    pub mended: bool,
}

// What the control bytes of a frame lead to, and whether one of their bits was mended.
#[derive(Clone, Copy)]
pub struct ControlRead {
    pub followed: Followed,
    pub mended: bool,
}

// A sink that knows nothing.
pub fn new_sink() -> SinkState
    ensures { result ≡ new_sink }
{
    SinkState {
        count: Count::Unknown,
        word: None,
        types: gmp_payload_type::new_types(),
    }
}

// A call is turned back by the lowest number that applies.
#[tactic(auto, using(crate::proofs::Laws::numbers_ascend))]
pub fn numbers_ascend()
    ensures { NumbersAscend }
{}

// But for number 10 the port has no part in what a call answers, mends and hands out, and in the
// state and the output buffer after it.
#[tactic(auto, using(crate::proofs::Laws::any_port))]
pub fn any_port()
    ensures { AnyPort }
{}

// With the type check off, what a call hands out and the state after it are what they were without
// it, whatever the call is told, and what is remembered of types stays.
#[tactic(auto, using(crate::proofs::Laws::unchecked_as_before))]
pub fn unchecked_as_before()
    ensures { UncheckedAsBefore }
{}

// Counts are followed whatever the types are: the type check, what is remembered of types and what
// the call is told have no part in its answer and in the count and the word that it leaves.
#[tactic(auto, using(crate::proofs::Laws::counts_followed))]
pub fn counts_followed()
    ensures { CountsFollowed }
{}

// With mending off the control bytes lead where 01's rules lead, and nothing is mended.
#[tactic(auto, using(crate::proofs::Laws::off_as_before))]
pub fn off_as_before()
    ensures { OffAsBefore }
{}
