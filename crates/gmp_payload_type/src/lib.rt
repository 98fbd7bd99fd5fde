// The payload type that a sink accepts, whether it lets the client bytes of a frame pass, and that
// three frames running have a type accepted from any state, and from a new sink on only three.
#![tactic(auto)]

ghost use Rattle.std.specs.Prelude.{◌≡◌};
ghost use Rattle.gmp_payload_type.specs.Types.{new_types, is_last, seen_after, accepted_after, judged, types_after, gate_open};
ghost use Rattle.gmp_payload_type.specs.Claims.{ThreeRunning};

// What the last frames numbered 0 had: none has come, one type came once, or the same twice or more
// running.
#[derive(Clone, Copy)]
pub enum Seen {
    Never,
    Once(u8),
    Twice(u8),
}

// What a sink remembers of types: the accepted type, if there is one yet, and what came last. Type
// 0 is a type. Every value is legal.
#[derive(Clone, Copy)]
pub struct Types {
    pub accepted: Option<u8>,
    pub seen: Seen,
}

// What a sink is told of a frame: its multiframe number, and the payload type that is expected.
#[repr(C)]
#[derive(Clone, Copy)]
pub struct Expected {
    pub multiframe: u32,
    pub payload_type: u8,
}

// A sink that has accepted no type and has seen none.
pub fn new_types() -> Types
    ensures { result ≡ new_types }
{
    Types {
        accepted: None,
        seen: Seen::Never,
    }
}

// Whether the client bytes of a frame may be handed out: always where the type check is off, and
// else where the accepted type is the expected one.
#[tactic(auto, unfolding(crate::specs::Types::gate_open))]
pub fn gate_open(type_check: bool, types: Types, expected: Expected) -> bool
    ensures { result ≡ gate_open type_check types expected }
{
    if !type_check {
        return true;
    }
    let Some(kept) = types.accepted else {
        return false;
    };
    kept == expected.payload_type
}

// What is remembered of types after a frame with this PSI byte, which is judged where the type
// check is on and the frame is numbered 0.
#[tactic(auto, unfolding(crate::specs::Types::types_after))]
pub fn read_psi(type_check: bool, types: Types, expected: Expected, psi: u8) -> Types
    ensures { result ≡ types_after type_check types expected psi }
{
    if !type_check {
        return types;
    }
    if expected.multiframe % 256 != 0 {
        return types;
    }
    judge(types, psi)
}

// Three running have a type accepted from any state, and from a new sink on only three do.
#[tactic(auto, using(crate::proofs::Laws::three_running))]
pub fn three_running()
    ensures { ThreeRunning }
{}

// What is remembered after one more frame numbered 0.
#[tactic(auto, unfolding(crate::specs::Types::judged))]
fn judge(types: Types, psi: u8) -> Types
    ensures { result ≡ judged types psi }
{
    Types {
        accepted: accepted_after(types.seen, types.accepted, psi),
        seen: seen_after(types.seen, psi),
    }
}

// The third such frame running has its type accepted; until then the earlier one, or none, stands.
fn accepted_after(seen: Seen, accepted: Option<u8>, psi: u8) -> Option<u8>
    ensures { result ≡ accepted_after seen accepted psi }
{
    match seen {
        Seen::Never => accepted,
        Seen::Once(_) => accepted,
        Seen::Twice(last) => {
            if last == psi {
                return Some(psi);
            }
            accepted
        }
    }
}

// A type that is not the last one begins a new run.
fn seen_after(seen: Seen, psi: u8) -> Seen
    ensures { result ≡ seen_after seen psi }
{
    if is_last(seen, psi) {
        return Seen::Twice(psi);
    }
    Seen::Once(psi)
}

// Whether the last frame numbered 0 had this type.
fn is_last(seen: Seen, psi: u8) -> bool
    ensures { result ≡ is_last seen psi }
{
    match seen {
        Seen::Never => false,
        Seen::Once(last) => last == psi,
        Seen::Twice(last) => last == psi,
    }
}
