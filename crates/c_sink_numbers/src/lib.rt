// The sink's state, its reply and the tallies as the plain numbers that C and Rust see, and that
// what crosses can be read back. The calls are in the crate c_sink.
#![tactic(auto)]

ghost use Rattle.c_sink_numbers.specs.Lossless.{Lossless};

// A sink's state: a flag, 0 for none, beside the count, beside the remembered word and beside the
// accepted payload type; and how often the type that was seen last was seen: 0, 1, or any other
// number for twice or more. Flags and numbers, and no Option or enum, since C reads and writes this
// struct.
#[repr(C)]
#[derive(Clone, Copy)]
pub struct SinkNumbers {
    pub known: u32,
    pub count: u32,
    pub remembered: u32,
    pub word: u32,
    pub accepted: u32,
    pub seen: u32,
    pub accepted_type: u8,
    pub seen_type: u8,
}

// The refusal's number or 0, the standing's number or 0, what it found, the bytes handed out, a
// flag, 1 where a wrong control bit was mended, and the sink's state. Numbers, and no Result, since
// C reads this struct.
#[repr(C)]
#[derive(Clone, Copy)]
pub struct SinkReply {
    pub refusal: u32,
    pub standing: u32,
    pub found: u32,
    pub count: u32,
    pub handed: u32,
    pub mended: u32,
    pub state: SinkNumbers,
}

// What crosses can be read back.
#[tactic(auto, using(crate::proofs::Laws::lossless))]
pub fn lossless()
    ensures { Lossless }
{}
