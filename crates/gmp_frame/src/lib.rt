// The frame of the generic mapper: its layout of four rows, with the payload bytes at the stuffing
// places, and the control bytes and the PSI byte of a frame. Writing a frame is in the crate
// gmp_frame_write, taking the client bytes out of one in the crate gmp_frame_read.
#![tactic(auto)]

ghost use Rattle.std.specs.Prelude.{◌≡◌, get_or};
ghost use Rattle.gmp_frame.specs.Frame.{control_of, psi_of, FrameGivesBack};

// The three control bytes of a frame.
#[derive(Clone, Copy)]
pub struct Control {
    pub jc1: u8,
    pub jc2: u8,
    pub jc3: u8,
}

// The control bytes of a frame on a grid of k columns; zero for those that a short frame does not
// have.
#[tactic(auto, unfolding(crate::specs::Frame::control_of))]
pub fn control_of(frame_in: &[u8], k: u32) -> Control
    ensures { result ≡ control_of k frame_in.now }
{
    let columns = k as usize;
    Control {
        jc1: byte_at(frame_in, 1),
        jc2: byte_at(frame_in, columns + 3),
        jc3: byte_at(frame_in, 2 * columns + 5),
    }
}

// The PSI byte of a frame on a grid of k columns; zero where a short frame does not have it.
#[tactic(auto, unfolding(crate::specs::Frame::psi_of))]
pub fn psi_of(frame_in: &[u8], k: u32) -> u8
    ensures { result ≡ psi_of k frame_in.now }
{
    let columns = k as usize;
    byte_at(frame_in, 3 * columns + 6)
}

// What was written to a frame is what is taken out of it, for every grid, count and load.
#[tactic(auto, using(crate::proofs::Laws::client_taken_lem, crate::proofs::Laws::control_written, crate::proofs::Laws::psi_written))]
pub fn frame_gives_back()
    ensures { FrameGivesBack }
{}

// The byte at an index, or zero past the end.
fn byte_at(bytes: &[u8], i: usize) -> u8
    ensures { result ≡ get_or bytes.now i 0 }
{
    bytes.get(i).copied().unwrap_or(0)
}
