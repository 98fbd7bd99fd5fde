// Writes a frame: the control bytes, the PSI byte, and the client bytes at the places of their
// count.
#![tactic(auto)]

ghost use Rattle.std.specs.Prelude.{◌≡◌, ◌++◌, ◌+◌, ◌*◌, ◌<◌, length, take, drop};
ghost use Rattle.gmp_frame.specs.Frame.{HasRoom, row, frame, frame_written};

use gmp_frame::Control;

// Writes the frame of the client bytes on a grid of k columns. A buffer that has not a frame's
// length, or client bytes that are more than its payload, leave the buffer as it was.
#[tactic(auto, using(gmp_frame::proofs::Laws::written_fits), unfolding(gmp_frame::specs::Frame::frame_written))]
pub fn write_frame(buffer: &mut [u8], k: u32, client: &[u8], control: Control, psi: u8)
    ensures { buffer.new ≡ frame_written k client.now control psi buffer.old }
{
    let columns = k as usize;
    if buffer.len() == 4 * columns + 8 && client.len() <= 4 * columns {
        fill(buffer, client, columns, control, psi);
    }
}

// Writes a whole frame, row by row.
fn fill(buffer: &mut [u8], client: &[u8], k: usize, control: Control, psi: u8)
    requires { HasRoom k (length client.now) buffer.old }
    ensures { buffer.new ≡ frame k client.now control psi }
{
    write_row(buffer, client, k, 0, 0, control.jc1);
    write_row(buffer, client, k, 1, 0, control.jc2);
    write_row(buffer, client, k, 2, 0, control.jc3);
    write_row(buffer, client, k, 3, psi, 0);
}

// Writes row r (from 0) of a frame, with its first two bytes a and b, and leaves the other rows.
fn write_row(buffer: &mut [u8], client: &[u8], k: usize, r: usize, a: u8, b: u8)
    requires { HasRoom k (length client.now) buffer.old × (r < 4) }
    ensures { buffer.new
        ≡ (take (r * (k + 2)) buffer.old ++ row k client.now r a b)
        ++ drop (r * (k + 2) + (k + 2)) buffer.old }
{
    let start = r * (k + 2);
    let first = start + 2;
    let end = first + k;
    buffer[start] = a;
    buffer[start + 1] = b;
    gmp_stuffing::place_row(&mut buffer[first..end], client, r);
}
