// Takes the client bytes out of a frame, at the places of the count.
#![tactic(auto)]

ghost use Rattle.std.specs.Prelude.{◌≡◌, ◌++◌, ◌≤◌, ◌<◌, length, drop};
ghost use Rattle.gmp_stuffing.specs.Row.{row_client};
ghost use Rattle.gmp_frame.specs.Frame.{HasRoom, columns, client_bytes, client_taken};

// Copies the client bytes of a frame, at the places of the count, to the start of the buffer, and
// leaves the rest of it. A frame that has not a frame's length, or a count above its payload or
// above the buffer's length, leave the buffer as it was.
#[tactic(auto, using(gmp_frame::proofs::Laws::taken_fits), unfolding(gmp_frame::specs::Frame::client_taken))]
pub fn take_client(frame_in: &[u8], k: u32, count: u32, out: &mut [u8])
    ensures { out.new ≡ client_taken k count frame_in.now out.old }
{
    let columns = k as usize;
    let c = count as usize;
    if frame_in.len() == 4 * columns + 8 && c <= 4 * columns && c <= out.len() {
        extract(frame_in, columns, c, out);
    }
}

// Copies the client bytes of a frame to the start of the buffer, row by row. Four calls and no
// loop, as where a frame is written, whose rows begin with bytes of their own.
#[tactic(auto, using(crate::proofs::Taking::four_taken))]
fn extract(frame_in: &[u8], k: usize, c: usize, out: &mut [u8])
    requires { HasRoom k c frame_in.now × (c ≤ length out.old) }
    ensures { out.new ≡ client_bytes k c frame_in.now ++ drop c out.old }
{
    extract_row(frame_in, k, c, 0, out);
    extract_row(frame_in, k, c, 1, out);
    extract_row(frame_in, k, c, 2, out);
    extract_row(frame_in, k, c, 3, out);
}

// Copies the client bytes of row r (from 0) of a frame to their place in the buffer.
#[tactic(auto, using(gmp_stuffing::proofs::Laws::fits_where, gmp_stuffing::proofs::Laws::taken_fits, gmp_frame::proofs::Rows::length_columns, crate::proofs::Taking::as_column))]
fn extract_row(frame_in: &[u8], k: usize, c: usize, r: usize, out: &mut [u8])
    requires { HasRoom k c frame_in.now × (c ≤ length out.old) × (r < 4) }
    ensures { out.new ≡ row_client k r c (columns k frame_in.now r) out.old }
{
    let first = r * (k + 2) + 2;
    let end = first + k;
    gmp_stuffing::take_row(&frame_in[first..end], c, r, out);
}
