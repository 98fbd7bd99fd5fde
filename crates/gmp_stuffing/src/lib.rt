// Writes the payload bytes of a row, at the stuffing places, and takes the client bytes out of it.
// A row without stuffing is one run. In rows of 16 to 2^17 - 1 bytes: where more than two thirds of
// the payload are client bytes, those between two stuffing bytes are copied as one run, and where
// they are no more, each goes to its place in a cleared row. A place is told by a sum in small
// parts of a byte, so that one addition leads from one to the next: there is no division for a
// byte. Other rows go byte by byte.
#![tactic(auto)]

ghost use Rattle.std.specs.Prelude.{◌≡◌, ◌+◌, ◌*◌, ◌≤◌, ◌<◌, ◌↔◌, IsTrue, length, replicate};
ghost use Rattle.gmp_row.specs.Row.{Told};
ghost use Rattle.gmp_stuffing.specs.Row.{row_fits, row_bytes, row_client, row_placed, row_taken};
ghost use Rattle.gmp_stuffing.specs.Copied.{copied};

use gmp_row::PARTS;

// Writes the payload bytes of row r (from 0) of a frame whose rows have as many of them as the
// buffer is long. A row that is not one of four, a buffer of 2^32 bytes or more, or client bytes
// that are more than the payload, leave the buffer as it was.
#[tactic(auto, using(crate::proofs::Laws::placed_fits, crate::proofs::Runs::full_placed), unfolding(crate::specs::Row::row_placed))]
pub fn place_row(part: &mut [u8], client: &[u8], r: usize)
    ensures { part.new ≡ row_placed r client.now part.old }
{
    let k = part.len();
    let c = client.len();
    if row_fits(k, r, c) {
        if c >= 4 * k {
            copy_run(part, 0, client, r * k, k);
        } else if goes_by_parts(k) {
            if 3 * c <= 8 * k {
                place_singles(part, client, r);
            } else {
                place_runs(part, client, r);
            }
        } else {
            place_bytes(part, client, r);
        }
    }
}

// Copies the client bytes among the payload bytes of row r (from 0) to their place in the buffer,
// and leaves the rest of it. A row that is not one of four, or has 2^32 bytes or more, or a count
// above the payload or above the buffer's length, leave the buffer as it was.
#[tactic(auto, using(crate::proofs::Laws::taken_fits, crate::proofs::Runs::full_taken), unfolding(crate::specs::Row::row_taken))]
pub fn take_row(part: &[u8], count: usize, r: usize, out: &mut [u8])
    ensures { out.new ≡ row_taken r count part.now out.old }
{
    let k = part.len();
    if count <= out.len() && row_fits(k, r, count) {
        if count >= 4 * k {
            copy_run(out, r * k, part, 0, k);
        } else if goes_by_parts(k) {
            if 3 * count <= 8 * k {
                take_singles(part, count, r, out);
            } else {
                take_runs(part, count, r, out);
            }
        } else {
            take_bytes(part, count, r, out);
        }
    }
}

// Whether r is one of four rows of k payload bytes, with k below 2^32, and c client bytes fit the
// payload.
#[tactic(auto, unfolding(crate::specs::Row::row_fits))]
fn row_fits(k: usize, r: usize, c: usize) -> bool
    ensures is { result ≡ row_fits k r c }
    ensures told { IsTrue result ↔ (k < 4294967296) × (r < 4) × (c ≤ 4 * k) }
{
    // Not one chain of `&&`: with that, placing on a grid of 2 columns took 1.05 of its time.
    if k >= 4294967296 || r >= 4 {
        return false;
    }
    c <= 4 * k
}

// Whether places of a row are told in parts: a row below 16 bytes is done before they pay, and has
// no room for a block; of one of 2^17 bytes or more it is not shown that they lead to the right
// byte.
fn goes_by_parts(k: usize) -> bool
    ensures { IsTrue result ↔ (16 ≤ k) × (k < 131072) }
{
    16 <= k && k < 131072
}

// Writes the payload bytes of row r, run by run: the client bytes before a stuffing byte, and that.
// Where runs have at most 32 bytes a run is copied as a block of one width, and what that writes
// too much is written again by what comes after; longer runs, and those near the row's end, are
// copied exactly. `stuffed` counts the frame's stuffing bytes so far.
fn place_runs(part: &mut [u8], client: &[u8], r: usize)
    requires { Told (length part.old) (length client.now) r × (8 * length part.old < 3 * length client.now) }
    ensures { part.new ≡ row_bytes (length part.old) r client.now }
{
    let k = part.len();
    let row = gmp_row::row_runs(k, client.len(), r);
    let hop = row.hop;
    let width = row.width;
    let stop = row.stop;
    let from = r * k;
    let mut stuffed = row.before;
    let mut parts = row.parts;
    let mut at = 0;
    // Not a `for`: a sum leads to the next stuffing byte, and how many there are is not worked out.
    while parts < stop {
        copy_pair(part, at, client, from + at - stuffed, width);
        part[parts / PARTS] = 0;
        stuffed += 1;
        at = parts / PARTS + 1;
        parts += hop;
    }
    let mut used = from + at - stuffed;
    // Not a `for`, as above.
    while parts / PARTS < k {
        let index = parts / PARTS;
        copy_run(part, at, client, used, index - at);
        part[index] = 0;
        used += index - at;
        at = index + 1;
        parts += hop;
    }
    copy_run(part, at, client, used, k - at);
}

// Copies the client bytes of row r, run by run as place_runs goes. What a block writes too much is
// written again too, since at least as many client bytes of this row come after as the block is
// wide: more than two thirds of a block and a half. What stands behind them is not the row's.
fn take_runs(part: &[u8], count: usize, r: usize, out: &mut [u8])
    requires { Told (length part.now) count r × (count ≤ length out.old) × (8 * length part.now < 3 * count) }
    ensures { out.new ≡ row_client (length part.now) r count part.now out.old }
{
    let k = part.len();
    let row = gmp_row::row_runs(k, count, r);
    let hop = row.hop;
    let width = row.width;
    let stop = row.stop;
    let from = r * k;
    let mut stuffed = row.before;
    let mut parts = row.parts;
    let mut at = 0;
    // Not a `for`: a sum leads to the next stuffing byte, and how many there are is not worked out.
    while parts < stop {
        copy_pair(out, from + at - stuffed, part, at, width);
        stuffed += 1;
        at = parts / PARTS + 1;
        parts += hop;
    }
    let mut taken = from + at - stuffed;
    // Not a `for`, as above.
    while parts / PARTS < k {
        let index = parts / PARTS;
        copy_run(out, taken, part, at, index - at);
        taken += index - at;
        at = index + 1;
        parts += hop;
    }
    copy_run(out, taken, part, at, k - at);
}

// Clears the row and puts each of its client bytes to its place.
fn place_singles(part: &mut [u8], client: &[u8], r: usize)
    requires { Told (length part.old) (length client.now) r × (16 ≤ length part.old) }
    ensures { part.new ≡ row_bytes (length part.old) r client.now }
{
    let k = part.len();
    clear(part);
    if client.len() == 0 {
        return;
    }
    let row = gmp_row::row_singles(k, client.len(), r);
    let mut parts = row.parts;
    for j in row.first..row.end {
        part[parts / PARTS] = client[j];
        parts += row.hop;
    }
}

// Takes each client byte of row r from its place.
fn take_singles(part: &[u8], count: usize, r: usize, out: &mut [u8])
    requires { Told (length part.now) count r × (count ≤ length out.old) }
    ensures { out.new ≡ row_client (length part.now) r count part.now out.old }
{
    if count == 0 {
        return;
    }
    let row = gmp_row::row_singles(part.len(), count, r);
    let mut parts = row.parts;
    for j in row.first..row.end {
        out[j] = part[parts / PARTS];
        parts += row.hop;
    }
}

// Writes the payload bytes of row r one by one. Row r begins after r * c / 4 client bytes; rest is
// the remainder by which the rule tells the places.
// What is asked of r and k is not `Told`, here and in `take_bytes`: such a row may be longer.
fn place_bytes(part: &mut [u8], client: &[u8], r: usize)
    requires { (length client.now < 4 * length part.old) × (r < 4) × (length part.old < 4294967296) }
    ensures { part.new ≡ row_bytes (length part.old) r client.now }
{
    let k = part.len();
    let c = client.len();
    let mut used = r * c / 4;
    let mut rest = r * c % 4 * k;
    for byte in part.iter_mut() {
        rest += c;
        if rest >= 4 * k {
            rest -= 4 * k;
            *byte = client[used];
            used += 1;
        } else {
            *byte = 0;
        }
    }
}

// Copies the client bytes of row r one by one, as place_bytes goes.
fn take_bytes(part: &[u8], count: usize, r: usize, out: &mut [u8])
    requires { (count < 4 * length part.now) × (count ≤ length out.old) × (r < 4) × (length part.now < 4294967296) }
    ensures { out.new ≡ row_client (length part.now) r count part.now out.old }
{
    let k = part.len();
    let mut taken = r * count / 4;
    let mut rest = r * count % 4 * k;
    for byte in part {
        rest += count;
        if rest >= 4 * k {
            rest -= 4 * k;
            out[taken] = *byte;
            taken += 1;
        }
    }
}

// Writes zero to every byte, in blocks of which each begins with the last byte of the one before,
// and the last ends the row: of blocks that do not overlap, and of `fill`, the compiler makes a
// call of memset, and a card need not have it.
fn clear(part: &mut [u8])
    requires { 16 ≤ length part.old }
    ensures { part.new ≡ replicate (length part.old) 0 }
{
    let k = part.len();
    let zeros = [0u8; 16];
    let mut i = 0;
    // Not a `step_by`: with that, placing half of OPU0's payload took 1.06 of its time.
    while i + 16 <= k {
        copy_block(part, i, &zeros, 0);
        i += 15;
    }
    copy_block(part, k - 16, &zeros, 0);
}

// Copies m bytes of src, from index j on, to dst, from index i on: fewer than 16 one by one, others
// in pairs of blocks, the last of which may lie over the one before. Two slices in the place of
// buffers and places would be no plainer: each call would have to say that they are as long.
fn copy_run(dst: &mut [u8], i: usize, src: &[u8], j: usize, m: usize)
    requires { (i + m ≤ length dst.old) × (j + m ≤ length src.now) }
    ensures { dst.new ≡ copied dst.old i src.now j m }
{
    if m < 16 {
        copy_bytes(dst, i, src, j, m);
    } else if m <= 32 {
        copy_pair(dst, i, src, j, m);
    } else {
        let mut k = 0;
        // Not a `step_by`: with that, taking on a grid of 2 columns took 1.1 of its time.
        while k + 32 <= m {
            copy_pair(dst, i + k, src, j + k, 32);
            k += 32;
        }
        let last = m - 32;
        copy_pair(dst, i + last, src, j + last, 32);
    }
}

// Copies m bytes, from 16 to 32: a block, and where that is not all a second one, which ends with
// them.
fn copy_pair(dst: &mut [u8], i: usize, src: &[u8], j: usize, m: usize)
    requires { (i + m ≤ length dst.old) × (j + m ≤ length src.now) × (16 ≤ m) × (m ≤ 32) }
    ensures { dst.new ≡ copied dst.old i src.now j m }
{
    copy_block(dst, i, src, j);
    if 16 < m {
        let last = m - 16;
        copy_block(dst, i + last, src, j + last);
    }
}

// Copies 16 bytes. The array in between lets the compiler take them as one block.
// Not by `copy_from_slice`: at OPU0's counts placing took 2.0, and taking 2.6, of its time with it.
fn copy_block(dst: &mut [u8], i: usize, src: &[u8], j: usize)
    requires { (i + 16 ≤ length dst.old) × (j + 16 ≤ length src.now) }
    ensures { dst.new ≡ copied dst.old i src.now j 16 }
{
    let mut block = [0u8; 16];
    copy_bytes(&mut block, 0, src, j, 16);
    copy_bytes(dst, i, &block, 0, 16);
}

// Copies m bytes one by one.
fn copy_bytes(dst: &mut [u8], i: usize, src: &[u8], j: usize, m: usize)
    requires { (i + m ≤ length dst.old) × (j + m ≤ length src.now) }
    ensures { dst.new ≡ copied dst.old i src.now j m }
{
    for k in 0..m {
        dst[i + k] = src[j + k];
    }
}
