// The numbers of a row, by which the placing goes through it: where its stuffing bytes or its
// client bytes stand, in parts of a byte. A row has k payload bytes, the frame has c client bytes,
// and r is the row, from 0. They go apart: a struct of them would be made for one call each time.
// They are told of one of four rows below 2^17 bytes that leave room for stuffing; of other numbers
// nothing is promised.
#![tactic(auto)]

ghost use Rattle.std.specs.Prelude.{ℕ, ◌+◌, ◌*◌, ◌/◌, ◌≤◌, ◌<◌, ◌↔◌, IsTrue};
ghost use Rattle.gmp_row.specs.Row.{Told, RunsOf, SinglesOf};

// As many parts has a byte, 2^40: in rows below 2^17 bytes a place told in them lies in the right
// byte.
pub const PARTS: usize = 1099511627776;

// The stuffing bytes of a row: how many come before the row, where the next one stands, be it in a
// later row, and how far it is from one to the next, in parts; and the width of a block, which
// holds any run and has room as long as the next stuffing byte stands below stop.
#[derive(Clone, Copy)]
pub struct RowRuns {
    pub before: usize,
    pub parts: usize,
    pub hop: usize,
    pub width: usize,
    pub stop: usize,
}

// The client bytes of a row: the number of the first and that after the last, where the first
// stands, be it in a later row, and how far it is from one to the next, in parts.
#[derive(Clone, Copy)]
pub struct RowSingles {
    pub first: usize,
    pub end: usize,
    pub parts: usize,
    pub hop: usize,
}

// The stuffing bytes of row r. Stuffing byte t of a frame (from 0) stands at index t * 4k / d of
// the payload, d being their number. In parts, counted from the row's start, that is rounded up, by
// less than a d-th of a byte. The numbers are picked before they are used, not the answer after:
// so the compiler sees that a block is 16 or 32 bytes wide (DECISIONS 119).
pub fn row_runs(k: usize, c: usize, r: usize) -> RowRuns
    ensures { Told k c r → RunsOf k c r result }
{
    let (k, c, r) = if is_told(k, c, r) {
        (k, c, r)
    } else {
        (1, 3, 0)
    };
    runs_of(k, c, r)
}

// The stuffing bytes of a row that is told.
fn runs_of(k: usize, c: usize, r: usize) -> RowRuns
    requires { Told k c r }
    ensures { RunsOf k c r result }
{
    let d = 4 * k - c;
    let quarter = k * PARTS / d + 1;
    let width = width_for(c, d);
    let before = (r * d + 3) / 4;
    RowRuns {
        before,
        parts: (4 * before - r * d) * quarter,
        hop: 4 * quarter,
        width,
        stop: blocks_stop(k, c, d, width),
    }
}

// The width of a block: it holds every run where c is at most 32 * d, since a run has at most c / d
// client bytes, rounded up.
fn width_for(c: usize, d: usize) -> usize
    requires { (c < 4294967296) × (d < 4294967296) }
    ensures { (16 ≤ result) × (result ≤ 32) × ((c ≤ 32 * d) → (c ≤ result * d)) }
{
    if c <= 16 * d { 16 } else { 32 }
}

// Up to where blocks have room, in parts: behind the next stuffing byte at least a block and a half
// is left of the row. Nowhere, 0, where runs may be longer than a block, or the row has no more
// than that.
fn blocks_stop(k: usize, c: usize, d: usize, width: usize) -> usize
    requires { (k < 131072) × (d < 4294967296) × (width ≤ 32) }
    ensures { (x : ℕ) → x < result → (c ≤ 32 * d) × (2 * (x / 1099511627776) + 3 * width < 2 * k) }
{
    let room = width + width / 2;
    if c > 32 * d || k <= room {
        return 0;
    }
    (k - room) * PARTS
}

// The client bytes of row r. Client byte j of a frame (from 0) stands at index
// ((j + 1) * 4k - 1) / c of the payload, the last one below (j + 1) * 4k / c. In parts, counted
// from the row's start, that end is rounded down, by less than a c-th of a byte, and one part is
// taken off.
pub fn row_singles(k: usize, c: usize, r: usize) -> RowSingles
    ensures { Told k c r → 0 < c → SinglesOf k c r result }
{
    // The choice of `row_runs`, but for a frame with no client byte: one function for both would
    // take the test as an argument.
    let (k, c, r) = if c > 0 && is_told(k, c, r) {
        (k, c, r)
    } else {
        (1, 3, 0)
    };
    singles_of(k, c, r)
}

// The client bytes of a row that is told and has some.
fn singles_of(k: usize, c: usize, r: usize) -> RowSingles
    requires { Told k c r × (0 < c) }
    ensures { SinglesOf k c r result }
{
    let quarter = k * PARTS / c;
    let quarters = r * c;
    RowSingles {
        first: quarters / 4,
        end: (quarters + c) / 4,
        parts: (4 - quarters % 4) * quarter - 1,
        hop: 4 * quarter,
    }
}

// Whether a row is told.
fn is_told(k: usize, c: usize, r: usize) -> bool
    ensures { IsTrue result ↔ Told k c r }
{
    k < 131072 && r < 4 && c < 4 * k
}
