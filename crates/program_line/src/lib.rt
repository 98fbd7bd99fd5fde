// The line that odu0demap says of a frame, as much of it as has room. A struct of the line and its
// length would be no plainer: each method would have to promise that it keeps to the same line. It
// is made by hand and not by `write!`: the must-fail edits of `put` hold it to the line's end.
#![tactic(auto)]

ghost use Rattle.io.specs.Counts.{IsPrefixLen};

use gmp_standing::{Count, NAME_LENGTHS, NAMES, Standing};

// Makes the line with the number of a frame, its standing, its count or "-", and that it was
// mended, and gives its length.
pub fn put_change(line: &mut [u8], frame_number: u64, standing: Standing, was_mended: bool) -> usize
    ensures { IsPrefixLen result line.new }
{
    let a = put(line, 0, b"frame ");
    let b = put_number(line, a, frame_number);
    let c = put(line, b, b": ");
    let d = put_name(line, c, standing);
    let e = put_count(line, d, gmp_standing::found_count(standing));
    put(line, e, if was_mended { b" mended\n" } else { b"\n" })
}

// Puts the name of a standing behind the first `at` bytes of a line, and gives the length then.
fn put_name(line: &mut [u8], at: usize, standing: Standing) -> usize
    ensures { IsPrefixLen result line.new }
{
    let number = gmp_standing::standing_number(standing) as usize;
    let name = program_name::name_of(&NAMES, &NAME_LENGTHS, number);
    put(line, at, name)
}

// Puts a space and the count found there, or "-" where there is none.
fn put_count(line: &mut [u8], at: usize, count: Count) -> usize
    ensures { IsPrefixLen result line.new }
{
    let Count::Known(n) = count else {
        return put(line, at, b" -");
    };
    let a = put(line, at, b" ");
    put_number(line, a, u64::from(n))
}

// Puts a number there in decimal.
fn put_number(line: &mut [u8], at: usize, n: u64) -> usize
    ensures { IsPrefixLen result line.new }
{
    let mut digits = [0u8; 20];
    let k = io::decimal(n, &mut digits);
    put(line, at, &digits[..k])
}

// Puts these bytes there, as many as have room.
fn put(line: &mut [u8], at: usize, text: &[u8]) -> usize
    ensures { IsPrefixLen result line.new }
{
    let at = at.min(line.len());
    let n = text.len().min(line.len() - at);
    line[at..at + n].copy_from_slice(&text[..n]);
    at + n
}
