// A program's arguments, and what it says on standard error: messages with a number, and why
// something failed. Where standard error takes no bytes nothing is said.
#![tactic(auto)]

use std::env::{Env, FillError};
use std::io::{Cursor, Error, Write};

// What the library puts between a reason and its number.
const BEFORE_NUMBER: &[u8] = b" (os error ";

// How many arguments the program was started with, its own name among them.
pub fn argument_count(env: &impl Env) -> usize {
    (0..usize::MAX)
        .find(|&i| !has_argument(env, i))
        .unwrap_or(usize::MAX)
}

// Whether there is an argument i, of any length.
fn has_argument(env: &impl Env, i: usize) -> bool {
    !matches!(env.arg(i, &mut []), Err(FillError::NotPresent))
}

// The number that an argument spells in decimal, in at most 64 bytes.
pub fn argument(env: &impl Env, i: usize) -> Option<u32> {
    let mut text = [0u8; 64];
    let n = env.arg(i, &mut text).ok()?;
    program_decimal::parse(&text[..n])
}

// Writes a text to standard error.
pub fn tell(error: &mut impl Write, text: &[u8]) {
    let _ = error.write_all(text);
}

// Writes a text and a number behind it to standard error.
pub fn say(error: &mut impl Write, text: &[u8], n: u64) {
    tell(error, text);
    let _ = write!(error, "{n}");
}

// The same, and ends the line.
pub fn say_line(error: &mut impl Write, text: &[u8], n: u64) {
    say(error, text, n);
    tell(error, b"\n");
}

// Says what failed, by its name, and the system's reason, on a line.
pub fn say_failed(error: &mut impl Write, name: &[u8], why: Error) {
    let mut text = Cursor::new([0u8; 128]);
    let _ = write!(text, "{why}");
    let all = text.into_inner();
    tell(error, name);
    tell(error, b": ");
    tell(error, reason(&all));
    tell(error, b"\n");
}

// The reason alone, in the system's words: what stands before the number that the library puts
// behind them, and before the zeros that fill the rest.
fn reason(text: &[u8]) -> &[u8] {
    let end = text.iter().position(|&byte| byte == 0);
    let text = &text[..end.unwrap_or(text.len())];
    let end = text
        .windows(BEFORE_NUMBER.len())
        .position(|part| part == BEFORE_NUMBER);
    &text[..end.unwrap_or(text.len())]
}
