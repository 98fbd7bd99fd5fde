// The card's tallies for C and Rust, as 24 numbers, and the card's total.
#![tactic(auto)]

ghost use Rattle.std.specs.Prelude.{◌≡◌, ◌<◌};
ghost use Rattle.card_tally.specs.Ports.{total_of};
ghost use Rattle.c_sink_numbers.specs.Numbers.{tally_at, tallies_from, tallies_numbers};

use card_tally::{Tallies, Tally, Total};

pub fn odu0_card_total(tallies: &[u32; 24]) -> Total
    ensures { result ≡ total_of (tallies_from tallies.now) }
{
    card_tally::card_total(tallies_from(*tallies))
}

// The tallies that 24 numbers stand for, three for each port in the order of the ports, and the 24
// numbers of tallies. Neither is a `From`: an array is no type of this crate.
pub fn tallies_from(numbers: [u32; 24]) -> Tallies
    ensures { result ≡ tallies_from numbers }
{
    let mut ports = [Tally::default(); 8];
    for (place, tally) in ports.iter_mut().enumerate() {
        *tally = tally_at(numbers, 3 * place);
    }
    Tallies { ports }
}

pub fn tallies_numbers(tallies: Tallies) -> [u32; 24]
    ensures { result ≡ tallies_numbers tallies }
{
    let mut numbers = [0; 24];
    for (place, tally) in tallies.ports.iter().enumerate() {
        numbers[3 * place] = tally.frames;
        numbers[3 * place + 1] = tally.badcheck;
        numbers[3 * place + 2] = tally.bytes;
    }
    numbers
}

// The tally that three numbers in a row stand for.
fn tally_at(numbers: [u32; 24], place: usize) -> Tally
    requires { place < 22 }
    ensures { result ≡ tally_at numbers place }
{
    Tally {
        frames: numbers[place],
        badcheck: numbers[place + 1],
        bytes: numbers[place + 2],
    }
}
