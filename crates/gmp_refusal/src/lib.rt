// The refusals of the mapper's calls: their numbers and names, and a verdict made line by line.
// What a call's checks come to is a verdict: `Ok(())`, or why the call is turned back.
#![tactic(auto)]

ghost use Rattle.std.specs.Prelude.{◌≡◌};
ghost use Rattle.refusals.specs.Table.{reason, with_line};
ghost use Rattle.gmp_refusal.specs.Refusal.{refusal_number, refusal_place, verdict_number};

// Why a call is turned back, in the order of the papers' numbers: 1 to 10, and 14. No call of the
// mapper answers a number between.
#[derive(Clone, Copy)]
pub enum Refusal {
    Grid,
    Window,
    Divisor,
    Rate,
    State,
    Count,
    Client,
    Frame,
    Space,
    Port,
    Patterns,
}

// The names of the refusals in the order of their numbers, each in 8 bytes, and their lengths. One
// text and its lengths, and no array of texts: `program_name::name_of` promises of such a text.
pub const NAMES: [u8; 88] =
    *b"grid    window  divisor rate    state   count   client  frame   space   port    patterns";

pub const NAME_LENGTHS: [usize; 11] = [4, 6, 7, 4, 5, 5, 6, 5, 5, 4, 8];

// The verdict with one more line of the paper's table: a refusal so far stands, and an accepted
// call is refused where the line's condition applies.
pub fn refuse_if(
    verdict: Result<(), Refusal>,
    applies: bool,
    refusal: Refusal,
) -> Result<(), Refusal>
    ensures { verdict_number result ≡ with_line (verdict_number verdict) (reason (refusal_number refusal) applies) }
{
    verdict?;
    if applies {
        return Err(refusal);
    }
    Ok(())
}

// The paper's number of a verdict, 0 for an accepted call. The number is worked from the place, so
// that the library holds no table of numbers.
pub fn refusal_number(verdict: Result<(), Refusal>) -> u32
    ensures { result ≡ verdict_number verdict }
{
    let Err(refusal) = verdict else {
        return 0;
    };
    let place = refusal_place(refusal);
    if place < 11 {
        return place;
    }
    place + 3
}

// The place of a refusal in the order of their numbers, from 1, for the programs, which take a name
// out of `NAMES` by it.
pub fn refusal_place(refusal: Refusal) -> u32
    ensures { result ≡ refusal_place refusal }
{
    match refusal {
        Refusal::Grid => 1,
        Refusal::Window => 2,
        Refusal::Divisor => 3,
        Refusal::Rate => 4,
        Refusal::State => 5,
        Refusal::Count => 6,
        Refusal::Client => 7,
        Refusal::Frame => 8,
        Refusal::Space => 9,
        Refusal::Port => 10,
        Refusal::Patterns => 11,
    }
}
