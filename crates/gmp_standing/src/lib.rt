// The six standings of a sink with what each found, their names, and the count that it knows or
// does not know.
#![tactic(auto)]

ghost use Rattle.std.specs.Prelude.{◌≡◌};
ghost use Rattle.gmp_standing.specs.Standing.{standing_meaning, standing_number};
ghost use Rattle.gmp_standing.specs.Known.{in_window};

use gmp_settings::Settings;

// A count, where it is known. It stays an enum of its own: 01 names its two cases in "Where each
// language form belongs".
#[derive(Clone, Copy, PartialEq, Eq)]
pub enum Count {
    Known(u32),
    Unknown,
}

// The answer of a sink to a frame: the first three found a count.
#[derive(Clone, Copy)]
pub enum Standing {
    Read(u32),
    Tracked(u32),
    Paired(u32),
    BadCheck,
    Waiting,
    Outside,
}

// The names of the standings in the order of their numbers, each in 8 bytes, and their lengths. One
// text and its lengths, and no array of texts: `program_name::name_of` promises of such a text.
pub const NAMES: [u8; 48] = *b"READ    TRACKED PAIRED  BADCHECKWAITING OUTSIDE ";

pub const NAME_LENGTHS: [usize; 6] = [4, 7, 6, 8, 7, 7];

// The count, where it is known and inside the window.
#[tactic(auto, unfolding(crate::specs::Known::in_window))]
pub fn known_count(settings: Settings, count: Count) -> Count
    ensures { result ≡ in_window settings count }
{
    let Count::Known(n) = count else {
        return Count::Unknown;
    };
    if gmp_settings_judge::is_outside(settings, n) {
        return Count::Unknown;
    }
    Count::Known(n)
}

// What a standing found.
pub fn found_count(standing: Standing) -> Count
    ensures { result ≡ (standing_meaning standing).count }
{
    match standing {
        Standing::Read(n) => Count::Known(n),
        Standing::Tracked(n) => Count::Known(n),
        Standing::Paired(n) => Count::Known(n),
        Standing::BadCheck => Count::Unknown,
        Standing::Waiting => Count::Unknown,
        Standing::Outside => Count::Unknown,
    }
}

// The number of a standing, 1 to 6, for C and for the programs, which know standings by numbers.
pub fn standing_number(standing: Standing) -> u32
    ensures { result ≡ standing_number (standing_meaning standing).name }
{
    match standing {
        Standing::Read(_) => 1,
        Standing::Tracked(_) => 2,
        Standing::Paired(_) => 3,
        Standing::BadCheck => 4,
        Standing::Waiting => 5,
        Standing::Outside => 6,
    }
}
