// Whether odu0demap has anything to tell of a frame that it took.
#![tactic(auto)]

ghost use Rattle.std.specs.Prelude.{◌≡◌};
ghost use Rattle.gmp_standing.specs.Standing.{standing_meaning};
ghost use Rattle.program_told.specs.Told.{is_same, has_no_line, same_type, nothing_to_tell_by};

use gmp_standing::Standing;
use program_demap::{Demapper, Taken};

// Whether nothing is to be told of a frame: neither its standing, nor a change of the accepted
// type.
pub fn has_nothing_to_tell(before: Demapper, taken: Taken) -> bool
    ensures { result ≡ nothing_to_tell_by before (standing_meaning taken.standing) taken.mended taken.after }
{
    has_no_line(before, taken.standing, taken.mended)
        && is_same_type(accepted_type(before), accepted_type(taken.after))
}

// Whether nothing is said of a frame: nothing was mended, and its standing is that of the frame
// before.
pub fn has_no_line(before: Demapper, standing: Standing, mended: bool) -> bool
    ensures { result ≡ has_no_line before (standing_meaning standing) mended }
{
    !mended && is_same(before, standing)
}

// Whether a standing is that of the frame before: the same name, and the same count found, which
// the sink's state has kept.
fn is_same(before: Demapper, standing: Standing) -> bool
    ensures { result ≡ is_same before (standing_meaning standing) }
{
    gmp_standing::standing_number(standing) == before.last
        && gmp_standing::found_count(standing) == before.state.count
}

// Whether two accepted types are the same, or there is none both times.
pub fn is_same_type(one: Option<u8>, other: Option<u8>) -> bool
    ensures { result ≡ same_type one other }
{
    one == other
}

// The type that a demapper's sink has accepted, or none.
pub fn accepted_type(demapper: Demapper) -> Option<u8>
    ensures { result ≡ demapper.state.types.accepted }
{
    demapper.state.types.accepted
}
