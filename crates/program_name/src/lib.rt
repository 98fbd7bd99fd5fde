// A name out of a text of names, for the programs that write one.
#![tactic(auto)]

ghost use Rattle.std.specs.Prelude.{◌≡◌, [], MatchOption};
ghost use Rattle.program_name.specs.Name.{name_of};

// The name with this number, from 1, in a text of names in 8 bytes each, with these lengths. It is
// empty if the text has no such name.
pub fn name_of<'a>(names: &'a [u8], lengths: &[usize], number: usize) -> &'a [u8]
    ensures { result.now ≡ name_of names.now lengths.now number }
{
    name_in(names, lengths, number).unwrap_or(&[])
}

// That name, if the text has it.
fn name_in<'a>(names: &'a [u8], lengths: &[usize], number: usize) -> Option<&'a [u8]>
    ensures { MatchOption result (name_of names.now lengths.now number ≡ []) (λ name. name.now ≡ name_of names.now lengths.now number) }
{
    let place = number.checked_sub(1)?;
    let length = *lengths.get(place)?;
    let start = place.checked_mul(8)?;
    names.get(start..)?.get(..length)
}
