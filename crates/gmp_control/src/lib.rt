// The control word of a frame: its parts, the inversion patterns, that every table of patterns that
// keeps the rule serves, that the rule is what number 14 asks, and that no part of it can be left
// out. What a source announces by the word is in the crate gmp_control_write, how a sink's count
// follows it in the crate gmp_control_read.
#![tactic(auto)]

ghost use Rattle.std.specs.Prelude.{◌≡◌};
ghost use Rattle.gmp_control.specs.Word.{moved};
ghost use Rattle.gmp_control.specs.Pattern.{table_of, pattern_at, change_at};
ghost use Rattle.gmp_control.specs.Claims.{TablesServe};
ghost use Rattle.gmp_control.specs.Checked.{RuleIsChecked, RuleIsNeeded};

use gmp_settings::{Patterns, Settings};
use gmp_standing::{Count, Standing};

// What a word leads to: the standing, the new count and the word to remember.
#[derive(Clone, Copy)]
pub struct Followed {
    pub standing: Standing,
    pub count: Count,
    pub word: Option<u32>,
}

// The standard's inversion patterns, C1 to C14, of the changes +1, -1, +2, -2.
const PATTERNS: [u32; 4] = [
    0b10101010101010,
    0b01010101010101,
    0b01100110011001,
    0b10011001100110,
];

// The same changes modulo 16,384.
const CHANGES: [u32; 4] = [1, 16383, 2, 16382];

// The pattern of a change, from the table of the settings: the standard's, or the four that they
// carry. A change is 0 to 3; any further number stands for none, and inverts nothing. It is a
// number and no enum, since 01 has the patterns as a table indexed by change.
#[tactic(auto, unfolding(crate::specs::Pattern::table_of))]
pub fn pattern(settings: Settings, change: usize) -> u32
    ensures { result ≡ pattern_at (table_of settings) change }
{
    if change < 4 {
        let patterns = settings.patterns;
        let Patterns::Given(four) = patterns else {
            return PATTERNS[change];
        };
        let given = [four.plus1, four.minus1, four.plus2, four.minus2];
        return given[change];
    }
    0
}

// A count after a change. Where that is none it stays, modulo 16,384.
pub fn move_count(count: u32, change: usize) -> u32
    ensures { result ≡ moved count (change_at change) }
{
    (count % 16384 + change_at(change)) % 16384
}

// Every table of patterns that keeps the rule serves: a true count is followed, and two words in
// succession find the count from any state.
#[tactic(auto, using(crate::proofs::Laws::tables_serve))]
pub fn tables_serve()
    ensures { TablesServe }
{}

// Settings to which number 14 does not apply have a table that keeps the rule, and no others have.
#[tactic(auto, using(crate::proofs::Tables::rule_is_checked))]
pub fn rule_is_checked()
    ensures { RuleIsChecked }
{}

// No part of the rule can be left out: for each part there is a table that keeps the other two, and
// a run of two words in succession that do not find the count.
#[tactic(auto, using(crate::proofs::Needed::rule_is_needed))]
pub fn rule_is_needed()
    ensures { RuleIsNeeded }
{}

// A change, modulo 16,384.
fn change_at(change: usize) -> u32
    ensures { result ≡ change_at change }
{
    if change < 4 {
        return CHANGES[change];
    }
    0
}
