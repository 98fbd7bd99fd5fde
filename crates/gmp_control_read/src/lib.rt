// How a sink's count follows a control word that was read, whole or mended (rules 2 and 3 of 01's
// "Sink").
#![tactic(auto)]

ghost use Rattle.std.specs.Prelude.{◌≡◌};
ghost use Rattle.gmp_standing.specs.Standing.{standing_meaning};
ghost use Rattle.gmp_control.specs.Word.{count_bits, equal_indicators, sign, word_by};
ghost use Rattle.gmp_control.specs.Pattern.{table_of};
ghost use Rattle.gmp_control.specs.Follow.{usable, tracked, candidate, from_count, from_word, tracked_else_paired, reached, windowed, Follows};

use gmp_control::Followed;
use gmp_settings::Settings;
use gmp_standing::{Count, Standing};

// What a word that was read leads to, from a known count or none and a remembered word or
// none. A count outside the window and a remembered word with II = DI count as none.
#[tactic(auto, unfolding(gmp_control::specs::Follow::found_by))]
pub fn follow(settings: Settings, count: Count, earlier: Option<u32>, jc1: u8, jc2: u8) -> Followed
    ensures { Follows settings count earlier (word_by jc1 jc2) result }
{
    let word = join(jc1, jc2);
    let known = gmp_standing::known_count(settings, count);
    let remembered = usable_word(earlier);
    let standing = judge_window(settings, read_word(settings, known, remembered, word));
    Followed {
        standing: standing,
        count: gmp_standing::found_count(standing),
        word: usable_word(Some(word)),
    }
}

// The remembered word, where there is one and its II and DI differ.
#[tactic(auto, unfolding(gmp_control::specs::Follow::usable))]
fn usable_word(earlier: Option<u32>) -> Option<u32>
    ensures { result ≡ usable earlier }
{
    let w = earlier?;
    if equal_indicators(w) {
        return None;
    }
    Some(w)
}

// Rules 2 and 3, before the window.
#[tactic(auto, unfolding(gmp_control::specs::Follow::reached))]
fn read_word(settings: Settings, count: Count, earlier: Option<u32>, word: u32) -> Standing
    ensures { standing_meaning result ≡ reached (table_of settings) count earlier word }
{
    if equal_indicators(word) {
        return Standing::Read(count_bits(word));
    }
    tracked_else_paired(track(settings, count, word), pair(settings, earlier, word))
}

// Rule 3: a count from the known one goes before a count from the remembered word.
fn tracked_else_paired(tracked: Count, paired: Count) -> Standing
    ensures { standing_meaning result ≡ tracked_else_paired tracked paired }
{
    match (tracked, paired) {
        (Count::Known(n), _) => Standing::Tracked(n),
        (Count::Unknown, Count::Known(m)) => Standing::Paired(m),
        (Count::Unknown, Count::Unknown) => Standing::Waiting,
    }
}

// A count that was reached and lies outside the window becomes none.
fn judge_window(settings: Settings, standing: Standing) -> Standing
    ensures { standing_meaning result ≡ windowed settings (standing_meaning standing) }
{
    let Count::Known(reached) = gmp_standing::found_count(standing) else {
        return standing;
    };
    if gmp_settings_judge::is_outside(settings, reached) {
        return Standing::Outside;
    }
    standing
}

// The count that a word leads to from the known count.
fn track(settings: Settings, count: Count, word: u32) -> Count
    ensures { result ≡ from_count (table_of settings) count word }
{
    let Count::Known(n) = count else {
        return Count::Unknown;
    };
    continue_count(settings, n, word)
}

// The count that a word leads to from the two possible counts of the remembered word.
#[tactic(auto, unfolding(gmp_control::specs::Follow::paired))]
fn pair(settings: Settings, earlier: Option<u32>, word: u32) -> Count
    ensures { result ≡ from_word (table_of settings) earlier word }
{
    let Some(v) = earlier else {
        return Count::Unknown;
    };
    let s = sign_of(v);
    match continue_count(settings, possible(settings, v, s), word) {
        Count::Known(n) => Count::Known(n),
        Count::Unknown => continue_count(settings, possible(settings, v, s + 2), word),
    }
}

// A count that a word with II != DI continues by one of the two patterns of its sign moves by that
// change.
#[tactic(auto, unfolding(gmp_control::specs::Follow::tracked))]
fn continue_count(settings: Settings, count: u32, word: u32) -> Count
    ensures { result ≡ tracked (table_of settings) count (count_bits word) (sign word) }
{
    let inverted = count_bits(word) ^ count;
    let s = sign_of(word);
    if inverted == gmp_control::pattern(settings, s) {
        return Count::Known(gmp_control::move_count(count, s));
    }
    if inverted == gmp_control::pattern(settings, s + 2) {
        return Count::Known(gmp_control::move_count(count, s + 2));
    }
    Count::Unknown
}

// The count that a word leads to if it stands for this change.
#[tactic(auto, unfolding(gmp_control::specs::Follow::candidate))]
fn possible(settings: Settings, word: u32, change: usize) -> u32
    ensures { result ≡ candidate (table_of settings) (count_bits word) change }
{
    let bits = count_bits(word);
    let count = bits ^ gmp_control::pattern(settings, change);
    gmp_control::move_count(count, change)
}

// The word of two bytes.
fn join(jc1: u8, jc2: u8) -> u32
    ensures { result ≡ word_by jc1 jc2 }
{
    ((jc1 as u32) << 8) | (jc2 as u32)
}

// C1 to C14 of a word.
fn count_bits(word: u32) -> u32
    ensures { result ≡ count_bits word }
{
    (word >> 2) & 16383
}

// Whether II = DI.
#[tactic(auto, unfolding(gmp_control::specs::Word::equal_indicators))]
fn equal_indicators(word: u32) -> bool
    ensures { result ≡ equal_indicators word }
{
    (word >> 1) & 1 == word & 1
}

// The sign of a word: DI.
fn sign_of(word: u32) -> usize
    ensures { result ≡ sign word }
{
    (word & 1) as usize
}
