// The settings for C and Rust: numbers in, and that all settings can be said so. All meaning is in
// the crates below; here values are only converted.
#![tactic(auto)]

ghost use Rattle.std.specs.Prelude.{◌≡◌};
ghost use Rattle.c_settings.specs.Numbers.{patterns_from, settings_from};
ghost use Rattle.c_settings.specs.Lossless.{Lossless};

use gmp_settings::{FourPatterns, Settings};

// The grid and the window; a flag, 0 for the standard's patterns, beside four patterns for the
// changes +1, -1, +2, -2; a flag, 0 for no mending; and one, 0 for no type check. Flags and not an
// Option, since C reads and writes this struct.
#[repr(C)]
#[derive(Clone, Copy)]
pub struct SettingsNumbers {
    pub k: u32,
    pub lo: u32,
    pub hi: u32,
    pub has_patterns: u32,
    pub plus1: u32,
    pub minus1: u32,
    pub plus2: u32,
    pub minus2: u32,
    pub mending: u32,
    pub type_check: u32,
}

// The settings that ten numbers stand for. Any flag but 0 says that it is on. This is a function
// and no `From`, as are the conversions of the crates above: the claims cite its clause, and what a
// `From` gives stands in a member of its trait.
#[tactic(auto, unfolding(crate::specs::Numbers::settings_from))]
pub fn settings_from(numbers: SettingsNumbers) -> Settings
    ensures { result ≡ settings_from numbers }
{
    let mending = gmp_settings::with_mending(patterns_from(numbers), numbers.mending != 0);
    gmp_settings::with_type_check(mending, numbers.type_check != 0)
}

// All settings can be said in numbers, and a flag of 0 says the standard's patterns, whatever the
// four numbers are.
#[tactic(auto, unfolding(crate::specs::Numbers::patterns_from, crate::specs::Numbers::settings_from))]
pub fn lossless()
    ensures { Lossless }
{}

// The grid, the window and the patterns. Where the flag of the patterns is 0 the four numbers are
// not looked at.
#[tactic(auto, unfolding(crate::specs::Numbers::patterns_from))]
fn patterns_from(numbers: SettingsNumbers) -> Settings
    ensures { result ≡ patterns_from numbers }
{
    let settings = gmp_settings::new_settings(numbers.k, numbers.lo, numbers.hi);
    if numbers.has_patterns == 0 {
        return settings;
    }
    let four = FourPatterns {
        plus1: numbers.plus1,
        minus1: numbers.minus1,
        plus2: numbers.plus2,
        minus2: numbers.minus2,
    };
    gmp_settings::with_patterns(settings, four)
}
