// The settings of a card: the grid of a frame, the window of counts, the inversion patterns,
// whether a sink mends one wrong control bit, and whether it checks the payload type.
#![tactic(auto)]

ghost use Rattle.std.specs.Prelude.{◌≡◌};
ghost use Rattle.gmp_settings.specs.Settings.{new_settings, with_patterns, with_mending, with_type_check, opu0};

// The grid K, payload columns in a row; the window of counts; the inversion patterns; and, at which
// sources and keepers do not look, whether a sink mends one wrong control bit and whether it checks
// the payload type.
#[derive(Clone, Copy)]
pub struct Settings {
    pub k: u32,
    pub lo: u32,
    pub hi: u32,
    pub patterns: Patterns,
    pub mending: bool,
    pub type_check: bool,
}

// The standard's patterns, or four that are given. Not an Option: no card is without patterns, and
// None would say so.
#[derive(Clone, Copy)]
pub enum Patterns {
    Standard,
    Given(FourPatterns),
}

// Patterns of 14 bits, C1 to C14, for the changes +1, -1, +2, -2.
#[derive(Clone, Copy)]
pub struct FourPatterns {
    pub plus1: u32,
    pub minus1: u32,
    pub plus2: u32,
    pub minus2: u32,
}

// The settings of this grid and window, with the standard's patterns, without mending and without
// the type check. Any numbers go: a call judges them.
pub fn new_settings(k: u32, lo: u32, hi: u32) -> Settings
    ensures { result ≡ new_settings k lo hi }
{
    Settings {
        k,
        lo,
        hi,
        patterns: Patterns::Standard,
        mending: false,
        type_check: false,
    }
}

// The same settings with four patterns. Any numbers go here too.
pub fn with_patterns(settings: Settings, four: FourPatterns) -> Settings
    ensures { result ≡ with_patterns settings four }
{
    Settings {
        patterns: Patterns::Given(four),
        ..settings
    }
}

// The same settings with mending on or off.
pub fn with_mending(settings: Settings, mending: bool) -> Settings
    ensures { result ≡ with_mending settings mending }
{
    Settings {
        mending,
        ..settings
    }
}

// The same settings with the type check on or off. A function over the field for this and the one
// above would be no plainer: each is one line.
pub fn with_type_check(settings: Settings, type_check: bool) -> Settings
    ensures { result ≡ with_type_check settings type_check }
{
    Settings {
        type_check,
        ..settings
    }
}

// The settings of OPU0.
pub fn opu0() -> Settings
    ensures { result ≡ opu0 }
{
    new_settings(3808, 14405, 14410)
}
