// What calls ask of the settings: whether they are refused, whether a count lies outside the
// window, and how long a frame is.
#![tactic(auto)]

ghost use Rattle.std.specs.Prelude.{◌≡◌};
ghost use Rattle.refusals.specs.Table.{lowest};
ghost use Rattle.gmp_refusal.specs.Refusal.{verdict_number};
ghost use Rattle.gmp_settings.specs.Grid.{frame_bytes};
ghost use Rattle.gmp_settings.specs.Settings.{bad_grid, bad_window, settings_reasons, outside};
ghost use Rattle.gmp_settings.specs.Patterns.{breaks_rule, exceeds, bad_patterns};

use gmp_refusal::Refusal;
use gmp_settings::{FourPatterns, Patterns, Settings};

// Numbers 1 and 2: the checks that every call begins with. Number 14 comes after a call's own.
pub fn judge_grid_and_window(settings: Settings) -> Result<(), Refusal>
    ensures { verdict_number result ≡ lowest (settings_reasons settings) }
{
    let bad_grid = is_bad_grid(settings);
    let bad_window = is_bad_window(settings);
    let grid = gmp_refusal::refuse_if(Ok(()), bad_grid, Refusal::Grid);
    gmp_refusal::refuse_if(grid, bad_window, Refusal::Window)
}

// Number 1: K is 0 or above 3,808.
fn is_bad_grid(settings: Settings) -> bool
    ensures { result ≡ bad_grid settings }
{
    settings.k == 0 || 3808 < settings.k
}

// Number 2: lo is above hi, or hi above the four rows' payload bytes.
fn is_bad_window(settings: Settings) -> bool
    ensures { result ≡ bad_window settings }
{
    settings.hi < settings.lo || 4 * (settings.k as usize) < settings.hi as usize
}

// Number 14, the last check of a call: four given patterns break the rule or exceed 14 bits.
pub fn is_bad_patterns(settings: Settings) -> bool
    ensures { result ≡ bad_patterns settings }
{
    match settings.patterns {
        Patterns::Standard => false,
        Patterns::Given(four) => breaks_rule(four) || exceeds(four),
    }
}

// The exclusive-or of the two plus patterns is not that of the two minus patterns, or is zero.
fn breaks_rule(four: FourPatterns) -> bool
    ensures { result ≡ breaks_rule four }
{
    let plus = four.plus1 ^ four.plus2;
    let minus = four.minus1 ^ four.minus2;
    plus != minus || plus == 0
}

// A pattern exceeds 14 bits.
fn exceeds(four: FourPatterns) -> bool
    ensures { result ≡ exceeds four }
{
    16383 < four.plus1 || 16383 < four.minus1 || 16383 < four.plus2 || 16383 < four.minus2
}

// Whether a count lies outside the window.
#[tactic(auto, unfolding(gmp_settings::specs::Settings::outside))]
pub fn is_outside(settings: Settings, count: u32) -> bool
    ensures { result ≡ outside settings count }
{
    count < settings.lo || settings.hi < count
}

// The length of a frame on the settings' grid.
pub fn frame_length(settings: Settings) -> usize
    ensures { result ≡ frame_bytes settings.k }
{
    4 * (settings.k as usize) + 8
}
