// The card's total as C and Rust link it. It is the function of its name in `c_tally`.
// It stands twice, since what C links has to be exported by the static library itself.
#![tactic(auto)]

ghost use Rattle.std.specs.Prelude.{◌≡◌};
ghost use Rattle.card_tally.specs.Ports.{total_of};
ghost use Rattle.c_sink_numbers.specs.Numbers.{tallies_from};

use card_tally::Total;

#[unsafe(no_mangle)]
pub extern "C" fn odu0_card_total(tallies: &[u32; 24]) -> Total
    ensures { result ≡ total_of (tallies_from tallies.now) }
{
    c_tally::odu0_card_total(tallies)
}
