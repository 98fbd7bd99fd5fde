// What a source announces by the control word of a frame.
#![tactic(auto)]

ghost use Rattle.std.specs.Prelude.{◌≡◌, ◌<◌};
ghost use Rattle.std.specs.Int.Bits.{bit_xor};
ghost use Rattle.gmp_control.specs.Word.{word_of, word_bytes};
ghost use Rattle.gmp_control.specs.Pattern.{table_of, pattern_at};
ghost use Rattle.gmp_control.specs.Announce.{announced};

use gmp_crc8::WordBytes;
use gmp_settings::Settings;

// The word in a frame of count old that announces the count next. Both are taken modulo 16,384. The
// four changes stand one by one, as in the clause's table, each with its II and DI: a search
// through them would be no plainer, since both go by the sign.
#[tactic(auto, unfolding(gmp_control::specs::Announce::announced))]
pub fn announce(settings: Settings, old: u32, next: u32) -> WordBytes
    ensures { result ≡ word_bytes (announced (table_of settings) old next) }
{
    let to = next % 16384;
    if to == old % 16384 {
        return pack(old, 0, 0);
    }
    if to == gmp_control::move_count(old, 0) {
        return pack(invert(settings, old, 0), 1, 0);
    }
    if to == gmp_control::move_count(old, 1) {
        return pack(invert(settings, old, 1), 0, 1);
    }
    if to == gmp_control::move_count(old, 2) {
        return pack(invert(settings, old, 2), 1, 0);
    }
    if to == gmp_control::move_count(old, 3) {
        return pack(invert(settings, old, 3), 0, 1);
    }
    pack(next, 1, 1)
}

// A count with the bits of a pattern inverted.
fn invert(settings: Settings, count: u32, change: usize) -> u32
    ensures { result ≡ bit_xor count (pattern_at (table_of settings) change) }
{
    count ^ gmp_control::pattern(settings, change)
}

// C1 to C14, II and DI in two bytes, most significant bit first.
fn pack(count: u32, ii: u32, di: u32) -> WordBytes
    requires { (ii < 2) × (di < 2) }
    ensures { result ≡ word_bytes (word_of count ii di) }
{
    let word = ((count & 16383) << 2) | (ii << 1) | di;
    WordBytes {
        jc1: (word >> 8) as u8,
        jc2: (word & 255) as u8,
    }
}
