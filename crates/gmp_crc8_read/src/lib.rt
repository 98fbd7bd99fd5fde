// The check worked out a byte at a time: the remainder of JC1 and JC2, whether three bytes pass,
// and what they read as. 01's "It is worked from a table of 256 remainders" is replaced by 02, P5:
// "Work each remainder from the division rule itself".
#![tactic(auto)]

ghost use Rattle.std.specs.Prelude.{◌≡◌, ◌<◌};
ghost use Rattle.math.specs.Bits.{bits};
ghost use Rattle.gmp_crc8.specs.Division.{divide};
ghost use Rattle.gmp_crc8.specs.Check.{remainder, passes};
ghost use Rattle.gmp_crc8.specs.Checked.{bit_in, one_bit, flipped, wrong_bit, mended, checked_word};

use gmp_crc8::{CheckedWord, WordBytes};

// The remainders of one wrong bit among the 24 of JC1 to JC3, most significant first (02, P1).
const ONE_BIT: [u8; 24] = [
    0x45, 0xA4, 0x52, 0x29, 0x92, 0x49, 0xA2, 0x51, 0xAE, 0x57, 0xAD, 0xD0, 0x68, 0x34, 0x1A, 0x0D,
    0x80, 0x40, 0x20, 0x10, 0x08, 0x04, 0x02, 0x01,
];

// JC3 for the bytes JC1 and JC2.
#[tactic(auto, using(gmp_crc8::proofs::Linear::remainder_bytes))]
pub fn remainder(jc1: u8, jc2: u8) -> u8
    ensures { result ≡ remainder jc1 jc2 }
{
    times_x8(times_x8(jc1) ^ jc2)
}

// Whether the three bytes pass the check.
#[tactic(auto, unfolding(gmp_crc8::specs::Check::passes))]
pub fn passes(jc1: u8, jc2: u8, jc3: u8) -> bool
    ensures { result ≡ passes jc1 jc2 jc3 }
{
    jc3 == remainder(jc1, jc2)
}

// What the three bytes read as. Where they fail the check, and mending is on, a remainder of one
// wrong bit has that bit flipped. The bytes stand one by one, as in the definition and the clause.
#[tactic(auto, using(gmp_crc8::proofs::Laws::passed_whole, gmp_crc8::proofs::Laws::failed_off, gmp_crc8::proofs::Laws::failed_on), unfolding(gmp_crc8::specs::Check::syndrome))]
pub fn read(mending: bool, jc1: u8, jc2: u8, jc3: u8) -> CheckedWord
    ensures { result ≡ checked_word mending jc1 jc2 jc3 }
{
    if passes(jc1, jc2, jc3) {
        CheckedWord::Whole(WordBytes { jc1, jc2 })
    } else if mending {
        mend(jc1, jc2, jc3 ^ remainder(jc1, jc2))
    } else {
        CheckedWord::Bad
    }
}

// The word with the bit flipped that alone wrong gives this remainder, or bad where none does.
#[tactic(auto, unfolding(gmp_crc8::specs::Checked::mended))]
fn mend(jc1: u8, jc2: u8, syndrome: u8) -> CheckedWord
    ensures { result ≡ mended jc1 jc2 syndrome }
{
    let bit = wrong_bit(syndrome);
    if bit < 24 {
        CheckedWord::Mended(flip(jc1, jc2, bit))
    } else {
        CheckedWord::Bad
    }
}

// The bit that alone wrong gives this remainder, or 24. All are looked at, from the last to the
// first: a search that ends at the bit becomes a table of jumps for all remainders.
// The answer is no Option: of that too the compiler makes such a table, of 832 bytes.
fn wrong_bit(syndrome: u8) -> usize
    ensures { result ≡ wrong_bit syndrome }
{
    let mut found = 24;
    for bit in (0..24).rev() {
        if one_bit(bit) == syndrome {
            found = bit;
        }
    }
    found
}

// The remainder of one wrong bit.
fn one_bit(bit: usize) -> u8
    requires { bit < 24 }
    ensures { result ≡ one_bit bit }
{
    ONE_BIT[bit]
}

// The word with one of the 24 bits flipped. One of JC3 is none of the word's.
#[tactic(auto, unfolding(gmp_crc8::specs::Checked::flipped))]
fn flip(jc1: u8, jc2: u8, bit: usize) -> WordBytes
    ensures { result ≡ flipped jc1 jc2 bit }
{
    WordBytes {
        jc1: jc1 ^ bit_in(0, bit),
        jc2: jc2 ^ bit_in(1, bit),
    }
}

// What one of the 24 bits is in byte 0, 1 or 2, JC1 to JC3: a bit of the byte, or nothing.
#[tactic(auto, unfolding(gmp_crc8::specs::Checked::bit_in))]
fn bit_in(byte: usize, bit: usize) -> u8
    ensures { result ≡ bit_in byte bit }
{
    if bit / 8 == byte { 128 >> (bit % 8) } else { 0 }
}

// The remainder of a byte times x^8. Long division takes the generator, x^8 + x^3 + x^2 + 1, off at
// each bit of the quotient: at the bits of the byte, and at those that x^3 and x^2 put back above
// x^7, the byte's own five and six places lower. Below x^8 it leaves what the quotient times x^3 +
// x^2 + 1 has there.
fn times_x8(byte: u8) -> u8
    ensures { result ≡ divide byte (bits 0) }
{
    let quotient = (byte >> 5) ^ (byte >> 6) ^ byte;
    quotient ^ (quotient << 2) ^ (quotient << 3)
}
