// The check word, CRC-8 over JC1 and JC2, and what a control word reads as: whole, mended or bad;
// that up to three wrong bits of 24, or two where one is mended, read as the word or are bad; and
// that the syndrome is the remainder of the 24 bits as read. The code that checks and reads is in
// the crate gmp_crc8_read.
#![tactic(auto)]

ghost use Rattle.gmp_crc8.specs.Claims.{ReadsAsItself, MendsOneBit, SyndromeDivides, BitsToldApart};

// JC1 and JC2 of a control word: its two bytes before the check.
#[derive(Clone, Copy)]
pub struct WordBytes {
    pub jc1: u8,
    pub jc2: u8,
}

// What a control word reads as: whole, with one wrong bit mended, or bad.
#[derive(Clone, Copy)]
pub enum CheckedWord {
    Whole(WordBytes),
    Mended(WordBytes),
    Bad,
}

// A word that passes, read with at most three of its 24 bits wrong, or two where mending is on,
// reads as itself or is bad.
#[tactic(auto, using(crate::proofs::Laws::reads_as_itself))]
pub fn reads_as_itself()
    ensures { ReadsAsItself }
{}

// A word that passes, read with none of its 24 bits wrong, is whole. With mending on, with one
// wrong it is mended to itself, and with two it is bad.
#[tactic(auto, using(crate::proofs::Laws::mends_one_bit))]
pub fn mends_one_bit()
    ensures { MendsOneBit }
{}

// The syndrome is the remainder of the 24 bits as read, and zero if and only if they pass.
#[tactic(auto, using(crate::proofs::Distance::divided, crate::proofs::Distance::passed_none, crate::proofs::Mending::none_passes))]
pub fn syndrome_divides()
    ensures { SyndromeDivides }
{}

// The remainders of one wrong bit are told apart, from each other and from zero.
#[tactic(auto, using(crate::proofs::Laws::bits_told_apart))]
pub fn bits_told_apart()
    ensures { BitsToldApart }
{}
