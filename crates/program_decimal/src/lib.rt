// The number that a text spells in decimal.
#![tactic(auto)]

ghost use Rattle.std.specs.Prelude.{◌≡◌};
ghost use Rattle.program_decimal.specs.Number.{with_digit, number_of};

// The number of 32 bits that a text spells in decimal, if it spells one.
pub fn parse(text: &[u8]) -> Option<u32>
    ensures { result ≡ number_of text.now }
{
    if text.is_empty() {
        return None;
    }
    let mut n = 0;
    for &digit in text {
        n = with_digit(n, digit)?;
    }
    Some(n)
}

// The number with one digit more, where that is a digit and the number stays within 32 bits.
fn with_digit(n: u32, digit: u8) -> Option<u32>
    ensures { result ≡ with_digit n digit }
{
    match digit {
        b'0'..=b'9' => n.checked_mul(10)?.checked_add(u32::from(digit - b'0')),
        _ => None,
    }
}
