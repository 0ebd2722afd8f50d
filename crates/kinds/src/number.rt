// Numbers of 16 bits in decimal digits.
ghost use Rattle.std.specs.Prelude.{◌≡◌};
ghost use Rattle.kinds.specs.Number.{number};

// One digit or more; leading zeros are allowed, however many. (A `parse` would take a leading `+` too.)
#[tactic(auto, using(crate::proofs::Numerals::passes, crate::proofs::Numerals::ends))]
pub fn read_u16(text: &[u8]) -> Option<u16>
    ensures { result ≡ number text.now }
{
    if text.is_empty() {
        return None;
    }
    let mut n: u16 = 0;
    for &b in text {
        let digit = char::from(b).to_digit(10)?;
        n = n.checked_mul(10)?.checked_add(digit as u16)?;
    }
    Some(n)
}
