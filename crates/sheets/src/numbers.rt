// Decimal numbers of at most 16 bits: one reader for octets, lengths, protocols and ports. The standard library's `parse` would
// take a sign and leading zeros.
ghost use Rattle.std.specs.Prelude.{◌≡◌};
ghost use Rattle.sheets.specs.Numbers.{number_after, number_of, number_or_none};

// The number that digits say, where it is at most 65535.
fn digits(s: &[u8]) -> Option<u16>
    ensures { number_or_none result ≡ number_after 0 s.now }
{
    let mut x: u32 = 0;
    for c in s {
        if !c.is_ascii_digit() {
            return None;
        }
        x = x * 10 + u32::from(*c - b'0');
        if 65535 < x {
            return None;
        }
    }
    Some(x as u16)
}

// The number that s says: digits with no leading zero, at most 65535.
#[tactic(auto, using(crate::proofs::DigitsSoFar::number_tests))]
pub fn number(s: &[u8]) -> Option<u16>
    ensures { number_or_none result ≡ number_of s.now }
{
    if s.is_empty() {
        return None;
    }
    if s[0] == b'0' && s.len() != 1 {
        return None;
    }
    digits(s)
}
