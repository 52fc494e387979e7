// Fractions with five decimals.
use std::fmt;

// A number of hundred-thousandths.
#[derive(Clone, Copy)]
pub struct Decimal(u64);

impl Decimal {
    // a / b, rounded to the nearest hundred-thousandth. Arithmetic is exact wherever its result fits; where it does not, the
    // result is the last number of the type, so that nothing wraps. The papers' figures stay far below.
    pub fn ratio(a: u64, b: u64) -> Decimal {
        if b == 0 {
            return Decimal(0);
        }
        Decimal(a.saturating_mul(100000).saturating_add(b / 2) / b)
    }
}

impl fmt::Display for Decimal {
    fn fmt<W: fmt::Write>(&self, f: &mut fmt::Formatter<W>) -> fmt::Result {
        let whole = self.0 / 100000;
        let part = self.0 % 100000;
        write!(f, "{whole}.{part:05}")
    }
}
