// Open bounds to a closed interval (document 01, "Intervals and words"; source document 000, definition 2.1).
// The bounds are signed: -1 and 2^n are ordinary ones. Each is tested from -1 on before anything is subtracted.
ghost use Rattle.std.specs.Prelude.{◌≡◌, ◌≤◌};
ghost use Rattle.intervals.specs.Bounds.{closed_as, closing, place};

use crate::ends::{Fault, test_width};

// The closed interval between two open bounds.
#[derive(Clone, Copy, Debug, PartialEq, Eq)]
pub struct Closed {
    pub low: u32,
    pub high: u32,
}

// How far a bound stands past -1, where it lies in -1..top.
fn place_of(a: i32, top: u32) -> Option<u32>
    requires { top ≤ 65536 }
    ensures { result ≡ place a top }
{
    if !(-1..=65536).contains(&a) {
        return None;
    }
    let past = (a + 1) as u32;
    if top + 1 < past {
        return None;
    }
    Some(past)
}

#[tactic(auto, unfolding(crate::specs::Bounds::closing))]
pub fn close(n: u32, a: i32, b: i32) -> Result<Closed, Fault>
    ensures { closed_as result ≡ closing n a b }
{
    test_width(n)?;
    let top = bits::power(n);
    let p = place_of(a, top).ok_or(Fault::Fit)?;
    let q = place_of(b, top).ok_or(Fault::Fit)?;
    if q < p + 2 {
        return Err(Fault::Order);
    }
    Ok(Closed {
        low: p,
        high: q - 2,
    })
}
