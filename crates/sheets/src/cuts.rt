// Text in parts: what stands before and after a mark, and how often it stands there.
ghost use Rattle.std.specs.Prelude.{◌≡◌};
ghost use Rattle.sheets.specs.Cuts.{Cut, Halves, times};

// What stands before and after the first c of s, where there is one.
pub fn cut(s: &[u8], c: u8) -> Option<(&[u8], &[u8])>
    ensures { Cut c s.now result }
{
    let i = s.iter().position(|x| *x == c)?;
    Some((&s[..i], &s[i + 1..]))
}

// The same; without a c, all of s stands before it and nothing after.
pub fn halves(s: &[u8], c: u8) -> (&[u8], &[u8])
    ensures { Halves c s.now result }
{
    cut(s, c).unwrap_or((s, &[]))
}

// How often c stands in s.
pub fn count(s: &[u8], c: u8) -> usize
    ensures { result ≡ times c s.now }
{
    s.iter().filter(|x| **x == c).count()
}
