// What source document 000 says of all intervals of a width: theorem 4.1, table 4 and table 5.
use crate::decimals::Decimal;
use crate::tallies::{Sums, Tally};
use std::io;

// How many intervals of a width have 1, 2, .. words.
fn count_line(rt: &impl Print, n: usize, tally: &Tally) -> io::Result<()> {
    print!(rt; "n = {n}:")?;
    for k in tally.having.iter().take(tally.most() + 1).skip(1) {
        print!(rt; " {k}")?;
    }
    println!(rt)
}

pub fn counts(rt: &impl Print, all: &[Tally; 13]) -> io::Result<()> {
    println!(rt;
        "source document 000, theorem 4.1: how many intervals of width n have 1, 2, .. words"
    )?;
    for (n, tally) in all.iter().enumerate().take(11).skip(1) {
        count_line(rt, n, tally)?;
    }
    Ok(())
}

pub fn means(rt: &impl Print, all: &[Tally; 13]) -> io::Result<()> {
    println!(rt;
        "source document 000, table 4: n, how many intervals, their mean number of words"
    )?;
    for (n, tally) in all.iter().enumerate().skip(4) {
        let sums = tally.sums();
        let mean = Decimal::ratio(sums.words, sums.intervals);
        println!(rt; "{n} {} {mean}", sums.intervals)?;
    }
    Ok(())
}

// How far t words lie above the mean, its square, and the variance, all multiplied until they are whole: the first by the
// number of intervals, the other two by that number's square.
#[derive(Clone, Copy)]
struct Spread {
    above: u64,
    square: u64,
    variance: u64,
}

impl Spread {
    fn of(sums: Sums, t: u64) -> Spread {
        let above = t.saturating_mul(sums.intervals).saturating_sub(sums.words);
        let whole = sums.intervals.saturating_mul(sums.squares);
        Spread {
            above,
            square: above.saturating_mul(above),
            variance: whole.saturating_sub(sums.words.saturating_mul(sums.words)),
        }
    }
}

// How many intervals have at most so many words as a limit allows. Table 5 rounds the limit up, so the first number of words
// that reaches it counts too.
fn within<F: Fn(Spread) -> bool>(tally: &Tally, sums: Sums, reached: F) -> u64
    requires { F.IsAlwaysCallable reached }
{
    let mut found: u64 = 0;
    for (t, k) in tally.having.iter().enumerate() {
        found = found.saturating_add(*k);
        if reached(Spread::of(sums, t as u64)) {
            return found;
        }
    }
    found
}

// The intervals with at most the mean and one deviation, two deviations, and the variance, in percent.
fn share_line(rt: &impl Print, n: usize, tally: &Tally) -> io::Result<()> {
    let sums = tally.sums();
    let intervals = sums.intervals;
    let one = within(tally, sums, |s| s.variance <= s.square);
    let two = within(tally, sums, |s| s.variance.saturating_mul(4) <= s.square);
    let variance = within(tally, sums, |s| {
        s.variance <= s.above.saturating_mul(intervals)
    });
    print!(rt; "{n}")?;
    for share in [one, two, variance] {
        print!(rt;
            " {}%",
            Decimal::ratio(share.saturating_mul(100), intervals)
        )?;
    }
    println!(rt)
}

pub fn shares(rt: &impl Print, all: &[Tally; 13]) -> io::Result<()> {
    println!(rt;
        "source document 000, table 5: n, intervals with at most the mean and one, two deviations, the variance"
    )?;
    for (n, tally) in all.iter().enumerate().skip(8) {
        share_line(rt, n, tally)?;
    }
    Ok(())
}
