// The prefix words of document 01's intervals, as a person reads them: each word in its bits, with * for a don't care, and
// the values that it matches.
#![tactic(auto)]

use blocks::Pattern;
use intervals::{Step, Walk};
use std::io;

// The last value that a step's word matches: the walk's end, or the one before its next value.
fn last_value(step: Step) -> u32 {
    let after = step.walk;
    if after.ended {
        after.last
    } else {
        after.next.saturating_sub(1)
    }
}

// A word with the first and the last value that it matches.
fn line(rt: &impl Print, width: u32, step: Step) -> io::Result<()> {
    let pattern = Pattern {
        width,
        word: step.word,
    };
    println!(rt; "  {pattern}  {}..{}", step.word.value, last_value(step))
}

// The words of low..high, each a step of a walk.
fn show(rt: &impl Print, n: u32, low: u32, high: u32) -> io::Result<()> {
    println!(rt; "width {n}, {low}..{high}")?;
    let mut walk = Walk {
        width: n,
        next: low,
        last: high,
        ended: false,
    };
    for _ in 0..32 {
        let Ok(Some(step)) = walk.step() else {
            break;
        };
        line(rt, n, step)?;
        walk = step.walk;
    }
    Ok(())
}

fn main(rt: HostRuntime) -> io::Result<()> {
    let intervals = [
        (4, 1, 14),
        (4, 5, 5),
        (4, 0, 15),
        (4, 1, 15),
        (6, 19, 61),
        (16, 1024, 65535),
        (16, 1000, 2000),
        (16, 1, 5589),
        (16, 1, 65534),
    ];
    for (n, low, high) in intervals {
        show(&rt, n, low, high)?;
    }
    Ok(())
}
