// Table 3 of source document 000: the open intervals of width 4 with three words.
use crate::tallies;
use std::io;

// The words of an open interval; none where there is no value between the bounds.
fn words(n: u32, a: i32, b: i32) -> usize {
    intervals::close(n, a, b).map_or(0, |ends| tallies::words(n, ends.low, ends.high))
}

pub fn run(rt: &impl Print) -> io::Result<()> {
    println!(rt; "source document 000, table 3: the open intervals of width 4 with three words")?;
    let mut found: u32 = 0;
    for a in -1..17 {
        for b in -1..17 {
            if words(4, a, b) == 3 {
                print!(rt; "({a}, {b}) ")?;
                found = found.saturating_add(1);
            }
        }
    }
    println!(rt; "{found} intervals")
}
