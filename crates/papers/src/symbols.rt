// Prefix words as the papers print them: a symbol for each bit, with * for a don't care.
use blocks::{Pattern, Word};
use std::io;

fn interval(rt: &impl Print, width: u32, low: u32, high: u32) -> io::Result<()> {
    let mut list = [0; 64];
    let Ok(k) = intervals::list(width, low, high, &mut list) else {
        return println!(rt; "refused");
    };
    let (pairs, _) = list.as_chunks::<2>();
    for [value, mask] in pairs.iter().take(k as usize) {
        let word = Word {
            value: *value,
            mask: *mask,
        };
        println!(rt; "{}", Pattern { width, word })?;
    }
    Ok(())
}

pub fn run(rt: &impl Print) -> io::Result<()> {
    println!(rt;
        "source document 001, table 3 (a), and source document 002, figure 1 (a): the prefix words of 1..14"
    )?;
    interval(rt, 4, 1, 14)?;
    println!(rt; "source document 002, figure 6: the prefix words of 19..61")?;
    interval(rt, 6, 19, 61)
}
