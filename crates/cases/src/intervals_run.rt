// The cases of a single field: open bounds, counts, lists, walks and checks.
use crate::refused::Refused;
use intervals::{Closed, Walk};
use std::io;

fn close(rt: &impl Print, n: u32, a: i32, b: i32) -> io::Result<()> {
    print!(rt; "open ({a}, {b}), n = {n}: ")?;
    match intervals::close(n, a, b) {
        Ok(Closed { low, high }) => println!(rt; "{low}..{high}"),
        Err(fault) => println!(rt; "{}", Refused::from(fault)),
    }
}

pub fn bounds(rt: &impl Print) -> io::Result<()> {
    let cases = [
        (4, -1, 16),
        (4, 0, 16),
        (4, 4, 6),
        (4, 4, 5),
        (4, 5, 4),
        (4, -2, 5),
        (4, 5, 17),
        (4, -1, 0),
        (4, 15, 16),
        (4, 14, 16),
        (0, -1, 1),
        (17, -1, 5),
        (16, -1, 65536),
        (16, 0, 65536),
        (16, 1023, 65536),
        (16, 999, 2001),
        (16, 0, 5590),
        (16, -2147483648, 2147483647),
        (1, -1, 2),
    ];
    for (n, a, b) in cases {
        close(rt, n, a, b)?;
    }
    Ok(())
}

fn count(rt: &impl Print, n: u32, low: u32, high: u32) -> io::Result<()> {
    print!(rt; "count n = {n}, {low}..{high}: ")?;
    match intervals::count(n, low, high) {
        Ok(words) => println!(rt; "{words}"),
        Err(fault) => println!(rt; "{}", Refused::from(fault)),
    }
}

pub fn counts(rt: &impl Print) -> io::Result<()> {
    let cases = [
        (4, 1, 14),
        (4, 5, 5),
        (4, 0, 15),
        (1, 0, 0),
        (1, 1, 1),
        (1, 0, 1),
        (4, 0, 14),
        (6, 19, 61),
        (16, 0, 65535),
        (16, 1, 65535),
        (16, 1024, 65535),
        (16, 1000, 2000),
        (16, 1, 5589),
        (16, 1, 65534),
        (0, 0, 0),
        (17, 0, 0),
        (4, 0, 16),
        (4, 16, 0),
        (4, 9, 8),
        (17, 65536, 65536),
        (4294967295, 4294967295, 0),
    ];
    for (n, low, high) in cases {
        count(rt, n, low, high)?;
    }
    Ok(())
}

// Lists into room for so many numbers, and shows the first 14 numbers of the memory that they were lent from.
fn list(rt: &impl Print, n: u32, low: u32, high: u32, room: usize) -> io::Result<()> {
    let mut space = [7; 64];
    let lent = room.min(space.len());
    print!(rt; "list n = {n}, {low}..{high}, room {room}: ")?;
    match intervals::list(n, low, high, &mut space[..lent]) {
        Ok(words) => print!(rt; "{words} words:")?,
        Err(error) => print!(rt; "{}:", Refused::from(error))?,
    }
    for x in space.iter().take(14) {
        print!(rt; " {x}")?;
    }
    println!(rt)
}

pub fn lists(rt: &impl Print) -> io::Result<()> {
    let cases = [
        (4, 1, 14, 12),
        (4, 1, 14, 13),
        (4, 1, 14, 11),
        (4, 5, 5, 2),
        (4, 0, 15, 2),
        (1, 1, 1, 2),
        (1, 1, 1, 1),
        (4, 1, 15, 8),
        (4, 0, 14, 8),
        (6, 19, 61, 14),
        (16, 1, 65534, 60),
        (16, 1, 65534, 59),
        (16, 0, 65535, 2),
        (16, 0, 65535, 0),
        (17, 0, 0, 12),
        (4, 1, 16, 12),
        (4, 14, 1, 12),
    ];
    for (n, low, high, room) in cases {
        list(rt, n, low, high, room)?;
    }
    Ok(())
}

// Takes steps until one gives no word, and hands back the state.
fn steps(rt: &impl Print, from: Walk) -> io::Result<Walk> {
    let mut walk = from;
    for _ in 0..32 {
        match walk.step() {
            Ok(Some(step)) => {
                print!(rt; " {},{}", step.word.value, step.word.mask)?;
                walk = step.walk;
            }
            Ok(None) => {
                print!(rt; " no more")?;
                break;
            }
            Err(fault) => {
                print!(rt; " {}", Refused::from(fault))?;
                break;
            }
        }
    }
    Ok(walk)
}

fn walk(rt: &impl Print, from: Walk) -> io::Result<()> {
    print!(rt; "walk n = {}, {}..{}:", from.width, from.next, from.last)?;
    let to = steps(rt, from)?;
    print!(rt; "; next {}, last {}", to.next, to.last)?;
    if to.ended {
        print!(rt; ", ended")?;
    }
    println!(rt)
}

pub fn walks(rt: &impl Print) -> io::Result<()> {
    let cases = [
        (4, 1, 14, false),
        (4, 0, 15, false),
        (6, 19, 61, false),
        (1, 1, 1, false),
        (16, 65535, 65535, false),
        (99, 5, 3, true),
        (0, 5, 3, false),
        (4, 3, 16, false),
        (4, 3, 2, false),
    ];
    for (width, next, last, ended) in cases {
        walk(
            rt,
            Walk {
                width,
                next,
                last,
                ended,
            },
        )?;
    }
    Ok(())
}

fn check(rt: &impl Print, n: u32, low: u32, high: u32, list: &[u16], k: usize) -> io::Result<()> {
    print!(rt;
        "check n = {n}, {low}..{high}, {k} words of {} numbers: ",
        list.len()
    )?;
    match intervals::check(n, low, high, list, k) {
        Ok(None) => println!(rt; "yes"),
        Ok(Some(x)) => println!(rt; "no, {x}"),
        Err(error) => println!(rt; "{}", Refused::from(error)),
    }
}

// Checks a list in several ways.
fn check_all(rt: &impl Print, list: &[u16], cases: &[(u32, u32, u32, usize)]) -> io::Result<()> {
    for (n, low, high, k) in cases {
        check(rt, *n, *low, *high, list, *k)?;
    }
    Ok(())
}

pub fn checks(rt: &impl Print) -> io::Result<()> {
    check_all(
        rt,
        &[1, 15, 2, 14, 4, 12, 8, 12, 12, 14, 14, 15],
        &[
            (4, 1, 14, 6),
            (4, 1, 13, 6),
            (4, 2, 14, 6),
            (4, 1, 14, 5),
            (4, 1, 14, 0),
            (4, 0, 15, 0),
            (4, 1, 14, 7),
            (4, 14, 1, 7),
            (3, 1, 6, 6),
        ],
    )?;
    check_all(
        rt,
        &[1, 1, 2, 2, 4, 4, 8, 8],
        &[(4, 1, 15, 4), (4, 1, 15, 3), (4, 1, 14, 4), (4, 0, 15, 4)],
    )?;
    check_all(
        rt,
        &[1, 15, 3, 14, 4, 12, 9, 12],
        &[(4, 1, 14, 4), (4, 1, 14, 1)],
    )?;
    check_all(
        rt,
        &[0, 0],
        &[
            (16, 0, 65535, 1),
            (16, 0, 65534, 1),
            (16, 1, 65535, 1),
            (17, 0, 0, 9),
        ],
    )
}
