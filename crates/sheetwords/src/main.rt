// Reads a rule sheet on standard input and prints the words of its rules, one a line, and then how many there are; or why the
// sheet is refused (document 02, order 1). What is read, compiled and written as text is the library's work.
#![tactic(auto)]

ghost use Rattle.std.specs.Prelude.{IfOk, OnOk, ◌+◌, ◌≤◌, length};
ghost use Rattle.arrayvec.specs.ArrayVec.{array_vec_len};
ghost use Rattle.records.specs.Layout.{word_limit};

use answers::Answer;
use arrayvec::ArrayVec;
use records::{LIST_BYTES, RECORD_SIZE, RULE_SIZE, TABLE_BYTES};
use sheets::SHEET_LIMIT;
use std::io;
use std::io::Read;
use tablet::ToAnswer;
use texts::LINE_SIZE;

// Bytes of output that are gathered before they are written.
const PIECE: usize = 65536;
// Bytes that are read: one more than a sheet may have, so that a longer one is seen to be.
const READ: usize = SHEET_LIMIT + 1;

fn refused(rt: &impl Print, why: impl ToAnswer) -> io::Result<()> {
    let Answer { no, a, b, .. } = why.answer();
    println!(rt; "refused\t{no}\t{a}\t{b}")
}

// Writes what is gathered where another line might not fit behind it.
fn make_room(rt: &impl Print, piece: &mut ArrayVec<u8, PIECE>) -> io::Result<()>
    ensures { OnOk result (array_vec_len piece.new + LINE_SIZE ≤ PIECE) }
{
    if piece.remaining_capacity() < LINE_SIZE {
        rt.write_all(piece.as_slice())?;
        piece.clear();
    }
    Ok(())
}

// The lines of the records, gathered into large pieces.
fn print_words(rt: &impl Print, records: &[[u8; RECORD_SIZE]]) -> io::Result<()>
    requires { length records.now ≤ word_limit }
{
    let mut piece = ArrayVec::<u8, PIECE>::new();
    for (i, bytes) in records.iter().enumerate() {
        make_room(rt, &mut piece)?;
        let line = texts::word_line(i as u32, bytes);
        piece.try_extend_from_slice(line.as_slice()).unwrap();
    }
    rt.write_all(piece.as_slice())
}

// Compiles the rules into a table with room for as many words as there may be.
fn print_rules(rt: &impl Print, rules: &[u8]) -> io::Result<()> {
    let mut table = [0; TABLE_BYTES];
    match tables::compile(rules, &mut table) {
        Ok(words) => {
            let (records, _) = table.as_chunks::<RECORD_SIZE>();
            print_words(rt, &records[..words as usize])?;
            println!(rt; "words\t{words}")
        }
        Err(error) => refused(rt, error),
    }
}

// Reads a sheet into room for as many rules as there may be.
fn print_sheet(rt: &impl Print, sheet: &[u8]) -> io::Result<()> {
    let mut rules = [0; LIST_BYTES];
    match sheets::read(sheet, &mut rules) {
        Ok(count) => {
            let end = RULE_SIZE * (count as usize);
            print_rules(rt, &rules[..end])
        }
        Err(error) => refused(rt, error),
    }
}

// Reads until the buffer is full or the input ends; how many bytes were read. Each read says how far it came, so no range has the
// steps, and `read_to_end` would allocate.
fn read_full<R: Read>(input: &mut R, sheet: &mut [u8]) -> io::Result<usize>
    ensures { IfOk result (λ n. n ≤ length sheet.new) }
{
    let mut n: usize = 0;
    while n < sheet.len() {
        let k = input.read(&mut sheet[n..])?;
        if k == 0 {
            return Ok(n);
        }
        n += k;
    }
    Ok(n)
}

fn main(rt: HostRuntime) -> io::Result<()> {
    let mut sheet = [0; READ];
    let mut input = rt.reader();
    let n = read_full(&mut input, &mut sheet)?;
    print_sheet(&rt, &sheet[..n])
}
