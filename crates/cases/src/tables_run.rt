// The cases of compiling and of the records that headers find.
use crate::lists_run::{ANY, by_rule, fields, header, pairs};
use crate::refused::Refused;
use records::{Entry, KEY_SIZE, Key, RECORD_SIZE, RULE_LIMIT, RULE_SIZE, Rule, TABLE_BYTES};
use std::io;

// One rule more than a list may have.
const OVER: usize = RULE_LIMIT + 1;

// Compiles into a table of so many bytes, of at most 2,048 words.
fn compile_in(rt: &impl Print, label: &str, rules: &[u8], room: usize) -> io::Result<()> {
    let mut table = [0; TABLE_BYTES];
    let lent = room.min(TABLE_BYTES);
    print!(rt; "compile {label}: ")?;
    match tables::compile(rules, &mut table[..lent]) {
        Ok(words) => println!(rt; "{words} words"),
        Err(error) => println!(rt; "{}", Refused::from(error)),
    }
}

// Compiles into a table with room for 2,048 words.
fn compile(rt: &impl Print, label: &str, rules: &[u8]) -> io::Result<()> {
    compile_in(rt, label, rules, TABLE_BYTES)
}

fn by_word(rt: &impl Print, label: &str, table: &[u8], k: usize, header: &[u8]) -> io::Result<()> {
    print!(rt; "by word, {label}: ")?;
    match tables::find_word(table, k, header) {
        Ok(Some(found)) => {
            let action = u8::from(found.action);
            println!(rt;
                "record {}, rule {}, action {action}",
                found.index, found.rule
            )
        }
        Ok(None) => println!(rt; "nothing"),
        Err(error) => println!(rt; "{}", Refused::from(error)),
    }
}

// Compiles, and finds a header in the table; one that is refused has no words.
fn compile_find(rt: &impl Print, label: &str, rules: &[u8], header: &[u8]) -> io::Result<()> {
    let mut table = [0; TABLE_BYTES];
    let k = tables::compile(rules, &mut table).unwrap_or(0);
    by_word(rt, label, &table, k as usize, header)
}

// Finds a header in the rules, and in the table compiled from them.
fn both(rt: &impl Print, label: &str, rules: &[u8], header: &[u8]) -> io::Result<()> {
    by_rule(rt, label, rules, header)?;
    compile_find(rt, label, rules, header)
}

// A header of protocol 6 from 10.0.0.1 to 10.0.0.2.
fn between(sport: u16, dport: u16) -> [u8; KEY_SIZE] {
    let key = Key {
        proto: 6,
        src: 167772161,
        dst: 167772162,
        sport,
        dport,
    };
    key.to_bytes()
}

// Table 1 of source document 001, and headers with some ports.
fn first_table(rt: &impl Print) -> io::Result<()> {
    let first = Rule {
        slow: 1,
        dlow: 6790,
        dhigh: 6790,
        ..ANY
    };
    let second = Rule {
        slow: 1000,
        shigh: 2000,
        dlow: 1,
        dhigh: 5589,
        ..ANY
    };
    let last = Rule { action: 1, ..ANY };
    let list = [first.to_bytes(), second.to_bytes(), last.to_bytes()];
    let rules = list.as_flattened();
    compile(rt, "table 1 of source document 001", rules)?;
    both(rt, "ports 1080 and 2080", rules, &between(1080, 2080))?;
    both(rt, "ports 1080 and 6790", rules, &between(1080, 6790))?;
    both(rt, "ports 0 and 6790", rules, &between(0, 6790))
}

// The whole record of document 01.
fn whole_record(rt: &impl Print) -> io::Result<()> {
    let rule = Rule {
        flag: 0,
        proto: 6,
        dst: 167772160,
        dlen: 8,
        dlow: 502,
        dhigh: 503,
        ..ANY
    };
    let mut table = [0; RECORD_SIZE];
    print!(rt; "compile the whole record: ")?;
    match tables::compile(&rule.to_bytes(), &mut table) {
        Ok(words) => println!(rt; "{words} words")?,
        Err(error) => println!(rt; "{}", Refused::from(error))?,
    }
    print!(rt; "record: ")?;
    for byte in &table {
        print!(rt; "{byte:02X}")?;
    }
    println!(rt)
}

// Rules of 900 words each: ports 1..65534 on both sides.
fn wide_rules(rt: &impl Print) -> io::Result<()> {
    let wide = Rule {
        slow: 1,
        shigh: 65534,
        dlow: 1,
        dhigh: 65534,
        ..ANY
    };
    let denied = Rule { action: 1, ..wide };
    let logged = Rule { action: 2, ..wide };
    let list = [wide.to_bytes(), denied.to_bytes(), logged.to_bytes()];
    let rules = list.as_flattened();
    let one = list[0].as_slice();
    let two = list[..2].as_flattened();
    let ports = Key {
        proto: 17,
        src: 0,
        dst: 0,
        sport: 65534,
        dport: 65534,
    };
    compile(rt, "900 words", one)?;
    compile(rt, "1,800 words", two)?;
    compile_find(rt, "ports 65534 and 65534", two, &ports.to_bytes())?;
    compile(rt, "2,700 words", rules)?;
    compile_in(rt, "900 words, room for 900", one, 900 * RECORD_SIZE)?;
    compile_in(rt, "900 words, room for 899", one, 900 * RECORD_SIZE - 1)
}

// No rules, and lengths around a rule's and a header's.
fn lengths(rt: &impl Print) -> io::Result<()> {
    let list = [ANY.to_bytes(), ANY.to_bytes()];
    let rules = list.as_flattened();
    let short = &rules[..RULE_SIZE - 1];
    let one = &rules[..RULE_SIZE];
    let header = header();
    compile(rt, "no rules", &[])?;
    both(rt, "no rules", &[], &header)?;
    compile(rt, "20 bytes", short)?;
    compile(rt, "21 bytes", one)?;
    compile(rt, "22 bytes", &rules[..RULE_SIZE + 1])?;
    by_rule(rt, "20 bytes", short, &header)?;
    by_rule(rt, "a header of 12 bytes", one, &header[..12])?;
    by_rule(
        rt,
        "a header of 12 bytes, 20 bytes of rules",
        short,
        &header[..12],
    )?;
    by_rule(rt, "a header of 14 bytes", one, &rules[..14])?;
    by_rule(rt, "a header of 13 bytes", one, &header)
}

// 257 rules, the first and the 256th with actions of their own.
fn limits(rt: &impl Print, first: u8, last: u8) -> io::Result<()> {
    let mut list = [ANY.to_bytes(); OVER];
    list[0] = Rule {
        action: first,
        ..ANY
    }
    .to_bytes();
    list[RULE_LIMIT - 1] = Rule {
        action: last,
        ..ANY
    }
    .to_bytes();
    let rules = list[..RULE_LIMIT].as_flattened();
    let over = list.as_flattened();
    let header = header();
    compile(rt, "256 rules", rules)?;
    compile(rt, "257 rules", over)?;
    by_rule(rt, "256 rules", rules, &header)?;
    by_rule(rt, "257 rules", over, &header)
}

// A table of two records: protocol 6 to 10.0.0.0/8 on port 502, permitted; anything, denied. The first record's value may have
// a source address, and both may have another action.
fn two_records(src: u32, first: u8, last: u8) -> [[u8; RECORD_SIZE]; 2] {
    let zeros = Key {
        proto: 0,
        src: 0,
        dst: 0,
        sport: 0,
        dport: 0,
    };
    let port = Entry {
        value: Key {
            proto: 6,
            src,
            dst: 167772160,
            sport: 0,
            dport: 502,
        },
        mask: Key {
            proto: 255,
            src: 0,
            dst: 4278190080,
            sport: 0,
            dport: 65535,
        },
        rule: 0,
        action: first,
    };
    let any = Entry {
        value: zeros,
        mask: zeros,
        rule: 1,
        action: last,
    };
    [port.to_bytes(), any.to_bytes()]
}

// A header to 10.0.0.7 on port 502.
fn to_seven(proto: u8) -> [u8; KEY_SIZE] {
    let key = Key {
        proto,
        src: 0,
        dst: 167772167,
        sport: 0,
        dport: 502,
    };
    key.to_bytes()
}

// Stated counts and headers.
fn stated(rt: &impl Print) -> io::Result<()> {
    let records = two_records(0, 0, 1);
    let table = records.as_flattened();
    let header = to_seven(6);
    let other = to_seven(17);
    let mut long = [0; 14];
    long[..KEY_SIZE].copy_from_slice(&other);
    by_word(rt, "the first record", table, 2, &header)?;
    by_word(rt, "the second record", table, 2, &other)?;
    by_word(rt, "one record counted", table, 1, &other)?;
    by_word(rt, "no record counted", table, 0, &header)?;
    by_word(rt, "three records counted", table, 3, &header)?;
    let (_, short) = table.split_last().unwrap();
    by_word(rt, "two counted, 55 bytes", short, 2, &header)?;
    by_word(rt, "a header of 12 bytes", table, 2, &header[..12])?;
    by_word(rt, "a header of 14 bytes", table, 2, &long)
}

// Ill-formed records, first and last.
fn ill(rt: &impl Print) -> io::Result<()> {
    let header = to_seven(6);
    let first = two_records(0, 4, 1);
    let both = two_records(0, 4, 4);
    let last = two_records(0, 0, 4);
    let outside = two_records(16777216, 0, 1);
    by_word(
        rt,
        "action 4 in the first record, a short header",
        first.as_flattened(),
        2,
        &header[..12],
    )?;
    by_word(
        rt,
        "action 4 in both records",
        both.as_flattened(),
        2,
        &header,
    )?;
    by_word(
        rt,
        "action 4 in the last record",
        last.as_flattened(),
        2,
        &header,
    )?;
    by_word(
        rt,
        "action 4 behind the counted records",
        last.as_flattened(),
        1,
        &header,
    )?;
    by_word(
        rt,
        "a value bit outside the first mask",
        outside.as_flattened(),
        2,
        &header,
    )
}

pub fn run(rt: &impl Print) -> io::Result<()> {
    first_table(rt)?;
    whole_record(rt)?;
    wide_rules(rt)?;
    lengths(rt)?;
    limits(rt, 0, 0)?;
    limits(rt, 0, 4)?;
    limits(rt, 4, 4)?;
    fields(rt)?;
    pairs(rt)?;
    stated(rt)?;
    ill(rt)
}
