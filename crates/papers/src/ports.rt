// Table 1 of source document 001: three rules on ports, compiled one by one and together, and a header found in the table.
use records::{Key, Rule, TABLE_BYTES};
use std::io;

// The words of a compiled list, and the header with ports 1080 and 2080 found among them. A refused list would show, as 0.
fn together(rt: &impl Print, rules: &[u8]) -> io::Result<()> {
    let mut table = [0; TABLE_BYTES];
    let k = tables::compile(rules, &mut table).unwrap_or(0);
    println!(rt; "{k}")?;
    let key = Key {
        proto: 6,
        src: 167772161,
        dst: 167772162,
        sport: 1080,
        dport: 2080,
    };
    print!(rt; "ports {} and {}: ", key.sport, key.dport)?;
    match tables::find_word(&table, k as usize, &key.to_bytes()) {
        Ok(Some(found)) => {
            let action = u8::from(found.action);
            println!(rt;
                "record {}, rule {}, action {action}",
                found.index, found.rule
            )
        }
        Ok(None) => println!(rt; "nothing"),
        Err(_) => println!(rt; "refused"),
    }
}

pub fn run(rt: &impl Print) -> io::Result<()> {
    println!(rt; "source document 001, table 1: the words of each rule, and together")?;
    // Any protocol and any addresses; source and destination ports 1-65535 and 6790, 1000-2000 and 1-5589, all and all.
    let all = Rule {
        flag: 1,
        proto: 0,
        src: 0,
        slen: 0,
        dst: 0,
        dlen: 0,
        slow: 0,
        shigh: 65535,
        dlow: 0,
        dhigh: 65535,
        action: 1,
    };
    let first = Rule {
        slow: 1,
        dlow: 6790,
        dhigh: 6790,
        action: 0,
        ..all
    };
    let second = Rule {
        slow: 1000,
        shigh: 2000,
        dlow: 1,
        dhigh: 5589,
        action: 0,
        ..all
    };
    let rules = [first.to_bytes(), second.to_bytes(), all.to_bytes()];
    for rule in &rules {
        let mut table = [0; TABLE_BYTES];
        print!(rt; "{} ", tables::compile(rule, &mut table).unwrap_or(0))?;
    }
    together(rt, rules.as_flattened())
}
