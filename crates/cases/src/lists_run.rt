// The cases of rule lists and of the rules that headers find.
use crate::refused::Refused;
use records::{KEY_SIZE, Key, Rule};
use std::io;

// A rule for any protocol, addresses and ports, permitted.
pub const ANY: Rule = Rule {
    flag: 1,
    proto: 0,
    src: 0,
    slen: 0,
    dst: 0,
    dlen: 0,
    slow: 0,
    shigh: 65535,
    dlow: 0,
    dhigh: 65535,
    action: 0,
};

// A header of protocol 6, and zeros.
pub fn header() -> [u8; KEY_SIZE] {
    let key = Key {
        proto: 6,
        src: 0,
        dst: 0,
        sport: 0,
        dport: 0,
    };
    key.to_bytes()
}

pub fn by_rule(rt: &impl Print, label: &str, rules: &[u8], header: &[u8]) -> io::Result<()> {
    print!(rt; "by rule, {label}: ")?;
    match rules::find_rule(rules, header) {
        Ok(Some(found)) => println!(rt; "rule {}, action {}", found.rule, u8::from(found.action)),
        Ok(None) => println!(rt; "nothing"),
        Err(error) => println!(rt; "{}", Refused::from(error)),
    }
}

fn bad(rt: &impl Print, label: &str, rule: Rule) -> io::Result<()> {
    by_rule(rt, label, &rule.to_bytes(), &header())
}

// The address 10.0.0.x.
fn ten(x: u8) -> u32 {
    u32::from_be_bytes([10, 0, 0, x])
}

// Each bad field alone.
pub fn fields(rt: &impl Print) -> io::Result<()> {
    bad(rt, "flag 2", Rule { flag: 2, ..ANY })?;
    bad(rt, "protocol 6 under any", Rule { proto: 6, ..ANY })?;
    bad(rt, "source length 33", Rule { slen: 33, ..ANY })?;
    let source = Rule { src: ten(1), ..ANY };
    bad(rt, "source 10.0.0.1/8", Rule { slen: 8, ..source })?;
    bad(rt, "source 10.0.0.1/32", Rule { slen: 32, ..source })?;
    bad(rt, "destination length 33", Rule { dlen: 33, ..ANY })?;
    let dest = Rule {
        dst: ten(1),
        dlen: 8,
        ..ANY
    };
    bad(rt, "destination 10.0.0.1/8", dest)?;
    let highest = Rule {
        dst: 2147483648,
        ..ANY
    };
    bad(rt, "destination 128.0.0.0/0", highest)?;
    let sports = Rule {
        slow: 256,
        shigh: 0,
        ..ANY
    };
    bad(rt, "source ports 256-0", sports)?;
    let dports = Rule {
        dlow: 1,
        dhigh: 0,
        ..ANY
    };
    bad(rt, "destination ports 1-0", dports)?;
    bad(rt, "action 3", Rule { action: 3, ..ANY })?;
    bad(rt, "action 4", Rule { action: 4, ..ANY })
}

// Bad fields in pairs: the first of them is named.
pub fn pairs(rt: &impl Print) -> io::Result<()> {
    let flag = Rule { flag: 2, ..ANY };
    bad(rt, "flag 2 and protocol 6", Rule { proto: 6, ..flag })?;
    let length = Rule { slen: 33, ..ANY };
    bad(
        rt,
        "protocol 6 and source length 33",
        Rule { proto: 6, ..length },
    )?;
    let source = Rule { src: ten(0), ..ANY };
    bad(
        rt,
        "source length 33 and address bits",
        Rule { slen: 33, ..source },
    )?;
    bad(
        rt,
        "source address bits and destination length 33",
        Rule { dlen: 33, ..source },
    )?;
    let dest = Rule { dst: ten(0), ..ANY };
    bad(
        rt,
        "destination length 33 and address bits",
        Rule { dlen: 33, ..dest },
    )?;
    let sports = Rule {
        slow: 256,
        shigh: 255,
        ..ANY
    };
    bad(
        rt,
        "destination address bits and source ports 256-255",
        Rule {
            dst: ten(0),
            ..sports
        },
    )?;
    let dports = Rule {
        dlow: 256,
        dhigh: 255,
        ..ANY
    };
    bad(
        rt,
        "both port intervals crossed",
        Rule {
            slow: 256,
            shigh: 255,
            ..dports
        },
    )?;
    bad(
        rt,
        "destination ports 256-255 and action 4",
        Rule {
            action: 4,
            ..dports
        },
    )?;
    bad(rt, "flag 2 and action 4", Rule { action: 4, ..flag })
}
