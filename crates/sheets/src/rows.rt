// A line of a sheet.
ghost use Rattle.std.specs.Prelude.{◌≡◌};
ghost use Rattle.sheets.specs.Rows.{part_number, row_as, row_of};

use crate::cuts::{count, halves};
use crate::parts::{Protocol, read_action, read_address, read_ports, read_protocol};
use records::Rule;

// What may be wrong with a line, by document 02's numbers: that it has not six fields, or one of the six.
#[derive(Clone, Copy, Debug, PartialEq, Eq)]
pub enum Part {
    Line = 0,
    Protocol = 1,
    Source = 2,
    Destination = 3,
    SourcePorts = 4,
    DestinationPorts = 5,
    Action = 6,
}

impl From<Part> for u32 {
    ghost from_gives = { λ part number. number ≡ part_number part };

    fn from(part: Part) -> u32 {
        part as u32
    }
}

// The rule that a line says, or its first bad part.
pub fn read_row(s: &[u8]) -> Result<Rule, Part>
    ensures { row_as result ≡ row_of s.now }
{
    if count(s, b'\t') != 5 {
        return Err(Part::Line);
    }
    let (protocol, rest) = halves(s, b'\t');
    let (source, rest) = halves(rest, b'\t');
    let (destination, rest) = halves(rest, b'\t');
    let (source_ports, rest) = halves(rest, b'\t');
    let (destination_ports, action) = halves(rest, b'\t');
    let (flag, proto) = match read_protocol(protocol).ok_or(Part::Protocol)? {
        Protocol::Any => (1, 0),
        Protocol::Exact(proto) => (0, proto),
    };
    let src = read_address(source).ok_or(Part::Source)?;
    let dst = read_address(destination).ok_or(Part::Destination)?;
    let sports = read_ports(source_ports).ok_or(Part::SourcePorts)?;
    let dports = read_ports(destination_ports).ok_or(Part::DestinationPorts)?;
    let act = read_action(action).ok_or(Part::Action)?;
    Ok(Rule {
        flag,
        proto,
        src: src.address,
        slen: src.len,
        dst: dst.address,
        dlen: dst.len,
        slow: sports.low,
        shigh: sports.high,
        dlow: dports.low,
        dhigh: dports.high,
        action: act.into(),
    })
}
