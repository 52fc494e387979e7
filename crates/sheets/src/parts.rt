// The fields of a line.
ghost use Rattle.std.specs.Prelude.{◌≡◌};
ghost use Rattle.sheets.specs.Numbers.{number_of, number_or_none};
ghost use Rattle.sheets.specs.Parts as spec;

use crate::cuts::halves;
use crate::numbers::number;
use records::{Action, Prefix};

#[derive(Clone, Copy, Debug, PartialEq, Eq)]
pub enum Protocol {
    Any,
    Exact(u8),
}

// An interval of ports. `read_ports` hands out none whose ends are not in order.
#[derive(Clone, Copy, Debug, PartialEq, Eq)]
pub struct Ports {
    pub low: u16,
    pub high: u16,
}

// A number of one byte.
fn octet(s: &[u8]) -> Option<u8>
    ensures { number_or_none result ≡ spec.octet_of (number_of s.now) }
{
    u8::try_from(number(s)?).ok()
}

pub fn read_protocol(s: &[u8]) -> Option<Protocol>
    ensures { spec.protocol_as result ≡ spec.protocol_of s.now }
{
    if s == b"*".as_slice() {
        return Some(Protocol::Any);
    }
    Some(Protocol::Exact(octet(s)?))
}

// The address of four numbers and its length, where the length is in range and no bit is set beyond it.
fn joined(a: u8, b: u8, c: u8, d: u8, len: u16) -> Option<Prefix>
    ensures { spec.address_as result ≡ spec.joined a b c d len }
{
    if 32 < len {
        return None;
    }
    let prefix = Prefix {
        address: u32::from_be_bytes([a, b, c, d]),
        len: len as u8,
    };
    if prefix.beyond() {
        return None;
    }
    Some(prefix)
}

pub fn read_address(s: &[u8]) -> Option<Prefix>
    ensures { spec.address_as result ≡ spec.address_of s.now }
{
    let (a, rest) = halves(s, b'.');
    let (b, rest) = halves(rest, b'.');
    let (c, rest) = halves(rest, b'.');
    let (d, len) = halves(rest, b'/');
    joined(octet(a)?, octet(b)?, octet(c)?, octet(d)?, number(len)?)
}

pub fn read_ports(s: &[u8]) -> Option<Ports>
    ensures { spec.ports_as result ≡ spec.ports_of s.now }
{
    let (low, high) = halves(s, b'-');
    let ports = Ports {
        low: number(low)?,
        high: number(high)?,
    };
    if ports.high < ports.low {
        return None;
    }
    Some(ports)
}

pub fn read_action(s: &[u8]) -> Option<Action>
    ensures { spec.action_as result ≡ spec.action_of s.now }
{
    if s == b"permit".as_slice() {
        Some(Action::Permit)
    } else if s == b"deny".as_slice() {
        Some(Action::Deny)
    } else if s == b"permit-log".as_slice() {
        Some(Action::PermitLog)
    } else if s == b"deny-log".as_slice() {
        Some(Action::DenyLog)
    } else {
        None
    }
}
