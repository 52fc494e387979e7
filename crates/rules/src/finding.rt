// Which rule a header finds: the first of the list that matches it in all five fields.
ghost use Rattle.std.specs.Prelude.{◌≡◌, ◌≤◌};
ghost use Rattle.rules.specs.Finding.{find_fault, finding, found_as, rule_found};
ghost use Rattle.rules.specs.Lists.{rules_in};
ghost use Rattle.rules.specs.Meaning.{first_rule, port_match, rule_match};

use crate::faults::{ListFault, test_rules};
use crate::lists::RuleList;
use records::{Action, KEY_SIZE, Key, Rule};

// A rule's number from 0, and its action.
#[derive(Clone, Copy, Debug, PartialEq, Eq)]
pub struct Found {
    pub rule: u32,
    pub action: Action,
}

#[derive(Clone, Copy, Debug, PartialEq, Eq)]
pub enum FindError {
    Rules(ListFault),
    // 11: the header has not 13 bytes.
    Header,
}

impl From<ListFault> for FindError {
    ghost from_gives = { λ fault error. error ≡ find_fault fault };

    fn from(fault: ListFault) -> FindError {
        FindError::Rules(fault)
    }
}

fn port_matches(low: u16, high: u16, x: u16) -> bool
    ensures { result ≡ port_match low high x }
{
    low <= x && x <= high
}

#[tactic(auto, unfolding(crate::specs::Meaning::rule_match))]
fn rule_matches(r: Rule, h: Key) -> bool
    requires { (r.slen ≤ 32) × (r.dlen ≤ 32) }
    ensures { result ≡ rule_match r h }
{
    (r.flag == 1 || h.proto == r.proto)
        && r.source().matches(h.src)
        && r.dest().matches(h.dst)
        && port_matches(r.slow, r.shigh, h.sport)
        && port_matches(r.dlow, r.dhigh, h.dport)
}

// Reads a well-formed list from the top.
#[tactic(auto, using(crate::proofs::Goods::fine_at), unfolding(crate::specs::Meaning::first_rule))]
fn first_rule(list: RuleList<'_>, h: Key) -> Option<Found>
    ensures { rule_found result ≡ first_rule 0 (rules_in list.entry.records.now) h }
{
    for (i, record) in list.records.iter().enumerate() {
        let r = Rule::from_bytes(record);
        if rule_matches(r, h) {
            return Some(Found {
                rule: i as u32,
                action: Action::try_from(r.action).unwrap(),
            });
        }
    }
    None
}

// The first matching rule, or nothing where none matches.
#[tactic(auto, unfolding(crate::specs::Finding::finding, crate::specs::Finding::finding_good, crate::specs::Faults::behind_rules))]
pub fn find_rule(rules: &[u8], header: &[u8]) -> Result<Option<Found>, FindError>
    ensures { found_as result ≡ finding rules.now header.now }
{
    let list = test_rules(rules)?;
    let bytes = header.as_array::<KEY_SIZE>().ok_or(FindError::Header)?;
    Ok(first_rule(list, Key::from_bytes(bytes)))
}
