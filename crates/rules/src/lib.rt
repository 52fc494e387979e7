// Rule lists (document 01, "Rule, header and table records"): what is wrong with one, and which rule a header finds in it.
//
//   test_rules  the tests of a rule list, which every call on one makes first
//   find_rule   the first rule that matches a header
//
// A list is the rules' 21-byte records, one after the other. Any bytes may come; a RuleList is one that has passed the tests.
#![tactic(auto)]

mod faults;
mod finding;
mod lists;

pub use faults::{Field, ListFault, test_rules};
pub use finding::{FindError, Found, find_rule};
pub use lists::RuleList;
