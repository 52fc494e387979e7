// Tables of ternary words (document 01, "Rule, header and table records"): compiling a rule list into one, and finding a
// header in one.
//
//   compile     a rule list into a lent table
//   find_word   the first record of a table that matches a header
//
// Everything is tested before anything is written, so a refused call leaves the table as it was.
#![tactic(auto)]

mod compiling;
mod finding;

pub use compiling::{CompileError, compile};
pub use finding::{Found, LookError, find_word};
