// Rule sheets as text (document 02, order 1): one rule a line, six fields parted by tabs, read into 21-byte records.
#![tactic(auto)]

mod cuts;
mod numbers;
mod parts;
mod reading;
mod rows;

pub use reading::{BadLine, SHEET_LIMIT, SheetError, read};
pub use rows::Part;
