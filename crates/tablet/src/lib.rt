// What C sees: a function for each call, which answers in document 01's number and values, and a walk and its step as structs of
// numbers. The crate tablet_c exports the functions, and include/ashkavorz.h declares them for C.
#![tactic(auto)]

mod calls;
mod convert;
mod steps;

pub use calls::{
    ashkavorz_check, ashkavorz_close, ashkavorz_compile, ashkavorz_count, ashkavorz_find_rule,
    ashkavorz_find_word, ashkavorz_list, ashkavorz_read_sheet, ashkavorz_step,
};
pub use convert::{ToAnswer, Verdict};
pub use steps::{Step, Walk};
