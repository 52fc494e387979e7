// Document 01's cases, run: each line is a case with what the call answers. What they should be stands in the file stdout,
// worked out from the document.
#![tactic(auto)]

mod intervals_run;
mod lists_run;
mod refused;
mod tables_run;

use std::io;

fn main(rt: HostRuntime) -> io::Result<()> {
    intervals_run::bounds(&rt)?;
    intervals_run::counts(&rt)?;
    intervals_run::lists(&rt)?;
    intervals_run::walks(&rt)?;
    intervals_run::checks(&rt)?;
    tables_run::run(&rt)
}
