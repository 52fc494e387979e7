// The source papers' tables, worked out anew by this library's own calls: no result is written down here. The file stdout
// has the papers' figures; where theorem 4.1 leaves the whole width out, it counts, as document 01 says.
#![tactic(auto)]

mod decimals;
mod open;
mod ports;
mod symbols;
mod tallies;
mod widths;

use std::io;

fn main(rt: HostRuntime) -> io::Result<()> {
    let all = tallies::all();
    widths::counts(&rt, &all)?;
    open::run(&rt)?;
    widths::means(&rt, &all)?;
    widths::shares(&rt, &all)?;
    ports::run(&rt)?;
    symbols::run(&rt)
}
