//! Runs the examples of the rules and prints what was told. The gate compares it with `stdout`.

#![tactic(auto)]

mod fields;
mod sheets;
mod telling;
mod trials;

use std::io;

fn main(rt: HostRuntime) -> io::Result<()> {
    fields::samples(&rt)?;
    fields::crowded(&rt)?;
    fields::short_lists(&rt)?;
    fields::piles(&rt)?;
    fields::ranges(&rt)?;
    sheets::stories(&rt)?;
    sheets::crowds(&rt)?;
    trials::trials(&rt)?;
    trials::slips(&rt)?;
    trials::asked(&rt)
}
