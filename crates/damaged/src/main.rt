// Records built to break a rule, and valid ones at the border of one: what every call of each manager answers.
#![tactic(auto)]

pub mod contacts;
pub mod free;
pub mod out;
pub mod over;
pub mod polynomial;
pub mod priority;
pub mod queue;

use std::io;

fn main(rt: HostRuntime) -> io::Result<()> {
    free::run(&rt)?;
    priority::run(&rt)?;
    polynomial::run(&rt)?;
    queue::run(&rt)
}
