// Carries built-in courses over a board and prints what stands.
#![tactic(auto)]

mod courses;
mod day;
mod listing;
mod stopped;
mod tables;

use courses::{crowd, feeding, needles, sharing, sum};
use day::{day, rule_more};
use std::io;
use stopped::report;

fn main(rt: HostRuntime) -> io::Result<()> {
    report(rt, sum(rt))?;
    report(rt, sharing(rt))?;
    report(rt, crowd(rt))?;
    report(rt, feeding(rt))?;
    report(rt, needles(rt))?;
    report(rt, day(rt))?;
    report(rt, rule_more(rt))
}
