// Courses that are opened, settled and printed.
use crate::stopped::Stopped;
use crate::tables::{ALL_THREE, FIRST_TWO, SUM, Tables};
use places::{CarrierRow, NeedleList};
use records::RuleRecord;
use rules::{Addition, Sum};

// Rows of four jobs want 8 × (4 + 64) numbers.
fn carry_rows(
    rt: HostRuntime,
    n: u16,
    opened: [CarrierRow; 4],
    rules: &[RuleRecord],
) -> Result<(), Stopped> {
    Tables::<CarrierRow, 544>::new(opened).carry(rt, n, rules)
}

pub fn sum(rt: HostRuntime) -> Result<(), Stopped> {
    println!(rt; "the first two places add up to the third")?;
    let opened = [
        CarrierRow::new(&[1, 2])?,
        CarrierRow::new(&[3])?,
        CarrierRow::new(&[4, 9])?,
        CarrierRow(0),
    ];
    carry_rows(rt, 3, opened, &[SUM])
}

pub fn sharing(rt: HostRuntime) -> Result<(), Stopped> {
    println!(rt; "two jobs share two places")?;
    let two = CarrierRow::new(&[0, 1])?;
    let opened = [two, two, CarrierRow::new(&[0, 1, 2])?, CarrierRow(0)];
    carry_rows(rt, 3, opened, &[ALL_THREE])
}

pub fn crowd(rt: HostRuntime) -> Result<(), Stopped> {
    println!(rt; "three jobs on two places")?;
    let two = CarrierRow::new(&[0, 1])?;
    carry_rows(rt, 3, [two, two, two, CarrierRow(0)], &[ALL_THREE])
}

pub fn feeding(rt: HostRuntime) -> Result<(), Stopped> {
    println!(rt; "two rules feed each other")?;
    let two = CarrierRow::new(&[0, 1])?;
    let opened = [two, two, CarrierRow::new(&[0])?, CarrierRow::new(&[1])?];
    let sum = RuleRecord::Sum(Sum {
        a: 0,
        b: 2,
        c: 3,
        by: Addition,
    });
    carry_rows(rt, 4, opened, &[FIRST_TWO, sum])
}

// Needle lists of three jobs want 8 × (3 + 2048) numbers.
pub fn needles(rt: HostRuntime) -> Result<(), Stopped> {
    println!(rt; "two jobs share two places, by needle lists")?;
    let two = NeedleList::new(&[0, 1])?;
    let three = NeedleList::new(&[0, 1, 2])?;
    let opened = [two, two, three, NeedleList::new(&[])?];
    Tables::<NeedleList, 16_408>::new(opened).carry(rt, 3, &[ALL_THREE])
}
