// The distinct rule at its edges.
use distinct::Distinct;
use places::{CarrierRow, NeedleList, PlaceSet};
use refusals::Refusal;
use rules::{Progression, Rule, narrow_family};
use std::test::Fail;

// Narrows rows, at most 64 of them, by a distinct rule.
fn narrow_rows(first: u16, step: u16, count: u16, lists: &mut [CarrierRow]) -> Result<(), Refusal> {
    let mut working = [CarrierRow(0); 64];
    let mut numbers = [0; 1024];
    let rule = Distinct {
        jobs: Progression { first, step, count },
    };
    narrow_family(&rule, lists, &mut working, &mut numbers)
}

// Narrows a chain of needle lists, and gives how many places they hold then.
fn narrow_chain(lists: &mut [NeedleList; 256]) -> Result<u16, Refusal> {
    let mut working = [NeedleList { places: [0; 8] }; 256];
    let mut numbers = [0; 18_432];
    let rule = Distinct {
        jobs: Progression {
            first: 0,
            step: 1,
            count: 256,
        },
    };
    narrow_family(&rule, lists, &mut working, &mut numbers)?;
    Ok(
        lists
            .iter()
            .fold(0, |held: u16, list| held.saturating_add(list.count())),
    )
}

#[test]
fn one_job_alone_keeps_all(rt: HostRuntime) -> Result<(), Fail> {
    let mut lists = [CarrierRow(0b111), CarrierRow(0b111)];
    narrow_rows(1, 1, 1, &mut lists)?;
    assert_eq!(rt; lists[0].0, 0b111);
    assert_eq!(rt; lists[1].0, 0b111);
    Ok(())
}

#[test]
fn two_on_two_push_a_third_off(rt: HostRuntime) -> Result<(), Fail> {
    let mut lists = [CarrierRow(0b011), CarrierRow(0b011), CarrierRow(0b111)];
    narrow_rows(0, 1, 3, &mut lists)?;
    assert_eq!(rt; lists[0].0, 0b011);
    assert_eq!(rt; lists[1].0, 0b011);
    assert_eq!(rt; lists[2].0, 0b100);
    Ok(())
}

#[test]
fn three_on_two_lose_all(rt: HostRuntime) -> Result<(), Fail> {
    let mut lists = [CarrierRow(0b011); 3];
    narrow_rows(0, 1, 3, &mut lists)?;
    for list in lists {
        assert_eq!(rt; list.0, 0);
    }
    Ok(())
}

#[test]
fn an_empty_list_empties_its_scope(rt: HostRuntime) -> Result<(), Fail> {
    let mut lists = [CarrierRow(3), CarrierRow(0), CarrierRow(12), CarrierRow(5)];
    narrow_rows(0, 1, 3, &mut lists)?;
    assert_eq!(rt; lists[0].0, 0);
    assert_eq!(rt; lists[2].0, 0);
    assert_eq!(rt; lists[3].0, 5);
    Ok(())
}

#[test]
fn a_chain_of_256_jobs(rt: HostRuntime) -> Result<(), Fail> {
    let mut lists = [NeedleList { places: [0; 8] }; 256];
    for (i, list) in lists.iter_mut().enumerate() {
        let place = i as u16;
        *list = NeedleList {
            places: [place, place + 1, 0, 0, 0, 0, 0, 0],
        };
    }
    assert_eq!(rt; narrow_chain(&mut lists)?, 512);
    lists[0].strike(0);
    assert_eq!(rt; narrow_chain(&mut lists)?, 256);
    assert_eq!(rt; lists[1].next_from(0), Some(2));
    assert_eq!(rt; lists[255].next_from(0), Some(256));
    Ok(())
}

#[test]
fn a_full_course_loses_nothing(rt: HostRuntime) -> Result<(), Fail> {
    let mut lists = [CarrierRow(u64::MAX); 64];
    narrow_rows(0, 1, 64, &mut lists)?;
    for list in lists {
        assert_eq!(rt; list.0, u64::MAX);
    }
    Ok(())
}

#[test]
fn steps_of_two_skip_jobs(rt: HostRuntime) -> Result<(), Fail> {
    let mut lists = [CarrierRow(0b011); 5];
    lists[4] = CarrierRow(0b111);
    narrow_rows(0, 2, 3, &mut lists)?;
    for list in &lists[..4] {
        assert_eq!(rt; list.0, 0b011);
    }
    assert_eq!(rt; lists[4].0, 0b100);
    assert_eq!(rt;
        narrow_rows(1, 2, 3, &mut lists),
        Err(Refusal::UnlawfulRule(0))
    );
    Ok(())
}

// Whether a distinct rule is lawful for 256 jobs.
fn is_lawful(first: u16, step: u16, count: u16) -> bool {
    Distinct {
        jobs: Progression { first, step, count },
    }
    .is_lawful(256)
}

#[test]
fn large_numbers_are_unlawful(rt: HostRuntime) {
    assert!(rt; !is_lawful(65_535, 65_535, 65_535));
    assert!(rt; !is_lawful(0, 1, 0));
    assert!(rt; !is_lawful(0, 0, 1));
    assert!(rt; !is_lawful(256, 1, 1));
    assert!(rt; !is_lawful(1, 1, 256));
    assert!(rt; is_lawful(0, 1, 256));
    assert!(rt; is_lawful(255, 65_535, 1));
}
