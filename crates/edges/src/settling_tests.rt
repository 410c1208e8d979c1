// Settling at its edges.
use places::CarrierRow;
use refusals::Refusal;
use rules::{Addition, Sum};
use settling::{WakeUp, settle_family};

const SUM: Sum = Sum {
    a: 0,
    b: 1,
    c: 2,
    by: Addition,
};

// Settles rows, at most 64 of them, with room for so many wake-ups.
fn settle_rows(
    rules: &[Sum],
    lists: &mut [CarrierRow],
    wakes: usize,
) -> Result<Option<u16>, Refusal> {
    let mut numbers = [0; 1024];
    let mut wake_ups = [WakeUp { rule: 0, job: 0 }; 65];
    settle_family(rules, lists, &mut numbers, &mut wake_ups[0..wakes.min(65)])
}

#[test]
fn no_rules(rt: HostRuntime) {
    let mut lists = [CarrierRow(3), CarrierRow(5)];
    assert_eq!(rt; settle_rows(&[], &mut lists, 0), Ok(None));
    assert_eq!(rt; lists[0].0, 3);
    assert_eq!(rt; lists[1].0, 5);
}

#[test]
fn one_job_and_none(rt: HostRuntime) {
    assert_eq!(rt; settle_rows(&[], &mut [CarrierRow(4)], 0), Ok(None));
    assert_eq!(rt; settle_rows(&[], &mut [], 0), Err(Refusal::JobCount));
    assert_eq!(rt;
        settle_rows(&[SUM], &mut [CarrierRow(4)], 1),
        Err(Refusal::UnlawfulRule(0))
    );
}

#[test]
fn sixty_four_rules_and_one_more(rt: HostRuntime) {
    let mut lists = [CarrierRow(0b10), CarrierRow(0b100), CarrierRow(0b1010)];
    assert_eq!(rt; settle_rows(&[SUM; 65], &mut lists, 65), Err(Refusal::Full));
    assert_eq!(rt;
        settle_rows(&[SUM; 64], &mut lists, 63),
        Err(Refusal::TableTooShort)
    );
    assert_eq!(rt; lists[2].0, 0b1010);
    assert_eq!(rt; settle_rows(&[SUM; 64], &mut lists, 64), Ok(None));
    assert_eq!(rt; lists[2].0, 0b1000);
}

#[test]
fn too_few_numbers(rt: HostRuntime) {
    let mut lists = [CarrierRow(1); 3];
    let mut wake_ups = [WakeUp { rule: 0, job: 0 }; 1];
    assert_eq!(rt;
        settle_family(&[SUM], &mut lists, &mut [0; 535], &mut wake_ups),
        Err(Refusal::TableTooShort)
    );
    assert_eq!(rt;
        settle_family(&[SUM], &mut lists, &mut [0; 536], &mut wake_ups),
        Ok(None)
    );
}

#[test]
fn empty_lists_are_named_without_rules(rt: HostRuntime) {
    let mut lists = [CarrierRow(1), CarrierRow(0), CarrierRow(0)];
    assert_eq!(rt; settle_rows(&[], &mut lists, 0), Ok(Some(1)));
    assert_eq!(rt; lists[0].0, 1);
    assert_eq!(rt; settle_rows(&[], &mut [CarrierRow(0); 64], 0), Ok(Some(0)));
}

// Job 4 opens without a place, and the rule takes them from jobs 1, 2 and 3: the lowest of all is named.
#[test]
fn the_lowest_empty_job_of_the_result(rt: HostRuntime) {
    let mut lists = [
        CarrierRow(1),
        CarrierRow(2),
        CarrierRow(2),
        CarrierRow(1),
        CarrierRow(0),
    ];
    let rule = Sum {
        a: 3,
        b: 2,
        c: 1,
        by: Addition,
    };
    assert_eq!(rt; settle_rows(&[rule], &mut lists, 1), Ok(Some(4)));
    lists[1] = CarrierRow(4);
    assert_eq!(rt; settle_rows(&[rule], &mut lists, 1), Ok(Some(1)));
    assert_eq!(rt; lists[0].0, 1);
    assert_eq!(rt; lists[2].0, 0);
    assert_eq!(rt; lists[3].0, 0);
}
