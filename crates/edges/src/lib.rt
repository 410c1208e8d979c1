// Examples at the edges of the list kinds, of narrowing by one rule, of settling, and of matchings, searches and queues.
#![tactic(auto)]

#[cfg(test)]
mod distinct_tests;
pub mod searches;
#[cfg(test)]
mod settling_tests;

use places::{CarrierRow, NeedleList, PlaceSet};
use refusals::Refusal;
use rules::{Addition, Distance, Gap, Rule, Sum, narrow_family};

// Narrows empty rows, `n` of them, by a sum of jobs 0, 1 and 2.
pub fn narrow_empty_rows(n: usize, working: usize, numbers: usize) -> Result<(), Refusal> {
    let mut lists = [CarrierRow(0); 257];
    let mut work = [CarrierRow(0); 257];
    let mut row = [0; 2600];
    let rule = Sum {
        a: 0,
        b: 1,
        c: 2,
        by: Addition,
    };
    narrow_family(
        &rule,
        &mut lists[0..n.min(257)],
        &mut work[0..working.min(257)],
        &mut row[0..numbers.min(2600)],
    )
}

#[cfg(test)]
mod tests {
    use super::*;
    use std::test::Fail;

    #[test]
    fn rows_end_at_63(rt: HostRuntime) -> Result<(), Fail> {
        let mut row = CarrierRow::new(&[63, 0, 63])?;
        assert_eq!(rt; row.count(), 2);
        assert!(rt; row.contains(63));
        assert!(rt; !row.contains(64));
        assert!(rt; !row.contains(65_535));
        assert_eq!(rt; row.next_from(1), Some(63));
        assert_eq!(rt; row.next_from(64), None);
        row.strike(64);
        row.strike(65_535);
        assert_eq!(rt; row.count(), 2);
        row.fix(63);
        assert_eq!(rt; row.0, 1 << 63);
        row.fix(65_535);
        assert_eq!(rt; row.0, 0);
        assert!(rt; CarrierRow::new(&[64]).is_err());
        Ok(())
    }

    #[test]
    fn needles_end_at_2047(rt: HostRuntime) -> Result<(), Fail> {
        let mut list = NeedleList::new(&[0, 2047])?;
        assert!(rt; list.contains(2047));
        assert!(rt; !list.contains(2048));
        assert!(rt; !list.contains(65_535));
        assert_eq!(rt; list.next_from(1), Some(2047));
        assert_eq!(rt; list.next_from(2048), None);
        list.strike(2048);
        assert_eq!(rt; list.count(), 2);
        list.fix(65_535);
        assert_eq!(rt; list.count(), 0);
        assert!(rt; NeedleList::new(&[2048]).is_err());
        Ok(())
    }

    #[test]
    fn makings_of_needle_lists(rt: HostRuntime) -> Result<(), Fail> {
        assert_eq!(rt; NeedleList::new(&[1, 2, 3, 4, 5, 6, 7, 8])?.count(), 8);
        assert!(rt; NeedleList::new(&[1, 2, 3, 4, 5, 6, 7, 8, 9]).is_err());
        assert!(rt; NeedleList::new(&[3, 3]).is_err());
        assert!(rt; NeedleList::new(&[4, 3]).is_err());
        assert_eq!(rt; NeedleList::new(&[])?.count(), 0);
        Ok(())
    }

    #[test]
    fn stray_numbers_are_not_held(rt: HostRuntime) {
        let mut list = NeedleList {
            places: [3, 5, 9, 7, 20, 0, 0, 0],
        };
        assert_eq!(rt; list.count(), 3);
        list.strike(9);
        assert_eq!(rt; list.count(), 2);
        assert!(rt; !list.contains(7));
        assert!(rt; !list.contains(20));
        list.fix(4);
        assert_eq!(rt; list.count(), 0);
    }

    #[test]
    fn job_counts_and_memory(rt: HostRuntime) {
        assert_eq!(rt; narrow_empty_rows(0, 257, 2600), Err(Refusal::JobCount));
        assert_eq!(rt;
            narrow_empty_rows(1, 257, 2600),
            Err(Refusal::UnlawfulRule(0))
        );
        assert_eq!(rt; narrow_empty_rows(256, 256, 2560), Ok(()));
        assert_eq!(rt; narrow_empty_rows(257, 257, 2600), Err(Refusal::JobCount));
        assert_eq!(rt;
            narrow_empty_rows(256, 255, 2560),
            Err(Refusal::TableTooShort)
        );
        assert_eq!(rt;
            narrow_empty_rows(256, 256, 2559),
            Err(Refusal::TableTooShort)
        );
    }

    #[test]
    fn gap_of_needles(rt: HostRuntime) -> Result<(), Fail> {
        let mut lists = [
            NeedleList::new(&[0, 5])?,
            NeedleList::new(&[5])?,
            NeedleList::new(&[0, 3])?,
        ];
        let mut work = lists;
        let mut row = [0; 16_408];
        narrow_family(
            &Gap {
                a: 0,
                b: 1,
                c: 2,
                by: Distance,
            },
            &mut lists,
            &mut work,
            &mut row,
        )?;
        assert_eq!(rt; lists[0].next_from(0), Some(5));
        assert_eq!(rt; lists[1].count(), 1);
        assert_eq!(rt; lists[2].next_from(0), Some(0));
        assert_eq!(rt; lists[2].count(), 1);
        assert!(rt;
            !Gap {
                a: 0,
                b: 1,
                c: 1,
                by: Distance
            }
            .is_lawful(3)
        );
        Ok(())
    }
}
