// Matchings of jobs whose places are worked out or stand in two lists, searches whose tables are lent apart, and queues that are copied.
ghost use Rattle.std.specs.Prelude.{◌≡◌, ℕ, ◌<◌, ◌≤◌, true, if◌then◌else◌, length, nat_eq};
ghost use Rattle.theory.specs.Assignments.{Searched};
ghost use Rattle.theory.specs.SingleRows.{single};
ghost use Rattle.matching.specs.Matched.{Matched, Stalled};
ghost use Rattle.matching.specs.Tables.{at, filled};
ghost use Rattle.components.specs.Walks.{tables, Fit, loose};

use components::{Scratch, components};
use matching::{Bipartite, ByLists, Listed, Matching, match_jobs};
use places::PlaceSet;

// Jobs each of which can take the place of its own number alone.
#[derive(Drop)]
pub struct Diagonal {
    pub jobs: u16,
}

impl Bipartite for Diagonal {
    ghost jobs = { λ d. d.jobs };

    ghost width = { λ d. d.jobs };

    ghost holds = { λ _. nat_eq };

    fn next_from(&self, job: usize, place: u16) -> Option<u16> {
        // The number of jobs is read, so that the proof knows that a job's has 16 bits.
        if usize::from(place) > job || job >= usize::from(self.jobs) {
            return None;
        }
        Some(job as u16)
    }
}

// Two jobs with a list each.
#[derive(Drop)]
pub struct Pair<L> {
    pub first: L,
    pub second: L,
}

impl<L: PlaceSet> Listed for Pair<L> {
    type List = L;

    ghost jobs = { λ _. 2 };

    ghost holds = { λ p job. if nat_eq job 0 then L.has p.first else L.has p.second };

    fn list(&self, job: usize) -> &L {
        if job == 0 { &self.first } else { &self.second }
    }
}

// A largest matching of jobs that lend their lists. Places are below the list kind's limit, which is at most 2,048.
pub fn match_lists<J: Listed>(
    jobs: &J,
    places: &mut [u16],
    holders: &mut [u16],
    parents: &mut [u16],
    slots: &mut [u16],
)
    requires few { J.jobs jobs.now ≤ 65535 }
    requires places { length places.old ≡ J.jobs jobs.now }
    requires holders { J.List.LIMIT ≤ length holders.old }
    requires parents { length parents.old ≡ J.jobs jobs.now }
    requires slots { J.jobs jobs.now ≤ length slots.old }
    ensures { Stalled (J.jobs jobs.now) J.List.LIMIT (J.holds jobs.now) places.new holders.new parents.new }
{
    match_jobs(&ByLists { jobs }, places, holders, parents, slots);
}

// The components of a full matching of such jobs. All tables may be lent for one time.
pub fn search_lists<'m, 'a, J: Listed>(
    jobs: &'m J,
    places: &'m [u16],
    holders: &'m [u16],
    index: &'a mut [u16],
    labels: &'a mut [u16],
    scratch: Scratch<'a, 'a, 'a, 'a>,
)
    requires few { J.jobs jobs.now ≤ 65535 }
    requires sized { length places.now ≡ J.jobs jobs.now }
    requires matched { Matched (J.jobs jobs.now) J.List.LIMIT (J.holds jobs.now) places.now holders.now }
    requires every { (i : ℕ) → i < J.jobs jobs.now → filled places.now i ≡ true }
    requires tables { Fit (J.jobs jobs.now) (tables scratch.cursors.now index.old labels.old scratch.nodes.now scratch.cuts.now scratch.path.now) }
    ensures { Searched (single (J.jobs jobs.now) J.List.LIMIT (J.holds jobs.now)) (at places.now) (loose index.new) (at labels.new) }
{
    let full = Matching {
        jobs: &ByLists { jobs },
        places,
        holders,
    };
    components(&full, index, labels, scratch);
}

// Lends its own tables to two searches, one after the other: each table is lent for a time of its own, and keeps its length.
pub fn search_twice<J: Bipartite>(
    full: &Matching<J>,
    cursors: &mut [u16],
    index: &mut [u16],
    labels: &mut [u16],
    nodes: &mut [u16],
    cuts: &mut [u16],
    path: &mut [u16],
)
    requires every { (i : ℕ) → i < J.jobs full.now.jobs.now → filled full.now.places.now i ≡ true }
    requires tables { Fit (J.jobs full.now.jobs.now) (tables cursors.old index.old labels.old nodes.old cuts.old path.old) }
    ensures { Searched (single (J.jobs full.now.jobs.now) (J.width full.now.jobs.now) (J.holds full.now.jobs.now)) (at full.now.places.now) (loose index.new) (at labels.new) }
{
    let first = Scratch {
        cursors,
        nodes,
        cuts,
        path,
    };
    components(full, index, labels, first);
    let second = Scratch {
        cursors,
        nodes,
        cuts,
        path,
    };
    components(full, index, labels, second);
}

#[cfg(test)]
mod tests {
    use super::*;
    use matching::NONE;
    use places::CarrierRow;
    use queue::RingQueue;
    use std::test::Fail;

    // Three holders are enough for places below three.
    #[test]
    fn places_are_worked_out(rt: HostRuntime) -> Result<(), Fail> {
        let mut places = [9; 3];
        let mut holders = [9; 3];
        let mut parents = [9; 3];
        let mut slots = [9; 3];
        match_jobs(
            &Diagonal { jobs: 3 },
            &mut places,
            &mut holders,
            &mut parents,
            &mut slots,
        );
        assert_eq!(rt; places, [0, 1, 2]);
        assert_eq!(rt; holders, [0, 1, 2]);
        Ok(())
    }

    // The second job has place 0 alone, so the first moves to place 1. It could take the place of the second, which can take no other:
    // each is a component, and no place is free to either.
    #[test]
    fn lists_are_matched_and_searched(rt: HostRuntime) -> Result<(), Fail> {
        let jobs = Pair {
            first: CarrierRow(0b11),
            second: CarrierRow(0b01),
        };
        let mut places = [9; 2];
        let mut holders = [9; 64];
        match_lists(&jobs, &mut places, &mut holders, &mut [9; 2], &mut [9; 2]);
        let mut index = [9; 2];
        let mut labels = [9; 2];
        if places[0] != NONE && places[1] != NONE {
            let scratch = Scratch {
                cursors: &mut [9; 2],
                nodes: &mut [9; 2],
                cuts: &mut [9; 2],
                path: &mut [9; 2],
            };
            search_lists(&jobs, &places, &holders, &mut index, &mut labels, scratch);
        }
        assert_eq!(rt; places, [1, 0]);
        assert_eq!(rt; holders[1], 0);
        assert_eq!(rt; labels, [1, 0]);
        assert_eq!(rt; index, [0, 0]);
        assert_eq!(rt; jobs.list(0).count(), 2);
        assert_eq!(rt; jobs.list(1).next_from(0), Some(0));
        Ok(())
    }

    // Both go on in the same slots, which are read between their calls.
    #[test]
    fn a_queue_is_copied(rt: HostRuntime) -> Result<(), Fail> {
        let mut slots = [0_u16; 2];
        let mut queue = RingQueue::new();
        assert!(rt; queue.push_back(&mut slots, 7).is_ok());
        assert!(rt; queue.push_back(&mut slots, 8).is_ok());
        assert!(rt; queue.push_back(&mut slots, 9).is_err());
        let mut copy = queue;
        assert_eq!(rt; queue.pop_front(&slots), Some(7));
        assert_eq!(rt; slots, [7, 8]);
        assert_eq!(rt; copy.pop_front(&slots), Some(7));
        assert_eq!(rt; copy.len(), 1);
        Ok(())
    }
}
