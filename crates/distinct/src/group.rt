// The group of a progression's jobs.
ghost use Rattle.std.specs.Prelude.{◌≡◌, ℕ, ◌+◌, ◌*◌, ◌^◌, ◌<◌, ◌≤◌, length, take, drop, count_by, ◌==◌, slice_set};
ghost use Rattle.matching.specs.Tables.{filled};
ghost use Rattle.places.specs.Families.{family};
ghost use Rattle.rules.specs.Narrowing.{Scope};
ghost use Rattle.rules.specs.Progressions.{jobs_of};
ghost use Rattle.distinct.specs.Groups.{GroupTold};
ghost use Rattle.distinct.specs.Scopes.{chosen};

use crate::scope::Scoped;
use matching::{NONE, match_jobs};
use places::PlaceSet;
use rules::Progression;

// How many jobs a group has, and how many more they are than the places in their lists. The jobs stand in a lent table, so `count` tells
// how much of it is the group's.
#[derive(Clone, Copy)]
pub struct Deficiency {
    pub count: usize,
    pub deficiency: usize,
}

// How many slots have no number: they lie in lent tables, so no number is `NONE`, here and in the marks below.
pub fn count_none(slots: &[u16]) -> usize
    ensures { result ≡ count_by (λ slot. slot == 65535) slots.now }
{
    slots.iter().filter(|slot| **slot == NONE).count()
}

// Writes a job to the table, and gives the number of jobs in it.
fn append(table: &mut [u16], len: usize, job: u16) -> usize
    requires { len < length table.old }
    ensures table { table.new ≡ slice_set table.old len job }
    ensures len { result ≡ len + 1 }
{
    table[len] = job;
    len + 1
}

// Writes the jobs that have a mark to the table's front. Gives how many they are.
fn list_marked(jobs: &Progression, marks: &[u16], table: &mut [u16]) -> usize
    requires few { jobs.now.count ≤ 256 }
    requires marks { length marks.now ≡ jobs.now.count }
    requires small { (i : ℕ) → i < jobs.now.count → jobs.now.first + i * jobs.now.step < 65536 }
    requires table { jobs.now.count ≤ length table.old }
    ensures listed { take result table.new ≡ chosen (jobs_of jobs.now) (filled marks.now) jobs.now.count }
    ensures rest { drop result table.new ≡ drop result table.old }
    ensures len { result ≤ length table.old }
{
    // `len` is counted by hand: a chain would write the table from its closure, and of that a proof knows nothing.
    let mut len = 0;
    for (i, mark) in marks.iter().enumerate() {
        if *mark != NONE {
            len = append(table, len, jobs.job_at(i) as u16);
        }
    }
    len
}

// Writes the jobs of the group, rising, to the front of `table`, and tells how many they are and their deficiency. That the jobs lie
// within the lists is asked here as in the calls that write lists: a type that held lists to be written would be taken apart in each.
pub fn deficient_group<L: PlaceSet>(
    jobs: &Progression,
    lists: &[L],
    numbers: &mut [u16],
    table: &mut [u16],
) -> Deficiency
    requires few { length lists.now ≤ 256 }
    requires scope { Scope (length lists.now) (jobs_of jobs.now) }
    requires memory { 7 * (length lists.now + L.LIMIT) ≤ length numbers.old }
    requires table { length lists.now ≤ length table.old }
    ensures { GroupTold L.LIMIT (family L.has lists.now) (jobs_of jobs.now) table.old table.new result.count result.deficiency }
{
    let m = jobs.count as usize;
    // Split here and in the other call that matches: a function that gave the parts back would have to say how each lies in the numbers.
    let (places, rest) = numbers.split_at_mut(m);
    let (holders, rest) = rest.split_at_mut(L::LIMIT);
    let (parents, rest) = rest.split_at_mut(m);
    let (slots, _) = rest.split_at_mut(m);
    match_jobs(
        &Scoped { lists, jobs: *jobs },
        places,
        holders,
        parents,
        slots,
    );
    Deficiency {
        count: list_marked(jobs, parents, table),
        deficiency: count_none(places),
    }
}
