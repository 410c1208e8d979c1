// A matching in two tables: the place of each job and the holder of each place, or NONE.
ghost use Rattle.std.specs.Prelude.{◌≡◌, ℕ, ◌+◌, ◌<◌, ◌≤◌, ◌↔◌, length, IsTrue, slice_set};
ghost use Rattle.theory.specs.Counts.{count};
ghost use Rattle.matching.specs.Tables.{IsEntry, at, filled};
ghost use Rattle.matching.specs.Matched.{FirstFree, Matched};

use crate::bipartite::{Bipartite, JobPlaces};

// Stands for no job and no place: a table is lent as a row of numbers, so an entry is no Option.
pub const NONE: u16 = 0xffff;

// The entry of any table, if there is one.
pub fn entry(table: &[u16], index: u16) -> Option<u16>
    requires { index < length table.now }
    ensures { IsEntry table.now index result }
{
    let n = table[index as usize];
    if n == NONE { None } else { Some(n) }
}

// A job, and a free place that it can take.
#[derive(Clone, Copy)]
pub struct Opening {
    pub job: u16,
    pub place: u16,
}

// Some jobs have places of their lists, none twice, and each place knows its holder.
#[derive(Drop)]
pub struct Matching<'a, J: Bipartite> {
    pub jobs: &'a J,
    pub places: &'a [u16],
    pub holders: &'a [u16],
    ghost few: { J.jobs jobs.now ≤ 65535 },
    ghost narrow: { J.width jobs.now ≤ 2048 },
    ghost sized: { length places.now ≡ J.jobs jobs.now },
    ghost matched: { Matched (J.jobs jobs.now) (J.width jobs.now) (J.holds jobs.now) places.now holders.now },
}

impl<'a, J: Bipartite> Matching<'a, J> {
    // The job that has a place.
    pub fn holder_of(&self, place: u16) -> Option<u16>
        requires { place < length self.now.holders.now }
        ensures { IsEntry self.now.holders.now place result }
    {
        entry(self.holders, place)
    }
}

// The tables of a matching that is being made.
#[derive(Drop)]
pub struct MatchingMut<'a, J> {
    pub jobs: &'a J,
    pub places: &'a mut [u16],
    pub holders: &'a mut [u16],
}

impl<'a, J: Bipartite> MatchingMut<'a, J> {
    ghost use Rattle.matching.specs.MatchingMut.{HasOpening, IsMatching, SameTables};

    // The matching as it stands.
    pub fn shared(&self) -> Matching<'_, J>
        requires { IsMatching J.Bipartite self.now }
        ensures jobs { result.jobs.now ≡ self.now.jobs.now }
        ensures places { result.places.now ≡ self.now.places.now }
        ensures holders { result.holders.now ≡ self.now.holders.now }
    {
        Matching {
            jobs: self.jobs,
            places: self.places,
            holders: self.holders,
        }
    }

    // The place of a job.
    fn place_of(&self, job: u16) -> Option<u16>
        requires { job < length self.now.places.now }
        ensures { IsEntry self.now.places.now job result }
    {
        entry(self.places, job)
    }

    // Whether no job has a place.
    fn is_free(&self, place: u16) -> bool
        requires { place < length self.now.holders.now }
        ensures { IsTrue result ↔ (at self.now.holders.now place ≡ 65535) }
    {
        entry(self.holders, place).is_none()
    }

    // Gives a job a place.
    fn assign(&mut self, job: u16, place: u16)
        requires job { job < length self.old.places.now }
        requires place { place < length self.old.holders.now }
        ensures same { SameTables self.old self.new }
        ensures places { self.new.places.now ≡ slice_set self.old.places.now job place }
        ensures holders { self.new.holders.now ≡ slice_set self.old.holders.now place job }
    {
        self.places[job as usize] = place;
        self.holders[place as usize] = job;
    }

    // The first place of a job's list that no job has.
    fn first_free(&self, job: usize) -> Option<u16>
        requires job { job < J.jobs self.now.jobs.now }
        requires narrow { J.width self.now.jobs.now ≤ 2048 }
        requires holders { J.width self.now.jobs.now ≤ length self.now.holders.now }
        ensures { FirstFree (J.width self.now.jobs.now) (J.holds self.now.jobs.now job) self.now.holders.now result }
    {
        JobPlaces::of(self.jobs, job).find(|&place| self.is_free(place))
    }

    // Gives each job in turn the first free place of its list, if there is one. No job has a place before.
    pub fn take_free(&mut self)
        requires matching { IsMatching J.Bipartite self.old }
        requires none { (k : ℕ) → k < length self.old.places.now → at self.old.places.now k ≡ 65535 }
        ensures same { SameTables self.old self.new }
        ensures matching { IsMatching J.Bipartite self.new }
    {
        // By number: an iterator over the places would hold the table that `assign` writes.
        for job in 0..self.places.len() {
            if let Some(place) = self.first_free(job) {
                self.assign(job as u16, place);
            }
        }
    }

    // Moves jobs along their parents, that of the opening to its place and each next one to the place that the one before
    // it left, until one had none.
    pub fn shift(&mut self, parents: &[u16], opening: Opening)
        requires matching { IsMatching J.Bipartite self.old }
        requires found { HasOpening J.Bipartite self.old parents.now opening.job opening.place }
        ensures same { SameTables self.old self.new }
        ensures matching { IsMatching J.Bipartite self.new }
        ensures more { count (filled self.new.places.now) (J.jobs self.old.jobs.now) ≡ count (filled self.old.places.now) (J.jobs self.old.jobs.now) + 1 }
    {
        let mut job = opening.job;
        let mut free = opening.place;
        while let Some(left) = self.place_of(job) {
            self.assign(job, free);
            free = left;
            job = parents[job as usize];
        }
        self.assign(job, free);
    }
}
