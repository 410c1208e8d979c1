// A path-based search that follows each list once.
ghost use Rattle.std.specs.Prelude.{◌≡◌, ℕ, ◌-◌, ◌<◌, ◌≤◌, ◌↔◌, true, false, length, IsTrue};
ghost use Rattle.theory.specs.Assignments.{Searched};
ghost use Rattle.theory.specs.SingleRows.{single};
ghost use Rattle.theory.specs.Counts.{bit};
ghost use Rattle.matching.specs.Tables.{at, filled};
ghost use Rattle.components.specs.Walks.{tables, Fit, effort, loose};
ghost use Rattle.components.specs.Steps.{HasRoom, Pushed, Followed, Labelled, HasOutlet, SomeOutlet, Closed, outlet};
ghost use Rattle.components.specs.States.{Keeps, GoesOn, IsWalked, IsLast, IsSpent, HasMarks, HasJobs, over, tables_of, heights_of};

use crate::graph::Graph;
use crate::stack::Stack;
use matching::{Bipartite, JobPlaces, Matching, NONE};

// The search.
#[derive(Drop)]
pub struct Walk<'g, 'm, 'i, 'l, 'a, J: Bipartite> {
    graph: Graph<'g, 'm, J>,
    // How far the list of each job was followed.
    cursors: &'a mut [u16],
    // The position of each job on the stack or, once it is done, 1 where it is loose.
    index: &'i mut [u16],
    // The number of the component of each job that is done.
    labels: &'l mut [u16],
    // The jobs that were seen and are not done.
    nodes: Stack<'a>,
    // The positions where the segments of the stack begin.
    cuts: Stack<'a>,
    // The positions of the jobs with steps left.
    path: Stack<'a>,
    // The number of the next component.
    next: u16,
}

// Gives `number` to the jobs on a stack from position `from` on.
fn label(nodes: &Stack, from: u16, table: &mut [u16], number: u16)
    requires from { from ≤ nodes.now.len }
    requires jobs { (x : ℕ) → x < nodes.now.len → at nodes.now.slots.now x < length table.old }
    ensures { Labelled nodes.now.slots.now from nodes.now.len number table.old table.new }
{
    for &job in nodes.tail(from) {
        table[job as usize] = number;
    }
}

// Marks those jobs by whether their component is loose.
fn mark(nodes: &Stack, from: u16, index: &mut [u16], is_loose: bool)
    requires from { from ≤ nodes.now.len }
    requires jobs { (x : ℕ) → x < nodes.now.len → at nodes.now.slots.now x < length index.old }
    ensures { Labelled nodes.now.slots.now from nodes.now.len (bit is_loose) index.old index.new }
{
    label(nodes, from, index, u16::from(is_loose));
}

impl<'g, 'm, 'i, 'l, 'a, J: Bipartite> Walk<'g, 'm, 'i, 'l, 'a, J> {
    // Whether the search has come to a job. The tables are lent, so NONE stands for no number.
    fn is_seen(&self, job: u16) -> bool
        requires { job < length self.now.index.now }
        ensures { result ≡ filled self.now.index.now job }
    {
        self.index[job as usize] != NONE
    }

    // Whether the component of a job is known.
    fn is_done(&self, job: u16) -> bool
        requires { job < length self.now.labels.now }
        ensures { result ≡ filled self.now.labels.now job }
    {
        self.labels[job as usize] != NONE
    }

    // Puts a job on the stack, in a segment of its own, and on the path.
    fn push(&mut self, job: u16)
        requires job { job < length self.old.index.now }
        requires room { HasRoom (tables_of self.old) (heights_of self.old) }
        ensures keeps { Keeps self.old self.new }
        ensures pushed { Pushed (tables_of self.old) (heights_of self.old) job (tables_of self.new) (heights_of self.new) }
    {
        let position = self.nodes.len() as u16;
        self.index[job as usize] = position;
        self.nodes.push(job);
        self.cuts.push(position);
        self.path.push(position);
    }

    // Follows a step to a job.
    fn follow(&mut self, job: u16)
        requires job { (job < length self.old.index.now) × (job < length self.old.labels.now) }
        requires room { filled self.old.index.now job ≡ false → HasRoom (tables_of self.old) (heights_of self.old) }
        requires rises { (i j : ℕ) → i < j → j < self.old.cuts.len → at self.old.cuts.slots.now i < at self.old.cuts.slots.now j }
        ensures keeps { Keeps self.old self.new }
        ensures followed { Followed (tables_of self.old) (heights_of self.old) job (tables_of self.new) (heights_of self.new) }
    {
        if !self.is_seen(job) {
            self.push(job);
        } else if !self.is_done(job) {
            let position = self.index[job as usize];
            self.cuts.pop_above(position);
        }
    }

    // Whether a place is free, or its holder stands in a loose component. The mark 1 is a number, because the tables are lent as numbers.
    fn is_outlet(&self, place: u16) -> bool
        requires place { place < (over self.now).width }
        requires marks { HasMarks self.now }
        ensures { result ≡ outlet self.now.graph.full.now.holders.now self.now.index.now self.now.labels.now place }
    {
        match self.graph.full.holder_of(place) {
            None => true,
            Some(holder) => self.is_done(holder) && self.index[holder as usize] == 1,
        }
    }

    // Whether the list of a job has such a place.
    fn has_outlet(&self, job: u16) -> bool
        requires job { job < (over self.now).jobs }
        requires marks { HasMarks self.now }
        ensures { IsTrue result ↔ HasOutlet (over self.now) self.now.index.now self.now.labels.now job }
    {
        JobPlaces::of(self.graph.full.jobs, job as usize).any(|place| self.is_outlet(place))
    }

    // Whether that of a job on the stack from position `from` on has one.
    fn some_outlet(&self, from: u16) -> bool
        requires from { from ≤ self.now.nodes.len }
        requires jobs { HasJobs self.now }
        requires marks { HasMarks self.now }
        ensures { IsTrue result ↔ SomeOutlet (over self.now) self.now.index.now self.now.labels.now self.now.nodes.slots.now from self.now.nodes.len }
    {
        // A loop: with `any`, that the closure may be called stayed open, and the clause.
        for &job in self.nodes.tail(from) {
            if self.has_outlet(job) {
                return true;
            }
        }
        false
    }

    // Makes the segment from `from` on a component, and marks its jobs by whether it is loose.
    fn close(&mut self, from: u16)
        requires from { from ≤ self.old.nodes.len }
        requires heights { (0 < self.old.cuts.len) × (0 < self.old.path.len) × (self.old.next < 65535) }
        requires jobs { HasJobs self.old }
        requires marks { HasMarks self.old }
        ensures keeps { Keeps self.old self.new }
        ensures closed { Closed (over self.old) (tables_of self.old) (heights_of self.old) from (tables_of self.new) (heights_of self.new) }
    {
        let is_loose = self.some_outlet(from);
        label(&self.nodes, from, self.labels, self.next);
        mark(&self.nodes, from, self.index, is_loose);
        self.nodes.truncate(from);
        self.cuts.pop();
        self.path.pop();
        self.next += 1;
    }

    // Takes the job at `last`, which has no steps left, off the path, and closes its segment where it is the first of it.
    fn leave(&mut self, last: u16)
        requires last { IsLast self.old last }
        requires spent { IsSpent self.old last }
        requires state { IsWalked self.old }
        ensures state { GoesOn self.old self.new }
        ensures cursors { self.new.cursors.now ≡ self.old.cursors.now }
        ensures path { self.new.path.len ≡ self.old.path.len - 1 }
    {
        if self.cuts.last() == Some(last) {
            self.close(last);
        } else {
            self.path.pop();
        }
    }

    // Follows one step from the job at `last`, or takes it off the path.
    fn advance(&mut self, last: u16)
        requires last { IsLast self.old last }
        requires state { IsWalked self.old }
        ensures state { GoesOn self.old self.new }
        ensures less { effort (over self.old).jobs self.new.cursors.now self.new.path.len < effort (over self.old).jobs self.old.cursors.now self.old.path.len }
    {
        let job = self.nodes.at(last) as usize;
        let cursor = self.cursors[job];
        let Some(place) = self.graph.full.jobs.next_from(job, cursor) else {
            self.leave(last);
            return;
        };
        self.cursors[job] = place + 1;
        if let Some(holder) = self.graph.full.holder_of(place) {
            self.follow(holder);
        }
    }

    // Visits what `root` reaches, and numbers the components found.
    fn explore(&mut self, root: u16)
        requires root { (root < (over self.old).jobs) × (filled self.old.index.now root ≡ false) }
        requires state { IsWalked self.old }
        requires idle { self.old.path.len ≡ 0 }
        ensures state { GoesOn self.old self.new }
        ensures idle { self.new.path.len ≡ 0 }
        ensures root { filled self.new.index.now root ≡ true }
    {
        self.push(root);
        while let Some(last) = self.path.last() {
            self.advance(last);
        }
    }

    // Visits all jobs.
    fn explore_all(&mut self)
        requires state { IsWalked self.old }
        requires idle { self.old.path.len ≡ 0 }
        ensures state { GoesOn self.old self.new }
        ensures idle { self.new.path.len ≡ 0 }
        ensures all { (a : ℕ) → a < (over self.old).jobs → filled self.new.index.now a ≡ true }
    {
        // By number, since the body changes what the next turn reads.
        for root in 0..self.graph.full.places.len() as u16 {
            if !self.is_seen(root) {
                self.explore(root);
            }
        }
    }
}

// Memory that a search works in: each table has room for a number a job.
#[derive(Drop)]
pub struct Scratch<'a, 'b, 'c, 'd> {
    pub cursors: &'a mut [u16],
    pub nodes: &'b mut [u16],
    pub cuts: &'c mut [u16],
    pub path: &'d mut [u16],
}

// Numbers the jobs of a full matching by component in `labels`, and marks by 1 in `index` those that reach a free place.
pub fn components<J: Bipartite>(
    full: &Matching<J>,
    index: &mut [u16],
    labels: &mut [u16],
    scratch: Scratch,
)
    requires every { (i : ℕ) → i < J.jobs full.now.jobs.now → filled full.now.places.now i ≡ true }
    requires tables { Fit (J.jobs full.now.jobs.now) (tables scratch.cursors.now index.old labels.old scratch.nodes.now scratch.cuts.now scratch.path.now) }
    ensures { Searched (single (J.jobs full.now.jobs.now) (J.width full.now.jobs.now) (J.holds full.now.jobs.now)) (at full.now.places.now) (loose index.new) (at labels.new) }
{
    let Scratch {
        cursors,
        nodes,
        cuts,
        path,
    } = scratch;
    cursors.fill(0);
    index.fill(NONE);
    labels.fill(NONE);
    let graph = Graph { full };
    let nodes = Stack::new(nodes);
    let cuts = Stack::new(cuts);
    let path = Stack::new(path);
    let mut walk = Walk {
        graph,
        cursors,
        index,
        labels,
        nodes,
        cuts,
        path,
        next: 0,
    };
    walk.explore_all();
    // Taken apart, so that the proof knows what the two tables hold in the end.
    let Walk {
        index: _index,
        labels: _labels,
        ..
    } = walk;
}
