// What a call is lent beside the log: the lists and the rules of its course, and working memory.
ghost use Rattle.std.specs.Prelude.{◌≡◌};

use crate::lengths::Lengths;
use cuts::Cut;
use settling::WakeUp;

// The opened lists and the rules of a course. Clauses name the two one by one: refusals are defined over tables.
#[derive_where(Clone, Copy)]
pub struct Course<'a, L, R> {
    pub opened: &'a [L],
    pub rules: &'a [R],
}

// Working memory, whose final content is free. Log, standing lists and group table are lent apart: contracts say what they end as.
#[derive(Drop)]
pub struct Memory<'a, 'b, 'c, L> {
    pub working: &'a mut [L],
    pub numbers: &'b mut [u16],
    pub wake_ups: &'c mut [WakeUp],
}

impl<L, R> Course<'_, L, R> {
    ghost use Rattle.board.specs.Lent.{lent};

    // How long the tables are of a call that is lent so many standing lists and a group table of so many slots.
    pub fn lengths(self, log: &[Cut], standing: usize, group: usize, memory: &Memory<L>) -> Lengths
        ensures { result ≡ lent self.entry log.now standing group memory.now }
    {
        Lengths {
            opened: self.opened.len(),
            rules: self.rules.len(),
            log: log.len(),
            standing,
            group,
            working: memory.working.len(),
            numbers: memory.numbers.len(),
            wakes: memory.wake_ups.len(),
        }
    }
}
