// A queue that holds its slots.
ghost use Rattle.std.specs.Prelude.{◌≡◌, ◌<◌, ◌≤◌, ◌↔◌, [], ◌∷◌, ◌++◌, length, IsTrue, IsOk, OnOk, OnErr, IfSome, IfNone};

use crate::ring::{Full, RingQueue};
use std::marker::Model;

#[derive(Drop)]
pub struct WaitingLine<'a, T> {
    slots: &'a mut [T],
    ring: RingQueue,
}

// Clauses see the entries, oldest first, and how many there is room for.
impl<'a, T> Model for WaitingLine<'a, T> {
    ghost use Rattle.std.specs.Prelude.{length};
    ghost use Rattle.queue.specs.Ring.{Queue, queue, Ready};

    ghost Value = { Queue T };

    ghost view = { λ q. queue q.ring.head q.ring.len q.slots.now };

    ghost invariant = { λ q. Ready q.ring (length q.slots.now) };
}

impl<'a, T: Copy> WaitingLine<'a, T> {
    // A line that has these slots for its entries.
    pub fn new(slots: &'a mut [T]) -> Self
        ensures empty { result.entries ≡ [] }
        ensures capacity { result.capacity ≡ length slots.old }
    {
        WaitingLine {
            slots,
            ring: RingQueue::new(),
        }
    }

    pub fn len(&self) -> usize
        ensures count { result ≡ length self.now.entries }
        ensures within { result ≤ self.now.capacity }
    {
        self.ring.len()
    }

    pub fn is_empty(&self) -> bool
        ensures { IsTrue result ↔ (self.now.entries ≡ []) }
    {
        self.len() == 0
    }

    // One entry more at the back.
    pub fn push_back(&mut self, value: T) -> Result<(), Full>
        ensures room { IsOk result ↔ (length self.old.entries < self.old.capacity) }
        ensures pushed { OnOk result (self.new.entries ≡ self.old.entries ++ value ∷ []) }
        ensures full { OnErr result (self.new.entries ≡ self.old.entries) }
        ensures capacity { self.new.capacity ≡ self.old.capacity }
    {
        self.ring.push_back(self.slots, value)
    }

    // The oldest entry, taken out.
    pub fn pop_front(&mut self) -> Option<T>
        ensures oldest { IfSome result (λ x. self.old.entries ≡ x ∷ self.new.entries) }
        ensures empty { IfNone result ((self.old.entries ≡ []) × (self.new.entries ≡ [])) }
        ensures capacity { self.new.capacity ≡ self.old.capacity }
    {
        // As `&mut`, since slots that are lent as `&` beside the ring get no proof yet.
        let slots = &mut *self.slots;
        self.ring.pop_front(slots)
    }
}
