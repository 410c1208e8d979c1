// A queue as two numbers: its entries lie in slots that each call is lent.
ghost use Rattle.std.specs.Prelude.{◌≡◌, ℕ, ◌<◌, ◌↔◌, [], ◌∷◌, ◌++◌, length, IsOk, IsSome, OnOk, OnErr, IfSome, IfNone};
ghost use Rattle.queue.specs.Ring.{entries, Ready};

// The error of a push: each slot is taken.
#[derive(Clone, Copy, Debug, PartialEq, Eq)]
pub struct Full;

#[derive(Clone, Copy)]
pub struct RingQueue {
    head: usize,
    len: usize,
}

impl RingQueue {
    pub fn new() -> Self
        ensures empty { result.len ≡ 0 }
        ensures ready { (size : ℕ) → Ready result size }
    {
        RingQueue { head: 0, len: 0 }
    }

    pub fn len(&self) -> usize
        ensures { result ≡ self.now.len }
    {
        self.len
    }

    // One entry more at the back.
    pub fn push_back<T: Copy>(&mut self, slots: &mut [T], value: T) -> Result<(), Full>
        requires { Ready self.old (length slots.old) }
        ensures room { IsOk result ↔ (self.old.len < length slots.old) }
        ensures ready { Ready self.new (length slots.new) }
        ensures pushed { OnOk result (entries self.new slots.new ≡ entries self.old slots.old ++ value ∷ []) }
        ensures full { OnErr result (entries self.new slots.new ≡ entries self.old slots.old) }
    {
        if self.len >= slots.len() {
            return Err(Full);
        }
        let room = slots.len() - self.head;
        let at = if self.len < room {
            self.head + self.len
        } else {
            self.len - room
        };
        slots[at] = value;
        self.len += 1;
        Ok(())
    }

    // The oldest entry, taken out.
    pub fn pop_front<T: Copy>(&mut self, slots: &[T]) -> Option<T>
        requires { Ready self.old (length slots.now) }
        ensures some { IsSome result ↔ (0 < self.old.len) }
        ensures ready { Ready self.new (length slots.now) }
        ensures oldest { IfSome result (λ x. entries self.old slots.now ≡ x ∷ entries self.new slots.now) }
        ensures empty { IfNone result ((entries self.old slots.now ≡ []) × (entries self.new slots.now ≡ [])) }
    {
        if self.len == 0 {
            return None;
        }
        let value = slots[self.head];
        let next = self.head + 1;
        self.head = if next == slots.len() { 0 } else { next };
        self.len -= 1;
        Some(value)
    }
}
