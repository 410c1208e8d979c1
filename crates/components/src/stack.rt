// A stack of numbers in a lent table.
ghost use Rattle.std.specs.Prelude.{◌≡◌, ℕ, ◌+◌, ◌-◌, ◌<◌, ◌≤◌, MatchOption, length, slice_set};
ghost use Rattle.matching.specs.Tables.{at};
ghost use Rattle.components.specs.Steps.{Collapsed};

// The first `len` numbers of a table that is lent.
#[derive(Drop)]
pub struct Stack<'a> {
    slots: &'a mut [u16],
    len: usize,
    ghost fits: { len ≤ length slots.now },
}

impl<'a> Stack<'a> {
    pub fn new(slots: &'a mut [u16]) -> Stack<'a>
        ensures slots { result.slots.now ≡ slots.old }
        ensures empty { result.len ≡ 0 }
    {
        Stack { slots, len: 0 }
    }

    pub fn len(&self) -> usize
        ensures { result ≡ self.now.len }
    {
        self.len
    }

    // The number at a position.
    pub fn at(&self, position: u16) -> u16
        requires { position < self.now.len }
        ensures { result ≡ at self.now.slots.now position }
    {
        self.slots[position as usize]
    }

    // The numbers from a position on.
    pub fn tail(&self, from: u16) -> &[u16]
        requires { from ≤ self.now.len }
        ensures len { length result.now ≡ self.now.len - from }
        ensures numbers { (x : ℕ) → x < length result.now → at result.now x ≡ at self.now.slots.now (from + x) }
    {
        &self.slots[from as usize..self.len]
    }

    pub fn last(&self) -> Option<u16>
        ensures { MatchOption result (self.now.len ≡ 0) (λ x. (0 < self.now.len) × (at self.now.slots.now (self.now.len - 1) ≡ x)) }
    {
        self.slots[..self.len].last().copied()
    }

    pub fn push(&mut self, x: u16)
        requires { self.old.len < length self.old.slots.now }
        ensures slots { self.new.slots.now ≡ slice_set self.old.slots.now self.old.len x }
        ensures len { self.new.len ≡ self.old.len + 1 }
    {
        self.slots[self.len] = x;
        self.len += 1;
    }

    pub fn pop(&mut self)
        requires { 0 < self.old.len }
        ensures slots { self.new.slots.now ≡ self.old.slots.now }
        ensures len { self.new.len ≡ self.old.len - 1 }
    {
        self.len -= 1;
    }

    // Takes off the numbers from a position on.
    pub fn truncate(&mut self, from: u16)
        requires { from ≤ self.old.len }
        ensures slots { self.new.slots.now ≡ self.old.slots.now }
        ensures len { self.new.len ≡ from }
    {
        self.len = from as usize;
    }

    // Takes off the numbers above `low`, where they rise. From the top, so that only these and one more are looked at.
    pub fn pop_above(&mut self, low: u16)
        requires { (i j : ℕ) → i < j → j < self.old.len → at self.old.slots.now i < at self.old.slots.now j }
        ensures slots { self.new.slots.now ≡ self.old.slots.now }
        ensures collapsed { Collapsed self.old.slots.now self.old.len low self.new.len }
    {
        while self.last().is_some_and(|x| x > low) {
            self.pop();
        }
    }
}
