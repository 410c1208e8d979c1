// The line of wake-ups, with a mark for each rule that waits in it.
ghost use Rattle.std.specs.Prelude.{◌≡◌, ◌≤◌, [], length, IfSome};
ghost use Rattle.settling.specs.Agenda.{Rightful, joined, Taken};

use queue::WaitingLine;
use rules::Rule;
use std::marker::Model;

// A rule to narrow by again, and the job of its scope whose list changed; at the start its first job.
#[derive(Clone, Copy, PartialEq, Eq, Debug)]
pub struct WakeUp {
    pub rule: u16,
    pub job: u16,
}

// Rules, and a line of those that wait, each at most once.
#[derive(Drop)]
pub struct Agenda<'a, R: Rule> {
    rules: &'a [R],
    queue: WaitingLine<'a, WakeUp>,
    // A mark for each rule that there can be, so that none is searched for in the line.
    waiting: [bool; 64],
}

impl<'a, R: Rule> Model for Agenda<'a, R> {
    ghost use Rattle.settling.specs.Agenda.{Lined, Agreed};

    ghost Value = { Lined R };

    ghost view = { λ a. record { rules = a.rules.now; line = a.queue.entries } };

    ghost invariant = { λ a. Agreed R.scope a.rules.now a.queue.capacity a.queue.entries a.waiting };
}

impl<'a, R: Rule> Agenda<'a, R> {
    // No rule waits.
    pub fn new(rules: &'a [R], slots: &'a mut [WakeUp]) -> Self
        requires few { length rules.now ≤ 64 }
        requires room { length rules.now ≤ length slots.old }
        ensures rules { result.rules ≡ rules.now }
        ensures empty { result.line ≡ [] }
    {
        Agenda {
            rules,
            queue: WaitingLine::new(slots),
            waiting: [false; 64],
        }
    }

    pub fn rules(&self) -> &'a [R]
        ensures rules { result.now ≡ self.now.rules }
        ensures few { length self.now.rules ≤ 64 }
    {
        self.rules
    }

    // Has a rule wait, unless it does already.
    pub fn wake(&mut self, rule: u16, job: u16)
        requires { Rightful R.scope self.old.rules (record { rule = rule; job = job }) }
        ensures rules { self.new.rules ≡ self.old.rules }
        ensures line { self.new.line ≡ joined self.old.line (record { rule = rule; job = job }) }
    {
        if !self.waiting[rule as usize] {
            self.waiting[rule as usize] = true;
            self.queue.push_back(WakeUp { rule, job }).unwrap();
        }
    }

    // The wake-up that has waited longest, which waits no more.
    pub fn take_next(&mut self) -> Option<WakeUp>
        ensures rules { self.new.rules ≡ self.old.rules }
        ensures taken { Taken self.old.line self.new.line result }
        ensures rightful { IfSome result (Rightful R.scope self.old.rules) }
        ensures within { length self.old.line ≤ length self.old.rules }
    {
        let wake_up = self.queue.pop_front()?;
        self.waiting[wake_up.rule as usize] = false;
        Some(wake_up)
    }
}
