// Cuts, and returns to fewer of them.
ghost use Rattle.std.specs.Prelude.{◌≡◌, ◌+◌, ◌<◌, length, set, MatchResult, OnOk};
ghost use Rattle.refusals.specs.Codes.{refusal_of};
ghost use Rattle.board.specs.Book.{cut_refusal, return_refusal, room_refusal, held_by};
ghost use Rattle.board.specs.Outcomes.{refusal_back, Same};

use crate::board::{Board, Rejected};
use crate::numbers::Numbers;
use crate::stage::{AtWork, Stage};
use cuts::{Action, Cut};
use refusals::Refusal;

impl Numbers {
    // The job and the place given are the board's, and the log has room for one more cut.
    pub(crate) fn check_room(&self, log: usize, job: u16, place: u16) -> Result<(), Refusal>
        ensures refusal { refusal_of result ≡ room_refusal (held_by self.now) log job place }
        ensures room { OnOk result ((self.now.cuts < log) × (self.now.cuts < 1024) × (job < self.now.n)) }
    {
        if job >= self.n {
            return Err(Refusal::NoSuchJob);
        }
        if place >= self.w {
            return Err(Refusal::NoSuchPlace);
        }
        if log <= self.cuts || self.cuts >= 1024 {
            return Err(Refusal::Full);
        }
        Ok(())
    }

    fn check_cut(&self, log: usize, job: u16, place: u16) -> Result<(), Refusal>
        ensures refusal { refusal_of result ≡ cut_refusal (held_by self.now) log job place }
        ensures room { OnOk result ((self.now.cuts < log) × (self.now.cuts < 1024) × (job < self.now.n)) }
    {
        if log < self.cuts {
            return Err(Refusal::TableTooShort);
        }
        self.check_room(log, job, place)
    }

    fn check_return(&self, log: usize, k: usize) -> Result<(), Refusal>
        ensures { refusal_of result ≡ return_refusal (held_by self.now) log k }
    {
        if log < self.cuts {
            return Err(Refusal::TableTooShort);
        }
        if k > self.cuts {
            return Err(Refusal::NoSuchCut);
        }
        Ok(())
    }
}

impl<S: Stage + Drop> Board<S> {
    // One cut more, stored after those counted; the board is then at work.
    pub fn cut(
        self,
        log: &mut [Cut],
        action: Action,
        job: u16,
        place: u16,
    ) -> Result<Board<AtWork>, Rejected<Board<S>>>
        requires { S.shut self.stage }
        ensures refusal { refusal_back result ≡ cut_refusal (held_by self.numbers) (length log.old) job place }
        ensures board { MatchResult result (λ b. Same self.numbers self.numbers.rules (self.numbers.cuts + 1) b.numbers × (log.new ≡ set log.old self.numbers.cuts (record { action = action; job = job; place = place }))) (λ e. (e.board ≡ self) × (log.new ≡ log.old)) }
    {
        // No `map_err`: its closure would hold the board.
        match self.numbers.check_cut(log.len(), job, place) {
            Ok(()) => {
                let counted = self.numbers.cuts;
                log[counted] = Cut {
                    action,
                    job: job as u8,
                    place,
                };
                Ok(self.at_work(counted + 1))
            }
            Err(refusal) => Err(self.rejected(refusal)),
        }
    }

    // The first `k` cuts alone; the board is then at work. The log keeps its content.
    pub fn return_to(self, log: &[Cut], k: usize) -> Result<Board<AtWork>, Rejected<Board<S>>>
        requires { S.shut self.stage }
        ensures refusal { refusal_back result ≡ return_refusal (held_by self.numbers) (length log.now) k }
        ensures board { MatchResult result (λ b. Same self.numbers self.numbers.rules k b.numbers) (λ e. e.board ≡ self) }
    {
        // No `map_err`: its closure would hold the board.
        match self.numbers.check_return(log.len(), k) {
            Ok(()) => Ok(self.at_work(k)),
            Err(refusal) => Err(self.rejected(refusal)),
        }
    }
}
