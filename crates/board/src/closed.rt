// Boards whose stage is known only when the program runs.
ghost use Rattle.std.specs.Prelude.{◌≡◌};
ghost use Rattle.board.specs.declared.stage.Closed.TheVariants.{AtWork as IsAtWork, Settled as IsSettled};

use crate::board::Board;
use crate::stage::{AtWork, Closed, Settled};

impl From<AtWork> for Closed {
    ghost from_gives = { λ _ stage. stage ≡ IsAtWork };

    fn from(_: AtWork) -> Closed {
        Closed::AtWork
    }
}

impl From<Settled> for Closed {
    ghost from_gives = { λ _ stage. stage ≡ IsSettled };

    fn from(_: Settled) -> Closed {
        Closed::Settled
    }
}

impl<S: Into<Closed>> Board<S> {
    pub fn closed(self) -> Board<Closed>
        ensures numbers { result.numbers ≡ self.numbers }
        ensures stage { S.converts self.stage result.stage }
    {
        Board {
            stage: self.stage.into(),
            numbers: self.numbers,
        }
    }
}
