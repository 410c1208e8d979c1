// Why a course ends before its last line.
use board::Rejected;
use places::NoList;
use refusals::Refusal;
use std::io;

#[derive(Drop)]
pub enum Stopped {
    NoList,
    Refused(Refusal),
    Unwritten(io::Error),
}

impl From<NoList> for Stopped {
    fn from(_: NoList) -> Stopped {
        Stopped::NoList
    }
}

impl From<Refusal> for Stopped {
    fn from(refusal: Refusal) -> Stopped {
        Stopped::Refused(refusal)
    }
}

impl<B: Drop> From<Rejected<B>> for Stopped {
    fn from(rejected: Rejected<B>) -> Stopped {
        Stopped::Refused(rejected.refusal)
    }
}

impl From<io::Error> for Stopped {
    fn from(error: io::Error) -> Stopped {
        Stopped::Unwritten(error)
    }
}

// A refused course ends with a line of its own, and the program goes on.
pub fn report(rt: HostRuntime, course: Result<(), Stopped>) -> io::Result<()> {
    match course {
        Ok(()) => Ok(()),
        Err(Stopped::NoList) => println!(rt; "no list"),
        Err(Stopped::Refused(refusal)) => println!(rt; "{refusal}"),
        Err(Stopped::Unwritten(error)) => Err(error),
    }
}
