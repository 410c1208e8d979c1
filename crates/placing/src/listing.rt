// The lines of a course.
use places::PlaceSet;
use std::{fmt, io};

// A job's number, a colon, and each place of its list after a space.
#[derive_where(Clone, Copy)]
struct JobLine<'a, L> {
    job: usize,
    list: &'a L,
}

impl<L: PlaceSet> fmt::Display for JobLine<'_, L> {
    fn fmt<W: fmt::Write>(&self, f: &mut fmt::Formatter<W>) -> fmt::Result {
        write!(f, "{}:", self.job)?;
        for place in self.list.places() {
            write!(f, " {place}")?;
        }
        Ok(())
    }
}

pub fn print_lists<L: PlaceSet>(rt: HostRuntime, lists: &[L]) -> io::Result<()> {
    for (job, list) in lists.iter().enumerate() {
        println!(rt; "{}", JobLine { job, list })?;
    }
    Ok(())
}

// A rule's deficiency, and the jobs of its deficient group.
#[derive(Clone, Copy)]
pub struct GroupLine<'a> {
    pub rule: usize,
    pub deficiency: usize,
    pub jobs: &'a [u16],
}

impl fmt::Display for GroupLine<'_> {
    fn fmt<W: fmt::Write>(&self, f: &mut fmt::Formatter<W>) -> fmt::Result {
        write!(f, "rule {} lacks {}:", self.rule, self.deficiency)?;
        for job in self.jobs {
            write!(f, " {job}")?;
        }
        Ok(())
    }
}
