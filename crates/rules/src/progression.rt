// Jobs in equal steps.
ghost use Rattle.std.specs.Prelude.{◌≡◌, ◌+◌, ◌*◌, ◌<◌, slice_index};
ghost use Rattle.theory.specs.Lists.{member};
ghost use Rattle.std.specs.Iterator.{YieldsFirst, item_count};
ghost use Rattle.rules.specs.Jobs.{jobs_left};
ghost use Rattle.rules.specs.Progressions.{jobs_of, lawful};

// The jobs first, first + step, first + 2 × step and so on, `count` of them.
#[derive(Clone, Copy)]
pub struct Progression {
    pub first: u16,
    pub step: u16,
    pub count: u16,
}

impl Progression {
    // Whether there are jobs, which differ and are below n.
    pub fn is_lawful(&self, n: usize) -> bool
        ensures { result ≡ lawful self.now n }
    {
        self.step > 0 && self.count > 0 && self.job_at(self.count as usize - 1) < n
    }

    // The job at position `i`.
    #[tactic(auto, using(crate::proofs::Progressions::job_listed))]
    pub fn job_at(&self, i: usize) -> usize
        requires { i < self.now.count }
        ensures value { result ≡ self.now.first + i * self.now.step }
        ensures listed { result ≡ slice_index (jobs_of self.now) i }
    {
        self.first as usize + i * self.step as usize
    }

    // Whether `job` is one of the jobs.
    #[tactic(auto, using(crate::proofs::Progressions::none_below, crate::proofs::Progressions::member_multiple))]
    pub fn contains(&self, job: u16) -> bool
        ensures { result ≡ member (jobs_of self.now) job }
    {
        if job < self.first {
            return false;
        }
        let distance = job - self.first;
        if self.step == 0 {
            return distance == 0 && self.count > 0;
        }
        distance % self.step == 0 && distance / self.step < self.count
    }

    // The first of the jobs, and 0 where there is none.
    #[tactic(auto, using(crate::proofs::Progressions::first_none, crate::proofs::Progressions::first_some))]
    pub fn first_job(&self) -> u16
        ensures { result ≡ slice_index (jobs_of self.now) 0 }
    {
        if self.count == 0 { 0 } else { self.first }
    }

    // The jobs in order.
    pub fn iter(&self) -> Jobs
        ensures { jobs_left result ≡ jobs_of self.now }
    {
        Jobs { jobs: *self, at: 0 }
    }
}

// The jobs of a progression from position `at` on.
#[derive(Drop)]
pub struct Jobs {
    jobs: Progression,
    at: usize,
}

impl Iterator for Jobs {
    type Item = usize;

    ghost next_gives = { YieldsFirst jobs_left };

    ghost remaining = { item_count jobs_left };

    fn next(&mut self) -> Option<usize> {
        if self.at >= self.jobs.count as usize {
            return None;
        }
        let job = self.jobs.job_at(self.at);
        self.at += 1;
        Some(job)
    }
}
