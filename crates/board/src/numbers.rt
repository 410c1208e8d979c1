ghost use Rattle.std.specs.Prelude.{◌≤◌};

// What a board holds: how many jobs it has, its bed width, and how many rules and cuts its tables hold.
#[derive(Clone, Copy)]
pub struct Numbers {
    pub(crate) n: u16,
    pub(crate) w: u16,
    pub(crate) rules: usize,
    pub(crate) cuts: usize,
    ghost jobs: { n ≤ 256 },
    ghost lawbook: { rules ≤ 64 },
    ghost counted: { cuts ≤ 1024 },
}
