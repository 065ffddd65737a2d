//! The measures of a run of PHOLD.

ghost use Rattle.std.specs.Prelude.{◌≡◌, ◌<◌, ◌≤◌, ◌↔◌, IfSome, IsSome};

/// The measures of PHOLD: what all processes share.
#[derive(Clone, Copy, Debug)]
pub struct Phold {
    /// How many processes there are.
    pub processes: u32,
    /// How many jobs each process begins with.
    pub jobs: u32,
    /// The shortest delay of a job, in ticks.
    pub lookahead: u32,
    /// The longest delay of a job, in ticks.
    pub longest: u32,
    /// Of 1,000 jobs so many go to a process that is drawn; the others stay.
    pub remote: u32,
    /// What all random words come from.
    pub seed: u64,
    pub ghost some: { 0 < processes },
    pub ghost late: { 0 < lookahead },
    pub ghost ordered: { lookahead ≤ longest },
}

impl Phold {
    /// PHOLD with these measures, where there is a process, the shortest delay is at least 1 tick, and the longest is no
    /// shorter than it. `remote` is of 1,000.
    pub fn new(
        processes: u32,
        jobs: u32,
        lookahead: u32,
        longest: u32,
        remote: u32,
        seed: u64,
    ) -> Option<Phold>
        ensures fits { IsSome result ↔ ((0 < processes) × (0 < lookahead) × (lookahead ≤ longest)) }
        ensures value { IfSome result (λ m. (m.processes ≡ processes) × (m.jobs ≡ jobs) × (m.lookahead ≡ lookahead)
            × (m.longest ≡ longest) × (m.remote ≡ remote) × (m.seed ≡ seed)) }
    {
        if processes == 0 || lookahead == 0 || longest < lookahead {
            return None;
        }
        Some(Phold {
            processes,
            jobs,
            lookahead,
            longest,
            remote,
            seed,
        })
    }
}
