//! How many workers a storm has, and what each does.
ghost use Rattle.std.specs.Prelude.{◌≡◌, ◌≤◌, ◌<◌, ◌↔◌, IsSome, IfSome};

/// What a worker does in each round.
#[derive(Clone, Copy, PartialEq, Eq)]
pub enum Task {
    /// The writer with that number, from 1 on, writes its file once.
    Writer(u32),
    /// The historian with that number, from 1 on, asks for the versions of a file and reads its
    /// first one.
    Historian(u32),
    /// The cleaner makes one clean.
    Cleaner,
}

/// A storm's writers, historians and rounds; one cleaner works beside them. The workers are numbered
/// from 0 on: the writers first, then the historians, and the cleaner last.
#[derive(Clone, Copy)]
pub struct StormPlan {
    /// 1 to 16.
    pub writers: u32,
    /// 1 to 16.
    pub historians: u32,
    /// 1 to 1,000.
    pub rounds: u32,
    pub ghost writers_fit: { (1 ≤ writers) × (writers ≤ 16) },
    pub ghost historians_fit: { (1 ≤ historians) × (historians ≤ 16) },
    pub ghost rounds_fit: { (1 ≤ rounds) × (rounds ≤ 1000) },
}

impl StormPlan {
    ghost use Rattle.ele_storm_plan.specs.Plan.{storm_events, task_of, workers_of};

    /// Makes the plan with these numbers. None if a number is out of its range.
    pub fn new(writers: u32, historians: u32, rounds: u32) -> Option<StormPlan>
        ensures fits { IsSome result ↔ ((1 ≤ writers) × (writers ≤ 16) × (1 ≤ historians)
            × (historians ≤ 16) × (1 ≤ rounds) × (rounds ≤ 1000)) }
        ensures plan { IfSome result (λ plan. (plan.writers ≡ writers)
            × (plan.historians ≡ historians) × (plan.rounds ≡ rounds)) }
    {
        if !(1..=16).contains(&writers)
            || !(1..=16).contains(&historians)
            || !(1..=1000).contains(&rounds)
        {
            return None;
        }
        Some(StormPlan {
            writers,
            historians,
            rounds,
        })
    }

    /// Returns how many workers there are.
    pub fn workers(&self) -> u32
        ensures { result ≡ workers_of self.now }
    {
        self.writers + self.historians + 1
    }

    /// Returns what the worker does.
    pub fn task(&self, worker: u32) -> Task
        requires { worker < workers_of self.now }
        ensures { result ≡ task_of self.now worker }
    {
        if worker < self.writers {
            Task::Writer(worker + 1)
        } else if worker < self.writers + self.historians {
            Task::Historian(worker - self.writers + 1)
        } else {
            Task::Cleaner
        }
    }

    /// Returns how many events the whole storm runs.
    pub fn events(&self) -> u64
        ensures { result ≡ storm_events self.now }
    {
        let writers = u64::from(self.writers);
        let historians = u64::from(self.historians);
        1 + writers + (4 * writers + 2 * historians + 1) * u64::from(self.rounds)
    }
}
