//! Flags that show the workers of a storm one another. A contract sees how many they are.
ghost use Rattle.std.specs.Prelude.{◌≡◌, ◌≤◌, IfOk};
ghost use Rattle.ele_storm.specs.declared.meet.MeetEnd.TheVariants as meet;

use crate::meet::{Meet, MeetEnd};
use ele_model::NoMemory;
use std::alloc::Global;
use std::marker::Model;
use std::sync::atomic::{AtomicBool, Ordering};
use std::thread;

/// A flag for each worker, which the worker sets as it arrives.
#[derive(Drop)]
pub struct Flags {
    up: Vec<AtomicBool>,
    looks: u64,
}

impl Model for Flags {
    ghost use Rattle.std.specs.Prelude.{ℕ, vec_len};

    ghost Value = { ℕ };

    ghost view = { λ flags. vec_len flags.up };
}

impl Flags {
    /// Makes flags for so many workers. Each worker looks at most so often for a flag of another
    /// one.
    ///
    /// `NoMemory` if memory is refused.
    pub fn new(alloc: Global, workers: u32, looks: u64) -> Result<Flags, NoMemory>
        ensures { IfOk result (λ flags. flags ≡ workers) }
    {
        let mut up = Vec::new(alloc);
        while up.len() < workers as usize {
            up.push(AtomicBool::new(false))?;
        }
        Ok(Flags { up, looks })
    }
}

impl Meet for Flags {
    /// Returns `Met` as soon as another worker's flag is set. Returns `Alone` if none is after so
    /// many looks, or if there is no worker of that number. Other threads run between two looks.
    fn arrive(&self, worker: u32) -> MeetEnd
        ensures { self.now ≤ worker → result ≡ meet.Alone }
    {
        let mine = worker as usize;
        let Some(flag) = self.up.get(mine) else {
            return MeetEnd::Alone;
        };
        flag.store(true, Ordering::SeqCst);
        for _ in 0..self.looks {
            if is_other_up(self.up.as_slice(), mine) {
                return MeetEnd::Met;
            }
            thread::yield_now();
        }
        MeetEnd::Alone
    }
}

// Whether a flag other than this one is set.
fn is_other_up(flags: &[AtomicBool], mine: usize) -> bool {
    flags.iter().enumerate().any(|(place, flag)| place != mine && flag.load(Ordering::SeqCst))
}
