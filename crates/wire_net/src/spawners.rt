// A spawner with a thread for each job, and one that starts few.
ghost use Rattle.std.specs.Prelude.{◌≡◌, ◌≤◌, ◌<◌, ◌+◌, ◌-◌, ◌^◌, ◌↔◌, min, Some};
ghost use Rattle.quota_units.specs.Causes.{Rose};
ghost use Rattle.wire_net.specs.Spawners.{thread_ran_of, few_ran_of, few_faults_of, few_starts_of};

use crate::jobs::Spawner;
use std::thread::Threads;

/// Runs each job in a thread of its own. Jobs for which no thread can be made run one after the
/// other, so a run never fails.
#[derive(Drop)]
pub struct ThreadSpawner<R> {
    rt: R,
    ran: u64,
}

impl<R: Threads + Sync> ThreadSpawner<R> {
    /// A spawner that has run nothing.
    pub fn new(rt: R) -> ThreadSpawner<R>
        ensures { thread_ran_of result ≡ 0 }
    {
        ThreadSpawner { rt, ran: 0 }
    }
}

impl<R: Threads + Sync> Spawner for ThreadSpawner<R> {
    type Rt = R;

    ghost faults = { λ _. 0 };

    ghost ran = { thread_ran_of };

    ghost starts = { λ _ jobs. Some jobs };

    fn handle(&self) -> &R {
        &self.rt
    }

    fn threads(&self, jobs: usize) -> usize {
        jobs.max(1)
    }

    fn start(&mut self, jobs: usize) -> usize {
        self.ran = self.ran.saturating_add(jobs as u64);
        jobs
    }
}

/// Runs the first jobs of a run one after the other, and no more of them than a fixed number. A run
/// of more jobs fails.
#[derive(Drop)]
pub struct FewSpawner<R> {
    rt: R,
    starts: u32,
    ran: u64,
    faults: u64,
}

impl<R: Threads + Sync> FewSpawner<R> {
    /// A spawner that runs the first `starts` jobs.
    pub fn new(rt: R, starts: u32) -> FewSpawner<R>
        ensures starts { few_starts_of result ≡ starts }
        ensures none { (few_ran_of result ≡ 0) × (few_faults_of result ≡ 0) }
    {
        FewSpawner {
            rt,
            starts,
            ran: 0,
            faults: 0,
        }
    }
}

impl<R: Threads + Sync> Spawner for FewSpawner<R> {
    type Rt = R;

    ghost faults = { few_faults_of };

    ghost ran = { few_ran_of };

    ghost starts = { λ s jobs. Some (min jobs (few_starts_of s)) };

    fn handle(&self) -> &R {
        &self.rt
    }

    fn threads(&self, _jobs: usize) -> usize {
        1
    }

    fn start(&mut self, jobs: usize) -> usize {
        let started = jobs.min(self.starts as usize);
        if started < jobs {
            self.faults = self.faults.saturating_add(1);
        } else {
            self.ran = self.ran.saturating_add(jobs as u64);
        }
        started
    }
}
