// Jobs, and what runs them in threads.
ghost use Rattle.std.specs.Prelude.{◌≡◌, ◌≤◌, ◌<◌, ◌+◌, ◌-◌, ◌^◌, ◌↔◌, ℕ, min, Option, None, IsErr, IfSome, OnOk, OnErr, length};
ghost use Rattle.std.specs.List.{All};
ghost use Rattle.quota_units.specs.Causes.{HasCause, Rose};
ghost use Rattle.wire_net.specs.Jobs.{EachDid, EachDidOrIs, FirstDid};

use quota_units::Failed;
use std::thread;
use std::thread::Threads;

/// A piece of work that may run in a thread of its own.
pub trait Job {
    /// The job may run.
    ghost ready: { Self → Type 0 } = { λ _. Unit {0} };

    /// What a job is before it has run and after it.
    ghost does: { Self → Self → Type 0 };

    /// Does the work. It may wait.
    fn run(&mut self)
        requires { ready self.old }
        ensures { does self.old self.new };
}

/// What runs jobs, each in a thread of its own if it can.
///
/// An implementation says how many jobs it starts and in how many threads. `run` is the same for
/// all.
pub trait Spawner {
    /// The leave to start threads.
    type Rt: Threads + Sync;

    /// How often a run has failed. The count stays at 2^64 - 1 once it is there.
    ghost faults: { Self → ℕ };

    /// How many jobs have run in runs that did not fail. It stays at 2^64 - 1 once it is there.
    ghost ran: { Self → ℕ };

    /// How many jobs of this many a run starts, if the spawner shows it to contracts.
    ghost starts: { Self → ℕ → Option ℕ } = { λ _ _. None };

    /// The leave to start threads.
    fn handle(&self) -> &Self::Rt;

    /// In how many threads this many jobs run.
    fn threads(&self, jobs: usize) -> usize
        ensures { 0 < result };

    /// How many jobs of this many are started. If not all are, that is counted as a failure.
    fn start(&mut self, jobs: usize) -> usize
        ensures bound { result ≤ jobs }
        ensures told { IfSome (starts self.old jobs) (λ n. result ≡ n) }
        ensures all { result ≡ jobs → (faults self.new ≡ faults self.old)
            × (ran self.new ≡ min (ran self.old + jobs) (2 ^ 64 - 1)) }
        ensures few { result < jobs → Rose (faults self.old) (faults self.new)
            × (faults self.old ≤ faults self.new) × (ran self.new ≡ ran self.old) };

    /// Starts jobs, and returns when all that were started have ended.
    ///
    /// # Errors
    ///
    /// `Failed` if not all jobs were started. The first ones have run then, and the others are as
    /// they were.
    final fn run<J: Job + Send>(&mut self, jobs: &mut [J]) -> Result<(), Failed>
    where
        Self: Sized,
        requires { All J.ready jobs.old }
        ensures length { length jobs.new ≡ length jobs.old }
        ensures cause { HasCause (IsErr result) (faults self.old) (faults self.new) }
        ensures ran { OnOk result (ran self.new
            ≡ min (ran self.old + length jobs.old) (2 ^ 64 - 1)) }
        ensures not_ran { OnErr result (ran self.new ≡ ran self.old) }
        ensures all { OnOk result (EachDid J.does jobs.old jobs.new) }
        ensures some { OnErr result (EachDidOrIs J.does jobs.old jobs.new) }
        ensures told { IfSome (starts self.old (length jobs.old)) (λ n.
            (IsErr result ↔ (n < length jobs.old)) × FirstDid J.does n jobs.old jobs.new) }
    {
        run_jobs(self, jobs)
    }
}

/// What `Spawner::run` does.
pub fn run_jobs<P: Spawner, J: Job + Send>(spawner: &mut P, jobs: &mut [J]) -> Result<(), Failed>
    requires { All J.ready jobs.old }
    ensures length { length jobs.new ≡ length jobs.old }
    ensures cause { HasCause (IsErr result) (P.faults spawner.old) (P.faults spawner.new) }
    ensures ran { OnOk result (P.ran spawner.new
        ≡ min (P.ran spawner.old + length jobs.old) (2 ^ 64 - 1)) }
    ensures not_ran { OnErr result (P.ran spawner.new ≡ P.ran spawner.old) }
    ensures all { OnOk result (EachDid J.does jobs.old jobs.new) }
    ensures some { OnErr result (EachDidOrIs J.does jobs.old jobs.new) }
    ensures told { IfSome (P.starts spawner.old (length jobs.old)) (λ n.
        (IsErr result ↔ (n < length jobs.old)) × FirstDid J.does n jobs.old jobs.new) }
{
    let started = spawner.start(jobs.len());
    let threads = spawner.threads(started);
    if started == jobs.len() {
        run_each(spawner.handle(), threads, jobs);
        return Ok(());
    }
    run_each(spawner.handle(), threads, &mut jobs[..started]);
    Err(Failed)
}

/// Runs jobs in this many threads, each once.
fn run_each<R: Threads + Sync, J: Job + Send>(rt: &R, threads: usize, jobs: &mut [J])
    requires threads { 0 < threads }
    requires ready { All J.ready jobs.old }
    ensures length { length jobs.new ≡ length jobs.old }
    ensures each { EachDid J.does jobs.old jobs.new }
{
    thread::for_each_mut(
        rt,
        jobs,
        threads,
        &|_, job: &mut J|
            requires { J.ready job.old }
            ensures { J.does job.old job.new }
        { job.run() },
    );
}
