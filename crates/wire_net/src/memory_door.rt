// A door in memory, with the connections that come through it.
ghost use Rattle.std.specs.Prelude.{◌≡◌, ◌≤◌, ◌<◌, ◌+◌, ◌++◌, ◌∷◌, ℕ, [], true, Some, IfOk, IsTrue, length};
ghost use Rattle.quota_units.specs.Causes.{HasCause};
ghost use Rattle.wire_io.specs.Memory.{next_number};
ghost use Rattle.wire_net.specs.Doors.{MatchAccepted, IsStopped, IsMissed, Hands, Finishes, MayFinish};
ghost use Rattle.wire_net.specs.Memory.{told_of, item_of, opened, Gives, Accepts, IsWritten};
ghost use Rattle.wire_net.specs.Keeping.{arrivals_in};

use crate::door::{Accepted, Door};
use crate::waiting::Waiting;
use std::alloc::{AllocError, Global};
use std::collections::VecDeque;
use std::marker::Model;
use std::sync::Arc;
use std::sync::atomic::{AtomicBool, Ordering};
use wire_io::{MemSink, MemSource};

/// Both ends of a connection that was given back.
#[derive(Drop)]
struct Finished {
    input: MemSource,
    output: MemSink,
}

/// A door of a net in memory. It gives its connections in order, and chosen accepts fail. After its
/// last connection it answers `Stopped`.
#[derive(Drop)]
pub struct MemDoor {
    waiting: VecDeque<Waiting>,
    fails: Vec<u64>,
    stopping: Arc<AtomicBool, Global>,
    accepts: u64,
    misses: u32,
    ended: bool,
    asked: bool,
    faults: u64,
    handed: Vec<Vec<u8>>,
    done: Vec<Finished>,
}

impl Model for MemDoor {
    ghost use Rattle.std.specs.Prelude.{◌≤◌, ◌+◌, length, map, vec_capacity};
    ghost use Rattle.wire_net.specs.Memory.{MemoryDoor};
    ghost use Rattle.wire_net.specs.Keeping.{arrivals_in, bytes_in, items_in};

    ghost Value = { MemoryDoor };

    ghost view = { λ s. record {
      waiting = arrivals_in s.waiting.items;
      fails = s.fails.items;
      accepts = s.accepts;
      misses = s.misses;
      ended = s.ended;
      asked = s.asked;
      faults = s.faults;
      handed = bytes_in s.handed.items;
      done = items_in s.done.items;
    } };

    ghost invariant = { λ s.
        (length s.handed.items + length s.waiting.items ≤ vec_capacity s.handed)
        × (length s.handed.items + length s.waiting.items ≤ vec_capacity s.done)
        × (length s.done.items ≤ length s.handed.items) };
}

impl MemDoor {
    /// A door that these connections come through. It has room for all that its calls need.
    pub(crate) fn new(
        alloc: Global,
        waiting: VecDeque<Waiting>,
        fails: Vec<u64>,
        stopping: Arc<AtomicBool, Global>,
    ) -> Result<MemDoor, AllocError>
        ensures { IfOk result (λ door. door ≡ opened (arrivals_in waiting.items) fails.items) }
    {
        let room = waiting.len();
        Ok(MemDoor {
            handed: Vec::with_capacity(alloc, room)?,
            done: Vec::with_capacity(alloc, room)?,
            waiting,
            fails,
            stopping,
            accepts: 0,
            misses: 0,
            ended: false,
            asked: false,
            faults: 0,
        })
    }

    /// The bytes written to the connection that was given back at this place. Places count from 0.
    pub fn written(&self, at: u32) -> &[u8]
        requires { at < length self.now.done }
        ensures { IsWritten self.now.done at result.now }
    {
        self.done[at as usize].output.as_slice()
    }

    /// How many accepts in a row have failed, up to now.
    pub(crate) fn misses(&self) -> u32
        ensures { result ≡ self.now.misses }
    {
        self.misses
    }

    /// A door of this net was asked to stop.
    fn is_stopping(&self) -> bool
        ensures { self.now.asked ≡ true → IsTrue result }
    {
        self.asked || self.stopping.load(Ordering::SeqCst)
    }

    /// No connection comes any more.
    fn end(&mut self) -> Accepted<MemSource, MemSink>
        ensures answer { result ≡ Accepted.Stopped }
        ensures after { self.new ≡ record self.old { misses = 0; ended = true } }
    {
        self.misses = 0;
        self.ended = true;
        Accepted::Stopped
    }

    /// An accept failed.
    fn miss(&mut self) -> Accepted<MemSource, MemSink>
        requires { self.old.misses < 16 }
        ensures answer { result ≡ Accepted.Failed }
        ensures after { self.new ≡ record self.old {
          misses = self.old.misses + 1;
          faults = next_number self.old.faults;
        } }
    {
        self.misses += 1;
        self.faults = self.faults.saturating_add(1);
        Accepted::Failed
    }

    /// Gives the next connection, if there is one.
    fn next(&mut self) -> Accepted<MemSource, MemSink>
        ensures { Gives self.old result self.new }
    {
        let Some(next) = self.waiting.pop_front() else {
            return self.end();
        };
        self.misses = 0;
        self.handed.push_reserved(next.bytes);
        Accepted::Connected {
            input: next.input,
            output: next.output,
        }
    }
}

impl Door for MemDoor {
    type In = MemSource;

    type Out = MemSink;

    ghost misses = { λ s. s.misses };

    ghost ended = { λ s. s.ended };

    ghost asked = { λ s. s.asked };

    ghost told = { told_of };

    ghost faults = { λ s. s.faults };

    fn accept(&mut self) -> Accepted<MemSource, MemSink>
        requires { self.old.misses < 16 }
        ensures misses { MatchAccepted result (λ _ _. self.new.misses ≡ 0) (self.new.misses ≡ 0)
            (self.new.misses ≡ self.old.misses + 1) }
        ensures ended { MatchAccepted result (λ _ _. self.new.ended ≡ self.old.ended)
            (self.new.ended ≡ true) (self.new.ended ≡ self.old.ended) }
        ensures asked { self.new.asked ≡ self.old.asked }
        ensures stops { self.old.asked ≡ true → IsStopped result }
        ensures cause { HasCause (IsMissed result) self.old.faults self.new.faults }
        ensures told { MatchAccepted result
            (λ input output. Hands (Some input.left) (Some output.written)
            (told_of self.old) (told_of self.new))
            (told_of self.new ≡ told_of self.old) (told_of self.new ≡ told_of self.old) }
        ensures counts { MatchAccepted result
            (λ input output. (input.faults ≡ 0) × (output.faults ≡ 0)) (Unit {0}) (Unit {0}) }
        ensures accepts { Accepts self.old result self.new }
    {
        self.accepts = self.accepts.saturating_add(1);
        if self.is_stopping() {
            return self.end();
        }
        if self.fails.contains(&self.accepts) {
            return self.miss();
        }
        self.next()
    }

    fn stop(&mut self)
        ensures asked { self.new.asked ≡ true }
        ensures marks { (self.new.misses ≡ self.old.misses) × (self.new.ended ≡ self.old.ended) }
        ensures told { told_of self.new ≡ told_of self.old }
        ensures faults { self.new.faults ≡ self.old.faults }
        ensures after { self.new ≡ record self.old { asked = true } }
    {
        self.asked = true;
        self.stopping.store(true, Ordering::SeqCst);
    }

    fn finish(&mut self, input: MemSource, output: MemSink)
        requires { length self.old.done < length self.old.handed }
        ensures told { Finishes (item_of input output) (told_of self.old) (told_of self.new) }
        ensures marks { (self.new.misses ≡ self.old.misses) × (self.new.ended ≡ self.old.ended)
            × (self.new.asked ≡ self.old.asked) }
        ensures faults { self.new.faults ≡ self.old.faults }
        ensures after { self.new ≡ record self.old {
          done = self.old.done ++ item_of input output ∷ [];
        } }
    {
        self.done.push_reserved(Finished { input, output });
    }
}
