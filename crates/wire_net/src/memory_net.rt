// A net in memory: it opens doors for the connections that it was made with.
ghost use Rattle.std.specs.Prelude.{◌≡◌, ◌≤◌, ◌<◌, ◌+◌, [], true, false, Some, IfOk, OnOk, OnErr, IsTrue, length, ◌↔◌, if◌then◌else◌};
ghost use Rattle.std.specs.List.{All};
ghost use Rattle.quota_units.specs.Causes.{HasCause};
ghost use Rattle.wire_io.specs.Memory.{next_number};
ghost use Rattle.wire_net.specs.Doors.{IsFresh};
ghost use Rattle.wire_net.specs.Nets.{IsNetFailure, Retires};
ghost use Rattle.wire_net.specs.Memory.{told_of, is_same, arrivals, IsShare, AreOpened, FailsListen};
ghost use Rattle.wire_net.specs.Keeping.{arrivals_in, offers_in};

use crate::memory_door::MemDoor;
use crate::net::{Net, NetError};
use crate::waiting::{MemConnection, Waiting};
use quota_units::NoMemory;
use std::alloc::{AllocError, Global};
use std::collections::VecDeque;
use std::marker::Model;
use std::sync::Arc;
use std::sync::atomic::AtomicBool;
use wire_io::Wire;

/// A net in memory. Its doors give the connections that it was made with, and chosen calls fail.
///
/// If it opens n doors for a wire, the door d gives that wire's connections at the places d, d + n,
/// d + 2n and so on. Doors and places count from 0.
#[derive(Drop)]
pub struct MemNet {
    connections: Vec<MemConnection>,
    fails: Vec<u64>,
    listened: bool,
    stopping: Option<Arc<AtomicBool, Global>>,
    out: usize,
    retired: Vec<MemDoor>,
    faults: u64,
}

impl Model for MemNet {
    ghost use Rattle.std.specs.Prelude.{◌≤◌, ◌+◌, length, vec_capacity};
    ghost use Rattle.wire_net.specs.Memory.{MemoryNet};
    ghost use Rattle.wire_net.specs.Keeping.{offers_in};

    ghost Value = { MemoryNet };

    ghost view = { λ s. record {
      offers = offers_in s.connections.items;
      fails = s.fails.items;
      listened = s.listened;
      out = s.out;
      retired = s.retired.items;
      faults = s.faults;
    } };

    ghost invariant = { λ s. length s.retired.items + s.out ≤ vec_capacity s.retired };
}

impl MemNet {
    /// A net to which these connections come.
    ///
    /// If 0 is in `fails`, the first `listen` fails. If a number above 0 is in it, the accept of
    /// this number fails at each door. The first accept has the number 1.
    pub fn new(alloc: Global, connections: Vec<MemConnection>, fails: Vec<u64>) -> MemNet
        ensures { result ≡ record {
          offers = offers_in connections.items;
          fails = fails.items;
          listened = false;
          out = 0;
          retired = [];
          faults = 0;
        } }
    {
        MemNet {
            connections,
            fails,
            listened: false,
            stopping: None,
            out: 0,
            retired: Vec::new(alloc),
            faults: 0,
        }
    }

    /// The doors that were taken back, in order.
    pub fn retired(&self) -> &[MemDoor]
        ensures { result.now ≡ self.now.retired }
    {
        self.retired.as_slice()
    }

    /// What a door of this net sets when it is asked to stop.
    fn stopping(&mut self, alloc: Global) -> Result<Arc<AtomicBool, Global>, AllocError>
        ensures { self.new ≡ self.old }
    {
        if let Some(stopping) = &self.stopping {
            return Arc::try_clone(stopping);
        }
        let stopping = Arc::new(alloc, AtomicBool::new(false))?;
        let ours = Arc::try_clone(&stopping)?;
        self.stopping = Some(ours);
        Ok(stopping)
    }

    /// Takes room to take back this many doors more.
    fn reserve(&mut self, doors: u32) -> Result<(), AllocError>
        ensures out { OnOk result (self.new ≡ record self.old { out = self.old.out + doors }) }
        ensures same { OnErr result (self.new ≡ self.old) }
    {
        let Some(out) = self.out.checked_add(doors as usize) else {
            return Err(AllocError);
        };
        self.retired.reserve(out)?;
        self.out = out;
        Ok(())
    }

    /// The first call fails if 0 is in `fails`.
    fn begin(&mut self) -> bool
        ensures fails { IsTrue result ↔ FailsListen self.old }
        ensures later { self.old.faults ≤ self.new.faults }
        ensures after { self.new ≡ record self.old {
          listened = true;
          faults = (if result then next_number self.old.faults else self.old.faults);
        } }
    {
        let fails = !self.listened && self.fails.contains(&0);
        self.listened = true;
        if fails {
            self.faults = self.faults.saturating_add(1);
        }
        fails
    }
}

/// The connections of a wire that the door of this number takes, if there are so many doors.
fn share(
    alloc: Global,
    connections: &[MemConnection],
    wire: Wire,
    doors: u32,
    number: u32,
) -> Result<VecDeque<Waiting>, NoMemory>
    requires { number < doors }
    ensures { IfOk result (λ mine. IsShare doors number (arrivals wire (offers_in connections.now))
        (arrivals_in mine.items)) }
{
    let mut mine = VecDeque::new(alloc);
    let mut left = number;
    for connection in connections {
        if !are_same(wire, connection.wire) {
            continue;
        }
        if left > 0 {
            left -= 1;
            continue;
        }
        mine.push_back(Waiting::of(alloc, connection)?)?;
        left = doors - 1;
    }
    Ok(mine)
}

/// The wires are the same.
fn are_same(wire: Wire, other: Wire) -> bool
    ensures { result ≡ is_same wire other }
{
    match (wire, other) {
        (Wire::Imap, Wire::Imap) => true,
        (Wire::Jmap, Wire::Jmap) => true,
        (Wire::Policy, Wire::Policy) => true,
        _ => false,
    }
}

/// Doors for the connections of a wire, each with its share.
fn open_doors(
    alloc: Global,
    connections: &[MemConnection],
    wire: Wire,
    doors: u32,
    fails: &[u64],
    stopping: &Arc<AtomicBool, Global>,
) -> Result<Vec<MemDoor>, NoMemory>
    ensures count { IfOk result (λ made. length made.items ≡ doors) }
    ensures opened { IfOk result (λ made. AreOpened doors
        (arrivals wire (offers_in connections.now)) fails.now made.items) }
{
    let mut made = Vec::with_capacity(alloc, doors as usize)?;
    for number in 0..doors {
        let mine = share(alloc, connections, wire, doors, number)?;
        let stopping = Arc::try_clone(stopping)?;
        made.push_reserved(MemDoor::new(alloc, mine, fails.to_vec(alloc)?, stopping)?);
    }
    Ok(made)
}

impl Net for MemNet {
    type Door = MemDoor;

    ghost faults = { λ s. s.faults };

    ghost out = { λ s. s.out };

    ghost retired = { λ s. Some s.retired };

    fn listen(
        &mut self,
        alloc: Global,
        wire: Wire,
        _port: u16,
        doors: u32,
    ) -> Result<Vec<MemDoor>, NetError>
        ensures count { IfOk result (λ made. length made.items ≡ doors) }
        ensures fresh { IfOk result (λ made. All (IsFresh (λ s. s.misses) (λ s. s.ended)
            (λ s. s.asked) told_of) made.items) }
        ensures cause { HasCause (IsNetFailure result) self.old.faults self.new.faults }
        ensures out { IfOk result (λ _. self.new.out ≡ self.old.out + doors) }
        ensures not_out { OnErr result (self.new.out ≡ self.old.out) }
        ensures retired { self.new.retired ≡ self.old.retired }
        ensures fails { IsNetFailure result ↔ FailsListen self.old }
        ensures opened { IfOk result (λ made. AreOpened doors (arrivals wire self.old.offers)
            self.old.fails made.items) }
        ensures same { (self.new.offers ≡ self.old.offers) × (self.new.fails ≡ self.old.fails)
            × (self.new.listened ≡ true) }
    {
        if self.begin() {
            return Err(NetError::Failed);
        }
        let stopping = self.stopping(alloc)?;
        let connections = self.connections.as_slice();
        let fails = self.fails.as_slice();
        let made = open_doors(alloc, connections, wire, doors, fails, &stopping)?;
        self.reserve(doors)?;
        Ok(made)
    }

    fn retire(&mut self, door: MemDoor)
        requires { 0 < self.old.out }
        ensures out { self.new.out + 1 ≡ self.old.out }
        ensures cause { HasCause (16 ≤ door.misses) self.old.faults self.new.faults }
        ensures retired { Retires door (Some self.old.retired) (Some self.new.retired) }
        ensures same { (self.new.offers ≡ self.old.offers) × (self.new.fails ≡ self.old.fails)
            × (self.new.listened ≡ self.old.listened) }
    {
        if door.misses() >= 16 {
            self.faults = self.faults.saturating_add(1);
        }
        self.out -= 1;
        self.retired.push_reserved(door);
    }
}
