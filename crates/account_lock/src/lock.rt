ghost use Rattle.std.specs.Prelude.{◌≡◌};

use crate::faults::{CloseFault, Full, LockFault};
use crate::order::Order;
use crate::pass::Pass;
use crate::slot::{one_slot, only_value};
use crate::start::Start;
use crate::turn::Turn;
use crate::view::View;
use account_core::Booked;
use atomic_table::{Refused, Table};
use std::alloc::Global;
use std::mem;
use std::sync::Wait;

/// A value under a lock. The lock's passes take the value in turn, in the order in which they ask.
/// The value stands for a history, and all passes together stand for all of its entries.
#[derive(Drop)]
pub struct Lock<V: Booked> {
    pub(crate) table: Table<Option<V>, View, (Start<V>, u32), Order, Global>,
    pub(crate) callers: u32,
    ghost counts: { (table.shared.table_id.words ≡ 4) × (table.shared.table_id.slots ≡ 1) },
    ghost keyed: { table.shared.key.1 ≡ callers },
}

impl<V: Booked> Lock<V> {
    ghost use Rattle.std.specs.Prelude.{◌≢◌, ◌<◌, length, [], IfOk, IfErr};
    ghost use Rattle.account_core.specs.Histories.{Begins, EachBegins, calls_by, CallersBelow};
    ghost use Rattle.account_lock.specs.Views.{having_made, newcomer, joined};
    ghost use Rattle.account_lock.specs.Passes.{view, IsNew, IsSame, limit_of, origin_of, IsOf};
    ghost use Rattle.account_lock.specs.Turns as turns;

    /// A lock and its first pass. The value's history has no entry, and the lock may make at most
    /// `callers` passes, the first included.
    ///
    /// # Errors
    ///
    /// Memory ran out. The value is handed back.
    pub fn new(alloc: Global, value: V, callers: u32) -> Result<(Lock<V>, Pass), LockFault<V>>
        requires callers { 0 < callers }
        requires history { V.history value ≡ [] }
        ensures made { IfOk result (λ made. (limit_of made.0 ≡ callers) × IsOf made.0 made.1) }
        ensures origin { IfOk result (λ made. origin_of made.0 ≡ V.origin value) }
        ensures first { IfOk result (λ made. ((view made.1).number ≡ 0) × ((view made.1).made ≡ 1)
            × IsNew (view made.1)) }
        ensures seen { IfOk result (λ made. ((view made.1).seen ≡ [])
            × ((view made.1).origin ≡ V.origin value)) }
        ensures refused { IfErr result (λ fault. fault.value ≡ value) }
    {
        let about = (Start::of(&value), callers);
        let slots = one_slot(alloc, value)?;
        match Table::new(alloc, &[0, 0, 0, 1], slots, &about) {
            Ok((table, seat)) => {
                let lock = Lock { table, callers };
                Ok((lock, Pass::first(seat)))
            }
            Err(Refused { slots }) => Err(LockFault {
                value: only_value(slots),
            }),
        }
    }

    /// Waits until it is the pass's turn. In its turn the pass has seen the whole history.
    pub fn enter<'a, R: Wait>(&'a self, rt: &R, pass: &'a mut Pass) -> Turn<'a, V>
        requires { IsOf self.now pass.old }
        ensures pass { turns.IsLent pass.entry result }
        ensures lock { turns.lock_of result ≡ self.now }
        ensures turn { turns.IsTurnOf self.now result }
        ensures same { IsSame (view pass.old) (turns.view_in result) }
        ensures origin { V.origin (turns.value_in result) ≡ (view pass.old).origin }
        ensures seen { (turns.view_in result).seen ≡ V.history (turns.value_in result) }
        ensures before { Begins (view pass.old).seen (V.history (turns.value_in result))
            × EachBegins (view pass.old).olds (V.history (turns.value_in result)) }
        ensures mine { calls_by (view pass.old).number (V.history (turns.value_in result))
            ≡ (view pass.old).mine }
    {
        let chair = mem::replace(pass, Pass::blank()).sit();
        let (chair, value) = self.take_turn(rt, chair);
        Turn {
            pass,
            lock: self,
            chair,
            value,
        }
    }

    /// Makes one more pass, which has seen what the first pass has seen.
    ///
    /// # Errors
    ///
    /// `Full` if the lock has already made as many passes as it may. Nothing changes then.
    pub fn enlist(&self, first: &mut Pass) -> Result<Pass, Full>
        requires lock { IsOf self.now first.old }
        requires first { (view first.old).number ≡ 0 }
        ensures more_callers { IfOk result (λ pass. (view first.old).made < limit_of self.now) }
        ensures made { IfOk result (λ pass. IsOf self.now pass
            × (view pass ≡ newcomer (view first.old))) }
        ensures first { IfOk result (λ pass. IsOf self.now first.new
            × (view first.new ≡ having_made (view first.old))) }
        ensures full { IfErr result (λ full. ((view first.old).made ≡ limit_of self.now)
            × (full.limit ≡ limit_of self.now) × (first.new ≡ first.old)) }
    {
        if first.made() == self.callers {
            return Err(Full {
                limit: self.callers,
            });
        }
        let chair = mem::replace(first, Pass::blank()).sit();
        let (chair, pass) = self.make_pass(chair);
        *first = chair.rise();
        Ok(pass)
    }

    /// Joins another pass into this pass, which then stands for both.
    pub fn join(&self, pass: &mut Pass, other: Pass)
        requires pass { IsOf self.now pass.old }
        requires other { IsOf self.now other × ((view other).number ≢ 0) }
        ensures lock { IsOf self.now pass.new }
        ensures joined { view pass.new ≡ joined (view pass.old) (view other) }
    {
        let chair = mem::replace(pass, Pass::blank()).sit();
        *pass = self.join_chairs(chair, other.sit()).rise();
    }

    /// Ends the lock with its first pass, and returns the value with the whole history.
    ///
    /// # Errors
    ///
    /// The pass stands for fewer passes than were made. The lock and the pass are handed back.
    pub fn close(self, pass: Pass) -> Result<V, CloseFault<V>>
        requires lock { IsOf self pass }
        requires first { (view pass).number ≡ 0 }
        ensures all { IfOk result (λ value. (view pass).held ≡ (view pass).made) }
        ensures whole { IfOk result (λ value. (V.origin value ≡ (view pass).origin)
            × (length (V.history value) ≡ (view pass).own)
            × CallersBelow (view pass).made (V.history value)) }
        ensures before { IfOk result (λ value. Begins (view pass).seen (V.history value)
            × EachBegins (view pass).olds (V.history value)) }
        ensures mine { IfOk result (λ value. calls_by 0 (V.history value) ≡ (view pass).mine) }
        ensures refused { IfErr result (λ fault. ((view pass).held < (view pass).made)
            × (fault.held ≡ (view pass).held) × (fault.made ≡ (view pass).made)
            × (fault.pass ≡ pass) × (fault.lock ≡ self)) }
    {
        let held = pass.held();
        let made = pass.made();
        if held < made {
            return Err(CloseFault {
                lock: self,
                pass,
                held,
                made,
            });
        }
        Ok(self.end(pass.sit()))
    }
}
