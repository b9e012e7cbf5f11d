ghost use Rattle.std.specs.Prelude.{◌≡◌, ◌+◌, [], ◌∷◌, ◌++◌};
ghost use Rattle.std.specs.Borrow.{sem, Lends};
ghost use mir.Syntax.{named};
ghost use Rattle.account_core.specs.declared.calls.Entry.{Entry};

use crate::lock::Lock;
use crate::pass::{Chair, Pass};
use account_core::Booked;

/// The turn of a pass. No other pass has the value during the turn. The caller must end it with
/// `commit` or `leave`, since a turn can't be dropped.
pub struct Turn<'a, V: Booked> {
    pub(crate) pass: &'a mut Pass,
    pub(crate) lock: &'a Lock<V>,
    pub(crate) chair: Chair<V>,
    pub(crate) value: V,
}

impl<V: Booked> Turn<'_, V> {
    ghost use Rattle.account_lock.specs.Passes.{view, IsSame, IsOf};
    ghost use Rattle.account_lock.specs.Turns.{view_in, value_in, lock_of, IsTurnOf};
    ghost use Rattle.account_lock.specs.Lending.{with_value};
    ghost use Rattle.account_lock.specs.contracts.turn.Turn.{the_row};

    /// The value, for as long as the turn lasts.
    pub fn state(&mut self) -> &mut V
        ensures* writes_back { sem 𝓛 (Lends (the_row (record { mir = named 1; lft = [] }) V.row
            V.Booked) V.row self.entry result (with_value self.old)) }
        ensures value { result.now ≡ value_in self.old }
    {
        &mut self.value
    }

    /// The number of the pass. The pass's entries have it as their caller.
    pub fn caller(&self) -> u32
        ensures { result ≡ (view_in self.now).number }
    {
        self.chair.number
    }

    /// Ends a turn in which one entry with the pass's number was added to the value's history.
    pub fn commit(self)
        requires turn { IsTurnOf (lock_of self) self }
        requires entry { (e : Entry) × (e.caller ≡ (view_in self).number)
            × (V.history (value_in self) ≡ (view_in self).seen ++ e ∷ []) }
        requires origin { V.origin (value_in self) ≡ (view_in self).origin }
        ensures pass { IsOf (lock_of self.entry) self.exit.0.now }
        ensures entry { (e : Entry) × (e.caller ≡ (view_in self.entry).number)
            × (V.history (value_in self.entry) ≡ (view_in self.entry).seen ++ e ∷ [])
            × ((view self.exit.0.now).mine ≡ (view_in self.entry).mine ++ e ∷ []) }
        ensures seen { (view self.exit.0.now).seen ≡ V.history (value_in self.entry) }
        ensures own { (view self.exit.0.now).own ≡ (view_in self.entry).own + 1 }
        ensures identity { ((view self.exit.0.now).origin ≡ (view_in self.entry).origin)
            × ((view self.exit.0.now).number ≡ (view_in self.entry).number)
            × ((view self.exit.0.now).held ≡ (view_in self.entry).held)
            × ((view self.exit.0.now).olds ≡ (view_in self.entry).olds)
            × ((view self.exit.0.now).made ≡ (view_in self.entry).made) }
    {
        let Turn {
            pass,
            lock,
            chair,
            value,
        } = self;
        let chair = lock.put_back(chair, value);
        *pass = lock.serve_next(lock.count(chair)).rise();
    }

    /// Ends a turn in which no entry was added to the value's history.
    pub fn leave(self)
        requires turn { IsTurnOf (lock_of self) self }
        requires history { (V.history (value_in self) ≡ (view_in self).seen)
            × (V.origin (value_in self) ≡ (view_in self).origin) }
        ensures pass { IsOf (lock_of self.entry) self.exit.0.now }
        ensures same { IsSame (view_in self.entry) (view self.exit.0.now) }
        ensures seen { (view self.exit.0.now).seen ≡ (view_in self.entry).seen }
    {
        let Turn {
            pass,
            lock,
            chair,
            value,
        } = self;
        let chair = lock.put_back(chair, value);
        *pass = lock.serve_next(chair).rise();
    }
}
