ghost use Rattle.std.specs.Prelude.{◌≡◌, [], ◌∷◌};
ghost use Rattle.account_lock.specs.Ties.{head_view, IsTied, own_seen};

use crate::view::View;
use atomic_table::{Badge, Seat};

/// A caller's part in the one history of a lock. It knows which entries it has seen and which it
/// made, and it stands for itself and for the passes that were joined into it.
#[derive(Drop)]
pub struct Pass {
    number: u32,
    held: u32,
    made: u32,
    badge: Badge<View>,
    ghost tied: { IsTied (head_view badge.views) number held made },
    ghost own_entries: { own_seen (head_view badge.views) ≡ (head_view badge.views).mine },
}

/// A pass that makes steps on the lock's table.
pub(crate) struct Chair<V> {
    pub(crate) number: u32,
    pub(crate) held: u32,
    pub(crate) made: u32,
    pub(crate) seat: Seat<Option<V>, View>,
    ghost tied: { IsTied seat.me.0 number held made },
    ghost own_entries: { own_seen seat.me.0 ≡ seat.me.0.mine },
}

impl Pass {
    ghost use Rattle.std.specs.Prelude.{ℕ};
    ghost use Rattle.account_core.specs.Histories.{Origin};
    ghost use Rattle.account_lock.specs.Known.{nobody};
    ghost use Rattle.account_lock.specs.Views.{first_view};
    ghost use Rattle.account_lock.specs.Passes.{view};

    /// How many passes this pass stands for: 1 when it is made.
    pub fn held(&self) -> u32
        ensures { result ≡ (view self.now).held }
    {
        self.held
    }

    /// How many passes of the lock were made, the first included. Only the first pass, number 0,
    /// knows.
    pub fn made(&self) -> u32
        requires { (view self.now).number ≡ 0 }
        ensures { result ≡ (view self.now).made }
    {
        self.made
    }

    /// What is in a pass's place while the pass has the turn, or while it makes or joins another.
    pub(crate) fn blank() -> Pass
        ensures { view result ≡ nobody }
    {
        Pass {
            number: 0,
            held: 0,
            made: 0,
            badge: Badge::blank(),
        }
    }

    /// The first pass of a new table.
    pub(crate) fn first<V>(seat: Seat<Option<V>, View>) -> Pass
        requires { (x : Origin) × (limit : ℕ) × (seat.me ≡ (first_view x limit, [])) }
        ensures { (result.badge.table_id ≡ seat.table_id) × (result.badge.views ≡ seat.me.0 ∷ []) }
    {
        Pass {
            number: 0,
            held: 1,
            made: 1,
            badge: seat.into_badge(),
        }
    }

    pub(crate) fn sit<V>(self) -> Chair<V>
        requires { self.badge.views ≡ view self ∷ [] }
        ensures { (result.seat.table_id ≡ self.badge.table_id)
            × (result.seat.me ≡ (view self, [])) }
    {
        let Pass {
            number,
            held,
            made,
            badge,
        } = self;
        Chair {
            number,
            held,
            made,
            seat: badge.into_seat(),
        }
    }
}

impl<V> Chair<V> {
    ghost use Rattle.account_lock.specs.Passes.{view};

    pub(crate) fn rise(self) -> Pass
        requires { self.seat.me.1 ≡ [] }
        ensures { (result.badge.table_id ≡ self.seat.table_id)
            × (result.badge.views ≡ self.seat.me.0 ∷ []) }
    {
        let Chair {
            number,
            held,
            made,
            seat,
        } = self;
        Pass {
            number,
            held,
            made,
            badge: seat.into_badge(),
        }
    }
}
