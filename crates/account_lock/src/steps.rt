// The steps on a lock's table.
ghost use Rattle.std.specs.Prelude.{◌≡◌, ◌≢◌, ◌<◌, ◌≤◌, ◌+◌, ◌%◌, ◌^◌, ◌++◌, ℕ, false, [], ◌∷◌};
ghost use Rattle.account_core.specs.declared.calls.Entry.{Entry};
ghost use Rattle.account_lock.specs.Known.{resting, waiting, serving};
ghost use Rattle.account_lock.specs.Views.{with_ticket, with_turn, at_rest, with_entry, having_made, newcomer, joined};
ghost use Rattle.account_lock.specs.Steps.{Extends};
ghost use Rattle.account_lock.specs.Closing.{Leaves};

use crate::lock::Lock;
use crate::order::{Bound, Commit, Draw, Enlist, Look, Newcomer, ServeNext, Together};
use crate::pass::{Chair, Pass};
use crate::slot::{emptied, filled};
use crate::view::View;
use account_core::Booked;
use atomic_table::Seat;
use std::sync::Wait;
use std::thread;

/// The words of a lock's table: how many tickets were drawn, which ticket is served, how many
/// entries there are, and how many passes were made.
const TICKET: usize = 0;

const SERVING: usize = 1;

const COUNT: usize = 2;

const CALLERS: usize = 3;

/// How often a waiting caller yields before it sleeps.
const YIELDS: u32 = 64;

impl<V: Booked> Lock<V> {
    /// Draws a ticket, waits until it is served, and takes the value.
    pub(crate) fn take_turn<R: Wait>(&self, rt: &R, chair: Chair<V>) -> (Chair<V>, V)
        requires lock { chair.seat.table_id ≡ self.now.table.shared.table_id }
        requires rests { (chair.seat.me.0.stage ≡ resting) × (chair.seat.me.1 ≡ []) }
        ensures lock { result.0.seat.table_id ≡ chair.seat.table_id }
        ensures turn { (t : ℕ) × (result.0.seat.me
            ≡ (with_turn (with_ticket chair.seat.me.0 t) (V.history result.1), (0, None) ∷ [])) }
        ensures value { (V.origin result.1 ≡ chair.seat.me.0.origin)
            × Extends chair.seat.me.0 (V.history result.1) }
    {
        let Chair {
            number,
            held,
            made,
            mut seat,
        } = chair;
        let shared = &self.table.shared;
        let ticket = shared.fetch_add::<Draw>(&mut seat, TICKET, 1);
        let mut seat = self.wait(rt, seat, ticket);
        let slot = shared.exchange(&mut seat, 0, None);
        let chair = Chair {
            number,
            held,
            made,
            seat,
        };
        (chair, filled(slot))
    }

    /// Waits until the ticket is served.
    fn wait<R: Wait>(
        &self,
        rt: &R,
        mut seat: Seat<Option<V>, View>,
        ticket: u64,
    ) -> Seat<Option<V>, View>
        requires lock { seat.table_id ≡ self.now.table.shared.table_id }
        requires waits { (seat.me.0.stage ≡ waiting) × (seat.me.1 ≡ []) }
        requires ticket { ticket ≡ seat.me.0.ticket % 2 ^ 64 }
        ensures lock { result.table_id ≡ seat.table_id }
        ensures turn { (x : V) × (result.me ≡ (with_turn seat.me.0 (V.history x), (0, Some x) ∷ []))
            × (V.origin x ≡ seat.me.0.origin) × Extends seat.me.0 (V.history x) }
    {
        let mut yields = 0;
        for _ in rt.forever() {
            let serving = self.table.shared.load::<Look>(&mut seat, SERVING);
            if serving == ticket {
                return seat;
            }
            yields = self.pause(rt, serving, yields);
        }
        unreachable!()
    }

    /// Yields the first `YIELDS` times. After that, sleeps until a ticket other than `serving` is
    /// served.
    fn pause<R: Wait>(&self, rt: &R, serving: u64, yields: u32) -> u32 {
        if yields < YIELDS {
            thread::yield_now();
            return yields + 1;
        }
        let low_bits = (serving & 0xffff_ffff) as u32;
        self.table.shared.park(rt, SERVING, low_bits);
        yields
    }

    /// Makes a pass, and the first pass counts it.
    pub(crate) fn make_pass(&self, chair: Chair<V>) -> (Chair<V>, Pass)
        requires lock { chair.seat.table_id ≡ self.now.table.shared.table_id }
        requires rests { (chair.seat.me.0.stage ≡ resting) × (chair.seat.me.1 ≡ [])
            × (chair.seat.me.0.pending ≡ false) }
        requires first { chair.seat.me.0.number ≡ 0 }
        requires more_callers { (chair.seat.me.0.limit ≡ self.now.callers)
            × (chair.seat.me.0.made < self.now.callers) }
        ensures lock { (result.0.seat.table_id ≡ chair.seat.table_id)
            × (result.1.badge.table_id ≡ chair.seat.table_id) }
        ensures made { result.0.seat.me ≡ (having_made chair.seat.me.0, []) }
        ensures pass { result.1.badge.views ≡ newcomer chair.seat.me.0 ∷ [] }
    {
        let Chair {
            number,
            held,
            made,
            mut seat,
        } = chair;
        let shared = &self.table.shared;
        let mut other = shared.split_seat::<Newcomer>(&mut seat);
        shared.fetch_add::<Enlist>(&mut seat, CALLERS, 1);
        shared.load::<Bound>(&mut other, COUNT);
        let pass = Chair {
            number: made,
            held: 1,
            made: 0,
            seat: other,
        };
        let chair = Chair {
            number,
            held,
            made: made + 1,
            seat,
        };
        (chair, pass.rise())
    }

    /// Joins the other pass into this pass, which then stands for both.
    pub(crate) fn join_chairs(&self, chair: Chair<V>, other: Chair<V>) -> Chair<V>
        requires lock { (chair.seat.table_id ≡ self.now.table.shared.table_id)
            × (other.seat.table_id ≡ self.now.table.shared.table_id) }
        requires rests { (chair.seat.me.0.stage ≡ resting) × (chair.seat.me.1 ≡ []) }
        requires other { (other.seat.me.0.stage ≡ resting) × (other.seat.me.1 ≡ [])
            × (other.seat.me.0.number ≢ 0) }
        ensures lock { result.seat.table_id ≡ chair.seat.table_id }
        ensures joined { result.seat.me ≡ (joined chair.seat.me.0 other.seat.me.0, []) }
    {
        let Chair {
            number,
            held,
            made,
            mut seat,
        } = chair;
        let Chair {
            number: _,
            held: more,
            made: _,
            seat: taken,
        } = other;
        let shared = &self.table.shared;
        shared.join_seat::<Together>(&mut seat, taken);
        shared.load::<Bound>(&mut seat, COUNT);
        Chair {
            number,
            held: held + more,
            made,
            seat,
        }
    }

    /// Puts the value back into the slot.
    pub(crate) fn put_back(&self, chair: Chair<V>, value: V) -> Chair<V>
        requires lock { chair.seat.table_id ≡ self.now.table.shared.table_id }
        requires slot { chair.seat.me.1 ≡ (0, None) ∷ [] }
        ensures lock { result.seat.table_id ≡ chair.seat.table_id }
        ensures slot { result.seat.me ≡ (chair.seat.me.0, (0, Some value) ∷ []) }
    {
        let Chair {
            number,
            held,
            made,
            mut seat,
        } = chair;
        emptied(self.table.shared.exchange(&mut seat, 0, Some(value)));
        Chair {
            number,
            held,
            made,
            seat,
        }
    }

    /// Counts the entry that the value in the slot has gained: from now on the entry has its place
    /// in the history.
    pub(crate) fn count(&self, chair: Chair<V>) -> Chair<V>
        requires lock { chair.seat.table_id ≡ self.now.table.shared.table_id }
        requires turn { chair.seat.me.0.stage ≡ serving }
        requires entry { (x : V) × (e : Entry) × (chair.seat.me.1 ≡ (0, Some x) ∷ [])
            × (V.history x ≡ chair.seat.me.0.seen ++ e ∷ []) × (e.caller ≡ chair.seat.me.0.number) }
        ensures lock { result.seat.table_id ≡ chair.seat.table_id }
        ensures entry { (x : V) × (e : Entry) × (chair.seat.me.1 ≡ (0, Some x) ∷ [])
            × (V.history x ≡ chair.seat.me.0.seen ++ e ∷ []) × (e.caller ≡ chair.seat.me.0.number)
            × (result.seat.me ≡ (with_entry chair.seat.me.0 e, chair.seat.me.1)) }
    {
        let Chair {
            number,
            held,
            made,
            mut seat,
        } = chair;
        self.table.shared.fetch_add::<Commit>(&mut seat, COUNT, 1);
        Chair {
            number,
            held,
            made,
            seat,
        }
    }

    /// Gives the slot back, serves the next ticket, and wakes the callers that sleep.
    pub(crate) fn serve_next(&self, chair: Chair<V>) -> Chair<V>
        requires lock { chair.seat.table_id ≡ self.now.table.shared.table_id }
        requires turn { chair.seat.me.0.stage ≡ serving }
        requires slot { (x : V) × (chair.seat.me.1 ≡ (0, Some x) ∷ [])
            × (V.history x ≡ chair.seat.me.0.seen) × (V.origin x ≡ chair.seat.me.0.origin) }
        ensures lock { result.seat.table_id ≡ chair.seat.table_id }
        ensures rests { result.seat.me ≡ (at_rest chair.seat.me.0, []) }
    {
        let Chair {
            number,
            held,
            made,
            mut seat,
        } = chair;
        let shared = &self.table.shared;
        let served = shared.fetch_add::<ServeNext>(&mut seat, SERVING, 1);
        if shared.peek(TICKET) != served.wrapping_add(1) {
            shared.wake_all(SERVING);
        }
        Chair {
            number,
            held,
            made,
            seat,
        }
    }

    /// Ends the table with the first pass, which stands for all passes, and takes the value.
    pub(crate) fn end(self, chair: Chair<V>) -> V
        requires lock { chair.seat.table_id ≡ self.table.shared.table_id }
        requires rests { (chair.seat.me.0.stage ≡ resting) × (chair.seat.me.0.pending ≡ false) }
        requires first { chair.seat.me.0.number ≡ 0 }
        requires all { chair.seat.me.0.made ≤ chair.seat.me.0.held }
        ensures { Leaves V.origin V.history chair.seat.me.0 result }
    {
        let Lock { table, callers: _ } = self;
        let Chair {
            number: _,
            held: _,
            made: _,
            seat,
        } = chair;
        let mut closed = table.close_with(seat);
        let slot = closed.take(0);
        closed.free();
        filled(slot)
    }
}
