// What a lock's table is given of the value at the start.
ghost use Rattle.std.specs.Prelude.{◌≡◌};

use account_core::Booked;
use std::marker::Model;
use std::snapshot::Snapshot;

/// The value that a lock was made with. Contracts see it as the value's origin.
#[derive(Drop)]
pub struct Start<V: Booked> {
    value: Snapshot<V>,
}

impl<V: Booked> Model for Start<V> {
    ghost use Rattle.account_core.specs.Histories.{Origin};

    ghost Value = { Origin };

    ghost view = { λ start. V.origin start.value.value };
}

impl<V: Booked> Start<V> {
    pub(crate) fn of(value: &V) -> Start<V>
        ensures { result ≡ V.origin value.now }
    {
        Start {
            value: Snapshot::of(value),
        }
    }
}
