// The one slot of a lock's table.
ghost use Rattle.std.specs.Prelude.{◌≡◌, [], ◌∷◌, IfOk, IfErr, IsSome};

use crate::faults::LockFault;
use std::alloc::{AllocFailed, Global};

/// The slot, with the value in it.
pub(crate) fn one_slot<V>(alloc: Global, value: V) -> Result<Vec<Option<V>>, LockFault<V>>
    ensures ok { IfOk result (λ slots. slots.items ≡ Some value ∷ []) }
    ensures refused { IfErr result (λ fault. fault.value ≡ value) }
{
    let mut slots = Vec::new(alloc);
    match slots.push(Some(value)) {
        Ok(()) => Ok(slots),
        Err(AllocFailed { value: slot }) => {
            slots.destroy_empty();
            Err(LockFault {
                value: filled(slot),
            })
        }
    }
}

pub(crate) fn only_value<V>(mut slots: Vec<Option<V>>) -> V
    requires { (x : V) × (slots.items ≡ Some x ∷ []) }
    ensures { slots.items ≡ Some result ∷ [] }
{
    match slots.pop() {
        Some(slot) => {
            slots.destroy_empty();
            filled(slot)
        }
        None => unreachable!(),
    }
}

pub(crate) fn filled<V>(slot: Option<V>) -> V
    requires { IsSome slot }
    ensures { slot ≡ Some result }
{
    match slot {
        Some(value) => value,
        None => unreachable!(),
    }
}

pub(crate) fn emptied<V>(slot: Option<V>)
    requires { slot ≡ None }
{
    let None = slot else { unreachable!() };
}
