// The lock over a value of the tests' own: a number and a list of entries.
ghost use Rattle.std.specs.Prelude.{◌≡◌, ◌≢◌, ◌+◌, ◌++◌, [], ◌∷◌, length, if◌then◌else◌, OnOk, OnErr, IfSome};
ghost use Rattle.std.specs.Thread.{IsSync};
ghost use Rattle.account_core.specs.declared.calls.Entry.{Entry};
ghost use Rattle.account_core.specs.Histories.{CallersBelow};
ghost use Rattle.account_lock.specs.Known.{nowhere};
ghost use Rattle.account_lock.specs.Passes.{IsOf, view};

use account_core::{Booked, Call, Entry};
use account_lock::{CloseFault, Full, Lock, Pass};
use quota_units::{Name, NoMemory};
use std::alloc::{AllocError, Global};
use std::sync::Wait;
use std::test::Fail;
use std::thread;
use std::thread::{Threads, join};

#[derive(Drop)]
struct Tally {
    number: u64,
    entries: Vec<Entry>,
}

impl Booked for Tally {
    ghost origin = { λ _. nowhere };

    ghost history = { λ tally. tally.entries.items };
}

impl Tally {
    fn new(alloc: Global) -> Tally
        ensures { result.entries.items ≡ [] }
    {
        Tally {
            number: 0,
            entries: Vec::new(alloc),
        }
    }

    fn set(&mut self, number: u64)
        ensures { self.new.entries.items ≡ self.old.entries.items }
    {
        self.number = number;
    }

    /// Adds an entry of this caller, which asks for the root of this name.
    fn add(&mut self, alloc: Global, caller: u32, name: &[u8]) -> Result<(), NoMemory>
        ensures ok { OnOk result ((e : Entry) × (e.caller ≡ caller)
            × (self.new.entries.items ≡ self.old.entries.items ++ e ∷ [])) }
        ensures err { OnErr result (self.new.entries.items ≡ self.old.entries.items) }
    {
        let root = Name::of(alloc, name).map_err(|_| NoMemory)?;
        let entry = Entry {
            caller,
            call: Call::Quota { root },
            fault: false,
        };
        self.entries.push(entry).map_err(|_| NoMemory)
    }
}

/// Makes one call in a turn of its own.
fn call<R: Wait>(
    rt: &R,
    alloc: Global,
    lock: &Lock<Tally>,
    pass: &mut Pass,
    name: &[u8],
) -> Result<(), NoMemory>
    requires { IsOf lock.now pass.old }
    ensures lock { IsOf lock.now pass.new }
    ensures same { ((view pass.new).number ≡ (view pass.old).number) × ((view pass.new).held
        ≡ (view pass.old).held) × ((view pass.new).made ≡ (view pass.old).made) }
    ensures ok { OnOk result ((view pass.new).own ≡ (view pass.old).own + 1) }
    ensures err { OnErr result ((view pass.new).own ≡ (view pass.old).own) }
{
    let mut turn = lock.enter(rt, pass);
    let caller = turn.caller();
    let added = turn.state().add(alloc, caller, name);
    match added {
        Ok(()) => {
            turn.commit();
            Ok(())
        }
        Err(fault) => {
            turn.leave();
            Err(fault)
        }
    }
}

#[test]
fn a_changed_number_is_found_in_the_next_turn(rt: HostRuntime) -> Result<(), Fail> {
    let alloc = rt.alloc();
    let Ok((lock, mut pass)) = Lock::new(alloc, Tally::new(alloc), 1) else {
        return Err("no memory".into());
    };
    let mut turn = lock.enter(&rt, &mut pass);
    assert_eq!(rt; turn.caller(), 0);
    assert_eq!(rt; turn.state().number, 0);
    turn.state().set(7);
    turn.leave();
    let mut turn = lock.enter(&rt, &mut pass);
    assert_eq!(rt; turn.state().number, 7);
    turn.leave();
    Ok(())
}

#[test]
fn all_passes_must_be_joined_before_the_lock_is_closed(rt: HostRuntime) -> Result<(), Fail> {
    let alloc = rt.alloc();
    let Ok((lock, mut first)) = Lock::new(alloc, Tally::new(alloc), 2) else {
        return Err("no memory".into());
    };
    let second = lock.enlist(&mut first)?;
    let full = lock.enlist(&mut first);
    assert_eq!(rt; full.err(), Some(Full { limit: 2 }));
    let closed = lock.close(first);
    let Err(
        CloseFault {
            lock,
            pass: mut first,
            held,
            made,
        },
    ) = closed
    else {
        return Err("closed with a pass left".into());
    };
    assert_eq!(rt; (held, made), (1, 2));
    assert_eq!(rt; second.held(), 1);
    lock.join(&mut first, second);
    assert_eq!(rt; (first.held(), first.made()), (2, 2));
    let Ok(tally) = lock.close(first) else {
        return Err("refused with all passes joined".into());
    };
    assert_eq!(rt; tally.entries.len(), 0);
    Ok(())
}

/// How many calls each thread makes.
const CALLS: u32 = 200;

/// Makes calls that are named by their numbers.
fn make_calls<R: Wait>(
    rt: &R,
    alloc: Global,
    lock: &Lock<Tally>,
    pass: &mut Pass,
) -> Result<(), NoMemory>
    requires { IsOf lock.now pass.old }
    ensures lock { IsOf lock.now pass.new }
    ensures same { ((view pass.new).number ≡ (view pass.old).number) × ((view pass.new).held
        ≡ (view pass.old).held) × ((view pass.new).made ≡ (view pass.old).made) }
{
    for number in 0..CALLS {
        let name = format!(in alloc; "{number}")?;
        call(rt, alloc, lock, pass, name.as_bytes())?;
    }
    Ok(())
}

/// A pass, and whether all its calls were made.
fn work<R: Wait>(rt: &R, alloc: Global, lock: &Lock<Tally>, mut pass: Pass) -> (Pass, bool)
    requires { IsOf lock.now pass }
    ensures lock { IsOf lock.now result.0 }
    ensures same { ((view result.0).number ≡ (view pass).number)
        × ((view result.0).held ≡ (view pass).held) × ((view result.0).made ≡ (view pass).made) }
{
    let made = make_calls(rt, alloc, lock, &mut pass);
    (pass, made.is_ok())
}

/// Two passes, each in a thread of its own. The second is then joined into the first.
fn work_in_two<R: Threads + Wait + Sync>(
    rt: &R,
    alloc: Global,
    lock: &Lock<Tally>,
    first: Pass,
    second: Pass,
) -> (Pass, bool)
    requires lock { IsOf lock.now first × IsOf lock.now second }
    requires second { (view second).number ≢ 0 }
    ensures lock { IsOf lock.now result.0 }
    ensures same { ((view result.0).number ≡ (view first).number)
        × ((view result.0).made ≡ (view first).made) }
    ensures held { (view result.0).held ≡ (view first).held + (view second).held }
{
    let ((mut first, made), (second, also)) = join(
        rt,
        || work(rt, alloc, lock, first),
        || work(rt, alloc, lock, second),
    );
    lock.join(&mut first, second);
    (first, made && also)
}

/// Whether all calls of each of these callers are there, in their order, and no others.
fn are_all_calls(alloc: Global, tally: &Tally, callers: usize) -> Result<bool, Fail> {
    let mut next = [0u32; 8];
    for entry in tally.entries.iter() {
        let Some(number) = next.get_mut(entry.caller as usize) else {
            return Ok(false);
        };
        let name = format!(in alloc; "{number}")?;
        let is_next = match &entry.call {
            Call::Quota { root } => root.as_slice() == name.as_bytes(),
            _ => false,
        };
        if entry.fault || !is_next || *number >= CALLS {
            return Ok(false);
        }
        *number += 1;
    }
    Ok(
        next.iter().take(callers).all(|calls| *calls == CALLS)
            && next.iter().skip(callers).all(|calls| *calls == 0),
    )
}

#[test]
fn two_threads_share_one_history(rt: HostRuntime) -> Result<(), Fail> {
    let alloc = rt.alloc();
    let Ok((lock, mut first)) = Lock::new(alloc, Tally::new(alloc), 2) else {
        return Err("no memory".into());
    };
    let second = lock.enlist(&mut first)?;
    let (first, made) = work_in_two(&rt, alloc, &lock, first, second);
    assert!(rt; made, "calls were not made");
    let Ok(tally) = lock.close(first) else {
        return Err("refused with all passes joined".into());
    };
    assert!(rt; are_all_calls(alloc, &tally, 2)?, "other calls");
    Ok(())
}

/// Four passes, each in a thread of its own. The others are then joined into the first.
fn work_in_four<R: Threads + Wait + Sync>(
    rt: &R,
    alloc: Global,
    lock: &Lock<Tally>,
    first: Pass,
    second: Pass,
    third: Pass,
    fourth: Pass,
) -> (Pass, bool)
    requires prefix { IsOf lock.now first × IsOf lock.now second × ((view second).number ≢ 0) }
    requires third { IsOf lock.now third × ((view third).number ≢ 0) }
    requires fourth { IsOf lock.now fourth × ((view fourth).number ≢ 0) }
    ensures lock { IsOf lock.now result.0 }
    ensures same { ((view result.0).number ≡ (view first).number)
        × ((view result.0).made ≡ (view first).made) }
{
    let ((mut first, made), (third, also)) = join(
        rt,
        || -> (Pass, bool)
            requires lock { IsSync R.row × IsOf lock.now first × IsOf lock.now second }
            requires second { (view second).number ≢ 0 }
            ensures lock { IsOf lock.entry.now result.0 }
            ensures same { ((view result.0).number ≡ (view first).number)
                × ((view result.0).made ≡ (view first).made) }
        { work_in_two(rt, alloc, lock, first, second) },
        || -> (Pass, bool)
            requires lock { IsSync R.row × IsOf lock.now third × IsOf lock.now fourth }
            requires second { (view fourth).number ≢ 0 }
            ensures lock { IsOf lock.entry.now result.0 }
            ensures same { ((view result.0).number ≡ (view third).number)
                × ((view result.0).made ≡ (view third).made) }
        { work_in_two(rt, alloc, lock, third, fourth) },
    );
    lock.join(&mut first, third);
    (first, made && also)
}

#[test]
fn eight_threads_share_one_history(rt: HostRuntime) -> Result<(), Fail> {
    let alloc = rt.alloc();
    let Ok((lock, mut first)) = Lock::new(alloc, Tally::new(alloc), 8) else {
        return Err("no memory".into());
    };
    let second = lock.enlist(&mut first)?;
    let third = lock.enlist(&mut first)?;
    let fourth = lock.enlist(&mut first)?;
    let fifth = lock.enlist(&mut first)?;
    let sixth = lock.enlist(&mut first)?;
    let seventh = lock.enlist(&mut first)?;
    let eighth = lock.enlist(&mut first)?;
    let lock_ref = &lock;
    let ((mut first, made), (second, also)) = join(
        &rt,
        || work_in_four(&rt, alloc, lock_ref, first, second, third, fourth),
        || work_in_four(&rt, alloc, lock_ref, fifth, sixth, seventh, eighth),
    );
    assert!(rt; made && also, "calls were not made");
    lock.join(&mut first, second);
    let Ok(tally) = lock.close(first) else {
        return Err("refused with all passes joined".into());
    };
    assert!(rt; are_all_calls(alloc, &tally, 8)?, "other calls");
    Ok(())
}

/// Makes one call, and returns whether it was made.
fn call_once<R: Wait>(rt: &R, alloc: Global, lock: &Lock<Tally>, mut pass: Pass) -> (Pass, bool)
    requires { IsOf lock.now pass }
    ensures lock { IsOf lock.now result.0 }
    ensures same { ((view result.0).number ≡ (view pass).number)
        × ((view result.0).held ≡ (view pass).held) × ((view result.0).made ≡ (view pass).made) }
    ensures own { (view result.0).own ≡ (view pass).own + (if result.1 then 1 else 0) }
{
    let made = call(rt, alloc, lock, &mut pass, b"");
    (pass, made.is_ok())
}

/// Two threads make one call each. After the history is closed, each of its entries is one of these
/// calls.
fn call_in_two<R: Threads + Wait + Sync>(
    rt: &R,
    alloc: Global,
    tally: Tally,
) -> Option<(Tally, bool, bool)>
    requires { tally.entries.items ≡ [] }
    ensures calls { IfSome result
        (λ end. length end.0.entries.items ≡ (if end.1 then 1 else 0) + (if end.2 then 1 else 0)) }
    ensures callers { IfSome result (λ end. CallersBelow 2 end.0.entries.items) }
{
    let Ok((lock, mut first)) = Lock::new(alloc, tally, 2) else {
        return None;
    };
    let Ok(second) = lock.enlist(&mut first) else {
        return None;
    };
    let ((mut first, made), (second, also)) = join(
        rt,
        || call_once(rt, alloc, &lock, first),
        || call_once(rt, alloc, &lock, second),
    );
    lock.join(&mut first, second);
    let Ok(tally) = lock.close(first) else {
        return None;
    };
    Some((tally, made, also))
}

#[test]
fn a_closed_history_has_just_the_calls_that_were_made(rt: HostRuntime) -> Result<(), Fail> {
    let alloc = rt.alloc();
    let Some((tally, made, also)) = call_in_two(&rt, alloc, Tally::new(alloc)) else {
        return Err("no memory".into());
    };
    assert!(rt; made && also, "calls were not made");
    assert_eq!(rt; tally.entries.len(), 2);
    Ok(())
}
