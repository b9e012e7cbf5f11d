ghost use Rattle.std.specs.Prelude.{◌≡◌, ◌<◌, ◌≤◌, ◌+◌, true, not, length, filter, IsErr, IsTrue, ◌↔◌};
ghost use Rattle.std.specs.List.{list_any};
ghost use Rattle.quota_units.specs.Causes.{HasCause};
ghost use Rattle.keeper.specs.Plan.{count_of, with_one_more, names, is_append, fails_next, plan_after, new_plan, faults_of_kind, other_faults};

use quota_units::Failed;
use std::marker::Model;

/// The calls of a keeper.
#[derive(Clone, Copy, Debug, PartialEq, Eq)]
pub enum KeepCall {
    List,
    Put,
    Rename,
    Remove,
    ReadLedger,
    AppendLedger,
    InstallLedger,
}

impl KeepCall {
    fn is_append(self) -> bool
        ensures { result ≡ is_append self }
    {
        matches!(self, KeepCall::AppendLedger)
    }
}

/// A call that will fail: the `nth` of its kind, counted from 1.
#[derive(Clone, Copy, Debug, PartialEq, Eq)]
pub struct KeepFail {
    pub kind: KeepCall,
    pub nth: u64,
}

impl KeepFail {
    /// Whether this names the call.
    fn is(&self, kind: KeepCall, nth: u64) -> bool
        ensures { result ≡ names kind nth self.now }
    {
        self.kind == kind && self.nth == nth
    }
}

/// How many calls of each kind were made. Each count stops at 2^64 - 1.
#[derive(Clone, Copy, Debug, PartialEq, Eq)]
pub(crate) struct CallCounts {
    pub list: u64,
    pub put: u64,
    pub rename: u64,
    pub remove: u64,
    pub read_ledger: u64,
    pub append_ledger: u64,
    pub install_ledger: u64,
}

impl CallCounts {
    /// No call was made.
    fn none() -> CallCounts
        ensures { result ≡ record {
          list = 0;
          put = 0;
          rename = 0;
          remove = 0;
          read_ledger = 0;
          append_ledger = 0;
          install_ledger = 0;
        } }
    {
        CallCounts {
            list: 0,
            put: 0,
            rename: 0,
            remove: 0,
            read_ledger: 0,
            append_ledger: 0,
            install_ledger: 0,
        }
    }

    /// How many calls of this kind were made.
    fn of(&self, kind: KeepCall) -> u64
        ensures { result ≡ count_of kind self.now }
    {
        match kind {
            KeepCall::List => self.list,
            KeepCall::Put => self.put,
            KeepCall::Rename => self.rename,
            KeepCall::Remove => self.remove,
            KeepCall::ReadLedger => self.read_ledger,
            KeepCall::AppendLedger => self.append_ledger,
            KeepCall::InstallLedger => self.install_ledger,
        }
    }

    /// Counts one more call of this kind.
    fn count(&mut self, kind: KeepCall)
        ensures { self.new ≡ with_one_more kind self.old }
    {
        match kind {
            KeepCall::List => self.list = self.list.saturating_add(1),
            KeepCall::Put => self.put = self.put.saturating_add(1),
            KeepCall::Rename => self.rename = self.rename.saturating_add(1),
            KeepCall::Remove => self.remove = self.remove.saturating_add(1),
            KeepCall::ReadLedger => self.read_ledger = self.read_ledger.saturating_add(1),
            KeepCall::AppendLedger => self.append_ledger = self.append_ledger.saturating_add(1),
            KeepCall::InstallLedger => self.install_ledger = self.install_ledger.saturating_add(1),
        }
    }
}

/// Which calls will fail, how many calls of each kind were made, and how many failed.
#[derive(Debug, Drop)]
pub(crate) struct Plan {
    fails: Vec<KeepFail>,
    made: CallCounts,
    faults: u64,
    append_faults: u64,
}

impl Model for Plan {
    ghost use Rattle.keeper.specs.Plan.{Planned};

    ghost Value = { Planned };

    ghost view = { λ p. record {
      fails = p.fails.items;
      made = p.made;
      faults = p.faults;
      append_faults = p.append_faults;
    } };
}

impl Plan {
    /// These calls will fail, and none was made yet.
    pub(crate) fn new(fails: Vec<KeepFail>) -> Plan
        ensures { result ≡ new_plan fails.items }
    {
        Plan {
            fails,
            made: CallCounts::none(),
            faults: 0,
            append_faults: 0,
        }
    }

    /// How many calls other than `append_ledger` failed.
    pub(crate) fn faults(&self) -> u64
        ensures { result ≡ self.now.faults }
    {
        self.faults
    }

    /// Sets both counts of faults to 0.
    pub(crate) fn forget_faults(&mut self)
        ensures { self.new ≡ record self.old { faults = 0; append_faults = 0 } }
    {
        self.faults = 0;
        self.append_faults = 0;
    }

    /// Counts a call of this kind. It fails if the plan names the call.
    pub(crate) fn call(&mut self, kind: KeepCall) -> Result<(), Failed>
        ensures fails { IsErr result ↔ IsTrue (fails_next kind self.old) }
        ensures after { self.new ≡ plan_after kind self.old }
        ensures made { self.new.made ≡ with_one_more kind self.old.made }
        ensures cause { HasCause (IsErr result) (faults_of_kind kind self.old)
            (faults_of_kind kind self.new) }
        ensures others { other_faults kind self.new ≡ other_faults kind self.old }
        ensures fewer { IsErr result → length self.new.fails < length self.old.fails }
        ensures bounded { faults_of_kind kind self.new + length self.new.fails
            ≤ faults_of_kind kind self.old + length self.old.fails }
    {
        self.made.count(kind);
        let nth = self.made.of(kind);
        if !is_named(&self.fails, kind, nth) {
            return Ok(());
        }
        drop_named(&mut self.fails, kind, nth);
        if kind.is_append() {
            self.append_faults = self.append_faults.saturating_add(1);
        } else {
            self.faults = self.faults.saturating_add(1);
        }
        Err(Failed)
    }
}

/// Whether one of these names the call.
fn is_named(fails: &[KeepFail], kind: KeepCall, nth: u64) -> bool
    ensures { result ≡ list_any (names kind nth) fails.now }
{
    fails.iter().any(|fail| fail.is(kind, nth))
}

/// Drops all of these that name the call. There must be at least one.
fn drop_named(fails: &mut Vec<KeepFail>, kind: KeepCall, nth: u64)
    requires { list_any (names kind nth) fails.old.items ≡ true }
    ensures left { fails.new.items ≡ filter (λ fail. not (names kind nth fail)) fails.old.items }
    ensures fewer { length fails.new.items < length fails.old.items }
{
    fails.retain(|fail| !fail.is(kind, nth));
}
