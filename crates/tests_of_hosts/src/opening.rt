// Hosts of the accounts of a table, over keepers without files.
ghost use Rattle.std.specs.Prelude.{◌≡◌, ◌<◌, IfOk};
ghost use Rattle.front_core.specs.Desks.{IsDeskOf};
ghost use Rattle.account_host.specs.Seating.{IsSetOf};
ghost use Rattle.account_host.specs.Sets.{AreLater, views_of};
ghost use Rattle.tests_of_hosts.specs.Sets.{IsFirstSet, origins_of, shares_in};

use account_host::{Host, SeatSet};
use accounts_file::HostTable;
use host_opening::open_accounts;
use keeper::{MemKeeper, MemStores};
use quota_units::Name;
use std::alloc::Global;
use std::test::Fail;

/// Stores with a keeper without files for each account of the table.
fn empty_stores(alloc: Global, table: &HostTable) -> Result<MemStores, Fail> {
    let mut keepers = Vec::new(alloc);
    for account in 0..table.count() {
        let name = Name::of(alloc, table.entry(account).name.as_slice())?;
        let keeper = MemKeeper::new(alloc, Vec::new(alloc), Vec::new(alloc), Vec::new(alloc))?;
        keepers.push((name, Some(keeper)))?;
    }
    Ok(MemStores::new(keepers))
}

/// The host of the table's accounts, and its first set.
pub(crate) fn open_host(
    alloc: Global,
    table: &HostTable,
    callers: u32,
) -> Result<(Host<MemKeeper>, SeatSet), Fail>
    requires { 0 < callers }
    ensures set { IfOk result (λ made. IsSetOf made.0 made.1) }
    ensures first { IfOk result (λ made. IsFirstSet made.1) }
    ensures desk { IfOk result (λ made. IsDeskOf table.now (shares_in made.1)) }
{
    let mut stores = empty_stores(alloc, table)?;
    let states = match open_accounts(alloc, table, &mut stores) {
        Ok(states) => states,
        Err(cause) => return Err(cause.into()),
    };
    if states.len() > 32 {
        return Err("too many accounts".into());
    }
    match Host::new(alloc, states, callers) {
        Ok(made) => Ok(made),
        Err(_) => Err("no memory".into()),
    }
}

/// One more set of the host, which begins as the first set does.
pub(crate) fn enlist(
    alloc: Global,
    host: &Host<MemKeeper>,
    first: &mut SeatSet,
) -> Result<SeatSet, Fail>
    requires set { IsSetOf host.now first.old }
    requires first { IsFirstSet first.old }
    ensures set { IfOk result (λ set. IsSetOf host.now first.new × IsSetOf host.now set) }
    ensures first { IfOk result (λ set. IsFirstSet first.new) }
    ensures later { IfOk result (λ set. AreLater (views_of set)) }
    ensures begin { IfOk result (λ set. (origins_of first.new ≡ origins_of first.old)
        × (origins_of set ≡ origins_of first.old)) }
{
    match host.enlist(alloc, first) {
        Ok(set) => Ok(set),
        Err(fault) => Err(fault.into()),
    }
}
