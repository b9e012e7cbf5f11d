// Rows of roots, sets of roots and totals, one after another.

use account_core::{RootRow, RootRows, RootSets, TotalsList, delivered_base};
use quota_roots::{RootSpec, Roots};
use quota_units::{Limits, Name, Totals};
use std::test::Fail;

fn row(root: u32, octets: u64) -> Result<RootRow, Fail> {
    Ok(RootRow {
        root,
        octets,
        count: 1,
        limits: Limits::new(Some(524288), None).ok_or("limits in range")?,
    })
}

#[test]
fn rows_stand_in_the_order_in_which_they_came(rt: HostRuntime) -> Result<(), Fail> {
    let rows = RootRows::of(vec![in rt.alloc(); row(3, 10)?, row(0, 20)?]?);
    assert_eq!(rt; rows.as_slice(), [row(3, 10)?, row(0, 20)?].as_slice());
    Ok(())
}

#[test]
fn each_mailbox_has_its_set_of_roots_in_its_place(rt: HostRuntime) -> Result<(), Fail> {
    let alloc = rt.alloc();
    let all = RootSpec {
        name: Name::of(alloc, b"")?,
        prefix: None,
    };
    let lists = RootSpec {
        name: Name::of(alloc, b"lists")?,
        prefix: Some(Name::of(alloc, b"Lists")?),
    };
    let roots = Roots::new(vec![in alloc; all, lists]?)?;
    let mut sets = RootSets::new(alloc);
    assert!(rt; sets.as_slice().is_empty());
    let table: [(&[u8], bool, bool); 3] = [
        (b"Trash", false, false),
        (b"Lists", true, true),
        (b"INBOX", true, false),
    ];
    for (mailbox, _, _) in table {
        sets.push(roots.roots_of(mailbox))?;
    }
    assert_eq!(rt; sets.as_slice().len(), 3);
    for (set, (_, first, second)) in sets.as_slice().iter().zip(table) {
        assert_eq!(rt; (set.has(0), set.has(1)), (first, second));
    }
    Ok(())
}

#[test]
fn totals_stand_in_the_order_in_which_they_came(rt: HostRuntime) -> Result<(), Fail> {
    let mut totals = TotalsList::new(rt.alloc());
    assert!(rt; totals.as_slice().is_empty());
    let first = Totals {
        octets: 1400,
        count: 2,
    };
    let second = Totals {
        octets: 0,
        count: 0,
    };
    totals.push(first)?;
    totals.push(second)?;
    assert_eq!(rt; totals.as_slice(), [first, second].as_slice());
    Ok(())
}

#[test]
fn a_base_has_the_epoch_and_the_number(rt: HostRuntime) -> Result<(), Fail> {
    let alloc = rt.alloc();
    let table: [(u64, u64, &[u8]); 3] = [
        (0, 1, b"0.1.quotad"),
        (1700000000, 20, b"1700000000.20.quotad"),
        (
            18446744073709551615,
            18446744073709551615,
            b"18446744073709551615.18446744073709551615.quotad",
        ),
    ];
    for (epoch, number, expected) in table {
        assert_eq!(rt; delivered_base(alloc, epoch, number)?.as_slice(), expected);
    }
    Ok(())
}
