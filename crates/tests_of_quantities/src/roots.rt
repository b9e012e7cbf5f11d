use quota_roots::{
    LimitsList, NameList, RootSpec, Roots, RootsError, Setup, canonical_name, is_mailbox_name,
};
use quota_units::{Limits, Name, NameError};
use std::alloc::Global;
use std::test::Fail;

fn spec(alloc: Global, name: &[u8], prefix: Option<&[u8]>) -> Result<RootSpec, NameError> {
    let name = Name::of(alloc, name)?;
    let prefix = match prefix {
        None => None,
        Some(bytes) => Some(Name::of(alloc, bytes)?),
    };
    Ok(RootSpec { name, prefix })
}

#[test]
fn an_over_long_name_is_refused(rt: HostRuntime) -> Result<(), Fail> {
    let bytes = [b'i'; 256];
    let too_long = NameError::TooLong { length: 256 };
    assert_eq!(rt; canonical_name(rt.alloc(), &bytes).err(), Some(too_long));
    assert_eq!(rt; Name::of(rt.alloc(), &bytes).err(), Some(too_long));
    let longest = canonical_name(rt.alloc(), &bytes[..255])?;
    assert_eq!(rt; longest.as_slice(), &bytes[..255]);
    Ok(())
}

#[test]
fn inbox_in_any_case_is_one_name(rt: HostRuntime) -> Result<(), Fail> {
    let table: [(&[u8], &[u8]); 7] = [
        (b"INBOX", b"INBOX"),
        (b"inbox", b"INBOX"),
        (b"InBox", b"INBOX"),
        (b"inbox.Work", b"inbox.Work"),
        (b"inbo", b"inbo"),
        (b"trash", b"trash"),
        (b"", b""),
    ];
    for (bytes, expected) in table {
        let name = canonical_name(rt.alloc(), bytes)?;
        assert_eq!(rt; name.as_slice(), expected);
    }
    Ok(())
}

#[test]
fn mailbox_names_are_told_from_other_bytes(rt: HostRuntime) {
    let table: [(&[u8], bool); 20] = [
        (b"INBOX", true),
        (b"Trash", true),
        (b"Trash.old", true),
        (b"a.b.c", true),
        (b" ", true),
        (b"~", true),
        (b"", false),
        (b".", false),
        (b".a", false),
        (b"a.", false),
        (b"a..b", false),
        (b"a/b", false),
        (b"a*", false),
        (b"a%", false),
        (b"a\"b", false),
        (b"a\\b", false),
        (b"a\x1fb", false),
        (b"a\x7fb", false),
        (b"a\xe4b", false),
        (b"a\x00b", false),
    ];
    for (bytes, expected) in table {
        assert_eq!(rt; is_mailbox_name(bytes), expected);
    }
    let long = [b'a'; 201];
    assert!(rt; is_mailbox_name(&long[..200]));
    assert!(rt; !is_mailbox_name(&long));
}

#[test]
fn a_root_governs_its_mailboxes(rt: HostRuntime) -> Result<(), Fail> {
    let all = spec(rt.alloc(), b"", None)?;
    let lists = spec(rt.alloc(), b"lists", Some(b"Lists"))?;
    let old = spec(rt.alloc(), b"old", Some(b"Trash.old"))?;
    let table: [(&[u8], bool, bool, bool); 11] = [
        (b"INBOX", true, false, false),
        (b"Trash", false, false, false),
        (b"trash", true, false, false),
        (b"Trash.old", true, false, true),
        (b"Trash.old.a", true, false, true),
        (b"Lists", true, true, false),
        (b"Lists.a", true, true, false),
        (b"Lists.", true, true, false),
        (b"Listsa", true, false, false),
        (b"List", true, false, false),
        (b"lists", true, false, false),
    ];
    for (mailbox, by_all, by_lists, by_old) in table {
        assert_eq!(rt; all.governs(mailbox), by_all);
        assert_eq!(rt; lists.governs(mailbox), by_lists);
        assert_eq!(rt; old.governs(mailbox), by_old);
    }
    Ok(())
}

#[test]
fn roots_are_found_by_name_and_by_mailbox(rt: HostRuntime) -> Result<(), Fail> {
    let first = spec(rt.alloc(), b"", None)?;
    let second = spec(rt.alloc(), b"lists", Some(b"Lists"))?;
    let third = spec(rt.alloc(), b"old lists", Some(b"Lists.old"))?;
    let roots = Roots::new(vec![in rt.alloc(); first, second, third]?)?;
    assert_eq!(rt; roots.count(), 3);
    assert_eq!(rt; roots.name(0), b"".as_slice());
    assert_eq!(rt; roots.name(2), b"old lists".as_slice());
    assert_eq!(rt; roots.find(b""), Some(0));
    assert_eq!(rt; roots.find(b"lists"), Some(1));
    assert_eq!(rt; roots.find(b"Lists"), None);
    assert!(rt; roots.governs(1, b"Lists.a"));
    let table: [(&[u8], [bool; 4]); 4] = [
        (b"Lists.old.a", [true, true, true, false]),
        (b"Lists.a", [true, true, false, false]),
        (b"INBOX", [true, false, false, false]),
        (b"Trash", [false, false, false, false]),
    ];
    for (mailbox, expected) in table {
        let set = roots.roots_of(mailbox);
        assert_eq!(rt; [set.has(0), set.has(1), set.has(2), set.has(3)], expected);
        assert!(rt; !set.has(8));
    }
    Ok(())
}

#[test]
fn a_move_gains_the_roots_of_the_target_alone(rt: HostRuntime) -> Result<(), Fail> {
    let first = spec(rt.alloc(), b"", None)?;
    let second = spec(rt.alloc(), b"lists", Some(b"Lists"))?;
    let third = spec(rt.alloc(), b"old lists", Some(b"Lists.old"))?;
    let roots = Roots::new(vec![in rt.alloc(); first, second, third]?)?;
    let table: [(&[u8], &[u8], [bool; 3]); 5] = [
        (b"Trash", b"Lists.old.a", [true, true, true]),
        (b"INBOX", b"Lists.a", [false, true, false]),
        (b"Lists.a", b"Lists.old", [false, false, true]),
        (b"Lists.old", b"INBOX", [false, false, false]),
        (b"INBOX", b"Trash", [false, false, false]),
    ];
    for (from, to, expected) in table {
        let set = roots.gained(from, to);
        assert_eq!(rt; [set.has(0), set.has(1), set.has(2)], expected);
    }
    Ok(())
}

#[test]
fn more_than_four_roots_are_refused(rt: HostRuntime) -> Result<(), Fail> {
    let a = spec(rt.alloc(), b"", None)?;
    let b = spec(rt.alloc(), b"b", Some(b"B"))?;
    let c = spec(rt.alloc(), b"c", Some(b"C"))?;
    let d = spec(rt.alloc(), b"d", Some(b"D"))?;
    let e = spec(rt.alloc(), b"e", Some(b"E"))?;
    let refusal = Roots::new(vec![in rt.alloc(); a, b, c, d, e]?).err();
    assert_eq!(rt; refusal, Some(RootsError::TooMany { count: 5 }));
    Ok(())
}

#[test]
fn the_first_wrong_root_is_named(rt: HostRuntime) -> Result<(), Fail> {
    let long = [b'n'; 65];
    let bad = Some(RootsError::BadName { at: 1 });
    let table: [(&[u8], Option<&[u8]>, Option<RootsError>); 11] = [
        (b"", Some(b"Lists"), Some(RootsError::Double { at: 1 })),
        (b"", Some(b"Trash"), bad),
        (b"a", None, bad),
        (b"a", Some(b"Trash"), bad),
        (b"a", Some(b"Trash.old"), None),
        (b"a", Some(b"inbox"), None),
        (b"a", Some(b"a..b"), bad),
        (b"a\nb", Some(b"Lists"), bad),
        (b"a~ b", Some(b"Lists"), None),
        (&long, Some(b"Lists"), bad),
        (&long[..64], Some(b"Lists"), None),
    ];
    for (name, prefix, expected) in table {
        let first = spec(rt.alloc(), b"", None)?;
        let second = spec(rt.alloc(), name, prefix)?;
        assert_eq!(rt;
            Roots::new(vec![in rt.alloc(); first, second]?).err(),
            expected
        );
    }
    let only = spec(rt.alloc(), b"", Some(b"Lists"))?;
    let refusal = Roots::new(vec![in rt.alloc(); only]?).err();
    assert_eq!(rt; refusal, Some(RootsError::BadName { at: 0 }));
    Ok(())
}

/// A setup with one root without a prefix, these items of limits, these mailboxes and this journal.
fn setup(
    alloc: Global,
    limits: &[Limits],
    mailboxes: &[&[u8]],
    journal: u32,
) -> Result<Setup, Fail> {
    let mut names = Vec::new(alloc);
    for name in mailboxes {
        names.push(Name::of(alloc, name)?)?;
    }
    Ok(Setup {
        roots: Roots::new(vec![in alloc; spec(alloc, b"", None)?]?)?,
        limits: LimitsList::new(limits.to_vec(alloc)?),
        mailboxes: NameList::new(names),
        journal,
    })
}

#[test]
fn sound_setups_are_told_from_others(rt: HostRuntime) -> Result<(), Fail> {
    let alloc = rt.alloc();
    let limits = [Limits::new(Some(1024), None).ok_or("limits in range")?];
    let table: [(&[&[u8]], u32, bool); 11] = [
        (&[b"INBOX"], 1, true),
        (&[b"INBOX"], 524288, true),
        (&[b"INBOX", b"Lists", b"Trash"], 65536, true),
        (&[b"INBOX"], 0, false),
        (&[b"INBOX"], 524289, false),
        (&[], 1, false),
        (&[b"inbox"], 1, false),
        (&[b"Lists", b"INBOX"], 1, false),
        (&[b"INBOX", b"inbox"], 1, false),
        (&[b"INBOX", b"a..b"], 1, false),
        (&[b"INBOX", b"Lists", b"Trash", b"Lists"], 1, false),
    ];
    for (mailboxes, journal, expected) in table {
        assert_eq!(rt;
            setup(alloc, &limits, mailboxes, journal)?.is_sound(),
            expected
        );
    }
    assert!(rt; !setup(alloc, &[], &[b"INBOX"], 1)?.is_sound());
    Ok(())
}

#[test]
fn an_account_has_at_most_256_mailboxes(rt: HostRuntime) -> Result<(), Fail> {
    let alloc = rt.alloc();
    let limits = Limits::new(None, None).ok_or("limits in range")?;
    for (count, expected) in [(255u32, true), (256, false)] {
        let mut names = vec![in alloc; Name::of(alloc, b"INBOX")?]?;
        for number in 0..count {
            let name = format!(in alloc; "m{number}")?;
            names.push(Name::of(alloc, name.as_bytes())?)?;
        }
        let setup = Setup {
            roots: Roots::new(vec![in alloc; spec(alloc, b"", None)?]?)?,
            limits: LimitsList::new(vec![in alloc; limits]?),
            mailboxes: NameList::new(names),
            journal: 1,
        };
        assert_eq!(rt; setup.is_sound(), expected);
    }
    Ok(())
}

#[test]
fn a_copied_setup_is_equal(rt: HostRuntime) -> Result<(), Fail> {
    let alloc = rt.alloc();
    let limits = Limits::new(Some(1024), Some(10)).ok_or("limits in range")?;
    let copy = setup(alloc, &[limits], &[b"INBOX", b"Trash"], 7)?.copy(alloc)?;
    assert_eq!(rt; copy.roots.count(), 1);
    assert_eq!(rt; copy.roots.name(0), b"".as_slice());
    assert_eq!(rt; copy.limits.as_slice(), [limits].as_slice());
    let names = copy.mailboxes.as_slice();
    assert_eq!(rt; names.len(), 2);
    assert_eq!(rt; names[0].as_slice(), b"INBOX".as_slice());
    assert_eq!(rt; names[1].as_slice(), b"Trash".as_slice());
    assert_eq!(rt; copy.journal, 7);
    Ok(())
}
