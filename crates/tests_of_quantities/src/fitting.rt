use admission::{Verdict, admit};
use quota_roots::{RootSpec, Roots};
use quota_units::{Limits, Name, Resource, Totals};
use std::test::Fail;

fn over(root: u32, resource: Resource) -> Verdict {
    Verdict::Over { root, resource }
}

#[test]
fn a_message_fits_up_to_exactly_the_limits(rt: HostRuntime) -> Result<(), Fail> {
    let only = RootSpec {
        name: Name::of(rt.alloc(), b"")?,
        prefix: None,
    };
    let roots = Roots::new(vec![in rt.alloc(); only]?)?.roots_of(b"INBOX");
    let limits = Limits::new(Some(1024), Some(2)).ok_or("limits")?;
    let table = [
        (0, 0, 1024, Verdict::Fits),
        (0, 0, 1025, over(0, Resource::Storage)),
        (1024, 1, 0, Verdict::Fits),
        (1024, 1, 1, over(0, Resource::Storage)),
        (0, 2, 0, over(0, Resource::Message)),
        (1024, 2, 1, over(0, Resource::Storage)),
    ];
    for (octets, count, message, expected) in table {
        let totals = Totals { octets, count };
        assert!(rt; octets < 2048 && count < 3 && message < 2048);
        assert_eq!(rt; admit(&[limits], &[totals], roots, message), expected);
    }
    Ok(())
}

#[test]
fn the_first_root_that_is_over_is_named(rt: HostRuntime) -> Result<(), Fail> {
    let all = RootSpec {
        name: Name::of(rt.alloc(), b"")?,
        prefix: None,
    };
    let lists = RootSpec {
        name: Name::of(rt.alloc(), b"lists")?,
        prefix: Some(Name::of(rt.alloc(), b"Lists")?),
    };
    let roots = Roots::new(vec![in rt.alloc(); all, lists]?)?;
    let free = Limits::new(None, None).ok_or("no limits")?;
    let few = Limits::new(None, Some(1)).ok_or("messages")?;
    let small = Limits::new(Some(10), None).ok_or("octets")?;
    let full = Totals {
        octets: 10,
        count: 1,
    };
    let table: [(Limits, &[u8], u64, Verdict); 6] = [
        (free, b"Lists", 1, over(1, Resource::Storage)),
        (free, b"Lists", 0, Verdict::Fits),
        (free, b"INBOX", 1, Verdict::Fits),
        (few, b"Lists", 1, over(0, Resource::Message)),
        (few, b"INBOX", 0, over(0, Resource::Message)),
        (few, b"Trash", 1, Verdict::Fits),
    ];
    for (limits, mailbox, message, expected) in table {
        assert!(rt; message < 2);
        let verdict = admit(
            &[limits, small],
            &[full, full],
            roots.roots_of(mailbox),
            message,
        );
        assert_eq!(rt; verdict, expected);
    }
    Ok(())
}
