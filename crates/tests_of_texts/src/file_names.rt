use message_names::{NameFault, parse_name, print_name, size_of, with_flags};
use quota_units::Flags;
use std::test::Fail;

/// The flags of these letters, which a row of the table gives.
fn flags(letters: &[u8]) -> Flags {
    Flags::among(letters)
}

#[test]
fn file_names_have_sizes_and_flags(rt: HostRuntime) {
    for (name, octets, letters) in [
        (
            b"1.host,S=1234,W=1300:2,S".as_slice(),
            1234,
            b"S".as_slice(),
        ),
        (b"1.host,S=:2,", 77, b""),
        (b"1.host,S=12x", 77, b""),
    ] {
        let parts = parse_name(name);
        assert_eq!(rt; parts.base, b"1.host".as_slice(), "{name:?}");
        assert_eq!(rt; size_of(&parts, 77), octets, "{name:?}");
        assert_eq!(rt; parts.flags, flags(letters), "{name:?}");
    }
}

#[test]
fn names_are_parted_at_their_first_colon_and_comma(rt: HostRuntime) {
    for (name, unique, base, info) in [
        (
            b"".as_slice(),
            b"".as_slice(),
            b"".as_slice(),
            b"".as_slice(),
        ),
        (b"1.host", b"1.host", b"1.host", b""),
        (b"1.host:2,S", b"1.host", b"1.host", b"2,S"),
        (b"1.host,W=9", b"1.host,W=9", b"1.host", b""),
        (b"1,2,3:4:5", b"1,2,3", b"1", b"4:5"),
        (b"1:2,S", b"1", b"1", b"2,S"),
        (b",S=5", b",S=5", b"", b""),
        (b":2,S", b"", b"", b"2,S"),
        (b"1:", b"1", b"1", b""),
        (b",,,,", b",,,,", b"", b""),
        (b"\x00\xff,\x0a", b"\x00\xff,\x0a", b"\x00\xff", b""),
    ] {
        let parts = parse_name(name);
        assert_eq!(rt; parts.unique, unique, "{name:?}");
        assert_eq!(rt; parts.base, base, "{name:?}");
        assert_eq!(rt; parts.info, info, "{name:?}");
    }
}

#[test]
fn the_first_place_with_digits_names_the_size(rt: HostRuntime) {
    let most = 1099511627775;
    for (name, size) in [
        (b"a,S=5,S=6".as_slice(), Some(5)),
        (b"a,S=,S=6", Some(6)),
        (b"a,S=5x,S=6,S=7", Some(6)),
        (b"a,S=5S=6,S=7", Some(7)),
        (b"a,W=5,S=6", Some(6)),
        (b"a,S=0", Some(0)),
        (b"a,S=007", Some(7)),
        (b"a,S=7,", Some(7)),
        (b",S=7", Some(7)),
        (b",,S=7", Some(7)),
        (b"a,S=1099511627774", Some(1099511627774)),
        (b"a,S=1099511627775", Some(most)),
        (b"a,S=1099511627776", Some(most)),
        (b"a,S=18446744073709551616", Some(most)),
        (b"a,S=100000000000000000000000000000", Some(most)),
        (b"a,S=000000000000000000000000000012", Some(12)),
        (b"a,S=100000000000000000000000000000x", None),
        (b"a,S=5:2,S", Some(5)),
        (b"a:2,,S=5", None),
        (b"S=5", None),
        (b"a,s=5", None),
        (b"a,S5", None),
        (b"a,SS=5", None),
        (b"a,S=-5", None),
        (b"a,S=+5", None),
        (b"a,S= 5", None),
        (b"a,S=5 ", None),
        (b"a,S=5/", None),
        (b"a,S=5;", None),
        (b"a,S", None),
        (b"a,S=", None),
        (b"a", None),
        (b"", None),
    ] {
        let parts = parse_name(name);
        assert_eq!(rt; parts.size, size, "{name:?}");
    }
}

#[test]
fn a_length_stands_in_for_a_size_and_both_are_cut(rt: HostRuntime) {
    let most = 1099511627775;
    for (name, length, octets) in [
        (b"a,S=5".as_slice(), 77, 5),
        (b"a,S=0", 77, 0),
        (b"a", 0, 0),
        (b"a", most, most),
        (b"a", most + 1, most),
        (b"a", u64::MAX, most),
        (b"a,S=1099511627776", 77, most),
    ] {
        let parts = parse_name(name);
        assert_eq!(rt; size_of(&parts, length), octets, "{name:?} {length}");
    }
}

#[test]
fn flags_come_after_a_leading_two(rt: HostRuntime) {
    for (name, letters) in [
        (b"a:2,DFPRST".as_slice(), b"DFPRST".as_slice()),
        (b"a:2,TS", b"ST"),
        (b"a:2,SSS", b"S"),
        (b"a:2,", b""),
        (b"a:2", b""),
        (b"a:2S", b""),
        (b"a:", b""),
        (b"a", b""),
        (b"a,S=5", b""),
        (b"a:1,S", b""),
        (b"a:S2,T", b""),
        (b"a:22,T", b""),
        (b"a:2,xSy,T", b"ST"),
        (b"a:2,s:T", b"T"),
        (b"a:2,abc", b""),
    ] {
        let parts = parse_name(name);
        assert_eq!(rt; parts.flags, flags(letters), "{name:?}");
    }
}

#[test]
fn printed_names_read_back(rt: HostRuntime) -> Result<(), Fail> {
    for (base, size, letters, wanted) in [
        (
            b"1.host".as_slice(),
            5,
            b"".as_slice(),
            b"1.host,S=5".as_slice(),
        ),
        (b"1.host", 0, b"S", b"1.host,S=0:2,S"),
        (b"a b=", 7, b"TSRPFD", b"a b=,S=7:2,DFPRST"),
        (b"a.", 1099511627776, b"T", b"a.,S=1099511627776:2,T"),
        (
            b"\xff",
            18446744073709551615,
            b"F",
            b"\xff,S=18446744073709551615:2,F",
        ),
    ] {
        let name = print_name(rt.alloc(), base, size, flags(letters))?;
        assert_eq!(rt; name.as_slice(), wanted);
        let parts = parse_name(name.as_slice());
        assert_eq!(rt; parts.base, base);
        assert_eq!(rt; size_of(&parts, 77), size.min(1099511627775));
        assert_eq!(rt; parts.flags, flags(letters));
    }
    Ok(())
}

#[test]
fn bytes_that_part_names_and_paths_stand_in_no_base(rt: HostRuntime) {
    for (base, is_base) in [
        (b"".as_slice(), false),
        (b".", false),
        (b".a", false),
        (b"a,b", false),
        (b"a:b", false),
        (b"a/b", false),
        (b"a\x00b", false),
        (b"a\nb", false),
        (b",", false),
        (b"a:", false),
        (b"a.b", true),
        (b"a\rb", true),
        (b"a;b", true),
        (b"a=b", true),
        (b"\xff", true),
    ] {
        let printed = print_name(rt.alloc(), base, 5, flags(b""));
        let refused = matches!(&printed, Err(NameFault::BadBase));
        assert_eq!(rt; refused, !is_base, "{base:?}");
        assert_eq!(rt; printed.is_ok(), is_base, "{base:?}");
    }
}

#[test]
fn new_flags_stand_before_the_other_bytes(rt: HostRuntime) -> Result<(), Fail> {
    for (name, letters, wanted) in [
        (
            b"1.host,S=1234,W=1300:2,S".as_slice(),
            b"ST".as_slice(),
            b"1.host,S=1234,W=1300:2,ST".as_slice(),
        ),
        (b"1.host", b"", b"1.host:2,"),
        (b"1.host:2,DFPRST", b"", b"1.host:2,"),
        (b"1.host", b"TSRPFD", b"1.host:2,DFPRST"),
        (b"1.host:2,bSa,Dc", b"F", b"1.host:2,Fba,c"),
        (b"1.host:1,ab", b"S", b"1.host:2,S"),
        (b"1.host:2", b"S", b"1.host:2,S"),
        (b"1.host:2,x:y", b"S", b"1.host:2,Sx:y"),
        (b"", b"S", b":2,S"),
    ] {
        let after = with_flags(rt.alloc(), name, flags(letters))?;
        assert_eq!(rt; after.as_slice(), wanted);
    }
    Ok(())
}
