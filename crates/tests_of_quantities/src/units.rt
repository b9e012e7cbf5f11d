// Worked values of units, names and numbers.

use quota_units::{
    Flags, LimitError, Limits, Name, NameError, Resource, is_flag_letter, limit_of_count,
    limit_of_units, number_in, numeral_in, resource_named, units_up,
};
use std::test::Fail;

#[test]
fn storage_is_counted_in_units_that_are_begun(rt: HostRuntime) {
    let table = [
        (0, 0),
        (1, 1),
        (1024, 1),
        (1025, 2),
        (1500, 2),
        (10000000, 9766),
        (u64::MAX, 18014398509481984),
    ];
    for (octets, units) in table {
        assert_eq!(rt; units_up(octets), units, "{octets} octets");
    }
}

#[test]
fn limits_are_set_within_their_range(rt: HostRuntime) {
    let most = 9007199254740991;
    assert!(rt; Limits::new(None, None).is_some());
    assert!(rt; Limits::new(Some(1), Some(most)).is_some());
    assert!(rt; Limits::new(Some(0), None).is_none());
    assert!(rt; Limits::new(None, Some(most + 1)).is_none());
}

#[test]
fn a_name_has_at_most_255_bytes(rt: HostRuntime) -> Result<(), Fail> {
    let bytes = [b'x'; 256];
    assert_eq!(rt; Name::of(rt.alloc(), b"")?.as_slice(), b"".as_slice());
    assert_eq!(rt;
        Name::of_short(rt.alloc(), b"Lists")?.as_slice(),
        b"Lists".as_slice()
    );
    assert_eq!(rt;
        Name::of(rt.alloc(), &bytes[..255])?.as_slice(),
        &bytes[..255]
    );
    let held = Name::from_vec(bytes[..255].to_vec(rt.alloc())?)?;
    assert_eq!(rt; held.as_slice(), &bytes[..255]);
    match Name::from_vec(bytes.to_vec(rt.alloc())?) {
        Ok(_) => assert!(rt; false, "a name of 256 bytes"),
        Err(fault) => assert_eq!(rt; fault, NameError::TooLong { length: 256 }),
    }
    match Name::of(rt.alloc(), &bytes) {
        Ok(_) => assert!(rt; false, "a name of 256 bytes"),
        Err(fault) => assert_eq!(rt; fault, NameError::TooLong { length: 256 }),
    }
    Ok(())
}

#[test]
fn numbers_are_1_to_19_digits(rt: HostRuntime) {
    let most = 9999999999999999999;
    let table: [(&[u8], Option<u64>, Option<u64>); 9] = [
        (b"", None, None),
        (b"0", Some(0), Some(0)),
        (b"010", Some(10), None),
        (b"512", Some(512), Some(512)),
        (b"+5", None, None),
        (b"-5", None, None),
        (b"12x", None, None),
        (b"9999999999999999999", Some(most), Some(most)),
        (b"10000000000000000000", None, None),
    ];
    for (bytes, number, numeral) in table {
        assert_eq!(rt; number_in(bytes), number, "{bytes:?}");
        assert_eq!(rt; numeral_in(bytes), numeral, "{bytes:?}");
    }
}

#[test]
fn flags_are_named_by_six_letters(rt: HostRuntime) {
    let table: [(&[u8], Option<&[u8]>); 8] = [
        (b"", Some(b"")),
        (b"S", Some(b"S")),
        (b"TS", Some(b"ST")),
        (b"SSTS", Some(b"ST")),
        (b"TSRPFD", Some(b"DFPRST")),
        (b"s", None),
        (b"Sx", None),
        (b"A", None),
    ];
    for (letters, set) in table {
        let flags = Flags::of_letters(letters);
        assert_eq!(rt; flags.is_some(), set.is_some(), "{letters:?}");
        for letter in 0..=255u8 {
            let has = flags.is_some_and(|flags| flags.has(letter));
            let stands = set.is_some_and(|set| set.contains(&letter));
            assert_eq!(rt; has, stands, "{letters:?} {letter}");
        }
    }
}

#[test]
fn other_bytes_among_letters_set_no_flag(rt: HostRuntime) {
    let flags = Flags::among(b"xS,Ty");
    for letter in 0..=255u8 {
        assert_eq!(rt; flags.has(letter), letter == b'S' || letter == b'T');
        assert_eq!(rt; is_flag_letter(letter), b"DFPRST".contains(&letter));
    }
}

#[test]
fn limits_are_refused_below_and_above_their_range(rt: HostRuntime) {
    let most = 8796093022207;
    let above = 8796093022208;
    let table = [
        (0, Err(LimitError::Zero), Err(LimitError::Zero)),
        (1, Ok(1024), Ok(1)),
        (most, Ok(9007199254739968), Ok(most)),
        (
            above,
            Err(LimitError::TooLarge(above)),
            Err(LimitError::TooLarge(above)),
        ),
    ];
    for (n, units, count) in table {
        assert_eq!(rt; limit_of_units(n), units);
        assert_eq!(rt; limit_of_count(n), count);
    }
}

#[test]
fn resources_are_named_in_any_case(rt: HostRuntime) {
    let table: [(&[u8], Option<Resource>); 9] = [
        (b"STORAGE", Some(Resource::Storage)),
        (b"storage", Some(Resource::Storage)),
        (b"StoragE", Some(Resource::Storage)),
        (b"MESSAGE", Some(Resource::Message)),
        (b"message", Some(Resource::Message)),
        (b"MESSAGES", None),
        (b"STORAG", None),
        (b"MAILBOX", None),
        (b"", None),
    ];
    for (name, expected) in table {
        assert_eq!(rt; resource_named(name), expected);
    }
}
