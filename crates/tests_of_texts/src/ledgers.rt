use maildirsize::{
    LedgerFault, LedgerText, Text, definition_of, print_definition, print_folded, print_line,
    read_ledger,
};
use quota_units::{Limits, Totals};
use std::test::Fail;

/// What a ledger is read as, if it has these limits, this many sum lines and these sums.
fn ledger(
    octets_limit: Option<u64>,
    count_limit: Option<u64>,
    lines: u32,
    octets: i128,
    count: i128,
) -> Option<LedgerText> {
    Some(LedgerText {
        limits: Limits::new(octets_limit, count_limit)?,
        lines,
        octets,
        count,
    })
}

#[test]
fn readable_ledgers_are_summed_up(rt: HostRuntime) -> Result<(), Fail> {
    for (text, wanted) in [
        (
            b"10000000S,1000C\n1234 1\n-1234 -1\n".as_slice(),
            ledger(Some(10000000), Some(1000), 2, 0, 0),
        ),
        (b"0S\n", ledger(None, None, 0, 0, 0)),
        (b"\n", ledger(None, None, 0, 0, 0)),
        (b"\n7 1\n", ledger(None, None, 1, 7, 1)),
        (b"5S,0S\n", ledger(None, None, 0, 0, 0)),
        (b"0S,5S\n", ledger(Some(5), None, 0, 0, 0)),
        (b"5S,8C,7S\n", ledger(Some(7), Some(8), 0, 0, 0)),
        (b"5s,6c,7x\n", ledger(None, None, 0, 0, 0)),
        (b"3C,007S,9Z\n", ledger(Some(7), Some(3), 0, 0, 0)),
        (
            b"9007199254740991S,9007199254740992C\n",
            ledger(Some(9007199254740991), Some(9007199254740991), 0, 0, 0),
        ),
        (
            b"100000000000000000000000000000S,000000000000000000000000000002C\n",
            ledger(Some(9007199254740991), Some(2), 0, 0, 0),
        ),
        (b"1S\n  12   3  \n", ledger(Some(1), None, 1, 12, 3)),
        (b"1S\n-0 -0\n007 -08\n", ledger(Some(1), None, 2, 7, -8)),
        (
            b"1S\n999999999999999999 -999999999999999999\n000000000000000001 1\n",
            ledger(Some(1), None, 2, 1000000000000000000, -999999999999999998),
        ),
    ] {
        assert_eq!(rt; Some(read_ledger(text)?), wanted);
    }
    Ok(())
}

#[test]
fn refused_texts_have_their_first_fault(rt: HostRuntime) {
    for (text, fault) in [
        (b"".as_slice(), LedgerFault::Torn { at: 0 }),
        (b"1S", LedgerFault::Torn { at: 0 }),
        (b"x;", LedgerFault::Torn { at: 0 }),
        (b"1S;\n", LedgerFault::BadDefinition { at: 0 }),
        (b"1S;\nx\n1", LedgerFault::BadDefinition { at: 0 }),
        (b"1S,\n", LedgerFault::BadDefinition { at: 3 }),
        (b",\n", LedgerFault::BadDefinition { at: 0 }),
        (b"1S,,2C\n", LedgerFault::BadDefinition { at: 3 }),
        (b"1S,22C,3\n", LedgerFault::BadDefinition { at: 7 }),
        (b"12\n", LedgerFault::BadDefinition { at: 0 }),
        (b"S\n", LedgerFault::BadDefinition { at: 0 }),
        (b"1SS\n", LedgerFault::BadDefinition { at: 0 }),
        (b"-1S\n", LedgerFault::BadDefinition { at: 0 }),
        (b" 1S\n", LedgerFault::BadDefinition { at: 0 }),
        (b"1S \n", LedgerFault::BadDefinition { at: 0 }),
        (b"1S\r\n", LedgerFault::BadDefinition { at: 0 }),
        (b"1S\n1\nx\n", LedgerFault::BadLine { line: 2 }),
        (b"1S\nx\n1 1", LedgerFault::BadLine { line: 2 }),
        (b"1S\n\n", LedgerFault::BadLine { line: 2 }),
        (b"1S\n1 1\n  \n", LedgerFault::BadLine { line: 3 }),
        (b"1S\n1 1\n1\t1\n", LedgerFault::BadLine { line: 3 }),
        (b"1S\n1 1\r\n", LedgerFault::BadLine { line: 2 }),
        (b"1S\n1 1 1\n", LedgerFault::BadLine { line: 2 }),
        (b"1S\n+1 1\n", LedgerFault::BadLine { line: 2 }),
        (b"1S\n- 1 1\n", LedgerFault::BadLine { line: 2 }),
        (b"1S\n--1 1\n", LedgerFault::BadLine { line: 2 }),
        (b"1S\n1-1\n", LedgerFault::BadLine { line: 2 }),
        (
            b"1S\n1000000000000000000 1\n",
            LedgerFault::BadLine { line: 2 },
        ),
        (
            b"1S\n0000000000000000001 1\n",
            LedgerFault::BadLine { line: 2 },
        ),
        (
            b"10000000S,1000C\n1234 1\n-1234 -1",
            LedgerFault::Torn { at: 23 },
        ),
        (b"1S\n1 1\nx", LedgerFault::Torn { at: 7 }),
        (b"1S\n ", LedgerFault::Torn { at: 3 }),
    ] {
        assert_eq!(rt; read_ledger(text), Err(fault));
    }
}

#[test]
fn a_ledger_has_fewer_than_5120_bytes(rt: HostRuntime) -> Result<(), Fail> {
    for (definition, wanted) in [
        (b"0S\n".as_slice(), Ok(1279)),
        (b"00S\n", Err(LedgerFault::TooLong { length: 5120 })),
    ] {
        let mut text = definition.to_vec(rt.alloc())?;
        for _ in 0..1279 {
            text.extend_from_slice(b"0 0\n")?;
        }
        assert_eq!(rt;
            read_ledger(text.as_slice()).map(|ledger| ledger.lines),
            wanted
        );
    }
    Ok(())
}

#[test]
fn sums_go_beyond_64_bits(rt: HostRuntime) -> Result<(), Fail> {
    let mut text = b"1S\n".to_vec(rt.alloc())?;
    for _ in 0..20 {
        text.extend_from_slice(b"999999999999999999 -999999999999999999\n")?;
    }
    let wanted = ledger(
        Some(1),
        None,
        20,
        19999999999999999980,
        -19999999999999999980,
    );
    assert_eq!(rt; Some(read_ledger(text.as_slice())?), wanted);
    Ok(())
}

#[test]
fn a_definition_is_the_first_line_alone(rt: HostRuntime) {
    for (text, wanted) in [
        (b"".as_slice(), None),
        (b"1S;", None),
        (b"1S,", None),
        (b"1S\t\n", None),
        (b"\nx", Limits::new(None, None)),
        (b"1S", Limits::new(Some(1), None)),
        (b"5C\n;;", Limits::new(None, Some(5))),
        (
            b"10000000S,1000C\n1234 1\n-1234 -1",
            Limits::new(Some(10000000), Some(1000)),
        ),
    ] {
        assert_eq!(rt; definition_of(text), wanted);
    }
}

#[test]
fn limits_are_printed_octets_first(rt: HostRuntime) -> Result<(), Fail> {
    let mut text = Text::new();
    for (octets, count, wanted) in [
        (None, None, b"0S".as_slice()),
        (Some(1), None, b"1S"),
        (None, Some(9007199254740991), b"9007199254740991C"),
        (Some(10000000), Some(1000), b"10000000S,1000C"),
    ] {
        let limits = Limits::new(octets, count).ok_or("limits")?;
        print_definition(&limits, &mut text);
        assert_eq!(rt; text.as_slice(), wanted);
    }
    Ok(())
}

#[test]
fn lines_and_folded_ledgers_are_printed(rt: HostRuntime) -> Result<(), Fail> {
    let mut text = Text::default();
    print_line(1234, 1, &mut text);
    assert_eq!(rt; text.as_slice(), b"1234 1\n".as_slice());
    print_line(0, -1, &mut text);
    assert_eq!(rt; text.as_slice(), b"0 -1\n".as_slice());
    print_line(-999999999999999999, 999999999999999999, &mut text);
    assert_eq!(rt;
        text.as_slice(),
        b"-999999999999999999 999999999999999999\n".as_slice()
    );

    let none = Limits::new(None, None).ok_or("limits")?;
    let totals = Totals {
        octets: 1729000,
        count: 730,
    };
    print_folded(&none, &totals, &mut text);
    assert_eq!(rt; text.as_slice(), b"0S\n1729000 730\n".as_slice());

    let most = Limits::new(Some(9007199254740991), Some(9007199254740991)).ok_or("limits")?;
    let totals = Totals {
        octets: 9223372036854775807,
        count: 0,
    };
    print_folded(&most, &totals, &mut text);
    assert_eq!(rt;
        text.as_slice(),
        b"9007199254740991S,9007199254740991C\n9223372036854775807 0\n".as_slice()
    );
    Ok(())
}
