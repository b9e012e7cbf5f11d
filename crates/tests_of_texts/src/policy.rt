// Texts of requests, as a mail server sends them.
use policy_front::{PolicyFault, PolicyRequest, read_request};
use quota_units::Flags;
use std::test::Fail;

#[test]
fn a_request_of_postfix_has_twenty_attributes(rt: HostRuntime) {
    let text = b"\
        request=smtpd_access_policy\n\
        protocol_state=RCPT\n\
        protocol_name=ESMTP\n\
        helo_name=mx.example.net\n\
        queue_id=8045F2AB23\n\
        sender=ann@example.net\n\
        recipient=bob@example.org\n\
        recipient_count=0\n\
        client_address=192.0.2.7\n\
        client_name=mx.example.net\n\
        reverse_client_name=mx.example.net\n\
        instance=123.456.7\n\
        sasl_method=\n\
        sasl_username=\n\
        sasl_sender=\n\
        size=12345\n\
        ccert_subject=\n\
        ccert_issuer=\n\
        ccert_fingerprint=\n\
        stress=\n\
        \n";
    let request = read_request(text);
    assert_eq!(rt;
        request,
        Ok(PolicyRequest::Check {
            recipient: Some(b"bob@example.org".as_slice()),
            size: 12345
        })
    );
}

#[test]
fn texts_that_are_no_requests(rt: HostRuntime) {
    for text in [
        b"hello\n\n".as_slice(),
        b"hello\n",
        b"",
        b"\n",
        b"\r\n",
        b"request=x\n",
        b"request=x\n\n\n",
        b"request=x\n\nmore",
        b"request=x\n\r\r\n",
        b"a=b\n\n",
        b"request=quotad_\n\n",
        b"request=quotad_purge\n\n",
        b"request=quotad_deliver\naccount=main\n\n",
        b"request=quotad_deliver\naccount=main\noctets=12345678901\n\n",
        b"request=quotad_deliver\naccount=main\noctets=67108865\n\n",
        b"request=quotad_deliver\naccount=main\noctets=\n\n",
        b"request=quotad_deliver\naccount=main\noctets=5\nflags=X\n\n",
        b"request=quotad_mark\naccount=main\nmailbox=INBOX\nname=1\n\n",
        b"request=quotad_move\naccount=main\nmailbox=INBOX\nname=1\n\n",
    ] {
        assert_eq!(rt;
            read_request(text),
            Err(PolicyFault::BadRequest),
            "{text:?}"
        );
    }
}

#[test]
fn the_first_of_repeated_attributes_holds(rt: HostRuntime) {
    let text =
        b"request=quotad_deliver\r\naccount=main\r\noctets=0000000005\r\noctets=7\r\nx=y=z\r\n\r\n";
    let request = PolicyRequest::Deliver {
        account: b"main",
        mailbox: b"INBOX",
        octets: 5,
        flags: Flags::among(b""),
    };
    assert_eq!(rt; read_request(text), Ok(request));
}

#[test]
fn each_request_is_read(rt: HostRuntime) {
    let account = b"main".as_slice();
    let name = b"0.1.quotad".as_slice();
    let flags = Flags::among(b"ST");
    for (text, request) in [
        (
            b"request=quotad_deliver\naccount=main\nmailbox=\noctets=67108864\nflags=TS\n\n".as_slice(),
            PolicyRequest::Deliver {
                account,
                mailbox: b"",
                octets: 67108864,
                flags,
            },
        ),
        (
            b"request=quotad_remove\naccount=main\nmailbox=inbox\nname=0.1.quotad\n\n",
            PolicyRequest::Remove {
                account,
                mailbox: b"inbox",
                name,
            },
        ),
        (
            b"request=quotad_mark\naccount=main\nmailbox=Old\nname=0.1.quotad\nflags=STT\n\n",
            PolicyRequest::Mark {
                account,
                mailbox: b"Old",
                name,
                flags,
            },
        ),
        (
            b"request=quotad_move\naccount=main\nmailbox=Old\nname=0.1.quotad\nto=a=b\n\n",
            PolicyRequest::Move {
                account,
                mailbox: b"Old",
                name,
                to: b"a=b",
            },
        ),
        (b"request=quotad_stop\n\n", PolicyRequest::Stop),
        (b"request=\n\n", PolicyRequest::Other),
        (b"request=junk\nsize=5\n\n", PolicyRequest::Other),
    ] {
        assert_eq!(rt; read_request(text), Ok(request), "{text:?}");
    }
}

#[test]
fn sizes_are_digits_and_cut(rt: HostRuntime) {
    for (value, size) in [
        (
            b"request=smtpd_access_policy\nsize=00012\n\n".as_slice(),
            12,
        ),
        (
            b"request=smtpd_access_policy\nsize=99999999999999999999999\n\n",
            1099511627775,
        ),
        (b"request=smtpd_access_policy\nsize=12x\n\n", 0),
        (b"request=smtpd_access_policy\nsize=-5\n\n", 0),
        (b"request=smtpd_access_policy\nsize=\nsize=7\n\n", 0),
        (b"request=smtpd_access_policy\n\n", 0),
    ] {
        assert_eq!(rt;
            read_request(value),
            Ok(PolicyRequest::Check {
                recipient: None,
                size
            }),
            "{value:?}"
        );
    }
}

#[test]
fn a_text_has_at_most_8192_bytes(rt: HostRuntime) -> Result<(), Fail> {
    // The bytes of a value: with 24 others they are 8191, 8192 and 8193.
    for (count, fits) in [(8167, true), (8168, true), (8169, false)] {
        let mut text = b"request=quotad_stop\nx=".to_vec(rt.alloc())?;
        for _ in 0..count {
            text.push(b'x')?;
        }
        text.extend_from_slice(b"\n\n")?;
        assert_eq!(rt;
            read_request(&text).is_ok(),
            fits,
            "a value of {count} bytes"
        );
    }
    Ok(())
}
