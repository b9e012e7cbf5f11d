// Heads, requests and answers, byte for byte.
use crate::{
    Head, Refusal, Reply, bearer_token, push_problem, push_response, read_head, take_request,
};
use std::alloc::{AllocError, Global};
use std::test::Fail;
use wire_io::{After, Feed, MemSink, MemSource, SessionEnd};

/// What a head without a token, an expectation or a wish to close asks for.
fn plain<'a>(method: &'a [u8], target: &'a [u8], size: u64) -> Head<'a> {
    Head {
        method,
        target,
        token: None,
        expects: false,
        closes: false,
        size,
    }
}

#[test]
fn a_head_is_judged_by_its_bytes(rt: HostRuntime) {
    let get = plain(b"GET", b"/", 0);
    let post = plain(b"POST", b"/jmap/api", 3);
    let cases = [
        (b"GET / HTTP/1.1\r\n\r\n".as_slice(), Ok(get)),
        (b"\r\nGET / HTTP/1.1\nHost: x\n\n", Ok(get)),
        (
            b"GET / HTTP/1.0\r\n\r\n",
            Ok(Head {
                closes: true,
                ..get
            }),
        ),
        (
            b"GET / HTTP/1.1\nConnection: keep-alive, Close\n\n",
            Ok(Head {
                closes: true,
                ..get
            }),
        ),
        (b"GET / HTTP/1.1\nConnection: closed\n\n", Ok(get)),
        (
            b"GET / HTTP/1.1\nExpect: a, 100-Continue\n\n",
            Ok(Head {
                expects: true,
                ..get
            }),
        ),
        (
            b"GET / HTTP/1.1\nauthorization: bEARER tok\nAuthorization: Bearer other\n\n",
            Ok(Head {
                token: Some(b"tok"),
                ..get
            }),
        ),
        (
            b"GET / HTTP/1.1\nAuthorization: Basic x\nAuthorization: Bearer tok\n\n",
            Ok(get),
        ),
        (
            b"POST /jmap/api HTTP/1.1\nContent-Length: 3\ncontent-length: 003\n\n",
            Ok(post),
        ),
        (
            b"POST /jmap/api HTTP/1.1\nContent-Length: 3\nContent-Length: 4\n\n",
            Err(Refusal::BadRequest),
        ),
        (
            b"POST /jmap/api HTTP/1.1\nContent-Length: 3, 3\n\n",
            Err(Refusal::BadRequest),
        ),
        (
            b"POST /jmap/api HTTP/1.1\nContent-Length: 0000000000000003\n\n",
            Err(Refusal::BadRequest),
        ),
        (
            b"POST /jmap/api HTTP/1.1\nContent-Length: +3\n\n",
            Err(Refusal::BadRequest),
        ),
        (
            b"POST /jmap/api HTTP/1.1\nContent-Length:\n\n",
            Err(Refusal::BadRequest),
        ),
        (b"POST /jmap/api HTTP/1.1\n\n", Err(Refusal::LengthMissing)),
        (b"post / HTTP/1.1\n\n", Ok(plain(b"post", b"/", 0))),
        (
            b"PUT / HTTP/1.1\nContent-Length: 1048576\n\n",
            Ok(plain(b"PUT", b"/", 1048576)),
        ),
        (
            b"PUT / HTTP/1.1\nContent-Length: 1048577\n\n",
            Err(Refusal::BodyTooLarge),
        ),
        (
            b"POST / HTTP/1.1\nTransfer-Encoding:\nContent-Length: x\n\n",
            Err(Refusal::TransferCoding),
        ),
        (
            b"GET / HTTP/1.1\nTransfer-Encoding: chunked\n\n",
            Err(Refusal::TransferCoding),
        ),
        (
            b"GET / HTTP/1.1\nTransfer-Encoding : chunked\n\n",
            Err(Refusal::BadRequest),
        ),
        (b"GET / HTTP/2\n\n", Err(Refusal::BadRequest)),
        (b"GET  / HTTP/1.1\n\n", Err(Refusal::BadRequest)),
        (b"GET / HTTP/1.1\nHost: a\n b\n\n", Err(Refusal::BadRequest)),
        (b"\n\n", Err(Refusal::BadRequest)),
    ];
    for (head, judged) in cases {
        assert_eq!(rt; read_head(head), judged, "{head:?}");
    }
}

/// A head with so many fields.
fn head_with(alloc: Global, first: &[u8], fields: usize) -> Result<Vec<u8>, AllocError> {
    let mut head = first.to_vec(alloc)?;
    for _ in 0..fields {
        head.extend_from_slice(b"a: b\r\n")?;
    }
    head.extend_from_slice(b"\r\n")?;
    Ok(head)
}

#[test]
fn a_head_has_at_most_64_fields_and_66_lines(rt: HostRuntime) -> Result<(), Fail> {
    let alloc = rt.alloc();
    let get = plain(b"GET", b"/", 0);
    let cases = [
        (b"GET / HTTP/1.1\r\n".as_slice(), 64, Ok(get)),
        (b"GET / HTTP/1.1\r\n", 65, Err(Refusal::HeadTooLarge)),
        (b"\r\nGET / HTTP/1.1\r\n", 63, Ok(get)),
        (b"\r\nGET / HTTP/1.1\r\n", 64, Err(Refusal::HeadTooLarge)),
    ];
    for (first, fields, judged) in cases {
        let head = head_with(alloc, first, fields)?;
        assert_eq!(rt; read_head(&head), judged, "{fields} fields");
    }
    Ok(())
}

#[test]
fn requests_are_taken_one_after_another(rt: HostRuntime) -> Result<(), Fail> {
    let alloc = rt.alloc();
    let asks = b"POST /a HTTP/1.1\r\nExpect: 100-continue\r\nContent-Length: 5\r\n\r\n".as_slice();
    let head = Head {
        expects: true,
        ..plain(b"POST", b"/a", 5)
    };
    let refused = b"POST / HTTP/1.1\n\n".as_slice();
    let prompt = b"HTTP/1.1 100 Continue\r\n\r\n".as_slice();
    // The bytes that come, which of the writes fails, or 0; what is taken first and its body, what
    // is taken next, and what is written.
    let cases = [
        (
            [asks, b"hello", refused],
            0,
            Ok(Ok(head)),
            b"hello".as_slice(),
            Ok(Err(Refusal::LengthMissing)),
            prompt,
        ),
        (
            [refused, asks, b"hello"],
            0,
            Ok(Err(Refusal::LengthMissing)),
            b"",
            Ok(Ok(head)),
            prompt,
        ),
        (
            [asks, b"hel", b""],
            0,
            Err(SessionEnd::Truncated { at: 0 }),
            b"hel",
            Err(SessionEnd::Closed),
            prompt,
        ),
        (
            [asks, b"hello", b"GET /"],
            0,
            Ok(Ok(head)),
            b"hello",
            Err(SessionEnd::Truncated { at: 66 }),
            prompt,
        ),
        (
            [asks, b"", b""],
            1,
            Err(SessionEnd::WriteFault),
            b"",
            Err(SessionEnd::Closed),
            b"",
        ),
    ];
    for (parts, fail, first, body, next, written) in cases {
        let mut input = Vec::new(alloc);
        for part in parts {
            input.extend_from_slice(part)?;
        }
        let mut fails = Vec::new(alloc);
        fails.push(fail)?;
        let mut source = MemSource::new(input, 7, Vec::new(alloc));
        let mut sink = MemSink::new(alloc, 5, 100, fails)?;
        let mut feed = Feed::new(&mut source, 100000)?;
        let (mut text, mut octets) = (Vec::new(alloc), Vec::new(alloc));
        assert_eq!(rt;
            take_request(&mut feed, &mut sink, &mut text, &mut octets),
            first
        );
        assert_eq!(rt; octets.as_slice(), body);
        assert_eq!(rt;
            take_request(&mut feed, &mut sink, &mut text, &mut octets),
            next
        );
        assert_eq!(rt; sink.as_slice(), written);
    }
    Ok(())
}

#[test]
fn answers_have_these_bytes(rt: HostRuntime) -> Result<(), Fail> {
    let alloc = rt.alloc();
    let mut out = Vec::new(alloc);
    push_response(&mut out, Reply::Answered, After::Open, b"{}")?;
    assert_eq!(rt;
        out.as_slice(),
        b"HTTP/1.1 200 OK\r\nContent-Type: application/json\r\nContent-Length: 2\r\n\r\n{}".as_slice()
    );
    // The status line, the length of the body, the line that the status asks for, and the code.
    let cases = [
        (Reply::BadRequest, "400 Bad Request", "", 400),
        (
            Reply::Unauthorized,
            "401 Unauthorized",
            "WWW-Authenticate: Bearer\r\n",
            401,
        ),
        (Reply::NotFound, "404 Not Found", "", 404),
        (
            Reply::WantsGet,
            "405 Method Not Allowed",
            "Allow: GET\r\n",
            405,
        ),
        (
            Reply::WantsPost,
            "405 Method Not Allowed",
            "Allow: POST\r\n",
            405,
        ),
        (Reply::LengthMissing, "411 Length Required", "", 411),
        (
            Reply::HeadTooLarge,
            "431 Request Header Fields Too Large",
            "",
            431,
        ),
        (Reply::NotImplemented, "501 Not Implemented", "", 501),
    ];
    for (reply, status, line, code) in cases {
        let mut answer = Vec::new(alloc);
        push_problem(alloc, &mut answer, reply, After::Closing)?;
        let wanted = format!(in alloc;
            "HTTP/1.1 {status}\r\nContent-Type: application/problem+json\r\nContent-Length: 35\r\n\
            {line}Connection: close\r\n\r\n{{\"status\":{code},\"type\":\"about:blank\"}}"
        )?;
        assert_eq!(rt; answer.as_slice(), wanted.as_bytes());
    }
    for (value, token) in [
        (b"Bearer tok".as_slice(), Some(b"tok".as_slice())),
        (b"BEARER  tok", Some(b" tok")),
        (b"Bearer", None),
        (b"Bearer\ttok", None),
        (b"Basic tok", None),
    ] {
        assert_eq!(rt; bearer_token(value), token);
    }
    Ok(())
}
