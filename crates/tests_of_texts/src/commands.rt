// Texts that are commands, and texts that are not.
use imap_grammar::{Command, CommandFault, Progress, push_astring, read_command, read_progress};
use std::alloc::Global;
use std::test::Fail;

/// A command, in words.
fn command_shown(alloc: Global, command: &Command) -> Result<String, Fail> {
    let line = match command {
        Command::Capability => "CAPABILITY".to_string(alloc)?,
        Command::Noop => "NOOP".to_string(alloc)?,
        Command::Logout => "LOGOUT".to_string(alloc)?,
        Command::Login { user, password } => {
            format!(in alloc; "LOGIN {:?} {:?}", user.as_slice(), password.as_slice())?
        }
        Command::GetQuota { root } => format!(in alloc; "GETQUOTA {:?}", root.as_slice())?,
        Command::GetQuotaRoot { mailbox } => {
            format!(in alloc; "GETQUOTAROOT {:?}", mailbox.as_slice())?
        }
        Command::SetQuota { root, limits } => {
            let mut line = format!(in alloc; "SETQUOTA {:?}", root.as_slice())?;
            for limit in limits.as_slice() {
                line.push_str(&format!(in alloc; " {:?} {}", limit.resource, limit.limit)?)?;
            }
            line
        }
        Command::Status { mailbox, items } => {
            let mut line = format!(in alloc; "STATUS {:?}", mailbox.as_slice())?;
            for item in items.as_slice() {
                line.push_str(&format!(in alloc; " {item:?}")?)?;
            }
            line
        }
        Command::Append {
            mailbox,
            flags,
            size,
        } => {
            let mut line = format!(in alloc; "APPEND {:?} {size} ", mailbox.as_slice())?;
            for letter in b"DFPRST" {
                if flags.has(*letter) {
                    line.push(char::from(*letter))?;
                }
            }
            line
        }
    };
    Ok(line)
}

/// What a text reads as, in words.
fn shown(alloc: Global, text: &[u8], login: bool) -> Result<String, Fail> {
    match read_command(alloc, text, login) {
        Ok(command) => command_shown(alloc, &command),
        Err(CommandFault::Syntax { at }) => Ok(format!(in alloc; "syntax {at}")?),
        Err(fault) => Ok(format!(in alloc; "{fault:?}")?),
    }
}

/// What a text has come to, in words.
fn progress_shown(alloc: Global, text: &[u8], login: bool) -> Result<String, Fail> {
    match read_progress(alloc, text, login) {
        Ok(Progress::Whole { command, tag }) => {
            let command = command_shown(alloc, &command)?;
            Ok(format!(in alloc; "{tag} {command}")?)
        }
        Ok(progress) => Ok(format!(in alloc; "{progress:?}")?),
        Err(fault) => Ok(format!(in alloc; "{fault:?}")?),
    }
}

#[test]
fn commands_are_read(rt: HostRuntime) -> Result<(), Fail> {
    let table: [(&[u8], bool, &str); 36] = [
        (b"a1 GETQUOTA \"\"\r\n", true, "GETQUOTA []"),
        (b"a1 getQuota \"\"\n", true, "GETQUOTA []"),
        (b"a1 GETQUOTA \"\"\r\n", false, "NotAuthenticated"),
        (b"a1 GETQUOTA \"\" \r\n", true, "syntax 14"),
        (b"a1 GETQUOTA  \"\"\r\n", true, "syntax 12"),
        (b"a1 GETQUOTA\r\n", true, "syntax 11"),
        (b"a1 GETQUOTA {0}\r\n", true, "syntax 17"),
        (b"a1 GETQUOTA {0}\r\n\r\n", true, "GETQUOTA []"),
        (b"a1 GETQUOTAS x\r\n", true, "Unknown"),
        (
            b"a1 GETQUOTAROOT INBOX\r\n",
            true,
            "GETQUOTAROOT [73, 78, 66, 79, 88]",
        ),
        (
            b"a1 GetQuotaRoot \"a b\"\n",
            true,
            "GETQUOTAROOT [97, 32, 98]",
        ),
        (b"a1 GETQUOTAROOT INBOX\r\n", false, "NotAuthenticated"),
        (b"a1 GETQUOTAROOT INBOX x\r\n", true, "syntax 21"),
        (b"a1 SETQUOTA x ()\n", true, "SETQUOTA [120]"),
        (b"a1 SETQUOTA x ()\n", false, "NotAuthenticated"),
        (b"a2 LOGOUT\r\n", true, "LOGOUT"),
        (b"a2 LOGOUT\r\n", false, "LOGOUT"),
        (b"~]}/ logout\n", true, "LOGOUT"),
        (b"a+ LOGOUT\r\n", true, "InvalidTag"),
        (b"a2  LOGOUT\r\n", true, "Unknown"),
        (b"a2 LOGOUT\r\n\n", true, "syntax 11"),
        (b" LOGOUT\r\n", true, "InvalidTag"),
        (b"\r\n", true, "InvalidTag"),
        (b"", true, "syntax 0"),
        (b"a", true, "syntax 1"),
        (b"a NOO", false, "syntax 5"),
        (b"a2 LOGOUT(\r\n", false, "Unknown"),
        (b"a NOOP\n", false, "NOOP"),
        (b"a Capability\r\n", true, "CAPABILITY"),
        (b"a login x \"y\"\n", false, "LOGIN [120] [121]"),
        (b"a login {1}\n\n {0}\n\n", false, "LOGIN [10] []"),
        (b"a login x y\n", true, "AlreadyAuthenticated"),
        (
            b"a status x (Size UNSEEN foo Deleted-storage)\n",
            true,
            "STATUS [120] Some(Size) Some(Unseen) None Some(DeletedStorage)",
        ),
        (b"a status x ()\n", true, "syntax 12"),
        (
            b"a append x (\\SEEN \\Draft z) \"d\" {7}\n\n",
            true,
            "APPEND [120] 7 DS",
        ),
        (b"a append x (\\) {7}\n", true, "syntax 13"),
    ];
    for (text, login, wanted) in table {
        let read = shown(rt.alloc(), text, login)?;
        assert_eq!(rt; read.as_str(), wanted, "{text:?}");
    }
    Ok(())
}

#[test]
fn a_text_says_what_comes_next(rt: HostRuntime) -> Result<(), Fail> {
    let table: [(&[u8], bool, &str); 14] = [
        (b"a1 NOOP\r\n", false, "2 NOOP"),
        (b"a1 LOGIN {3}\r\n", false, "Literal { count: 3 }"),
        (b"a1 LOGIN {3}\r\n", true, "AlreadyAuthenticated"),
        (b"a1 LOGIN {3}\r\nab", false, "More { at: 16 }"),
        (b"a1 LOGIN x", false, "More { at: 10 }"),
        (b"a1 LOGIN (x", false, "More { at: 9 }"),
        (b"a1 LOGIN (x\n", false, "Syntax { at: 9 }"),
        (b"a1 GETQUOTA {16365}\n", true, "LiteralTooLarge"),
        (b"a1 GETQUOTA {16364}\n", true, "Literal { count: 16364 }"),
        (b"a1 APPEND INBOX {3}\r\n", true, "Message { count: 3 }"),
        (b"a1 APPEND inbox {3}\r\n", false, "NotAuthenticated"),
        (b"a1 APPEND INBOX {3}\r\nx\r\n", true, "Syntax { at: 21 }"),
        (b"a1 APPEND INBOX {3}\r\n\rx\r\n", true, "Syntax { at: 22 }"),
        (b"a1 APPEND INBOX {67108865}\r\n", true, "MessageTooLarge"),
    ];
    for (text, login, wanted) in table {
        let progress = progress_shown(rt.alloc(), text, login)?;
        assert_eq!(rt; progress.as_str(), wanted, "{text:?}");
    }
    Ok(())
}

#[test]
fn a_text_has_at_most_16384_bytes(rt: HostRuntime) -> Result<(), Fail> {
    // The bytes of the name: with 12 others they are 16383, 16384 and 16385.
    for (count, fits) in [(16371, true), (16372, true), (16373, false)] {
        let mut text = b"a GETQUOTA ".to_vec(rt.alloc())?;
        for _ in 0..count {
            text.push(b'x')?;
        }
        text.push(b'\n')?;
        let read = read_command(rt.alloc(), &text, true);
        assert_eq!(rt; read.is_ok(), fits, "a name of {count} bytes");
    }
    Ok(())
}

#[test]
fn names_are_plain_or_quoted(rt: HostRuntime) -> Result<(), Fail> {
    let table: [(&[u8], &str); 19] = [
        (b"x", "GETQUOTA [120]"),
        (b"a+b]", "GETQUOTA [97, 43, 98, 93]"),
        (b"a(b", "syntax 12"),
        (b"a\"b\"", "syntax 12"),
        (b"a\\b", "syntax 12"),
        (b"50%", "syntax 13"),
        (b"a\x7f", "syntax 12"),
        (b"\xc3\xa4", "syntax 11"),
        (b"\"\xc3\xa4\"", "GETQUOTA [195, 164]"),
        (
            b"\"(){%*+\x01\x7f\"",
            "GETQUOTA [40, 41, 123, 37, 42, 43, 1, 127]",
        ),
        (b"\"a\\\"b\"", "GETQUOTA [97, 34, 98]"),
        (b"\"a\\\\b\"", "GETQUOTA [97, 92, 98]"),
        (b"\"a\\b\"", "syntax 14"),
        (b"\"a\"b\"", "syntax 14"),
        (b"\"a\\\"", "syntax 15"),
        (b"\"a", "syntax 13"),
        (b"\"a\0b\"", "syntax 13"),
        (b"\"a\rb\"", "syntax 13"),
        (b"\"a\nb\"", "syntax 13"),
    ];
    for (name, wanted) in table {
        let mut line = b"a GETQUOTA ".to_vec(rt.alloc())?;
        line.extend_from_slice(name)?;
        line.extend_from_slice(b"\r\n")?;
        let read = shown(rt.alloc(), &line, true)?;
        assert_eq!(rt; read.as_str(), wanted, "{name:?}");
    }
    Ok(())
}

#[test]
fn limits_are_in_parentheses(rt: HostRuntime) -> Result<(), Fail> {
    let table: [(&[u8], &str); 22] = [
        (b"()", "SETQUOTA []"),
        (b"(STORAGE 0)", "SETQUOTA [] Some(Storage) 0"),
        (
            b"(storage 512 Message 010)",
            "SETQUOTA [] Some(Storage) 512 Some(Message) 10",
        ),
        (
            b"(X-FOO 1 X-FOO 2 STORAGE 3)",
            "SETQUOTA [] None 1 None 2 Some(Storage) 3",
        ),
        (
            b"(STORAGE 9223372036854775807)",
            "SETQUOTA [] Some(Storage) 9223372036854775807",
        ),
        (
            b"(STORAGE 0000000000000000001)",
            "SETQUOTA [] Some(Storage) 1",
        ),
        (b"(STORAGE 00000000000000000001)", "syntax 42"),
        (b"(STORAGE 9223372036854775808)", "syntax 41"),
        (b"(STORAGE 10000000000000000000)", "syntax 42"),
        (b"(STORAGE +1)", "syntax 23"),
        (b"(STORAGE -1)", "syntax 23"),
        (b"(STORAGE )", "syntax 23"),
        (b"(STORAGE)", "syntax 22"),
        (b"( STORAGE 1)", "syntax 15"),
        (b"(STORAGE 1 )", "syntax 25"),
        (b"(STORAGE  1)", "syntax 23"),
        (b"(STORAGE 1  MESSAGE 1)", "syntax 25"),
        (b"(\"STORAGE\" 1)", "syntax 15"),
        (b"(STORAGE 1", "syntax 24"),
        (b"STORAGE 1)", "syntax 14"),
        (b"(STORAGE 1))", "syntax 25"),
        (b"", "syntax 14"),
    ];
    for (limits, wanted) in table {
        let mut line = b"a SETQUOTA \"\" ".to_vec(rt.alloc())?;
        line.extend_from_slice(limits)?;
        line.extend_from_slice(b"\r\n")?;
        let read = shown(rt.alloc(), &line, true)?;
        assert_eq!(rt; read.as_str(), wanted, "{limits:?}");
    }
    Ok(())
}

#[test]
fn a_tag_has_1_to_64_bytes(rt: HostRuntime) -> Result<(), Fail> {
    for length in [1, 64, 65] {
        let mut line = vec![in rt.alloc(); b'x'; length]?;
        line.extend_from_slice(b" LOGOUT\r\n")?;
        let read = read_command(rt.alloc(), &line, true);
        assert_eq!(rt; read.is_ok(), length <= 64, "{length} bytes");
    }
    Ok(())
}

#[test]
fn names_are_printed_plainly_quoted_or_as_literals(rt: HostRuntime) -> Result<(), Fail> {
    let table: [(&[u8], &[u8]); 11] = [
        (b"", b"\"\""),
        (b"INBOX", b"INBOX"),
        (b"Lists.rattle+", b"Lists.rattle+"),
        (b"]", b"]"),
        (b"My folder", b"\"My folder\""),
        (b"50%", b"\"50%\""),
        (b"a\"b", b"\"a\\\"b\""),
        (b"a\\b", b"\"a\\\\b\""),
        (b"a\x7fb", b"{3}\r\na\x7fb"),
        (b"\r\n", b"{2}\r\n\r\n"),
        (b"\xc3\xa4 \"1234567", b"{11}\r\n\xc3\xa4 \"1234567"),
    ];
    for (name, printed) in table {
        let mut out = Vec::new(rt.alloc());
        push_astring(&mut out, name)?;
        assert_eq!(rt; out.as_slice(), printed, "{name:?}");
    }
    Ok(())
}
