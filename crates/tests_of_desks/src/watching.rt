// The octets that a keeper is given to put.
ghost use Rattle.std.specs.Prelude.{◌<◌, IfSome};
ghost use Rattle.sessions.specs.Fronts.{start_of};

use crate::one_account::{Row, account_after, front_of};
use accounts_file::plain_table;
use keeper::{FileRow, FixedKeeper, KeepError, Keeper};
use quota_units::{Failed, Limits};
use sessions::Front;
use std::alloc::Global;
use std::test::Fail;
use wire_io::SessionEnd;

/// A keeper without files that never fails, with the octets of all messages that it was given to
/// put.
#[derive(Drop)]
struct WatchingKeeper {
    inner: FixedKeeper,
    given: Vec<u8>,
}

impl Keeper for WatchingKeeper {
    ghost use Rattle.std.specs.Prelude.{Some};
    ghost use Rattle.keeper.specs.Memory.{told_of_fixed};

    ghost told = { λ k. Some (told_of_fixed k.inner) };

    ghost faults = { λ _. 0 };

    ghost append_faults = { λ _. 0 };

    ghost lists = { λ k. k.inner.lists };

    fn list(&mut self, alloc: Global, mailbox: &[u8]) -> Result<Vec<FileRow>, KeepError> {
        self.inner.list(alloc, mailbox)
    }

    fn put(
        &mut self,
        alloc: Global,
        mailbox: &[u8],
        name: &[u8],
        octets: &[u8],
    ) -> Result<(), KeepError> {
        if self.given.extend_from_slice(octets).is_err() {
            return Err(KeepError::NoMemory);
        }
        self.inner.put(alloc, mailbox, name, octets)
    }

    fn rename(
        &mut self,
        alloc: Global,
        from: &[u8],
        name: &[u8],
        to: &[u8],
        new_name: &[u8],
    ) -> Result<(), KeepError> {
        self.inner.rename(alloc, from, name, to, new_name)
    }

    fn remove(&mut self, mailbox: &[u8], name: &[u8]) -> Result<(), Failed> {
        self.inner.remove(mailbox, name)
    }

    fn read_ledger(&mut self, alloc: Global, root: u32) -> Result<Option<Vec<u8>>, KeepError> {
        self.inner.read_ledger(alloc, root)
    }

    fn append_ledger(&mut self, root: u32, line: &[u8]) -> Result<(), Failed> {
        self.inner.append_ledger(root, line)
    }

    fn install_ledger(&mut self, root: u32, text: &[u8]) -> Result<(), Failed> {
        self.inner.install_ledger(root, text)
    }
}

/// Two messages, one after the other: 26 octets that look like lines and literals, and one octet.
const MESSAGES: &[u8] = b"\x00\r\n.\r\na2 LOGOUT\r\n+ {3}\r\n\xff\n!";

/// What the owner sends to deliver them. A third message is cut short.
const DELIVERIES: &[u8] = b"a1 APPEND INBOX {26}\r\n\
\x00\r\n.\r\na2 LOGOUT\r\n+ {3}\r\n\xff\n\r\n\
a2 APPEND inbox (\\Seen) {1}\r\n!\r\n\
a3 APPEND INBOX {4}\r\nabc";

/// What is written then.
const DELIVERED: &[u8] = b"* PREAUTH quotad ready\r\n\
+ Ready\r\na1 OK APPEND completed\r\n\
+ Ready\r\na2 OK APPEND completed\r\n\
+ Ready\r\n";

/// The same by the policy protocol.
const POLICY_DELIVERIES: &[u8] = b"request=quotad_deliver\naccount=main\noctets=26\n\n\
\x00\r\n.\r\na2 LOGOUT\r\n+ {3}\r\n\xff\n\
request=quotad_deliver\naccount=main\noctets=1\n\n!\
request=quotad_deliver\naccount=main\noctets=4\n\nabc";

const POLICY_DELIVERED: &[u8] = b"action=delivered 0.1.quotad\n\naction=delivered 0.2.quotad\n\n";

/// The octets that a keeper is given in a session of this front.
fn given_in(alloc: Global, front: Front, row: &Row, piece: usize) -> Result<Vec<u8>, Fail>
    requires { IfSome (start_of front) (λ account. account < 1) }
{
    let limits = Limits::new(Some(524288), None).ok_or("limits in range")?;
    let table = plain_table(alloc, limits)?;
    let keeper = WatchingKeeper {
        inner: FixedKeeper::new(alloc)?,
        given: Vec::new(alloc),
    };
    let state = account_after(alloc, front, &table, keeper, row, piece)?;
    Ok(state.into_keeper().given)
}

#[test]
fn a_keeper_is_given_the_octets_that_were_sent(rt: HostRuntime) -> Result<(), Fail> {
    let alloc = rt.alloc();
    let end = SessionEnd::Truncated { at: 82 };
    let appended = ("", true, DELIVERIES, DELIVERED, end);
    let end = SessionEnd::Truncated { at: 120 };
    let delivered = ("", true, POLICY_DELIVERIES, POLICY_DELIVERED, end);
    for piece in [1, 7, 4096] {
        let given = given_in(alloc, front_of(true), &appended, piece)?;
        assert_eq!(rt; given.as_slice(), MESSAGES, "pieces of {piece}");
        let given = given_in(alloc, Front::Policy, &delivered, piece)?;
        assert_eq!(rt; given.as_slice(), MESSAGES, "pieces of {piece}");
    }
    Ok(())
}
