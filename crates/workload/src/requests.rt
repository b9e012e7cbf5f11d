// The requests of a workload.
ghost use Rattle.std.specs.Prelude.{◌≡◌, ◌≤◌, ◌<◌, ◌++◌, replicate, IfOk, OnOk};
ghost use Rattle.workload.specs.Requests.{value, delivery, removal, request, input};

use crate::text::push_numbered;
use quota_units::NoMemory;
use std::alloc::{AllocError, Global};

/// The number that decides what request `i` of `n` is.
fn value(n: u64, i: u64) -> u64
    requires n { n ≤ 4096 }
    requires i { i ≤ 4096 }
    ensures value { result ≡ value n i }
    ensures bounded { result < 4093 }
{
    (n * i * i + 31 * i) % 4093
}

/// Appends this many letters x.
fn push_letters(out: &mut Vec<u8>, count: u64) -> Result<(), AllocError>
    requires { count < 4093 }
    ensures { OnOk result (out.new.items ≡ out.old.items ++ replicate count 120) }
{
    out.resize(out.len() + count as usize, b'x')
}

/// Appends the delivery of a message of this many octets.
fn push_delivery(out: &mut Vec<u8>, octets: u64) -> Result<(), AllocError>
    requires { octets < 4093 }
    ensures { OnOk result (out.new.items ≡ out.old.items ++ delivery octets) }
{
    let head = b"request=quotad_deliver\naccount=main\nmailbox=INBOX\noctets=";
    push_numbered(out, head, octets, b"\n\n")?;
    push_letters(out, octets)
}

/// Appends the removal of the message that the delivery of this number brought.
fn push_removal(out: &mut Vec<u8>, number: u64) -> Result<(), AllocError>
    ensures { OnOk result (out.new.items ≡ out.old.items ++ removal number) }
{
    let head = b"request=quotad_remove\naccount=main\nmailbox=INBOX\nname=0.";
    push_numbered(out, head, number, b".quotad\n\n")
}

/// Appends request `i` of `n`.
fn push_request(out: &mut Vec<u8>, n: u64, i: u64) -> Result<(), AllocError>
    requires n { n ≤ 4096 }
    requires first { 1 ≤ i }
    requires last { i ≤ 4096 }
    ensures { OnOk result (out.new.items ≡ out.old.items ++ request n i) }
{
    let value = value(n, i);
    if value % 4 == 0 {
        push_removal(out, 1 + value / 4 % i)
    } else {
        push_delivery(out, value)
    }
}

/// The `n` requests of a workload, one after another.
///
/// # Errors
///
/// `NoMemory` if memory runs out.
pub(crate) fn requests(alloc: Global, n: u64) -> Result<Vec<u8>, NoMemory>
    requires { n ≤ 4096 }
    ensures { IfOk result (λ bytes. bytes.items ≡ input n) }
{
    let mut bytes = Vec::new(alloc);
    for i in 0..n {
        push_request(&mut bytes, n, i + 1)?;
    }
    Ok(bytes)
}
