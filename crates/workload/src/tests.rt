// Workloads, by the texts of their summaries.
use crate::{run_workload, summary_text};
use std::test::Fail;

/// The summary of one request.
const OF_1: &[u8] =
    b"requests 1\ndelivered 0\nrefused 0\nremoved 0\nmissing 1\noctets 0\nmessages 0\n";

/// The summary of five requests.
const OF_5: &[u8] =
    b"requests 5\ndelivered 2\nrefused 0\nremoved 1\nmissing 2\noctets 138\nmessages 1\n";

/// The summary of 4096 requests. A program that follows the recipe and the account's rules alone
/// gave it.
const OF_4096: &[u8] =
    b"requests 4096\ndelivered 939\nrefused 2142\nremoved 439\nmissing 576\noctets 1032505\nmessages 500\n";

#[test]
fn sums_up_workloads(rt: HostRuntime) -> Result<(), Fail> {
    let one = run_workload(rt.alloc(), 1)?;
    assert_eq!(rt; summary_text(rt.alloc(), &one)?.as_slice(), OF_1);
    let five = run_workload(rt.alloc(), 5)?;
    assert_eq!(rt; summary_text(rt.alloc(), &five)?.as_slice(), OF_5);
    let most = run_workload(rt.alloc(), 4096)?;
    assert_eq!(rt; summary_text(rt.alloc(), &most)?.as_slice(), OF_4096);
    Ok(())
}
