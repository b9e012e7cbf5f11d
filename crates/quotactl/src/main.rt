//! `quotactl`: one session of the mail quota service over standard input and output.
#![tactic(auto)]

mod accounts;
mod check;
mod control;
mod lines;
mod status;

use control::control;
use keeper_fs::FsStores;
use std::io::{self, ErrorKind};
use std::process::ExitCode;
use std::rt::Env;
use std::time::{SystemTime, UNIX_EPOCH};
use std::{env, fs};
use wire_io::{StdSink, StdSource};

/// The arguments after the program's name. If they are not text, the list is empty, and an empty
/// list is unrecognised.
fn words<R: Env + AllocGlobal>(rt: &R) -> io::Result<Vec<String>> {
    match env::args(rt) {
        Ok(mut args) => {
            drop(args.next());
            Ok(args.collect(rt.alloc())?)
        }
        Err(fault) if fault.kind() == ErrorKind::OutOfMemory => Err(fault),
        Err(_) => Ok(Vec::new(rt.alloc())),
    }
}

/// The bytes of the accounts file, `accounts.toml` in the current folder. If it is not there or
/// can't be read, there are none.
fn accounts_file(rt: HostRuntime) -> io::Result<Vec<u8>> {
    match fs::read(&rt, "accounts.toml") {
        Ok(bytes) => Ok(bytes),
        Err(fault) if fault.kind() == ErrorKind::OutOfMemory => Err(fault),
        Err(_) => Ok(Vec::new(rt.alloc())),
    }
}

/// The whole seconds from 1970 to now; 0 if the clock can't be read or is set before 1970.
fn seconds_now(rt: &HostRuntime) -> u64 {
    match SystemTime::now(rt) {
        Ok(now) => match now.duration_since(UNIX_EPOCH) {
            Ok(since) => since.as_secs(),
            Err(_) => 0,
        },
        Err(_) => 0,
    }
}

/// Runs the program, and returns the exit status; an error if memory runs out before it begins.
fn run(rt: HostRuntime) -> io::Result<u8> {
    let words = words(&rt)?;
    let accounts = accounts_file(rt)?;
    let mut stores = FsStores::new(rt, b"mail".to_vec(rt.alloc())?);
    let mut source = StdSource::new(rt.stdin());
    let mut sink = StdSink::new(io::writer(&rt));
    Ok(control(
        rt.alloc(),
        words.as_slice(),
        accounts.as_slice(),
        &mut stores,
        seconds_now(&rt),
        &mut source,
        &mut sink,
    ))
}

fn main(rt: HostRuntime) -> ExitCode {
    match run(rt) {
        Ok(status) => ExitCode::from(status),
        Err(_) => ExitCode::from(status::NO_MEMORY),
    }
}

#[cfg(test)]
mod host_tests;
#[cfg(test)]
mod tests;
#[cfg(test)]
mod under_lock;
