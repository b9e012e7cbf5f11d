// Doors, nets and spawners at work.
ghost use Rattle.std.specs.Prelude.{◌≡◌, ◌<◌, ◌+◌, ◌-◌, ◌^◌, min, [], IfOk, OnOk, IsTrue, length};
ghost use Rattle.wire_net.specs.Tcp.{net_out_of};

use crate::{
    Accepted, Door, FewSpawner, Gate, GatePlace, Job, MemConnection, MemDoor, MemNet, Net,
    NetError, OpenGate, Spawner, TcpDoor, TcpNet, ThreadSpawner,
};
use std::alloc::{AllocError, Global};
use std::io::{Read, Write};
use std::net::{Ipv4Addr, SocketAddr, TcpListener, TcpStream};
use std::test::Fail;
use std::{io, net};
use wire_io::{Feed, Sink, Source, Wire, send};

/// Three connections of one wire and two of another, which send a letter each.
fn connections(alloc: Global) -> Result<Vec<MemConnection>, AllocError> {
    let mut all = Vec::new(alloc);
    for (wire, letter) in [
        (Wire::Imap, b'a'),
        (Wire::Policy, b'p'),
        (Wire::Imap, b'b'),
        (Wire::Imap, b'c'),
        (Wire::Policy, b'q'),
    ] {
        all.push(MemConnection {
            wire,
            input: vec![in alloc; letter]?,
            room: 8,
        })?;
    }
    Ok(all)
}

/// The letter that comes from a source, or a question mark.
fn letter<I: Source>(input: &mut I) -> char {
    let mut letter = [b'?'; 1];
    if input.read(&mut letter) == Ok(1) {
        char::from(letter[0])
    } else {
        '?'
    }
}

/// What the next accept answers: the letter that comes, a point if the door has stopped, and an
/// exclamation mark if the accept has failed.
fn answer(door: &mut MemDoor) -> char {
    if door.misses() >= 16 {
        return '?';
    }
    match door.accept() {
        Accepted::Connected { mut input, output } => {
            drop(output);
            letter(&mut input)
        }
        Accepted::Stopped => '.',
        Accepted::Failed => '!',
    }
}

#[test]
fn each_door_gives_its_share_of_a_wire(rt: HostRuntime) -> Result<(), Fail> {
    let alloc = rt.alloc();
    let table: [(&[u64], Wire, &[&str]); 6] = [
        (&[], Wire::Imap, &["abc"]),
        (&[], Wire::Imap, &["ac.", "b.."]),
        (&[], Wire::Policy, &["p..", "q..", "..."]),
        (&[], Wire::Jmap, &["..."]),
        (&[2, 9], Wire::Imap, &["a!c", "b!."]),
        (&[1, 2, 3], Wire::Imap, &["!!!"]),
    ];
    for (fails, wire, expected) in table {
        let mut net = MemNet::new(alloc, connections(alloc)?, fails.to_vec(alloc)?);
        let mut doors = net.listen(alloc, wire, 1, expected.len() as u32)?;
        for text in expected.iter().rev() {
            let mut door = doors.pop().ok_or("too few doors")?;
            for letter in text.chars() {
                assert_eq!(rt; answer(&mut door), letter);
            }
        }
        assert!(rt; doors.is_empty());
    }
    Ok(())
}

/// Opens a wire's only door.
fn only_door(alloc: Global, net: &mut MemNet, wire: Wire) -> Result<MemDoor, NetError>
    ensures fresh { IfOk result (λ door. (door.misses ≡ 0) × (door.handed ≡ [])
        × (door.done ≡ [])) }
    ensures out { OnOk result (net.new.out ≡ net.old.out + 1) }
    ensures retired { net.new.retired ≡ net.old.retired }
{
    let mut doors = net.listen(alloc, wire, 1, 1)?;
    doors.pop().ok_or(NetError::NoMemory)
}

/// Takes the next connection of a door, answers it with these bytes, and gives it back.
fn serve_one(door: &mut MemDoor, answer: &[u8]) -> bool
    requires misses { door.old.misses ≡ 0 }
    requires none { (door.old.handed ≡ []) × (door.old.done ≡ []) }
    ensures { IsTrue result → 0 < length door.new.done }
{
    match door.accept() {
        Accepted::Connected { input, mut output } => {
            let sent = send(&mut output, answer);
            door.finish(input, output);
            sent.is_ok()
        }
        Accepted::Stopped => false,
        Accepted::Failed => false,
    }
}

#[test]
fn a_net_in_memory_fails_as_chosen_and_keeps_its_doors(rt: HostRuntime) -> Result<(), Fail> {
    let alloc = rt.alloc();
    let mut net = MemNet::new(alloc, connections(alloc)?, vec![in alloc; 0]?);
    assert_eq!(rt;
        net.listen(alloc, Wire::Imap, 1, 1).err(),
        Some(NetError::Failed)
    );
    let mut door = only_door(alloc, &mut net, Wire::Imap)?;
    if !serve_one(&mut door, b"some") {
        return Err("not served".into());
    }
    assert_eq!(rt; door.written(0), b"some".as_slice());
    net.retire(door);
    let kept = net.retired().first().ok_or("not kept")?;
    assert_eq!(rt; kept.misses(), 0);
    Ok(())
}

#[test]
fn one_door_stops_all_doors_of_its_net(rt: HostRuntime) -> Result<(), Fail> {
    let alloc = rt.alloc();
    let mut net = MemNet::new(alloc, connections(alloc)?, Vec::new(alloc));
    let mut first = only_door(alloc, &mut net, Wire::Imap)?;
    let mut second = only_door(alloc, &mut net, Wire::Policy)?;
    assert_eq!(rt; answer(&mut first), 'a');
    second.stop();
    assert_eq!(rt; answer(&mut first), '.');
    assert_eq!(rt; answer(&mut second), '.');
    Ok(())
}

/// A job that counts its runs.
#[derive(Drop)]
struct Run {
    times: u64,
}

impl Job for Run {
    ghost does = { λ before after. after.times ≡ min (before.times + 1) (2 ^ 64 - 1) };

    fn run(&mut self) {
        OpenGate.at(GatePlace::Accepted { worker: 0 });
        self.times = self.times.saturating_add(1);
    }
}

/// How often each of so many jobs has run, and whether all of them were started.
fn run_three<P: Spawner>(alloc: Global, spawner: &mut P) -> Result<(Vec<u64>, bool), AllocError> {
    let mut jobs = Vec::with_capacity(alloc, 3)?;
    for _ in 0..3 {
        jobs.push(Run { times: 0 })?;
    }
    let all = spawner.run(jobs.as_mut_slice()).is_ok();
    let mut times = Vec::with_capacity(alloc, 3)?;
    for job in &jobs {
        times.push(job.times)?;
    }
    Ok((times, all))
}

#[test]
fn a_spawner_runs_the_jobs_that_it_starts(rt: HostRuntime) -> Result<(), Fail> {
    let alloc = rt.alloc();
    let table: [(u32, [u64; 3], bool); 4] = [
        (0, [0, 0, 0], false),
        (1, [1, 0, 0], false),
        (3, [1, 1, 1], true),
        (9, [1, 1, 1], true),
    ];
    for (starts, times, all) in table {
        let (ran, started) = run_three(alloc, &mut FewSpawner::new(rt, starts))?;
        assert_eq!(rt; ran.as_slice(), times.as_slice());
        assert_eq!(rt; started, all);
    }
    let (ran, started) = run_three(alloc, &mut ThreadSpawner::new(rt))?;
    assert_eq!(rt; ran.as_slice(), [1, 1, 1].as_slice());
    assert!(rt; started);
    Ok(())
}

/// Two clients, one after the other, or a door that serves them.
#[derive(Drop)]
enum Side<R> {
    Clients { rt: R, port: u16, answers: Vec<u8> },
    AtDoor { alloc: Global, door: TcpDoor<R> },
}

/// Sends a line, and takes the answer, up to the end of the connection.
fn ask<R: net::Net>(rt: &R, port: u16, line: &[u8], answers: &mut Vec<u8>) -> io::Result<()> {
    let address = SocketAddr::from((Ipv4Addr::LOCALHOST, port));
    let mut stream = TcpStream::connect(rt, address)?;
    stream.write_all(line)?;
    stream.read_to_end(answers)?;
    Ok(())
}

/// Sends a line back. The line `stop` asks the door to stop.
fn echo<I: Source, O: Sink>(alloc: Global, input: &mut I, output: &mut O) -> bool {
    let mut line = Vec::new(alloc);
    let Ok(mut feed) = Feed::new(input, 64) else {
        return false;
    };
    let whole = feed.line(&mut line, 64).is_ok();
    whole && send(output, line.as_slice()).is_ok() && line.as_slice() == b"stop\n".as_slice()
}

/// Serves one connection, or tells that none came.
fn serve<R: net::Net<Listener = TcpListener, Stream = TcpStream>>(
    alloc: Global,
    door: &mut TcpDoor<R>,
) -> bool {
    if door.misses() >= 16 {
        return false;
    }
    match door.accept() {
        Accepted::Connected {
            mut input,
            mut output,
        } => {
            let stops = echo(alloc, &mut input, &mut output);
            door.finish(input, output);
            if stops {
                door.stop();
            }
            true
        }
        Accepted::Stopped => false,
        Accepted::Failed => false,
    }
}

impl<R: net::Net<Listener = TcpListener, Stream = TcpStream>> Job for Side<R> {
    ghost does = { λ _ _. Unit {0} };

    fn run(&mut self) {
        match self {
            Side::Clients { rt, port, answers } => {
                for line in [b"some\n", b"stop\n"] {
                    if ask(rt, *port, line, answers).is_err() {
                        answers.clear();
                    }
                }
            }
            Side::AtDoor { alloc, door } => {
                for _ in 0..3 {
                    if !serve(*alloc, door) {
                        return;
                    }
                }
            }
        }
    }
}

/// A port that nobody listens at.
fn free_port<R: net::Net<Listener = TcpListener, Stream = TcpStream>>(rt: &R) -> io::Result<u16> {
    let listener = TcpListener::bind(rt, SocketAddr::from((Ipv4Addr::LOCALHOST, 0)))?;
    Ok(listener.local_addr()?.port())
}

/// Opens two doors at a port.
fn two_doors<R: net::Net<Listener = TcpListener, Stream = TcpStream> + Clone>(
    alloc: Global,
    net: &mut TcpNet<R>,
    port: u16,
) -> Result<(TcpDoor<R>, TcpDoor<R>), NetError>
    ensures { OnOk result (net_out_of net.new ≡ net_out_of net.old + 2) }
{
    let mut doors = net.listen(alloc, Wire::Imap, port, 2)?;
    let second = doors.pop().ok_or(NetError::NoMemory)?;
    let first = doors.pop().ok_or(NetError::NoMemory)?;
    Ok((first, second))
}

/// What the clients were answered, and the doors in the end.
fn ended<R>(mut sides: Vec<Side<R>>) -> Option<(Vec<u8>, TcpDoor<R>, TcpDoor<R>)>
where
    R: Drop,
{
    let Some(Side::AtDoor { door: second, .. }) = sides.pop() else {
        return None;
    };
    let Some(Side::AtDoor { door: first, .. }) = sides.pop() else {
        return None;
    };
    let Some(Side::Clients { answers, .. }) = sides.pop() else {
        return None;
    };
    Some((answers, first, second))
}

#[test]
fn doors_over_tcp_serve_clients_until_one_stops(rt: HostRuntime) -> Result<(), Fail> {
    let alloc = rt.alloc();
    let port = free_port(&rt)?;
    let mut net = TcpNet::new(rt);
    let (first, second) = two_doors(alloc, &mut net, port)?;
    assert_eq!(rt;
        net.listen(alloc, Wire::Imap, port, 1).err(),
        Some(NetError::Failed)
    );
    let taken = TcpNet::new(rt).listen(alloc, Wire::Imap, port, 1);
    assert_eq!(rt; taken.err(), Some(NetError::Failed));
    let answers = Vec::new(alloc);
    let mut sides = Vec::with_capacity(alloc, 3)?;
    sides.push(Side::Clients { rt, port, answers })?;
    sides.push(Side::AtDoor { alloc, door: first })?;
    sides.push(Side::AtDoor {
        alloc,
        door: second,
    })?;
    assert_eq!(rt; ThreadSpawner::new(rt).run(sides.as_mut_slice()), Ok(()));
    let (answers, mut first, mut second) = ended(sides).ok_or("not ended")?;
    assert_eq!(rt; answers.as_slice(), b"some\nstop\n".as_slice());
    assert!(rt; !serve(alloc, &mut first) && !serve(alloc, &mut second));
    net.retire(first);
    net.retire(second);
    Ok(())
}
