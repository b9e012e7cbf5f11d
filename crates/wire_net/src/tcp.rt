// A net over TCP, for clients on this machine alone.
ghost use Rattle.std.specs.Prelude.{◌≡◌, ◌≤◌, ◌<◌, ◌+◌, true, None, IfOk, IsTrue, length};
ghost use Rattle.std.specs.List.{All};
ghost use Rattle.wire_io.specs.Memory.{next_number};
ghost use Rattle.wire_net.specs.Doors.{IsFresh};
ghost use Rattle.wire_net.specs.Tcp.{misses_of, ended_of, asked_of, faults_of, untold, net_out_of, net_faults_of};

use crate::door::{Accepted, Door};
use crate::net::{Net, NetError};
use std::alloc::{AllocError, Global};
use std::net::{Ipv4Addr, SocketAddr, TcpListener, TcpStream};
use std::sync::Arc;
use std::sync::atomic::{AtomicBool, AtomicU16, AtomicU32, Ordering};
use std::time::Duration;
use std::{io, net};
use wire_io::{StdSink, StdSource, Wire};

/// A client that sends nothing for so long is dropped: 30 minutes, in seconds (RFC 9051, 5.4).
const READ_LIMIT: u64 = 1800;

/// How long a door that wakes the others waits for a connection to one of them, in milliseconds.
const WAKE_LIMIT: u64 = 100;

/// The port of a wire, and how many doors accept there. A wire without doors has none.
#[derive(Drop)]
struct Listening {
    port: AtomicU16,
    doors: AtomicU32,
}

impl Listening {
    fn none() -> Listening {
        Listening {
            port: AtomicU16::new(0),
            doors: AtomicU32::new(0),
        }
    }
}

/// What all doors of a net know: whether one of them was asked to stop, and where they accept.
#[derive(Drop)]
struct Shared {
    stopped: AtomicBool,
    imap: Listening,
    jmap: Listening,
    policy: Listening,
}

impl Shared {
    fn new() -> Shared {
        Shared {
            stopped: AtomicBool::new(false),
            imap: Listening::none(),
            jmap: Listening::none(),
            policy: Listening::none(),
        }
    }

    fn of(&self, wire: Wire) -> &Listening {
        match wire {
            Wire::Imap => &self.imap,
            Wire::Jmap => &self.jmap,
            Wire::Policy => &self.policy,
        }
    }
}

/// A door at a port of 127.0.0.1. Several doors accept at one port, each for itself.
///
/// It shows no connections to contracts. A connection has no delay set on what is written. A read
/// fails if the client sends nothing for 30 minutes.
#[derive(Drop)]
pub struct TcpDoor<R> {
    rt: R,
    listener: TcpListener,
    shared: Arc<Shared, Global>,
    misses: u32,
    ended: bool,
    asked: bool,
    faults: u64,
}

impl<R> TcpDoor<R> {
    /// A door of this net was asked to stop.
    fn is_stopping(&self) -> bool
        ensures { asked_of self.now ≡ true → IsTrue result }
    {
        self.asked || self.shared.stopped.load(Ordering::SeqCst)
    }

    /// How many accepts in a row have failed, up to now.
    pub(crate) fn misses(&self) -> u32
        ensures { result ≡ misses_of self.now }
    {
        self.misses
    }

    /// No connection comes any more.
    fn end<I, O>(&mut self) -> Accepted<I, O>
        ensures answer { result ≡ Accepted.Stopped }
        ensures after { self.new ≡ record self.old { misses = 0; ended = true } }
    {
        self.misses = 0;
        self.ended = true;
        Accepted::Stopped
    }

    /// An accept failed.
    fn miss<I, O>(&mut self) -> Accepted<I, O>
        requires { misses_of self.old < 16 }
        ensures answer { result ≡ Accepted.Failed }
        ensures after { self.new ≡ record self.old {
          misses = misses_of self.old + 1;
          faults = next_number (faults_of self.old);
        } }
        ensures later { faults_of self.old ≤ faults_of self.new }
    {
        self.misses += 1;
        self.faults = self.faults.saturating_add(1);
        Accepted::Failed
    }
}

/// Waits for the next connection at a port. Both ends are of one socket.
fn connection(listener: &TcpListener) -> io::Result<(TcpStream, TcpStream)> {
    let (stream, _) = listener.accept()?;
    stream.set_nodelay(true)?;
    stream.set_read_timeout(Some(Duration::from_secs(READ_LIMIT)))?;
    let other = stream.try_clone()?;
    Ok((stream, other))
}

/// Connects once to each door that accepts here, so that a door that waits looks up.
fn wake<R: net::Net>(rt: &R, listening: &Listening) {
    let doors = listening.doors.load(Ordering::SeqCst);
    let port = listening.port.load(Ordering::SeqCst);
    let address = SocketAddr::from((Ipv4Addr::LOCALHOST, port));
    for _ in 0..doors {
        drop(rt.connect_timeout(address, Duration::from_millis(WAKE_LIMIT)));
    }
}

impl<R: net::Net<Listener = TcpListener, Stream = TcpStream>> Door for TcpDoor<R> {
    type In = StdSource<TcpStream>;

    type Out = StdSink<TcpStream>;

    ghost misses = { misses_of };

    ghost ended = { ended_of };

    ghost asked = { asked_of };

    ghost told = { untold };

    ghost faults = { faults_of };

    fn accept(&mut self) -> Accepted<StdSource<TcpStream>, StdSink<TcpStream>> {
        if self.is_stopping() {
            return self.end();
        }
        let Ok((input, output)) = connection(&self.listener) else {
            return self.miss();
        };
        if self.is_stopping() {
            return self.end();
        }
        self.misses = 0;
        Accepted::Connected {
            input: StdSource::new(input),
            output: StdSink::new(output),
        }
    }

    fn stop(&mut self) {
        self.asked = true;
        if !self.shared.stopped.swap(true, Ordering::SeqCst) {
            wake(&self.rt, &self.shared.imap);
            wake(&self.rt, &self.shared.jmap);
            wake(&self.rt, &self.shared.policy);
        }
    }

    fn finish(&mut self, _input: StdSource<TcpStream>, _output: StdSink<TcpStream>) {}
}

/// A net over TCP on 127.0.0.1. It opens doors once for each wire.
#[derive(Drop)]
pub struct TcpNet<R> {
    rt: R,
    shared: Option<Arc<Shared, Global>>,
    out: u64,
    faults: u64,
}

impl<R> TcpNet<R> {
    /// A net that has no door open.
    pub fn new(rt: R) -> TcpNet<R>
        ensures none { (net_out_of result ≡ 0) × (net_faults_of result ≡ 0) }
    {
        TcpNet {
            rt,
            shared: None,
            out: 0,
            faults: 0,
        }
    }

    /// What all doors of this net know.
    fn shared(&mut self, alloc: Global) -> Result<Arc<Shared, Global>, AllocError>
        ensures { (net_out_of self.new ≡ net_out_of self.old)
            × (net_faults_of self.new ≡ net_faults_of self.old) }
    {
        if let Some(shared) = &self.shared {
            return Arc::try_clone(shared);
        }
        let shared = Arc::new(alloc, Shared::new())?;
        let ours = Arc::try_clone(&shared)?;
        self.shared = Some(ours);
        Ok(shared)
    }

    /// Counts a failure.
    fn fail(&mut self) -> NetError
        ensures answer { result ≡ NetError.Failed }
        ensures out { net_out_of self.new ≡ net_out_of self.old }
        ensures counted { net_faults_of self.new ≡ next_number (net_faults_of self.old) }
        ensures later { net_faults_of self.old ≤ net_faults_of self.new }
    {
        self.faults = self.faults.saturating_add(1);
        NetError::Failed
    }
}

/// A door at a port that is listened at.
fn open_door<R: Clone>(
    rt: &R,
    listener: &TcpListener,
    shared: &Arc<Shared, Global>,
) -> Result<TcpDoor<R>, NetError>
    ensures { IfOk result (IsFresh misses_of ended_of asked_of untold) }
{
    let Ok(listener) = listener.try_clone() else {
        return Err(NetError::Failed);
    };
    Ok(TcpDoor {
        rt: rt.clone()?,
        listener,
        shared: Arc::try_clone(shared)?,
        misses: 0,
        ended: false,
        asked: false,
        faults: 0,
    })
}

/// Doors that accept at one port.
fn open_doors<R: net::Net<Listener = TcpListener, Stream = TcpStream> + Clone>(
    rt: &R,
    alloc: Global,
    shared: &Arc<Shared, Global>,
    wire: Wire,
    port: u16,
    doors: u32,
) -> Result<Vec<TcpDoor<R>>, NetError>
    ensures count { IfOk result (λ made. length made.items ≡ doors) }
    ensures fresh { IfOk result (λ made. All (IsFresh misses_of ended_of asked_of untold)
        made.items) }
{
    let listening = shared.of(wire);
    if listening.doors.load(Ordering::SeqCst) > 0 {
        return Err(NetError::Failed);
    }
    let mut made = Vec::with_capacity(alloc, doors as usize)?;
    let Ok(listener) = TcpListener::bind(rt, SocketAddr::from((Ipv4Addr::LOCALHOST, port))) else {
        return Err(NetError::Failed);
    };
    for _ in 0..doors {
        made.push_reserved(open_door(rt, &listener, shared)?);
    }
    listening.port.store(port, Ordering::SeqCst);
    listening.doors.store(doors, Ordering::SeqCst);
    Ok(made)
}

impl<R: net::Net<Listener = TcpListener, Stream = TcpStream> + Clone> Net for TcpNet<R> {
    type Door = TcpDoor<R>;

    ghost faults = { net_faults_of };

    ghost out = { net_out_of };

    ghost retired = { λ _. None };

    fn listen(
        &mut self,
        alloc: Global,
        wire: Wire,
        port: u16,
        doors: u32,
    ) -> Result<Vec<TcpDoor<R>>, NetError> {
        let shared = self.shared(alloc)?;
        let Some(out) = self.out.checked_add(doors as u64) else {
            return Err(self.fail());
        };
        match open_doors(&self.rt, alloc, &shared, wire, port, doors) {
            Ok(made) => {
                self.out = out;
                Ok(made)
            }
            Err(NetError::NoMemory) => Err(NetError::NoMemory),
            Err(NetError::Failed) => Err(self.fail()),
        }
    }

    fn retire(&mut self, door: TcpDoor<R>) {
        if door.misses() >= 16 {
            self.faults = self.faults.saturating_add(1);
        }
        self.out -= 1;
    }
}
