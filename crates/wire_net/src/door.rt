// A door: connections come through it, one after the other.
ghost use Rattle.std.specs.Prelude.{◌≡◌, ◌<◌, ◌+◌, ℕ, Bool, true, Option};
ghost use Rattle.quota_units.specs.Causes.{HasCause};
ghost use Rattle.wire_net.specs.Told.{Told};
ghost use Rattle.wire_net.specs.Doors.{MatchAccepted, IsStopped, IsMissed, Hands, Finishes, MayFinish};

use wire_io::{Sink, Source};

/// What an accept answers.
pub enum Accepted<I, O> {
    /// A client has connected. Its bytes come from `input`, and bytes for it go to `output`.
    Connected { input: I, output: O },
    /// The door was asked to stop, or no more connections come.
    Stopped,
    /// The accept failed. The failure was counted.
    Failed,
}

/// What connections come through, one after the other.
///
/// Whatever a door shows of its connections to contracts, it shows in `told`: the bytes of each
/// connection that it gave, and an item for each connection that it got back. It never got back
/// more than it gave. Only `accept` changes `misses`, `ended` and the connections given, only
/// `stop` changes `asked`, and only `finish` changes the items.
pub trait Door {
    /// What a connection's bytes come from.
    type In: Source;

    /// What bytes for a connection go to.
    type Out: Sink;

    /// How many accepts in a row have failed, up to now.
    ghost misses: { Self → ℕ };

    /// An accept has answered `Stopped`.
    ghost ended: { Self → Bool };

    /// The door was asked to stop.
    ghost asked: { Self → Bool };

    /// The connections that the door gave and got back, if it shows them to contracts.
    ghost told: { Self → Option Told };

    /// How often an accept has failed. The count stays at 2^64 - 1 once it is there.
    ghost faults: { Self → ℕ };

    /// Waits for the next connection. After sixteen failures in a row it is not to be called.
    ///
    /// A door that was asked to stop answers `Stopped`. If the door shows its connections to
    /// contracts, both ends of a connection show their bytes too. Neither end has a fault, and
    /// nothing is written yet.
    fn accept(&mut self) -> Accepted<Self::In, Self::Out>
        requires { misses self.old < 16 }
        ensures misses { MatchAccepted result (λ _ _. misses self.new ≡ 0) (misses self.new ≡ 0)
            (misses self.new ≡ misses self.old + 1) }
        ensures ended { MatchAccepted result (λ _ _. ended self.new ≡ ended self.old)
            (ended self.new ≡ true) (ended self.new ≡ ended self.old) }
        ensures asked { asked self.new ≡ asked self.old }
        ensures stops { asked self.old ≡ true → IsStopped result }
        ensures cause { HasCause (IsMissed result) (faults self.old) (faults self.new) }
        ensures told { MatchAccepted result
            (λ input output. Hands (Self.In.left input) (Self.Out.written output)
            (told self.old) (told self.new))
            (told self.new ≡ told self.old) (told self.new ≡ told self.old) }
        ensures counts { MatchAccepted result
            (λ input output. (Self.In.faults input ≡ 0) × (Self.Out.faults output ≡ 0))
            (Unit {0}) (Unit {0}) };

    /// Asks all doors of this door's net to answer `Stopped` from now on.
    fn stop(&mut self)
        ensures asked { asked self.new ≡ true }
        ensures marks { (misses self.new ≡ misses self.old) × (ended self.new ≡ ended self.old) }
        ensures told { told self.new ≡ told self.old }
        ensures faults { faults self.new ≡ faults self.old };

    /// Closes a connection that the door gave, and takes it back. This allocates no memory.
    fn finish(&mut self, input: Self::In, output: Self::Out)
        requires { MayFinish (told self.old) }
        ensures told { Finishes (record {
          left = Self.In.left input;
          written = Self.Out.written output;
          read_faults = Self.In.faults input;
          write_faults = Self.Out.faults output;
        }) (told self.old) (told self.new) }
        ensures marks { (misses self.new ≡ misses self.old) × (ended self.new ≡ ended self.old)
            × (asked self.new ≡ asked self.old) }
        ensures faults { faults self.new ≡ faults self.old };
}
