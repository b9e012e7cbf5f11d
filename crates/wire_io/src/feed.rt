ghost use Rattle.std.specs.Prelude.{◌≡◌, ◌≢◌, ◌≤◌, ◌<◌, ◌-◌, ◌+◌, ◌⊎◌, ◌↔◌, ℕ, List, [], ◌++◌, true, false, Option, take, drop, IfOk, IfErr, IsOk, OnOk, OnErr, IsErrOf, length, MatchResult};
ghost use Rattle.std.specs.Io.KnownBytes.{Consumes, Keeps, IsAtEnd};
ghost use Rattle.quota_units.specs.Causes.{HasCause};
ghost use Rattle.wire_io.specs.Lines.{HasNoEnd, IsLine};

use super::ends::{FeedEnd, LineEnd};
use super::piece::Piece;
use super::source::Source;
use memchr::memchr;
use quota_units::NoMemory;

/// How many of the first bytes belong to a line that has room for `room` more, and whether they end
/// it.
#[inline(always)]
fn line_prefix(bytes: &[u8], room: usize) -> (usize, bool)
    requires some { 0 < length bytes.now }
    requires room { 0 < room }
    ensures some { 0 < result.0 }
    ensures within { result.0 ≤ length bytes.now }
    ensures fits { result.0 ≤ room }
    ensures whole { result.1 ≡ true → IsLine (take result.0 bytes.now) }
    ensures begun { result.1 ≡ false → HasNoEnd (take result.0 bytes.now) }
{
    let prefix = &bytes[..room.min(bytes.len())];
    match memchr(b'\n', prefix) {
        Some(place) => (place + 1, true),
        None => (prefix.len(), false),
    }
}

/// Hands out the bytes of a source, one line or a given number of bytes at a time. It never takes
/// more bytes from the source than its limit.
///
/// It reads ahead by at most 4096 bytes. It reads only if a byte is needed and none waits.
pub struct Feed<'a, S: Source> {
    source: &'a mut S,
    waiting: Piece,
    handed: u64,
    limit: u64,
    ghost within: { handed + length waiting ≤ limit },
}

impl<S: Source> Drop for Feed<'_, S> {
    ghost use Rattle.wire_io.specs.Feeds.{source_of};

    fn drop(self)
        ensures { self.exit.0.now ≡ source_of self.entry }
    {
        let Feed {
            source: _,
            waiting: _,
            handed: _,
            limit: _,
        } = self;
    }
}

impl<'a, S: Source> Feed<'a, S> {
    ghost use Rattle.wire_io.specs.Feeding.{gained, Hands, IsBegun, IsTooLong, IsDry};
    ghost use Rattle.wire_io.specs.Feeds.{source_of, source_name, waiting_of, handed_of, taken_of, limit_of};

    /// A feed that takes at most `limit` bytes from the source. It allocates no memory.
    pub fn new(source: &'a mut S, limit: u64) -> Result<Feed<'a, S>, NoMemory>
        ensures always { IsOk result }
        ensures same_source { IfOk result (λ feed. source_name feed ≡ source.entry.ghost_name) }
        ensures source { IfOk result (λ feed. source_of feed ≡ source.old) }
        ensures empty { IfOk result (λ feed. waiting_of feed ≡ []) }
        ensures untaken { IfOk result (λ feed. taken_of feed ≡ 0) }
        ensures at_start { IfOk result (λ feed. handed_of feed ≡ 0) }
        ensures limit { IfOk result (λ feed. limit_of feed ≡ limit) }
    {
        Ok(Feed {
            source,
            waiting: Piece::new(),
            handed: 0,
            limit,
        })
    }

    /// How many bytes the feed has handed out.
    pub fn at(&self) -> u64
        ensures { result ≡ handed_of self.now }
    {
        self.handed
    }

    /// Appends one line to `out`, its line feed included, and returns `Whole`.
    ///
    /// A line has at most `max` bytes. If the next `max` bytes hold no line feed, they are
    /// appended, and the line is `TooLong`. The feed reads only if a byte is needed and none waits.
    /// With `max` 0 no byte is needed.
    ///
    /// # Errors
    ///
    /// An error comes only if one more byte was needed. `Fault`: the read failed. `Ended`: the
    /// source ended, and the feed had taken fewer bytes than its limit. `Limit`: the feed had taken
    /// as many bytes as its limit. After these three, all bytes that were taken have been handed
    /// out. `NoMemory`: `out` could not grow, and the bytes that it did not gain still wait.
    #[inline(always)]
    #[tactic(auto, using(crate::proofs::LineLemmas::line_has_end))]
    pub fn line(&mut self, out: &mut Vec<u8>, max: usize) -> Result<LineEnd, FeedEnd>
        // The feed keeps the source that was lent to it, and takes no more bytes than its limit.
        ensures same_source { source_name self.new ≡ source_name self.old }
        ensures same_limit { limit_of self.new ≡ limit_of self.old }
        ensures within { taken_of self.new ≤ limit_of self.new }

        // The bytes that `out` gains are handed out. No byte is lost, and none comes twice.
        ensures grows { out.new.items ≡ out.old.items ++ gained out.old.items out.new.items }
        ensures hands { Hands (S.left (source_of self.old)) (S.left (source_of self.new))
            (waiting_of self.old) (waiting_of self.new) (taken_of self.old) (taken_of self.new)
            (gained out.old.items out.new.items) }
        ensures counts { handed_of self.new
            ≡ handed_of self.old + length (gained out.old.items out.new.items) }

        ensures most { length (gained out.old.items out.new.items) ≤ max }
        ensures whole { (result ≡ Ok LineEnd.Whole) ↔ IsLine (gained out.old.items out.new.items) }
        ensures too_long { (result ≡ Ok LineEnd.TooLong)
            ↔ IsTooLong (gained out.old.items out.new.items) max }

        // Below the limit, the source failed or ended. If it ended, it has no byte left.
        ensures below_limit { (IsErrOf result FeedEnd.Fault ⊎ IsErrOf result FeedEnd.Ended)
            ↔ (IsBegun (gained out.old.items out.new.items) max × (waiting_of self.new ≡ [])
            × (taken_of self.new < limit_of self.new)) }
        ensures at_limit { IsErrOf result FeedEnd.Limit
            ↔ (IsBegun (gained out.old.items out.new.items) max × (waiting_of self.new ≡ [])
            × (taken_of self.new ≡ limit_of self.new)) }
        ensures ended { IsErrOf result FeedEnd.Ended → IsAtEnd (S.left (source_of self.new)) }
        ensures no_memory { IsErrOf result FeedEnd.NoMemory
            ↔ (IsBegun (gained out.old.items out.new.items) max × (waiting_of self.new ≢ [])) }

        // A line that waits is handed out without a read.
        ensures unread { IsOk result
            → length (gained out.old.items out.new.items) ≤ length (waiting_of self.old)
            → (source_of self.new ≡ source_of self.old) × (taken_of self.new ≡ taken_of self.old) }

        ensures cause { HasCause (IsErrOf result FeedEnd.Fault) (S.faults (source_of self.old))
            (S.faults (source_of self.new)) }
    {
        let mut room = max;
        while room > 0 {
            self.ready()?;
            let (count, is_whole) = line_prefix(self.waiting.as_slice(), room);
            self.hand_out(out, count)?;
            if is_whole {
                return Ok(LineEnd::Whole);
            }
            room -= count;
        }
        Ok(LineEnd::TooLong)
    }

    /// Appends the next `count` bytes to `out`.
    ///
    /// The feed reads only if a byte is needed and none waits. With `count` 0 no byte is needed.
    ///
    /// # Errors
    ///
    /// The errors are those of [`line`](Feed::line). Each comes only if one more byte was needed.
    pub fn exact(&mut self, out: &mut Vec<u8>, count: usize) -> Result<(), FeedEnd>
        // The feed keeps the source that was lent to it, and takes no more bytes than its limit.
        ensures same_source { source_name self.new ≡ source_name self.old }
        ensures same_limit { limit_of self.new ≡ limit_of self.old }
        ensures within { taken_of self.new ≤ limit_of self.new }

        // The bytes that `out` gains are handed out. No byte is lost, and none comes twice.
        ensures grows { out.new.items ≡ out.old.items ++ gained out.old.items out.new.items }
        ensures hands { Hands (S.left (source_of self.old)) (S.left (source_of self.new))
            (waiting_of self.old) (waiting_of self.new) (taken_of self.old) (taken_of self.new)
            (gained out.old.items out.new.items) }
        ensures counts { handed_of self.new
            ≡ handed_of self.old + length (gained out.old.items out.new.items) }

        ensures most { length (gained out.old.items out.new.items) ≤ count }
        ensures all { IsOk result ↔ (length (gained out.old.items out.new.items) ≡ count) }

        // Below the limit, the source failed or ended. If it ended, it has no byte left.
        ensures below_limit { (IsErrOf result FeedEnd.Fault ⊎ IsErrOf result FeedEnd.Ended)
            ↔ ((length (gained out.old.items out.new.items) < count) × (waiting_of self.new ≡ [])
            × (taken_of self.new < limit_of self.new)) }
        ensures at_limit { IsErrOf result FeedEnd.Limit
            ↔ ((length (gained out.old.items out.new.items) < count) × (waiting_of self.new ≡ [])
            × (taken_of self.new ≡ limit_of self.new)) }
        ensures ended { IsErrOf result FeedEnd.Ended → IsAtEnd (S.left (source_of self.new)) }
        ensures no_memory { IsErrOf result FeedEnd.NoMemory
            ↔ ((length (gained out.old.items out.new.items) < count) × (waiting_of self.new ≢ [])) }

        // Bytes that wait are handed out without a read.
        ensures unread { IsOk result
            → length (gained out.old.items out.new.items) ≤ length (waiting_of self.old)
            → (source_of self.new ≡ source_of self.old) × (taken_of self.new ≡ taken_of self.old) }

        ensures cause { HasCause (IsErrOf result FeedEnd.Fault) (S.faults (source_of self.old))
            (S.faults (source_of self.new)) }
    {
        let mut room = count;
        while room > 0 {
            self.ready()?;
            let next = room.min(self.waiting.len());
            self.hand_out(out, next)?;
            room -= next;
        }
        Ok(())
    }

    /// Makes sure that a byte waits. It reads only if none waits.
    #[inline(always)]
    fn ready(&mut self) -> Result<(), FeedEnd>
        ensures same_source { source_name self.new ≡ source_name self.old }
        ensures same_limit { limit_of self.new ≡ limit_of self.old }
        ensures same_handed { handed_of self.new ≡ handed_of self.old }
        ensures hands { Hands (S.left (source_of self.old)) (S.left (source_of self.new))
            (waiting_of self.old) (waiting_of self.new) (taken_of self.old) (taken_of self.new) [] }
        ensures ready { OnOk result (0 < length (waiting_of self.new)) }
        ensures none { OnErr result (waiting_of self.new ≡ []) }
        ensures unread { 0 < length (waiting_of self.old)
            → (source_of self.new ≡ source_of self.old) × (taken_of self.new ≡ taken_of self.old) }
        ensures dry { IfErr result (λ end.
            IsDry end (S.left (source_of self.new)) (taken_of self.new) (limit_of self.new)) }
        ensures cause { HasCause (IsErrOf result FeedEnd.Fault) (S.faults (source_of self.old))
            (S.faults (source_of self.new)) }
    {
        if self.waiting.len() > 0 {
            return Ok(());
        }
        let most = self.limit - self.handed;
        if most == 0 {
            return Err(FeedEnd::Limit);
        }
        if self.waiting.fill(self.source, most)? == 0 {
            return Err(FeedEnd::Ended);
        }
        Ok(())
    }

    /// Hands out the first `count` of the bytes that wait.
    #[inline(always)]
    fn hand_out(&mut self, out: &mut Vec<u8>, count: usize) -> Result<(), FeedEnd>
        requires { count ≤ length (waiting_of self.old) }
        ensures same_source { source_name self.new ≡ source_name self.old }
        ensures unread { source_of self.new ≡ source_of self.old }
        ensures same_taken { taken_of self.new ≡ taken_of self.old }
        ensures same_limit { limit_of self.new ≡ limit_of self.old }
        ensures grows { OnOk result
            (out.new.items ≡ out.old.items ++ take count (waiting_of self.old)) }
        ensures rest { OnOk result (waiting_of self.new ≡ drop count (waiting_of self.old)) }
        ensures counts { OnOk result (handed_of self.new ≡ handed_of self.old + count) }
        ensures same_out { OnErr result (out.new.items ≡ out.old.items) }
        ensures same_waiting { OnErr result (waiting_of self.new ≡ waiting_of self.old) }
        ensures same_handed { OnErr result (handed_of self.new ≡ handed_of self.old) }
        ensures only { IfErr result (λ end. end ≡ FeedEnd.NoMemory) }
    {
        out.extend_from_slice(&self.waiting.as_slice()[..count])?;
        self.waiting.skip(count);
        self.handed += count as u64;
        Ok(())
    }
}
