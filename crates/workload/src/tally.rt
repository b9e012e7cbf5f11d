// How often each answer was given.
ghost use Rattle.std.specs.Prelude.{◌≡◌, ◌≤◌, ◌<◌, ◌+◌, ◌^◌, ◌∷◌, [], IfSome, IfNone, length};
ghost use Rattle.workload.specs.Summaries.{lines_in, lines_that, is_delivered, is_refused, is_removal, is_missing, if_so};

use memchr::memchr;

/// How many deliveries were accepted and refused, and how many removals found their message and
/// missed it.
#[derive(Clone, Copy, Debug, PartialEq, Eq)]
pub(crate) struct Tally {
    pub(crate) delivered: u64,
    pub(crate) refused: u64,
    pub(crate) removed: u64,
    pub(crate) missing: u64,
}

impl Tally {
    /// Counts an answer's line.
    fn count(&mut self, line: &[u8])
        requires delivered { self.old.delivered ≤ 2 ^ 63 }
        requires refused { self.old.refused ≤ 2 ^ 63 }
        requires removed { self.old.removed ≤ 2 ^ 63 }
        requires missing { self.old.missing ≤ 2 ^ 63 }
        ensures { self.new ≡ record {
          delivered = self.old.delivered + if_so (is_delivered line.now);
          refused = self.old.refused + if_so (is_refused line.now);
          removed = self.old.removed + if_so (is_removal line.now);
          missing = self.old.missing + if_so (is_missing line.now);
        } }
    {
        self.delivered += u64::from(line.starts_with(b"action=delivered "));
        self.refused += u64::from(line.starts_with(b"action=over "));
        self.removed += u64::from(line == b"action=done".as_slice());
        self.missing += u64::from(line == b"action=no-message".as_slice());
    }
}

/// The bytes before the first line feed, and the bytes after it; `None` if there is no line feed.
fn first_line(text: &[u8]) -> Option<(&[u8], &[u8])>
    ensures some { IfSome result (λ r. lines_in text.now ≡ r.0.now ∷ lines_in r.1.now) }
    ensures shorter { IfSome result (λ r. length r.1.now < length text.now) }
    ensures none { IfNone result (lines_in text.now ≡ text.now ∷ []) }
{
    match memchr(b'\n', text) {
        Some(end) => Some((&text[..end], &text[end + 1..])),
        None => None,
    }
}

/// How often each answer stands in a text that has one answer a line.
pub(crate) fn count_answers(text: &[u8]) -> Tally
    ensures delivered { result.delivered ≡ lines_that is_delivered text.now }
    ensures refused { result.refused ≡ lines_that is_refused text.now }
    ensures removed { result.removed ≡ lines_that is_removal text.now }
    ensures missing { result.missing ≡ lines_that is_missing text.now }
{
    let mut tally = Tally {
        delivered: 0,
        refused: 0,
        removed: 0,
        missing: 0,
    };
    let mut rest = text;
    while let Some((line, after)) = first_line(rest) {
        tally.count(line);
        rest = after;
    }
    tally.count(rest);
    tally
}
