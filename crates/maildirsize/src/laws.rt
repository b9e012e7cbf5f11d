ghost use Rattle.maildirsize.specs.Laws.{OneReading, WrittenReadsBack};

/// A law: a text reads as a ledger in at most one way, with one set of limits and one list of
/// pairs.
pub fn one_reading()
    ensures { OneReading }
{}

/// A law: a written ledger that is shorter than 5120 bytes, and whose numbers are below 10^18 in
/// magnitude, reads as the limits and pairs that were written, and as no others.
pub fn written_reads_back()
    ensures { WrittenReadsBack }
{}
