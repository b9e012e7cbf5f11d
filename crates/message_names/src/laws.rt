ghost use Rattle.message_names.specs.Laws.{OneSize, WrittenReadsBack, RenamedReadsBack};

/// A law: a unique part names the size at the first of its places that name one, and no other size.
pub fn one_size()
    ensures { OneSize }
{}

/// A law: a written name gives back the base, the size cut at 1099511627775, and the flags that
/// were written.
pub fn written_reads_back()
    ensures { WrittenReadsBack }
{}

/// A law: a name with new flags has the unique part of the old name, the new flags, and the old
/// name's bytes after `2,` that name no flag.
pub fn renamed_reads_back()
    ensures { RenamedReadsBack }
{}
