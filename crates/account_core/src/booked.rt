ghost use Rattle.std.specs.Prelude.{List};
ghost use Rattle.account_core.specs.declared.calls.Entry.{Entry};
ghost use Rattle.account_core.specs.Histories.{Origin};

/// A value that stands for a history of an account. It names the history for contracts, and has no
/// method.
///
/// Its members are where the history begins, that is what the account was opened with, and the
/// entries since then.
pub trait Booked {
    ghost origin: { Self → Origin };

    ghost history: { Self → List Entry };
}
