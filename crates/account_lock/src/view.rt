use std::marker::Model;

/// What a thread that makes steps on a lock's words knows. It exists in proofs alone: contracts see
/// it as the record `View`, and no value of it is made.
pub struct View(());

impl Model for View {
    ghost use Rattle.account_lock.specs.Known.{View as Known, nobody};

    ghost Value = { Known };

    ghost view = { λ _. nobody };
}
