ghost use Rattle.std.specs.Prelude.{List};
ghost use Rattle.accounts_file.specs.Hosts.{Hosts};
ghost use Rattle.account_core.specs.History.{Answer};
ghost use Rattle.desk.specs.Asking.{DeskCall};
ghost use Rattle.desk.specs.Logs.{IsLog};
ghost use Rattle.desk.specs.Shares.{Share};
ghost use Rattle.front_core.specs.Desks.{IsDeskOf};

/// A law: a desk that has the accounts of a table still has them after any calls.
pub fn calls_keep_accounts()
    ensures { (hosts : Hosts) (shares shares' : List Share) (log : List (DeskCall × Answer))
        → IsDeskOf hosts shares → IsLog shares shares' log → IsDeskOf hosts shares' }
{}
