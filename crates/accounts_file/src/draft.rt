use quota_roots::{NameList, RootSpec};
use quota_units::{Limits, Name};
use std::marker::Model;

/// An account as the file gives it, before names are compared.
#[derive(Drop)]
pub(crate) struct Draft {
    pub(crate) name: Name,
    pub(crate) password: Name,
    pub(crate) token: Name,
    pub(crate) admin: bool,
    pub(crate) recipients: NameList,
    pub(crate) mailboxes: NameList,
    pub(crate) specs: Vec<RootSpec>,
    pub(crate) limits: Vec<Limits>,
    pub(crate) journal: u32,
}

impl Model for Draft {
    ghost use Rattle.accounts_file.specs.declared.entry.AccountEntry.{AccountEntry};

    ghost Value = { AccountEntry };

    ghost use Rattle.accounts_file.specs.Accounts.{IsDrafted};

    ghost view = { λ d. record {
      name = d.name;
      password = d.password;
      token = d.token;
      admin =
          d.admin;
      recipients = d.recipients;
      setup = record {
        roots = d.specs.items;
        limits =
            d.limits.items;
        mailboxes = d.mailboxes;
        journal = d.journal;
      };
    } };

    ghost invariant = { λ d. IsDrafted (record {
      name = d.name;
      password = d.password;
      token =
          d.token;
      admin = d.admin;
      recipients = d.recipients;
      setup = record {
        roots = d.specs.items;
        limits = d.limits.items;
        mailboxes = d.mailboxes;
        journal = d.journal;
      };
    }) };
}
