use crate::Bytes;
use quota_units::Name;
use std::marker::Model;

/// A file of a mailbox: its name, and its length in octets.
#[derive(Debug, Drop)]
pub struct FileRow {
    pub name: Bytes,
    pub length: u64,
}

/// A message file that is given to a keeper: its mailbox, its name and its octets.
#[derive(Debug, Drop)]
pub struct StoreRow {
    pub mailbox: Name,
    pub name: Bytes,
    pub octets: Bytes,
}

impl Model for StoreRow {
    ghost use Rattle.keeper.specs.Files.{Row};

    ghost Value = { Row };

    ghost view = { λ r. record { mailbox = r.mailbox; name = r.name; octets = r.octets } };
}
