use quota_roots::{NameList, Setup};
use quota_units::Name;

/// An account of a host.
#[derive(Drop)]
pub struct AccountEntry {
    /// Its name, which is its JMAP id too.
    pub name: Name,
    /// The password of its owner; empty if nobody can log in.
    pub password: Name,
    /// The token of its owner; empty if there is none.
    pub token: Name,
    /// Whether its owner may set limits.
    pub admin: bool,
    /// The addresses whose mail it gets. They are compared in any ASCII case.
    pub recipients: NameList,
    /// What it is opened with.
    pub setup: Setup,
}
