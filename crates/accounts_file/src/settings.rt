ghost use Rattle.std.specs.Prelude.{◌≡◌};
ghost use Rattle.toml.specs.View.{table_view};
ghost use Rattle.accounts_file.specs.Files.{settings_of, settings_refusal};
ghost use Rattle.accounts_file.specs.Refusals.{IsRead};
ghost use Rattle.accounts_file.specs.Rules.{largest};
ghost use Rattle.accounts_file.specs.Values.{number_at, number_refusal};

use crate::error::AccountsError;
use crate::key::Key;
use crate::values::number_at;
use toml::Table;

/// The listeners of a host, and the workers of each.
#[derive(Clone, Copy, Debug, PartialEq, Eq)]
pub struct Settings {
    /// The port of the IMAP listener; `None` if it is not opened.
    pub imap: Option<u16>,
    /// The port of the JMAP listener; `None` if it is not opened.
    pub jmap: Option<u16>,
    /// The port of the policy listener; `None` if it is not opened.
    pub policy: Option<u16>,
    /// The workers of each listener.
    pub workers: u32,
}

/// The ports and the number of workers of a file.
pub(crate) fn read_settings(file: &Table) -> Result<Settings, AccountsError>
    ensures { IsRead (settings_refusal (table_view file.now))
        (settings_of (table_view file.now)) result }
{
    let imap = port_at(file, Key::Imap)?;
    let jmap = port_at(file, Key::Jmap)?;
    let policy = port_at(file, Key::Policy)?;
    let workers = number_at(file, Key::Workers)?.unwrap_or(2) as u32;
    Ok(Settings {
        imap,
        jmap,
        policy,
        workers,
    })
}

/// The port at the key.
fn port_at(file: &Table, key: Key) -> Result<Option<u16>, AccountsError>
    requires { largest key ≡ 65535 }
    ensures { IsRead (number_refusal key (table_view file.now))
        (number_at key (table_view file.now)) result }
{
    match number_at(file, key)? {
        None => Ok(None),
        Some(port) => Ok(Some(port as u16)),
    }
}
