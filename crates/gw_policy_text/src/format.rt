//! What the format of a policy is read to.

ghost use Rattle.gw_policy_text.specs.Parts.{format_at};
ghost use Rattle.gw_configuration.specs.Reading.{Gives};
ghost use Rattle.toml.specs.View.{table_view};

use crate::keys::tables::format_numbered;
use crate::reading::number_at;
use gw_configuration::{ConfigFault, Format};
use toml::Table;

/// The format at a key, by its number. `Missing`, `Kind` or `Range`.
pub(crate) fn format_at(key: &str, table: &Table) -> Result<Format, ConfigFault>
    ensures { Gives (λ f. f) result (format_at key.now (table_view table.now)) }
{
    Ok(format_numbered(number_at(1, 3, key, table)?))
}
