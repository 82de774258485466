//! Warnings of sets.
ghost use Rattle.gw_addr.specs.Appending.{IsAppended};
ghost use Rattle.gw_script.specs.Order.{in_order};
ghost use Rattle.gw_policy_review.specs.warnings.Warnings.{set_line, set_lines};

use crate::warnings::spot::{put_name, put_numbered};
use gw_addr::{put_octet, put_slice};
use gw_configuration::Set;
use gw_rules::RuleName;
use std::alloc::AllocError;

/// Appends a line for each set that no rule names.
pub(crate) fn put_sets(out: &mut Vec<u8>, sets: &[Set]) -> Result<(), AllocError>
    ensures { IsAppended (in_order set_lines 0 sets.now) out.old out.new result }
{
    for (index, set) in sets.iter().enumerate() {
        put_set(out, index, set)?;
    }
    Ok(())
}

fn put_set(out: &mut Vec<u8>, index: usize, set: &Set) -> Result<(), AllocError>
    ensures { IsAppended (set_lines index set.now) out.old out.new result }
{
    if set.used {
        Ok(())
    } else {
        put_unused(out, index, &set.name)
    }
}

fn put_unused(out: &mut Vec<u8>, index: usize, name: &RuleName) -> Result<(), AllocError>
    ensures { IsAppended (set_line index name.now) out.old out.new result }
{
    put_numbered(out, b"warning: set ", index)?;
    put_name(out, name)?;
    put_slice(out, b"no rule names it")?;
    put_octet(out, b'\n')
}
