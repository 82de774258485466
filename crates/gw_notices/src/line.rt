//! What is reported of a configuration that is read again.

ghost use Rattle.std.specs.Prelude.{◌≡◌, ◌++◌, IfOk, IfSome, Ok, OnOk, Some};
ghost use Rattle.gw_notices.specs.Reload.{IsRefusalLine, located_line, name_of, objects_words, policy_words, refusal_line, refusal_words};
ghost use Rattle.gw_notices.specs.Reload.{reload_line};
ghost use Rattle.gw_system.specs.Requests.{text_found};

use crate::parts::{ConfigurationPart, put_parts};
use crate::reload::ReloadFault;
use crate::rule_changes::{changes_of, put_changes};
use gw_addr::put_decimal;
use gw_configuration::{Config, ConfigFault};
use gw_policy_text::faults::{Explanation, explain};
use gw_rules::RuleList;
use gw_state::Saved;
use gw_state_words::put_take_over;
use gw_state_words::takeover::take_over;
use gw_system::{Obstacle, ReadFailure};
use std::alloc::{AllocError, Global};

/// The line of a configuration that a gateway with these rules in force takes over, of which this was saved: how many rules it
/// has and how they differ from those in force, how many objects, what goes on, and which of these parts differ. An `Err` only if a
/// growth was refused.
pub fn reload_line(
    alloc: Global,
    rules: &RuleList,
    config: &Config,
    saved: &Saved,
    differ: &[ConfigurationPart],
) -> Result<Vec<u8>, AllocError>
    ensures { IfOk result (λ line. line.items ≡ reload_line rules.now config.now saved.now differ.now) }
{
    let taken = take_over(alloc, config, saved)?;
    let mut line = Vec::from_slice(alloc, b"reload: ")?;
    put_policy(&mut line, rules, config)?;
    put_objects(&mut line, config)?;
    put_take_over(&taken, &mut line)?;
    put_parts(&mut line, differ)?;
    line.push(b'\n')?;
    Ok(line)
}

/// Appends how many objects a configuration has.
fn put_objects(line: &mut Vec<u8>, config: &Config) -> Result<(), AllocError>
    ensures { OnOk result (line.new.items ≡ line.old.items ++ objects_words config.now) }
{
    put_decimal(line, config.objects().len())?;
    line.extend_from_slice(b" objects; ")
}

/// Appends how many rules a configuration has and how they differ from those in force.
fn put_policy(line: &mut Vec<u8>, rules: &RuleList, config: &Config) -> Result<(), AllocError>
    ensures { OnOk result (line.new.items ≡ line.old.items ++ policy_words rules.now config.now) }
{
    let changes = changes_of(rules, config.rules());
    put_decimal(line, config.rules().rules().len())?;
    line.extend_from_slice(b" rules (")?;
    put_changes(&changes, line)?;
    line.extend_from_slice(b"), ")
}

/// The name of a fault of a configuration.
pub fn name_of(fault: ConfigFault) -> &'static str
    ensures { result.now ≡ name_of fault }
{
    match fault {
        ConfigFault::NotToml => "NotToml",
        ConfigFault::UnknownKey => "UnknownKey",
        ConfigFault::Missing => "Missing",
        ConfigFault::Kind => "Kind",
        ConfigFault::Range => "Range",
        ConfigFault::Duplicate => "Duplicate",
        ConfigFault::TooMany => "TooMany",
        ConfigFault::Memory => "Memory",
    }
}

/// The line of a configuration that isn't taken over, by the fault of its text.
fn refusal_of_text(fault: ConfigFault) -> &'static str
    ensures { result.now ≡ refusal_line (ReloadFault.Configuration fault) }
{
    match fault {
        ConfigFault::NotToml => "reload refused: configuration: NotToml\n",
        ConfigFault::UnknownKey => "reload refused: configuration: UnknownKey\n",
        ConfigFault::Missing => "reload refused: configuration: Missing\n",
        ConfigFault::Kind => "reload refused: configuration: Kind\n",
        ConfigFault::Range => "reload refused: configuration: Range\n",
        ConfigFault::Duplicate => "reload refused: configuration: Duplicate\n",
        ConfigFault::TooMany => "reload refused: configuration: TooMany\n",
        ConfigFault::Memory => "reload refused: configuration: Memory\n",
    }
}

/// The line of a configuration that isn't taken over, by why its file can't be read.
fn refusal_of_reading(why: Obstacle) -> &'static str
    ensures { result.now ≡ refusal_line (ReloadFault.Unreadable why) }
{
    match why {
        Obstacle::Absent => "reload refused: cannot read configuration: no such file\n",
        Obstacle::NotPermitted => "reload refused: cannot read configuration: permission denied\n",
        Obstacle::Folder => "reload refused: cannot read configuration: is a directory\n",
        Obstacle::Changed => {
            "reload refused: cannot read configuration: it isn't the text that was checked\n"
        }
        Obstacle::Other => "reload refused: cannot read configuration: it can't be read\n",
    }
}

/// The line of a configuration that isn't taken over. It takes no memory.
pub fn refusal_line(fault: ReloadFault) -> &'static str
    ensures { result.now ≡ refusal_line fault }
{
    match fault {
        ReloadFault::Unreadable(why) => refusal_of_reading(why),
        ReloadFault::Configuration(fault) => refusal_of_text(fault),
        ReloadFault::Ports => "reload refused: the ports differ: restart for them\n",
        ReloadFault::Memory => "reload refused: out of memory\n",
    }
}

/// The line of a text's fault whose place is known.
fn located_line(
    alloc: Global,
    fault: ConfigFault,
    place: &Explanation,
) -> Result<Vec<u8>, AllocError>
    ensures { IfOk result (λ line. line.items ≡ located_line fault place.now) }
{
    let mut line = Vec::from_slice(alloc, b"reload refused: configuration: ")?;
    line.extend_from_slice(name_of(fault).as_bytes())?;
    line.extend_from_slice(b": ")?;
    line.extend_from_slice(place.as_bytes())?;
    line.push(b'\n')?;
    Ok(line)
}

/// The line of a text's fault with its place, if there is memory for it.
fn explained_line(alloc: Global, text: &[u8], fault: ConfigFault) -> Option<Vec<u8>>
    ensures { IfSome result (λ line. IsRefusalLine (Ok (Some text.now)) (ReloadFault.Configuration fault) line.items) }
{
    match explain(alloc, text, fault) {
        Ok(Some(place)) => located_line(alloc, fault, &place).ok(),
        Ok(None) | Err(_) => None,
    }
}

/// The line of a text that isn't taken over that takes memory: of a fault of the text, with its place.
fn line_of_text(alloc: Global, text: &[u8], fault: ReloadFault) -> Option<Vec<u8>>
    ensures { IfSome result (λ line. IsRefusalLine (Ok (Some text.now)) fault line.items) }
{
    match fault {
        ReloadFault::Configuration(fault) => explained_line(alloc, text, fault),
        _ => None,
    }
}

/// The line of what was read and isn't taken over that takes memory, if there is one.
pub fn line_with_place(
    alloc: Global,
    read: &Result<Option<Vec<u8>>, ReadFailure>,
    fault: ReloadFault,
) -> Option<Vec<u8>>
    ensures { IfSome result (λ line. IsRefusalLine (text_found read.now) fault line.items) }
{
    match read {
        Ok(Some(text)) => line_of_text(alloc, text, fault),
        Ok(None) | Err(_) => None,
    }
}
