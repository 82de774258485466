//! The rules of the list, as the written ones stand for them.
ghost use Rattle.std.specs.Prelude.{◌≡◌, ◌≤◌, [], length, map, IfOk, IsOkUnless, IsTrue, OnOk};
ghost use Rattle.toml.specs.View.{view};
ghost use Rattle.gw_configuration.specs.declared.fault.ConfigFault.TheVariants.{Memory};
ghost use Rattle.gw_configuration.specs.Reading.{Finds};
ghost use Rattle.gw_policy_text.specs.Policy.{back_for, listing_at, listing_of, way_for};
ghost use Rattle.gw_policy_text.specs.internal.Listing.{IsListed, has_names, listing_view, with_other, with_rule, with_written};

use crate::rules::{crowd, rule};
use crate::written::Written;
use gw_addr::Sequence;
use gw_configuration::{ConfigFault, Format, Located, Text};
use gw_rules::Rule;
use std::alloc::Global;
use toml::Value;

/// The rules of the list in order, and for each the position of its table, its note and its audit.
pub(crate) struct Listing {
    /// The rules.
    pub rules: Vec<Rule>,
    /// The position of the table of each.
    pub tables: Sequence<u16>,
    /// The note of each.
    pub notes: Sequence<Text>,
    /// Whether what it allows is written too, of each.
    pub audits: Sequence<bool>,
}

// By hand: a derived one is proved part by part wherever one is dropped (docs/GATE.md).
impl Drop for Listing {
    fn drop(self) {
        let Listing {
            rules: _,
            tables: _,
            notes: _,
            audits: _,
        } = self;
    }
}

/// The list that some values say, at most 512 of them, of a text with these sets, or the first fault with its place.
pub(crate) fn listing_at<'a>(
    alloc: Global,
    format: Format,
    sets: &[Value],
    values: &'a [Value],
) -> Result<Listing, Located<'a>>
    requires { length values.now ≤ 512 }
    ensures listing { Finds listing_view result (listing_at format (map view sets.now) (map view values.now)) }
    ensures written { IfOk result (λ l. IsListed format (length values.now) (listing_view l)) }
{
    let mut all = Listing::new(alloc);
    for (table, value) in values.iter().enumerate() {
        all.add(
            alloc,
            table as u16,
            rule(alloc, format, sets, table, value)?,
        )?;
        if let Some(located) = crowd(format, table, &all.rules) {
            return Err(located);
        }
    }
    Ok(all)
}

impl Listing {
    /// The rules, and of each its table, its note and its audit.
    pub fn into_parts(self) -> (Vec<Rule>, Sequence<u16>, Sequence<Text>, Sequence<bool>)
        ensures rules { result.0 ≡ self.rules }
        ensures tables { result.1 ≡ self.tables }
        ensures notes { result.2 ≡ self.notes }
        ensures audits { result.3 ≡ self.audits }
    {
        let Listing {
            rules,
            tables,
            notes,
            audits,
        } = self;
        (rules, tables, notes, audits)
    }

    fn new(alloc: Global) -> Self
        ensures { listing_view result ≡ listing_of [] }
    {
        Listing {
            rules: Vec::new(alloc),
            tables: Sequence::new(alloc),
            notes: Sequence::new(alloc),
            audits: Sequence::new(alloc),
        }
    }

    /// Adds the rules that a written one of a table stands for.
    fn add(&mut self, alloc: Global, table: u16, written: Written) -> Result<(), ConfigFault>
        requires { IsTrue (has_names written) }
        ensures added { OnOk result (listing_view self.new ≡ with_written table written (listing_view self.old)) }
        ensures memory { IsOkUnless result Memory }
    {
        if !written.enabled {
            return Ok(());
        }
        let way = way(alloc, &written)?;
        let back = back(alloc, &written)?;
        let (rule, note, audit) = written.into_parts();
        self.put(table, note, audit, rule)?;
        self.put_other(alloc, table, way)?;
        self.put_other(alloc, table, back)
    }

    /// Adds a rule that goes with another one of its table.
    fn put_other(
        &mut self,
        alloc: Global,
        table: u16,
        rule: Option<Rule>,
    ) -> Result<(), ConfigFault>
        ensures added { OnOk result (listing_view self.new ≡ with_other table rule (listing_view self.old)) }
        ensures memory { IsOkUnless result Memory }
    {
        match rule {
            Some(rule) => {
                let note = Text::new(alloc, 0, "")?;
                self.put(table, note, false, rule)
            }
            None => Ok(()),
        }
    }

    /// Adds a rule of a table, with its note and its audit.
    fn put(&mut self, table: u16, note: Text, audit: bool, rule: Rule) -> Result<(), ConfigFault>
        ensures added { OnOk result (listing_view self.new ≡ with_rule table note audit rule (listing_view self.old)) }
        ensures memory { IsOkUnless result Memory }
    {
        self.rules.push(rule)?;
        self.tables.push(table)?;
        self.notes.push(note)?;
        self.audits.push(audit)?;
        Ok(())
    }
}

/// The rule for the requests of one that goes both ways.
fn way(alloc: Global, written: &Written) -> Result<Option<Rule>, ConfigFault>
    requires { IsTrue (has_names written.now) }
    ensures way { IfOk result (λ rule. rule ≡ way_for written.now) }
    ensures memory { IsOkUnless result Memory }
{
    if written.both_ways {
        Ok(written.rule.way(alloc)?)
    } else {
        Ok(None)
    }
}

/// The rule for their answers.
fn back(alloc: Global, written: &Written) -> Result<Option<Rule>, ConfigFault>
    requires { IsTrue (has_names written.now) }
    ensures back { IfOk result (λ rule. rule ≡ back_for written.now) }
    ensures memory { IsOkUnless result Memory }
{
    if written.both_ways {
        Ok(Some(written.rule.back(alloc)?))
    } else {
        Ok(None)
    }
}
