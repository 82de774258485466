//! The name of a rule.
ghost use Rattle.std.specs.Prelude.{◌≡◌, ◌↔◌, ◌++◌, ◌+◌, ◌≤◌, codes, length, take, IfOk, IsErrOf, IsFalse, IsOkUnless, IsTrue};
ghost use Rattle.std.specs.List.{list_all};
ghost use Rattle.gw_rules.specs.Name.{is_name, is_name_character, is_no_rule};

use crate::RuleFault;
use std::marker::Model;
use std::str;

/// How many characters a rule's name has at most.
pub const MAX_NAME: usize = 32;
/// The name that the log shows if no rule matches.
pub const NO_RULE: &str = "default";

/// The name of a rule, which the log shows if the rule denies: 1 to 32 of the characters `a` to `z`,
/// `0` to `9` and `-`, kept in place. Contracts see its octets.
#[derive(Drop)]
pub struct RuleName {
    octets: [u8; MAX_NAME],
    len: u8,
}

impl Model for RuleName {
    ghost use Rattle.std.specs.Prelude.{List, ℕ, take};
    ghost use Rattle.gw_rules.specs.internal.Name.{IsKept};

    ghost Value = { List ℕ };

    ghost view = { λ name. take name.len name.octets };

    ghost invariant = { IsKept };
}

impl RuleName {
    /// A name of this text. `Range`, its only fault, if it is no name.
    pub fn new(text: &str) -> Result<Self, RuleFault>
        ensures text { IfOk result (λ name. name ≡ text.now) }
        ensures range { IsErrOf result RuleFault.Range ↔ IsFalse (is_name text.now) }
        ensures only { IsOkUnless result RuleFault.Range }
    {
        if !RuleName::is_name(text) {
            return Err(RuleFault::Range);
        }
        Ok(kept(text.as_bytes()))
    }

    /// The name [`NO_RULE`].
    pub fn of_no_rule() -> Self
        ensures { result ≡ codes "default" }
    {
        kept(NO_RULE.as_bytes())
    }

    /// A copy of the name.
    pub fn copy(&self) -> Self
        ensures { result ≡ self.now }
    {
        RuleName {
            octets: self.octets,
            len: self.len,
        }
    }

    /// The name with this text behind it. `Range`, its only fault, if that is no name.
    pub fn followed_by(&self, end: &str) -> Result<Self, RuleFault>
        ensures text { IfOk result (λ name. name ≡ self.now ++ end.now) }
        ensures range { IsErrOf result RuleFault.Range ↔ IsFalse (is_name (self.now ++ end.now)) }
        ensures only { IsOkUnless result RuleFault.Range }
    {
        let front = self.as_bytes();
        let end = end.as_bytes();
        if MAX_NAME - front.len() < end.len() {
            return Err(RuleFault::Range);
        }
        let octets = joined(front, end);
        let text = &octets[..front.len() + end.len()];
        if !spells_name(text) {
            return Err(RuleFault::Range);
        }
        Ok(kept(text))
    }

    /// Whether a text is a name: 1 to 32 of the characters `a` to `z`, `0` to `9` and `-`.
    pub fn is_name(text: &str) -> bool
        ensures { result ≡ is_name text.now }
    {
        spells_name(text.as_bytes())
    }

    /// Whether a text is [`NO_RULE`].
    pub fn is_no_rule(text: &str) -> bool
        ensures { result ≡ is_no_rule text.now }
    {
        text == NO_RULE
    }

    /// The text of the name.
    #[tactic(auto, using(crate::proofs::Names::name_is_text))]
    pub fn as_str(&self) -> &str
        ensures text { result.now ≡ self.now }
        ensures name { IsTrue (is_name self.now) }
    {
        str::from_utf8(self.as_bytes()).unwrap()
    }

    /// Its octets.
    pub fn as_bytes(&self) -> &[u8]
        ensures octets { result.now ≡ self.now }
        ensures name { IsTrue (is_name self.now) }
    {
        &self.octets[..usize::from(self.len)]
    }
}

/// The name of these octets.
fn kept(octets: &[u8]) -> RuleName
    requires { IsTrue (is_name octets.now) }
    ensures { result ≡ octets.now }
{
    let mut kept = [0; MAX_NAME];
    kept[..octets.len()].copy_from_slice(octets);
    RuleName {
        octets: kept,
        len: octets.len() as u8,
    }
}

/// Octets with others behind them, in front of what they are kept in.
fn joined(front: &[u8], end: &[u8]) -> [u8; MAX_NAME]
    requires { length front.now + length end.now ≤ 32 }
    ensures { take (length front.now + length end.now) result ≡ front.now ++ end.now }
{
    let mut octets = [0; MAX_NAME];
    let (first, rest) = octets.split_at_mut(front.len());
    first.copy_from_slice(front);
    let (second, _) = rest.split_at_mut(end.len());
    second.copy_from_slice(end);
    octets
}

/// Whether octets are those of a name.
fn spells_name(text: &[u8]) -> bool
    ensures { result ≡ is_name text.now }
{
    1 <= text.len() && text.len() <= MAX_NAME && are_name_characters(text)
}

fn are_name_characters(octets: &[u8]) -> bool
    ensures { result ≡ list_all is_name_character octets.now }
{
    octets.iter().all(|octet| is_name_character(*octet))
}

fn is_name_character(octet: u8) -> bool
    ensures { result ≡ is_name_character octet }
{
    matches!(octet, b'a'..=b'z' | b'0'..=b'9' | b'-')
}
