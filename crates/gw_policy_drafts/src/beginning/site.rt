//! What a site has, read from the words of a call.

ghost use Rattle.std.specs.Prelude.{◌≡◌, ◌++◌, ◌∷◌, [], map, string_bytes, IfErr, IfOk, OnOk};
ghost use Rattle.gw_policy_drafts.specs.beginning.Part.{word_of};
ghost use Rattle.gw_policy_drafts.specs.beginning.Site.{Says, parts_in, site_of, site_text, words_in};
ghost use Rattle.gw_policy_drafts.specs.beginning.Flaws.{wrong};
ghost use Rattle.gw_policy_drafts.specs.declared.beginning.fault.BeginFault.TheVariants.{Word};
ghost use Rattle.gw_policy_drafts.specs.declared.beginning.fault.Flaw.TheVariants.{Form};
ghost use Rattle.gw_policy_drafts.specs.beginning.Begun.{IsUnread};

use crate::beginning::fault::{BeginFault, Flaw, WrongWord};
use crate::beginning::part::{SiteOption, SitePart, part_in};
use std::alloc::{AllocError, Global};

/// The words of a call, by their options.
#[derive(Clone, Copy)]
pub struct SiteInWords<'a> {
    /// The ports, in order: the first is port 1, on network 1.
    pub ports: &'a [String],
    /// Other broadcast managers, each with the number of the port that shares broadcasts with it, and its subnet.
    pub peers: &'a [String],
    /// Networks, each with the address of the router before it.
    pub routers: &'a [String],
    /// The stations whose operators may write.
    pub operators: &'a [String],
    /// Broadcast managers, each with the number of the port whose subnet has it.
    pub managers: &'a [String],
}

impl SiteInWords<'_> {
    /// The words of an option.
    pub(crate) fn of(&self, option: SiteOption) -> &[String]
        ensures { map string_bytes result.now ≡ words_in (site_text self.now) option }
    {
        match option {
            SiteOption::Port => self.ports,
            SiteOption::Peer => self.peers,
            SiteOption::Router => self.routers,
            SiteOption::Operator => self.operators,
            SiteOption::Manager => self.managers,
        }
    }
}

/// What the words of a call say, by their options.
#[derive(Drop)]
pub(crate) struct Site {
    pub ports: Vec<SitePart>,
    pub peers: Vec<SitePart>,
    pub routers: Vec<SitePart>,
    pub operators: Vec<SitePart>,
    pub managers: Vec<SitePart>,
}

fn add_part(parts: &mut Vec<SitePart>, part: SitePart) -> Result<(), AllocError>
    ensures { OnOk result (parts.new.items ≡ parts.old.items ++ part ∷ []) }
{
    parts.push(part)?;
    Ok(())
}

impl Site {
    /// The parts of an option.
    pub(crate) fn parts(&self, option: SiteOption) -> &[SitePart]
        ensures { result.now ≡ parts_in (site_of self.now) option }
    {
        match option {
            SiteOption::Port => &self.ports,
            SiteOption::Peer => &self.peers,
            SiteOption::Router => &self.routers,
            SiteOption::Operator => &self.operators,
            SiteOption::Manager => &self.managers,
        }
    }
}

/// That the word of an option at a place is no part.
fn unread(option: SiteOption, place: usize) -> BeginFault
    ensures { result ≡ Word (wrong option place Form) }
{
    BeginFault::Word(WrongWord {
        option,
        place,
        flaw: Flaw::Form,
    })
}

/// What the words of an option say.
fn parts_in(
    alloc: Global,
    words: &SiteInWords<'_>,
    option: SiteOption,
) -> Result<Vec<SitePart>, BeginFault>
    ensures says { IfOk result (λ parts. map (word_of option) parts.items ≡ words_in (site_text words.now) option) }
    ensures form { IfErr result (λ fault. IsUnread (site_text words.now) fault) }
{
    let list = words.of(option);
    let mut parts = Vec::new(alloc);
    for word in list {
        let Some(part) = part_in(alloc, option, word)? else {
            return Err(unread(option, parts.len()));
        };
        add_part(&mut parts, part)?;
    }
    Ok(parts)
}

/// What the words of a call say.
pub(crate) fn site_in(alloc: Global, words: &SiteInWords<'_>) -> Result<Site, BeginFault>
    ensures says { IfOk result (λ site. Says (site_text words.now) (site_of site)) }
    ensures form { IfErr result (λ fault. IsUnread (site_text words.now) fault) }
{
    let ports = parts_in(alloc, words, SiteOption::Port)?;
    let peers = parts_in(alloc, words, SiteOption::Peer)?;
    let routers = parts_in(alloc, words, SiteOption::Router)?;
    let operators = parts_in(alloc, words, SiteOption::Operator)?;
    let managers = parts_in(alloc, words, SiteOption::Manager)?;
    Ok(Site {
        ports,
        peers,
        routers,
        operators,
        managers,
    })
}
