//! Why no configuration is written, and which word is wrong.

ghost use Rattle.std.specs.Prelude.{◌≡◌, map, string_bytes, IfOk};
ghost use Rattle.gw_policy_drafts.specs.beginning.Flaws.{advice_words, flaw_words, form_of, port_advice, taken_advice, word_at, wrong_line};
ghost use Rattle.gw_policy_drafts.specs.beginning.Site.{site_text};
ghost use Rattle.gw_policy_drafts.specs.declared.beginning.fault.BeginFault.TheVariants.{Memory};

use crate::beginning::part::SiteOption;
use crate::beginning::site::SiteInWords;
use gw_addr::put_slice;
use std::alloc::{AllocError, Global};
use thiserror::Error;

/// What is wrong with a word.
#[derive(Clone, Copy, Debug)]
pub enum Flaw {
    /// It isn't of the form that its option has.
    Form,
    /// Its prefix is below 8 or above 30.
    Prefix,
    /// Its address is the first or the last one of its subnet.
    End,
    /// Its subnet shares addresses with an earlier one.
    Overlap,
    /// Its number is that of no port, or no port has its address.
    NoPort,
    /// Its number is that of no network, or a network that has it already; or its address has been named already.
    Taken,
    /// Its port has peers.
    HasPeers,
    /// It is one more than there may be.
    TooMany,
    /// It is the only port.
    Alone,
    /// It names no UDP port, while its port does.
    Udp,
}

impl Flaw {
    /// What is said of it.
    fn words(self, option: SiteOption) -> &'static str
        ensures { result.now ≡ flaw_words option self }
    {
        match self {
            Flaw::Form => form_of(option),
            Flaw::Prefix => "a prefix has 8 to 30 bits",
            Flaw::End => "a subnet's first and last address are no station's",
            Flaw::Overlap => "an earlier subnet has its addresses",
            Flaw::NoPort => "no port has it",
            Flaw::Taken => "it is taken, or no network's",
            Flaw::HasPeers => "its port has peers",
            Flaw::TooMany => "there are too many",
            Flaw::Alone => "a gateway joins two ports or more",
            Flaw::Udp => "its port has another UDP port than 47808, and it names none",
        }
    }

    /// What to write.
    fn advice(self, option: SiteOption) -> &'static str
        ensures { result.now ≡ advice_words option self }
    {
        match self {
            Flaw::Form =>
                "write numbers without leading zeros, and a UDP port other than 47808 last, as :47809",
            Flaw::Prefix =>
                "write how many bits of the address name its subnet, as 24 for the mask 255.255.255.0",
            Flaw::End => "write the address of the machine itself, not its subnet's",
            Flaw::Overlap => "give each port and each peer a subnet of its own",
            Flaw::NoPort => port_advice(option),
            Flaw::Taken => taken_advice(option),
            Flaw::HasPeers => "give the peers to that manager, or leave out --bbmd",
            Flaw::TooMany => "leave it out here, and write it into the configuration",
            Flaw::Alone => "write another --port, for the subnet that it is joined with",
            Flaw::Udp => "write its UDP port last, as :47808 or :47809",
        }
    }
}

/// What to write for an address or a number that no port has.
fn port_advice(option: SiteOption) -> &'static str
    ensures { result.now ≡ port_advice option }
{
    match option {
        SiteOption::Peer => "write the number of its port first, from 1 in the order of --port",
        SiteOption::Router =>
            "write the router's address on the subnet of a port, which isn't the port's own",
        SiteOption::Operator => "write a station on the subnet of a port or of a peer",
        SiteOption::Port | SiteOption::Manager =>
            "write the number of its port first, and an address on its subnet, which isn't the port's own",
    }
}

/// What to write for a number or an address that is taken.
fn taken_advice(option: SiteOption) -> &'static str
    ensures { result.now ≡ taken_advice option }
{
    match option {
        SiteOption::Router =>
            "write a number from 1 to 65534 that no other network has: the ports have 1, 2, .., and the gateway's device 100",
        SiteOption::Operator => "name each operator once",
        SiteOption::Port | SiteOption::Peer | SiteOption::Manager => "name one manager for a port",
    }
}

/// The form of the words of an option.
fn form_of(option: SiteOption) -> &'static str
    ensures { result.now ≡ form_of option }
{
    match option {
        SiteOption::Port => "it takes ADDRESS/PREFIX, as 10.1.0.2/24",
        SiteOption::Peer => "it takes PORT=ADDRESS/PREFIX, as 2=203.0.113.2/24",
        SiteOption::Router => "it takes NETWORK=ADDRESS, as 300=10.2.0.254",
        SiteOption::Operator => "it takes ADDRESS, as 10.1.0.10",
        SiteOption::Manager => "it takes PORT=ADDRESS, as 1=10.1.0.3",
    }
}

/// A word that is wrong: the option, the word's place among those of the option, from 0, and what is wrong.
#[derive(Clone, Copy, Debug)]
pub struct WrongWord {
    /// The option.
    pub option: SiteOption,
    /// The place, from 0.
    pub place: usize,
    /// What is wrong.
    pub flaw: Flaw,
}

/// Why no configuration is written.
#[derive(Clone, Copy, Debug, Error)]
pub enum BeginFault {
    /// A word is wrong.
    #[error("Word")]
    Word(WrongWord),
    /// What was written isn't read as what the words say.
    #[error("Unlike")]
    Unlike,
    /// There is no memory for it.
    #[error("Memory")]
    Memory,
}

impl From<AllocError> for BeginFault {
    ghost from_gives = { λ _ fault. fault ≡ Memory };

    fn from(_error: AllocError) -> Self {
        BeginFault::Memory
    }
}

/// The word at a place, or nothing.
fn word_at(words: &[String], place: usize) -> &str
    ensures { result.now ≡ word_at (map string_bytes words.now) place }
{
    match words.get(place) {
        Some(word) => word.as_str(),
        None => "",
    }
}

/// The line that says which word is wrong, and why: `--port 10.1.0.2/33: a prefix has 8 to 30 bits`; and one that says what to
/// write.
#[tactic(auto, unfolding(crate::specs::beginning::Flaws::wrong_line))]
pub fn wrong_line(
    alloc: Global,
    words: &SiteInWords<'_>,
    wrong: WrongWord,
) -> Result<Vec<u8>, AllocError>
    ensures { IfOk result (λ line. line.items ≡ wrong_line (site_text words.now) wrong) }
{
    let WrongWord {
        option,
        place,
        flaw,
    } = wrong;
    let mut line = Vec::new(alloc);
    put_slice(&mut line, b"--")?;
    put_slice(&mut line, option.name().as_bytes())?;
    put_slice(&mut line, b" ")?;
    put_slice(&mut line, word_at(words.of(option), place).as_bytes())?;
    put_slice(&mut line, b": ")?;
    put_slice(&mut line, flaw.words(option).as_bytes())?;
    put_slice(&mut line, b"\n  ")?;
    put_slice(&mut line, flaw.advice(option).as_bytes())?;
    put_slice(&mut line, b"\n")?;
    Ok(line)
}
