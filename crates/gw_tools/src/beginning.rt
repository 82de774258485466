//! A configuration to begin with.

ghost use Rattle.std.specs.Prelude.{◌≡◌, ℕ, List};
ghost use Rattle.std.specs.Io.KnownBytes.{Appends};
ghost use Rattle.gw_policy_drafts.specs.beginning.Site.{site_text};
ghost use Rattle.gw_tools.specs.Beginning.{SaysBegun, text_of};

use gw_ending::Fault;
use gw_ending::reading::Said;
use gw_notices::write_note;
use gw_policy_drafts::beginning::{BeginFault, SiteInWords, begin, wrong_line};
use gw_script::OctetSink;
use gw_tool_line::SiteWords;
use std::alloc::Global;

/// The words, lent.
fn words_of(site: &SiteWords) -> SiteInWords<'_>
    ensures { site_text result ≡ text_of site.now }
{
    SiteInWords {
        ports: site.ports.as_slice(),
        peers: site.peers.as_slice(),
        routers: site.routers.as_slice(),
        operators: site.operators.as_slice(),
        managers: site.managers.as_slice(),
    }
}

/// What `init` says: a configuration to begin with, of what these words say; or it reports which of them is wrong. Faults: `CommandLine`,
/// then; `Unlisted`; and `Memory`.
pub fn begin_site<E: OctetSink>(
    alloc: Global,
    site: &SiteWords,
    errors: &mut E,
) -> Result<Said, Fault>
    ensures begun { (reported : List ℕ) × SaysBegun (text_of site.now) reported result
        × (E.NeverFails errors.old → Appends (E.held errors.old) (E.held errors.new) reported) }
    ensures lasting { E.NeverFails errors.old → E.NeverFails errors.new }
{
    let words = words_of(site);
    match begin(alloc, &words) {
        Ok(text) => Ok(Said::well(text)),
        Err(BeginFault::Word(wrong)) => {
            let line = wrong_line(alloc, &words, wrong)?;
            write_note(&line, errors);
            Err(Fault::CommandLine)
        }
        Err(BeginFault::Unlike) => Err(Fault::Unlisted),
        Err(BeginFault::Memory) => Err(Fault::Memory),
    }
}
