//! Laws of the answers to questions, and of their datagrams. The functions change nothing and answer nothing: their contracts are
//! the laws.

ghost use Rattle.gw_verdicts.specs.questions.Laws.{DeniedIsLogged, IsAsked};

use crate::questions::deed::Deed;
use gw_codecs::services::laws::{read_encoded, write_encoded};

/// What an answer shows as denied, but by quiet rules, is what the gateway's log would have of that datagram.
pub fn denials()
    ensures { DeniedIsLogged }
{}

/// A request says what the question asks for.
pub fn requests(deed: &Deed<'_>)
    ensures { IsAsked deed.now }
{
    match deed {
        Deed::Read(request) => read_encoded(request),
        Deed::Write(request) => write_encoded(request),
        Deed::Serve(_) => {}
    }
}
