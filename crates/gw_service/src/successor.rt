//! What is made of another configuration before a gateway goes on by it.

ghost use Rattle.std.specs.Prelude.{IfOk};
ghost use Rattle.gw_service.specs.Keeping.{IsSuccessor};

use gw_configuration::Config;
use gw_decisions::tally::Tally;
use gw_rules::Format;
use gw_state::Origin;
use gw_watchers::Marks;
use std::alloc::{AllocError, Global};

/// What is made of a configuration for what keeps the state of a gateway and what watches it.
#[derive(Drop)]
pub struct Successor {
    /// What is configured of what can be written.
    pub origin: Origin,
    /// Which rules are audited.
    pub marks: Marks,
    /// How often each rule decided: none did yet.
    pub counts: Tally,
    /// Its format.
    pub format: Format,
}

impl Successor {
    /// What is made of this configuration. An `Err` only if a growth was refused.
    pub(crate) fn of(alloc: Global, config: &Config) -> Result<Self, AllocError>
        ensures { IfOk result (IsSuccessor config.now) }
    {
        let origin = Origin::of(alloc, config)?;
        let marks = Marks::new(alloc, config.audits())?;
        let counts = Tally::new(alloc, config.rules())?;
        Ok(Successor {
            origin,
            marks,
            counts,
            format: config.format(),
        })
    }
}
