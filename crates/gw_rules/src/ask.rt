//! An ask: what the policy is to judge.
ghost use Rattle.std.specs.Prelude.{◌≡◌};
ghost use Rattle.gw_rules.specs.Ask.{ask_of};

use crate::{Fields, Operation};

/// What the gateway is about to do, on whose word and with what, for the policy to judge: a number
/// for each of the twelve fields. A field that the datagram doesn't have is `None`, and no rule that
/// names it matches then.
///
/// ```text
/// Ask { port: Some(1), service: Some(264), ..Ask::new(Operation::List) }
/// ```
pub type Ask = Fields<Option<u64>>;

impl Ask {
    /// The ask that has this operation and no other field.
    pub fn new(operation: Operation) -> Self
        ensures { result ≡ ask_of operation }
    {
        Ask {
            operation: Some(operation.number()),
            port: None,
            source_network: None,
            source_key: None,
            destination_network: None,
            service: None,
            object_type: None,
            instance: None,
            property: None,
            priority: None,
            sender: None,
            station: None,
        }
    }
}
