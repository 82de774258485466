//! What the device gives to one APDU beside what it asks.

ghost use Rattle.std.specs.Prelude.{◌≡◌, ◌≤◌, None, drop, vec_len};
ghost use Rattle.std.specs.Option.{option_map};
ghost use Rattle.gw_device.specs.Response.{answer_view, to_client, to_everyone};

use crate::{Answer, Change};

/// What the device gives to one APDU beside what it asks. Nothing has changed yet.
#[derive(Drop)]
pub struct Served {
    /// The answer, if there is one.
    pub answer: Option<Answer>,
    /// The change that is granted, if there is one. An answer says that it is made.
    pub change: Option<Change>,
}

impl Served {
    /// Nothing is answered or changed. It takes no memory.
    pub(crate) fn silence() -> Self
        ensures answer { result.answer ≡ None }
        ensures change { result.change ≡ None }
    {
        Served {
            answer: None,
            change: None,
        }
    }

    /// An APDU after the room for its headers, for the client alone; nothing is changed.
    pub(crate) fn to_client(octets: Vec<u8>) -> Self
        requires { 10 ≤ vec_len octets }
        ensures answer { option_map answer_view result.answer ≡ to_client (drop 10 octets.items) }
        ensures change { result.change ≡ None }
    {
        Served {
            answer: Some(Answer {
                octets,
                broadcast: false,
            }),
            change: None,
        }
    }

    /// An APDU after the room for its headers, for everyone on the requester's network; nothing is
    /// changed.
    pub(crate) fn to_everyone(octets: Vec<u8>) -> Self
        requires { 10 ≤ vec_len octets }
        ensures answer { option_map answer_view result.answer ≡ to_everyone (drop 10 octets.items) }
        ensures change { result.change ≡ None }
    {
        Served {
            answer: Some(Answer {
                octets,
                broadcast: true,
            }),
            change: None,
        }
    }
}
