//! Why datagrams aren't passed on.

/// Why a datagram is dropped before any policy is asked.
#[derive(Clone, Copy)]
pub enum DropReason {
    /// Nothing is to be done about it: it is the port's own, or a result or a table that another manager answers.
    Ignored,
    /// It is too long, no frame (Annex J.2), or brings no NPDU (clause 6.2).
    Malformed,
    /// It names a source on a network of the gateway's own.
    OwnNetwork,
    /// It is forwarded, and not by a peer (Annex J.4.5), nor by the broadcast manager beside the port.
    NoPeer,
}
