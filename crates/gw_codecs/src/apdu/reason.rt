//! The reasons of rejects and aborts (clause 21).

/// Why a request is rejected (clause 21, BACnetRejectReason). Each octet is one; the named ones are
/// those that a server of this project gives.
#[derive(Clone, Copy, Debug)]
pub struct RejectReason(pub u8);

impl RejectReason {
    /// 2 inconsistent-parameters.
    pub const INCONSISTENT_PARAMETERS: RejectReason = RejectReason(2);
    /// 4 invalid-tag.
    pub const INVALID_TAG: RejectReason = RejectReason(4);
    /// 5 missing-required-parameter.
    pub const MISSING_REQUIRED_PARAMETER: RejectReason = RejectReason(5);
    /// 6 parameter-out-of-range.
    pub const PARAMETER_OUT_OF_RANGE: RejectReason = RejectReason(6);
    /// 7 too-many-arguments.
    pub const TOO_MANY_ARGUMENTS: RejectReason = RejectReason(7);
    /// 9 unrecognized-service.
    pub const UNRECOGNIZED_SERVICE: RejectReason = RejectReason(9);
}

/// Why a transaction is over (clause 21, BACnetAbortReason). Each octet is one; the named one is
/// that which a server of this project gives.
#[derive(Clone, Copy, Debug)]
pub struct AbortReason(pub u8);

impl AbortReason {
    /// 4 segmentation-not-supported.
    pub const SEGMENTATION_NOT_SUPPORTED: AbortReason = AbortReason(4);
}
