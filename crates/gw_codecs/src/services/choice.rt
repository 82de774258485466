//! The services that the gateway knows, by their choices (clause 21).

/// ReadProperty (clause 15.5).
pub const READ_PROPERTY: u8 = 12;
/// ReadPropertyMultiple (clause 15.7).
pub const READ_PROPERTY_MULTIPLE: u8 = 14;
/// WriteProperty (clause 15.9).
pub const WRITE_PROPERTY: u8 = 15;

/// I-Am (clause 16.10).
pub const I_AM: u8 = 0;
/// I-Have (clause 16.9).
pub const I_HAVE: u8 = 1;
/// Who-Has (clause 16.9).
pub const WHO_HAS: u8 = 7;
/// Who-Is (clause 16.10).
pub const WHO_IS: u8 = 8;
