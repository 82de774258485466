//! What the device answers to a fault: an error's class and code (clause 18), or the reason of a
//! reject (clause 21).

ghost use Rattle.std.specs.Prelude.{◌≡◌, ◌≢◌, IfOk, IsOk};
ghost use Rattle.gw_device.specs.Errors.{read_error, reject_reason, write_error};

use gw_codecs::apdu::{RejectReason, ServiceError};
use gw_codecs::services::BodyFault;
use gw_objects::{ReadFault, WriteFault};
use std::alloc::AllocError;

/// Error class OBJECT.
const OBJECT: u16 = 1;
/// Error class PROPERTY.
const PROPERTY: u16 = 2;
/// Error class RESOURCES.
const RESOURCES: u16 = 3;

/// The policy denies the read.
pub(crate) const READ_DENIED: ServiceError = ServiceError {
    class: PROPERTY,
    code: 27,
};
/// The policy denies the write, or the property can't be written.
pub(crate) const WRITE_DENIED: ServiceError = ServiceError {
    class: PROPERTY,
    code: 40,
};
/// There is no such object.
pub(crate) const UNKNOWN_OBJECT: ServiceError = ServiceError {
    class: OBJECT,
    code: 31,
};
/// The object has no such property.
const UNKNOWN_PROPERTY: ServiceError = ServiceError {
    class: PROPERTY,
    code: 32,
};
/// The property has no elements.
const NOT_AN_ARRAY: ServiceError = ServiceError {
    class: PROPERTY,
    code: 50,
};
/// The array has no such element.
const BAD_INDEX: ServiceError = ServiceError {
    class: PROPERTY,
    code: 42,
};
/// The value is of another kind.
const WRONG_KIND: ServiceError = ServiceError {
    class: PROPERTY,
    code: 9,
};
/// The character set isn't known.
const CHARACTER_SET: ServiceError = ServiceError {
    class: PROPERTY,
    code: 41,
};
/// The value is out of range.
const OUT_OF_RANGE: ServiceError = ServiceError {
    class: PROPERTY,
    code: 37,
};
/// There is no space for the value.
const NO_SPACE: ServiceError = ServiceError {
    class: RESOURCES,
    code: 20,
};

/// The class and the code that are answered where a property isn't read. `AllocError` for `Memory`
/// alone, which isn't answered.
pub(crate) fn read_error(fault: ReadFault) -> Result<ServiceError, AllocError>
    ensures error { IfOk result (λ why. why ≡ read_error fault) }
    ensures due { IfOk result (λ why. fault ≢ ReadFault.Memory) }
    ensures memory { fault ≢ ReadFault.Memory → IsOk result }
{
    match fault {
        ReadFault::UnknownObject => Ok(UNKNOWN_OBJECT),
        ReadFault::UnknownProperty => Ok(UNKNOWN_PROPERTY),
        ReadFault::NotArray => Ok(NOT_AN_ARRAY),
        ReadFault::BadIndex => Ok(BAD_INDEX),
        ReadFault::Memory => Err(AllocError),
    }
}

/// The class and the code that are answered where a property isn't written. `AllocError` for
/// `Memory` alone, which isn't answered.
pub(crate) fn write_error(fault: WriteFault) -> Result<ServiceError, AllocError>
    ensures error { IfOk result (λ why. why ≡ write_error fault) }
    ensures due { IfOk result (λ why. fault ≢ WriteFault.Memory) }
    ensures memory { fault ≢ WriteFault.Memory → IsOk result }
{
    match fault {
        WriteFault::UnknownObject => Ok(UNKNOWN_OBJECT),
        WriteFault::UnknownProperty => Ok(UNKNOWN_PROPERTY),
        WriteFault::NotArray => Ok(NOT_AN_ARRAY),
        WriteFault::NotWritable | WriteFault::Reserved => Ok(WRITE_DENIED),
        WriteFault::WrongKind => Ok(WRONG_KIND),
        WriteFault::CharacterSet => Ok(CHARACTER_SET),
        WriteFault::OutOfRange => Ok(OUT_OF_RANGE),
        WriteFault::NoSpace => Ok(NO_SPACE),
        WriteFault::Memory => Err(AllocError),
    }
}

/// Why a request whose body can't be read is rejected. `AllocError` for `Memory` alone, which is no
/// such reason.
pub(crate) fn reject_reason(fault: BodyFault) -> Result<RejectReason, AllocError>
    ensures reason { IfOk result (λ reason. reason.0 ≡ reject_reason fault) }
    ensures due { IfOk result (λ reason. fault ≢ BodyFault.Memory) }
    ensures memory { fault ≢ BodyFault.Memory → IsOk result }
{
    match fault {
        BodyFault::InvalidTag => Ok(RejectReason::INVALID_TAG),
        BodyFault::Missing => Ok(RejectReason::MISSING_REQUIRED_PARAMETER),
        BodyFault::OutOfRange => Ok(RejectReason::PARAMETER_OUT_OF_RANGE),
        BodyFault::TooMany => Ok(RejectReason::TOO_MANY_ARGUMENTS),
        BodyFault::Inconsistent => Ok(RejectReason::INCONSISTENT_PARAMETERS),
        BodyFault::Memory => Err(AllocError),
    }
}
