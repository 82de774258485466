//! Laws of the definitions that the contracts cite. The functions change nothing and answer
//! nothing: their contracts are the laws.

ghost use Rattle.std.specs.Prelude.{◌≡◌, ◌↔◌, ◌++◌, List, ℕ, Ok, Err};
ghost use Rattle.gw_codecs.specs.declared.apdu.fault.ApduFault.TheVariants as faults;
ghost use Rattle.gw_codecs.specs.apdu.Apdu.{Fields, IsApdu, IsShort, HasUnknownType};
ghost use Rattle.gw_codecs.specs.apdu.Answers.{AnswersAreRead};
ghost use Rattle.gw_codecs.specs.apdu.Reading.{apdu_at};
ghost use Rattle.gw_codecs.specs.apdu.Reasons.{inconsistent_parameters, invalid_tag, missing_required_parameter, parameter_out_of_range, too_many_arguments, unrecognized_service, segmentation_not_supported};

use crate::apdu::reason::{AbortReason, RejectReason};

/// What `apdu_at` computes of octets is what the relations say of them.
pub fn reading()
    ensures found { (octets : List ℕ) (f : Fields) → (apdu_at octets ≡ Ok f) ↔ IsApdu octets f }
    ensures short { (octets : List ℕ) → (apdu_at octets ≡ Err faults.Short) ↔ IsShort octets }
    ensures kind { (octets : List ℕ) → (apdu_at octets ≡ Err faults.Kind) ↔ HasUnknownType octets }
{}

/// Octets are one APDU at most.
pub fn one_apdu()
    ensures { (octets : List ℕ) (f g : Fields) → IsApdu octets f → IsApdu octets g → f ≡ g }
{}

/// What is written as an answer is read again as that answer.
pub fn read_again()
    ensures { AnswersAreRead }
{}

/// The reasons that others take from the code have the standard's numbers.
pub fn reasons()
    ensures inconsistent { RejectReason.INCONSISTENT_PARAMETERS.0 ≡ inconsistent_parameters }
    ensures tag { RejectReason.INVALID_TAG.0 ≡ invalid_tag }
    ensures missing { RejectReason.MISSING_REQUIRED_PARAMETER.0 ≡ missing_required_parameter }
    ensures range { RejectReason.PARAMETER_OUT_OF_RANGE.0 ≡ parameter_out_of_range }
    ensures many { RejectReason.TOO_MANY_ARGUMENTS.0 ≡ too_many_arguments }
    ensures service { RejectReason.UNRECOGNIZED_SERVICE.0 ≡ unrecognized_service }
    ensures segments { AbortReason.SEGMENTATION_NOT_SUPPORTED.0 ≡ segmentation_not_supported }
{}
