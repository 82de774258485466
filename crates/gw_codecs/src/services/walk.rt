//! A ReadPropertyMultiple body, a reference at a time (clause 15.7).

ghost use Rattle.std.specs.Prelude.{◌≤◌, IsOk};
ghost use Rattle.std.specs.Option.{option_map};
ghost use Rattle.gw_addr.specs.Reading.{Gives};
ghost use Rattle.gw_codecs.specs.tags.Object.{object_view};
ghost use Rattle.gw_codecs.specs.services.Multi.{reference_view};
ghost use Rattle.gw_codecs.specs.services.MultiReading.{step_at};
ghost use Rattle.gw_codecs.specs.services.internal.Next.{next_view};

use crate::services::fault::BodyFault;
use crate::services::multi::{is_consistent, next, reference};
use crate::services::next::Next;
use crate::services::reference::Reference;
use crate::tags::ObjectId;

/// Reads one reference of the body of a ReadPropertyMultiple, of which so many may still come, in
/// the list of the current object, and returns what follows it. It takes no memory.
/// [`decode_multi`](crate::services::decode_multi) reads a whole body.
///
/// # Errors
///
/// 1 `InvalidTag`, 2 `Missing`, 3 `OutOfRange`, 4 `TooMany` and 5 `Inconsistent`, as [`BodyFault`]
/// says. The reference is read whole, and then counted, and then judged.
pub fn read_reference(
    left: u8,
    current: Option<ObjectId>,
    octets: &[u8],
) -> Result<(Reference, Next<'_>), BodyFault>
    ensures step { Gives (λ x. (reference_view x.0, next_view x.1)) result
        (step_at left (option_map object_view current) octets.now) }
    ensures some { IsOk result → 1 ≤ left }
{
    let (reference, behind) = reference(current, octets)?;
    if left == 0 {
        return Err(BodyFault::TooMany);
    }
    if !is_consistent(&reference) {
        return Err(BodyFault::Inconsistent);
    }
    let next = next(reference.object, behind);
    Ok((reference, next))
}
