//! Laws of the priority rule (clause 19.2), of all slots and every history. The functions do
//! nothing: their contracts are the laws.
ghost use Rattle.std.specs.Prelude.{◌≡◌, ◌↔◌, ◌⊎◌, ℕ, List, length};
ghost use Rattle.gw_tables.specs.priority.Commandable.{Commandable, IsPriority, IsPresent, present, slot};
ghost use Rattle.gw_tables.specs.priority.History.{Act, Command, Relinquish, IsLastAt, HasNoneAt, slot_after, state_after};

use crate::priority::{LOWEST, PRIORITIES, RESERVED};

/// There are 16 priorities (clause 19.2). The lowest is 16, and 6 is that of minimum on and off times
/// (clause 19.2.3).
pub fn limits()
    ensures count { PRIORITIES ≡ 16 }
    ensures lowest { LOWEST ≡ 16 }
    ensures reserved { RESERVED ≡ 6 }
{}

/// The present value as it is computed is that of the least priority whose slot isn't empty, else
/// the default, and no other value is.
pub fn present_value<T>()
    ensures { (property : Commandable T) (value : T) → length property.slots ≡ PRIORITIES →
        IsPresent property value ↔ value ≡ present property }
{}

/// After a history a slot holds the value of the last act at its priority if that was a command;
/// it is empty if that was a relinquish or there was none.
pub fn slots_after<T>()
    ensures slots { (start : T) (history : List (Act T)) (priority : ℕ) → IsPriority priority →
        slot priority (state_after start history) ≡ slot_after history priority }
    ensures command { (history : List (Act T)) (priority : ℕ) (value : T) →
        (slot_after history priority ≡ Some value)
        ↔ IsLastAt priority history (Command priority value) }
    ensures empty { (history : List (Act T)) (priority : ℕ) →
        (slot_after history priority ≡ None)
        ↔ (IsLastAt priority history (Relinquish priority) ⊎ HasNoneAt priority history) }
{}
