//! The sixteen slots of a commandable property, and its default (clause 19.2).
ghost use Rattle.std.specs.Prelude.{◌≡◌, ◌↔◌, IsErr, IsErrOf, IfErr, OnOk, OnErr, List, [], ◌∷◌, length, option_map};
ghost use Rattle.gw_tables.specs.priority.Commandable.{IsPriority, IsPresent, ChangesSlot, slot, present, no_command, with_slot, with_default};
ghost use Rattle.gw_tables.specs.priority.History.{Act, Command, Relinquish, SetDefault, IsStateAfter};

use crate::priority::{PriorityFault, RefusedCommand};
use std::array;
use std::marker::Model;

/// How many priorities there are: from 1, the highest, to 16 (clause 19.2).
pub const PRIORITIES: usize = 16;

/// The lowest priority, that of a write which names none (clause 19.2).
pub const LOWEST: u8 = PRIORITIES as u8;

/// The priority of minimum on and off times (clause 19.2.3).
pub const RESERVED: u8 = 6;

/// The commands of one property: a slot for each priority from 1 to 16, which holds the value that
/// was commanded there or is empty, and the default, Relinquish_Default (clause 19.2). No call takes
/// memory. Contracts see the slots, that of priority 1 first, and the default.
#[derive(Drop)]
pub struct PriorityArray<T> {
    slots: [Option<T>; PRIORITIES],
    default: T,
}

impl<T> Model for PriorityArray<T> {
    ghost use Rattle.std.specs.Prelude.{◌≡◌, length};
    ghost use Rattle.gw_tables.specs.priority.Commandable.{Commandable};
    ghost use Rattle.gw_tables.specs.declared.priority.array.TheConstants.{PRIORITIES};

    ghost Value = { Commandable T };

    ghost view = { λ a. record { slots = a.slots; default = a.default } };

    ghost invariant = { λ a. length a.slots ≡ PRIORITIES };
}

impl<T> PriorityArray<T> {
    /// Sixteen empty slots and this default.
    pub fn new(default: T) -> Self
        ensures slots { result ≡ no_command default }
        ensures stands { IsStateAfter default [] result }
    {
        PriorityArray {
            slots: array::from_fn(|_| None),
            default,
        }
    }

    /// These slots, that of priority 1 first, and this default.
    pub fn from_slots(slots: [Option<T>; PRIORITIES], default: T) -> Self
        ensures { result ≡ record { slots = slots; default = default } }
    {
        PriorityArray { slots, default }
    }

    /// The value that was commanded at this priority, or `None` if its slot is empty. The caller
    /// sees to it that the priority is 1 to 16.
    pub fn slot(&self, priority: u8) -> Option<&T>
        requires { IsPriority priority }
        ensures slot { option_map (λ value. value.now) result ≡ slot priority self.now }
        ensures sixteen { length self.now.slots ≡ PRIORITIES }
    {
        self.slots[usize::from(priority - 1)].as_ref()
    }

    /// The present value: that of the least priority whose slot isn't empty, else the default
    /// (clause 19.2).
    pub fn present(&self) -> &T
        ensures value { result.now ≡ present self.now }
        ensures least { IsPresent self.now result.now }
    {
        for slot in &self.slots {
            if let Some(value) = slot {
                return value;
            }
        }
        &self.default
    }

    /// The sixteen slots, that of priority 1 first.
    pub fn slots(&self) -> &[Option<T>]
        ensures slots { result.now ≡ self.now.slots }
        ensures sixteen { length self.now.slots ≡ PRIORITIES }
    {
        &self.slots
    }

    /// The default.
    pub fn default(&self) -> &T
        ensures { result.now ≡ self.now.default }
    {
        &self.default
    }
}

impl<T: Drop> PriorityArray<T> {
    /// Puts a value into the slot of this priority, in the place of what was there. The caller sees
    /// to it that the priority is 1 to 16.
    ///
    /// `Reserved` if the priority is 6; then nothing changed, and the value is handed back.
    pub fn command(&mut self, priority: u8, value: T) -> Result<(), RefusedCommand<T>>
        requires { IsPriority priority }
        ensures ok { OnOk result (self.new ≡ with_slot priority (Some value) self.old) }
        ensures slot { OnOk result (ChangesSlot self.old priority (Some value) self.new) }
        ensures stands { OnOk result ((start : T) (history : List (Act T)) →
            IsStateAfter start history self.old →
            IsStateAfter start (Command priority value ∷ history) self.new) }
        ensures err { OnErr result (self.new ≡ self.old) }
        ensures reserved { IsErr result ↔ priority ≡ RESERVED }
        ensures fault { IfErr result (λ refused. refused.fault ≡ PriorityFault.Reserved) }
        ensures back { IfErr result (λ refused. refused.value ≡ value) }
    {
        if priority == RESERVED {
            return Err(RefusedCommand {
                fault: PriorityFault::Reserved,
                value,
            });
        }
        self.slots[usize::from(priority - 1)] = Some(value);
        Ok(())
    }

    /// Empties the slot of this priority. The caller sees to it that the priority is 1 to 16.
    ///
    /// `Reserved` if the priority is 6; then nothing changed.
    pub fn relinquish(&mut self, priority: u8) -> Result<(), PriorityFault>
        requires { IsPriority priority }
        ensures ok { OnOk result (self.new ≡ with_slot priority None self.old) }
        ensures slot { OnOk result (ChangesSlot self.old priority None self.new) }
        ensures stands { OnOk result ((start : T) (history : List (Act T)) →
            IsStateAfter start history self.old →
            IsStateAfter start (Relinquish priority ∷ history) self.new) }
        ensures err { OnErr result (self.new ≡ self.old) }
        ensures reserved { IsErrOf result PriorityFault.Reserved ↔ priority ≡ RESERVED }
    {
        if priority == RESERVED {
            return Err(PriorityFault::Reserved);
        }
        self.slots[usize::from(priority - 1)] = None;
        Ok(())
    }

    /// Puts another default in the place of this one. No slot changes.
    pub fn set_default(&mut self, value: T)
        ensures default { self.new ≡ with_default value self.old }
        ensures slots { self.new.slots ≡ self.old.slots }
        ensures stands { (start : T) (history : List (Act T)) →
            IsStateAfter start history self.old →
            IsStateAfter start (SetDefault value ∷ history) self.new }
    {
        self.default = value;
    }
}
