//! How a replay reports an event: what it does, or before that also what it asks.

ghost use Rattle.std.specs.Prelude.{◌≡◌, ◌+◌, ◌≤◌, ◌++◌, [], IfErr, IsOk, OnOk, length, vec_capacity, vec_len};
ghost use Rattle.gw_script.specs.Event.{Tick, event_view};
ghost use Rattle.gw_core.specs.Effects.{NeedsNoMemory};
ghost use Rattle.gw_core.specs.Explained.{asked_lines};
ghost use Rattle.gw_core.specs.History.{next};
ghost use Rattle.gw_replay.specs.Entry.{entry_view, moved_by};
ghost use Rattle.gw_replay.specs.Replay.{entry_text};
ghost use Rattle.gw_replay.specs.declared.replaying.RunFault.TheVariants.{Memory};
ghost use Rattle.gw_replay.specs.internal.LineOutcome.{IsEntryFault, IsEventFault};
ghost use Rattle.gw_replay.specs.Shown.{announced_text, effects_text, event_text};

use crate::entry::ScriptEntry;
use crate::replaying::RunFault;
use crate::shown::{append_announcements, append_effects};
use gw_core::{
    AllAsks, Asked, DenialsAlone, Effects, Gateway, StepFault, Taken, append_asked, take_event_to,
};
use gw_rules::RuleList;
use gw_script::{Event, SpelledAddr, append_end};
use std::alloc::{AllocError, Global};

/// How a replay reports an event. It keeps what an event does from event to event.
pub(crate) trait EventText {
    ghost use Rattle.gw_replay.specs.Replay.{EventText};

    /// The text of an event in the state in which it comes.
    ghost wording: { EventText };

    /// The allocator of what an event does.
    fn alloc(&self) -> Global;

    /// Has the gateway take an event, and makes the event's text.
    fn make_text(
        &mut self,
        gateway: &mut Gateway,
        event: &Event<'_>,
        sender: &Option<SpelledAddr<'_>>,
        text: &mut Vec<u8>,
    ) -> Result<(), RunFault>
        requires room { 4 ≤ vec_capacity text.old }
        ensures text { OnOk result
            (text.new.items ≡ wording gateway.old (event_view event.now)) }
        ensures moved { OnOk result (gateway.new ≡ next gateway.old (event_view event.now)) }
        ensures fault { IfErr result (IsEventFault gateway.old (event_view event.now)) }
        ensures capacity { vec_capacity text.old ≤ vec_capacity text.new };
}

/// By what it does.
#[derive(Drop)]
pub(crate) struct Plain {
    pub taken: Taken,
}

/// By what it asks, and then by what it does.
#[derive(Drop)]
pub(crate) struct Explaining {
    pub taken: Taken,
}

/// Has the gateway take a tick, and appends its only line.
#[inline(always)]
fn append_tick(gateway: &mut Gateway, text: &mut Vec<u8>) -> Result<(), RunFault>
    requires room { vec_len text.old + 4 ≤ vec_capacity text.old }
    ensures text { OnOk result (text.new.items ≡ text.old.items ++ event_text gateway.old Tick) }
    ensures moved { OnOk result (gateway.new ≡ next gateway.old Tick) }
    ensures fault { IfErr result (IsEventFault gateway.old Tick) }
    ensures capacity { vec_capacity text.old ≤ vec_capacity text.new }
{
    let Ok(()) = gateway.tick() else {
        return Err(RunFault::CountEnd);
    };
    match append_end(text) {
        Ok(()) => Ok(()),
        Err(_) => Err(RunFault::Memory),
    }
}

/// Has the gateway take a datagram, and appends the lines of what it does, which is written into its place.
#[inline(always)]
fn append_step(
    taken: &mut Taken,
    gateway: &mut Gateway,
    event: &Event<'_>,
    sender: &Option<SpelledAddr<'_>>,
    text: &mut Vec<u8>,
) -> Result<(), RunFault>
    requires room { NeedsNoMemory gateway.old (event_view event.now) →
        vec_len text.old + 4 ≤ vec_capacity text.old }
    ensures text { let due = event_text gateway.old (event_view event.now) in
        OnOk result (text.new.items ≡ text.old.items ++ due) }
    ensures moved { OnOk result (gateway.new ≡ next gateway.old (event_view event.now)) }
    ensures fault { IfErr result (IsEventFault gateway.old (event_view event.now)) }
    ensures capacity { vec_capacity text.old ≤ vec_capacity text.new }
{
    let alloc = taken.alloc();
    match take_event_to(alloc, gateway, event, &DenialsAlone, taken) {
        Ok(()) => {}
        Err(StepFault::Memory) => return Err(RunFault::Memory),
        Err(StepFault::CountEnd) => return Err(RunFault::CountEnd),
    }
    match append_effects(text, &taken.effects, sender) {
        Ok(()) => Ok(()),
        Err(_) => Err(RunFault::Memory),
    }
}

/// Has the gateway take an event, and appends the lines of what it does.
#[inline(always)]
fn append_taken(
    taken: &mut Taken,
    gateway: &mut Gateway,
    event: &Event<'_>,
    sender: &Option<SpelledAddr<'_>>,
    text: &mut Vec<u8>,
) -> Result<(), RunFault>
    requires room { NeedsNoMemory gateway.old (event_view event.now) →
        vec_len text.old + 4 ≤ vec_capacity text.old }
    ensures text { let due = event_text gateway.old (event_view event.now) in
        OnOk result (text.new.items ≡ text.old.items ++ due) }
    ensures moved { OnOk result (gateway.new ≡ next gateway.old (event_view event.now)) }
    ensures fault { IfErr result (IsEventFault gateway.old (event_view event.now)) }
    ensures capacity { vec_capacity text.old ≤ vec_capacity text.new }
{
    match event {
        Event::Datagram { .. } => append_step(taken, gateway, event, sender, text),
        Event::Tick => append_tick(gateway, text),
    }
}

/// Appends a line for each ask of an event, and after them those of what it does. Refused only if the buffer had no room
/// for them.
fn append_explained(
    text: &mut Vec<u8>,
    rules: &RuleList,
    asked: &[Asked],
    effects: &Effects,
    sender: &Option<SpelledAddr<'_>>,
) -> Result<(), AllocError>
    ensures ok { let due = asked_lines rules.now asked.now ++ effects_text effects.now in
        OnOk result (text.new.items ≡ text.old.items ++ due) }
    ensures room { asked.now ≡ [] →
        vec_len text.old + length (effects_text effects.now) ≤ vec_capacity text.old → IsOk result }
    ensures capacity { vec_capacity text.old ≤ vec_capacity text.new }
{
    append_asked(text, rules, asked)?;
    append_effects(text, effects, sender)
}

impl EventText for Plain {
    ghost use Rattle.gw_replay.specs.Shown.{event_text};

    ghost wording = { event_text };

    fn alloc(&self) -> Global {
        self.taken.alloc()
    }

    #[inline(always)]
    fn make_text(
        &mut self,
        gateway: &mut Gateway,
        event: &Event<'_>,
        sender: &Option<SpelledAddr<'_>>,
        text: &mut Vec<u8>,
    ) -> Result<(), RunFault> {
        text.clear();
        append_taken(&mut self.taken, gateway, event, sender, text)
    }
}

impl EventText for Explaining {
    ghost use Rattle.gw_replay.specs.Explained.{explained_text};

    ghost wording = { explained_text };

    fn alloc(&self) -> Global {
        self.taken.alloc()
    }

    fn make_text(
        &mut self,
        gateway: &mut Gateway,
        event: &Event<'_>,
        sender: &Option<SpelledAddr<'_>>,
        text: &mut Vec<u8>,
    ) -> Result<(), RunFault> {
        text.clear();
        let alloc = self.alloc();
        let asked = match take_event_to(alloc, gateway, event, &AllAsks, &mut self.taken) {
            Ok(asked) => asked,
            Err(StepFault::Memory) => return Err(RunFault::Memory),
            Err(StepFault::CountEnd) => return Err(RunFault::CountEnd),
        };
        let asked = asked.as_slice();
        match append_explained(text, gateway.rules(), asked, &self.taken.effects, sender) {
            Ok(()) => Ok(()),
            Err(_) => Err(RunFault::Memory),
        }
    }
}

/// Plays what a line writes, and makes its text.
#[inline(always)]
pub(crate) fn make_entry_text<T: EventText>(
    event_writer: &mut T,
    gateway: &mut Gateway,
    entry: &ScriptEntry<'_>,
    sender: &Option<SpelledAddr<'_>>,
    text: &mut Vec<u8>,
) -> Result<(), RunFault>
    requires room { 4 ≤ vec_capacity text.old }
    ensures text { OnOk result
        (text.new.items ≡ entry_text T.wording gateway.old (entry_view entry.now)) }
    ensures moved { OnOk result (gateway.new ≡ moved_by gateway.old (entry_view entry.now)) }
    ensures fault { IfErr result (IsEntryFault gateway.old (entry_view entry.now)) }
    ensures capacity { vec_capacity text.old ≤ vec_capacity text.new }
{
    match entry {
        ScriptEntry::Comes(event) => event_writer.make_text(gateway, event, sender, text),
        ScriptEntry::Announces => make_announced_text(event_writer.alloc(), gateway, text),
    }
}

/// Makes the text of what a gateway announces on its ports, in order.
fn make_announced_text(alloc: Global, gateway: &Gateway, text: &mut Vec<u8>) -> Result<(), RunFault>
    ensures text { OnOk result (text.new.items ≡ announced_text gateway.now) }
    ensures fault { IfErr result (λ fault. fault ≡ Memory) }
    ensures capacity { vec_capacity text.old ≤ vec_capacity text.new }
{
    let Ok(sends) = gateway.announcements(alloc) else {
        return Err(RunFault::Memory);
    };
    text.clear();
    match append_announcements(text, &sends) {
        Ok(()) => Ok(()),
        Err(_) => Err(RunFault::Memory),
    }
}
