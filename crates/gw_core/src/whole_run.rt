//! A run: what a gateway answers to a list of events.

ghost use Rattle.std.specs.Prelude.{◌≡◌, ℕ, IfOk, IsOk, IsErrOf, OnOk, OnErr, map, false, true};
ghost use Rattle.gw_script.specs.Event.{event_view};
ghost use Rattle.gw_core.specs.Drops.{drop_at};
ghost use Rattle.gw_core.specs.Effects.{NeedsNoMemory, effects_at, passes_end};
ghost use Rattle.gw_core.specs.Lasting.{lasts};
ghost use Rattle.gw_core.specs.History.{HasTaken, StopsAtEnd, next, run_from, state_from};

use crate::effects::Effects;
use crate::fault::StepFault;
use crate::gateway::{Gateway, Reported, Taken};
use crate::receive::Arrival;
use crate::reporting::{DenialsAlone, Reporting};
use gw_script::Event;
use std::alloc::Global;

/// Takes one event of either kind: what it does, why it was dropped, if it was, whether it lasts, and what is to be
/// reported of what it asked. The faults are those of [`Gateway::step`] and [`Gateway::tick`]; then nothing changed.
pub fn take_event<R: Reporting>(
    alloc: Global,
    gateway: &mut Gateway,
    event: &Event<'_>,
    reporting: &R,
) -> Result<Reported<R::Asked>, StepFault>
    ensures given { IfOk result
        (λ reported. reported.taken.effects ≡ effects_at gateway.old (event_view event.now)) }
    ensures drop { IfOk result
        (λ reported. reported.taken.drop ≡ drop_at gateway.old (event_view event.now)) }
    ensures lasts { IfOk result
        (λ reported. reported.taken.lasts ≡ lasts gateway.old (event_view event.now)) }
    ensures asked { IfOk result
        (λ reported. reported.asked ≡ R.asked reporting.now gateway.old (event_view event.now)) }
    ensures moved { OnOk result (gateway.new ≡ next gateway.old (event_view event.now)) }
    ensures within { IsOk result → passes_end gateway.old (event_view event.now) ≡ false }
    ensures count_end { IsErrOf result StepFault.CountEnd →
        passes_end gateway.old (event_view event.now) ≡ true }
    ensures memory { IsErrOf result StepFault.Memory →
        ¬ (NeedsNoMemory gateway.old (event_view event.now)) }
    ensures err { OnErr result (gateway.new ≡ gateway.old) }
{
    let mut taken = Taken::nothing(alloc);
    match take_event_to(alloc, gateway, event, reporting, &mut taken) {
        Ok(asked) => Ok(Reported { taken, asked }),
        Err(fault) => Err(fault),
    }
}

/// Takes one event as [`take_event`] does, writes what it does into its place, whatever was there, and answers what is to
/// be reported of what it asked. What is in the place after a fault is of no use.
#[inline(always)]
pub fn take_event_to<R: Reporting>(
    alloc: Global,
    gateway: &mut Gateway,
    event: &Event<'_>,
    reporting: &R,
    taken: &mut Taken,
) -> Result<R::Asked, StepFault>
    ensures given { OnOk result (taken.new.effects ≡ effects_at gateway.old (event_view event.now)) }
    ensures drop { OnOk result (taken.new.drop ≡ drop_at gateway.old (event_view event.now)) }
    ensures lasts { OnOk result (taken.new.lasts ≡ lasts gateway.old (event_view event.now)) }
    ensures asked { IfOk result (λ asked. asked ≡ R.asked reporting.now gateway.old (event_view event.now)) }
    ensures moved { OnOk result (gateway.new ≡ next gateway.old (event_view event.now)) }
    ensures within { IsOk result → passes_end gateway.old (event_view event.now) ≡ false }
    ensures count_end { IsErrOf result StepFault.CountEnd →
        passes_end gateway.old (event_view event.now) ≡ true }
    ensures memory { IsErrOf result StepFault.Memory →
        ¬ (NeedsNoMemory gateway.old (event_view event.now)) }
    ensures err { OnErr result (gateway.new ≡ gateway.old) }
{
    match event {
        Event::Datagram { port, from, octets } => {
            let arrival = Arrival {
                port: *port,
                from: *from,
                octets,
            };
            gateway.take_to(alloc, &arrival, reporting, taken)
        }
        Event::Tick => {
            gateway.tick()?;
            taken.clear();
            Ok(reporting.nothing(alloc))
        }
    }
}

/// Takes the events in order, and answers what each does. Faults: `Memory` where a growth was
/// refused, and `CountEnd` where the next event would pass the end of a count. The gateway is then
/// in the state in which some first events left it.
pub fn run(
    alloc: Global,
    gateway: &mut Gateway,
    events: &[Event<'_>],
) -> Result<Vec<Effects>, StepFault>
    ensures effects { IfOk result
        (λ given. given.items ≡ run_from gateway.old (map event_view events.now)) }
    ensures state { OnOk result (gateway.new ≡ state_from gateway.old (map event_view events.now)) }
    ensures count_end { IsErrOf result StepFault.CountEnd →
        StopsAtEnd gateway.old (map event_view events.now) gateway.new }
    ensures err { OnErr result
        ((n : ℕ) × HasTaken gateway.old (map event_view events.now) n gateway.new) }
{
    let mut given = Vec::new(alloc);
    let mut rest = events;
    while let [event, later @ ..] = rest {
        let reported = take_event(alloc, gateway, event, &DenialsAlone)?;
        if given.push(reported.taken.into_effects()).is_err() {
            return Err(StepFault::Memory);
        }
        rest = later;
    }
    Ok(given)
}
