//! The asks that are given, each once.
ghost use Rattle.std.specs.Prelude.{◌≡◌, ◌∷◌, [], map, true, if◌then◌else◌, IfOk, IfSome, OnOk};
ghost use Rattle.gw_policy_drafts.specs.suggestion.Given.{Adds, AddsAll, Has, HaveSame, akin, filled, filled_from, is_open, lacks_for};
ghost use Rattle.gw_policy_drafts.specs.suggestion.Given.{lacks_property, of_both};

use crate::suggestion::fault::SuggestFault;
use crate::suggestion::places::{Places, mixed};
use gw_rules::{Ask, FieldName, Operation, laws};
use std::alloc::{AllocError, Global};
use std::marker::Model;

/// How many different asks may be given.
pub const MAX_ASKS: usize = 16_384;

/// An ask, and how often it was given.
#[derive(Clone, Copy)]
pub(crate) struct Weighted {
    pub ask: Ask,
    pub times: u64,
}

/// Different asks, in the order in which they were first given, and how often each was. Contracts see the asks.
#[derive(Drop)]
pub(crate) struct Given {
    asks: Vec<Ask>,
    counts: Vec<u64>,
    places: Places,
}

impl Model for Given {
    ghost use Rattle.std.specs.Prelude.{List};
    ghost use Rattle.gw_rules.specs.Ask.{Ask};

    ghost Value = { List Ask };

    ghost view = { λ g. g.asks.items };
}

/// A number made of an ask.
fn number_of(ask: &Ask) -> usize {
    let mut number = 0;
    for field in FieldName::ALL.iter() {
        number = match ask.get(*field) {
            Some(value) => mixed(mixed(number, 1), *value as usize),
            None => mixed(number, 0),
        };
    }
    number
}

fn is_same(a: &Ask, b: &Ask) -> bool
    ensures { result ≡ true → a.now ≡ b.now }
{
    laws::equality();
    a == b
}

impl Given {
    /// No ask.
    pub(crate) fn new(alloc: Global) -> Result<Self, AllocError>
        ensures { IfOk result (λ given. given ≡ []) }
    {
        Ok(Given {
            asks: Vec::new(alloc),
            counts: Vec::new(alloc),
            places: Places::new(alloc, MAX_ASKS)?,
        })
    }

    /// The asks in order.
    pub(crate) fn as_slice(&self) -> &[Ask]
        ensures { result.now ≡ self.now }
    {
        self.asks.as_slice()
    }

    /// How often the ask at a place was given.
    fn count_at(&self, place: usize) -> u64 {
        match self.counts.get(place) {
            Some(count) => *count,
            None => 0,
        }
    }

    /// The asks in order, and how often each was given.
    pub(crate) fn weighted(&self, alloc: Global) -> Result<Vec<Weighted>, AllocError>
        ensures { IfOk result (λ weighted. map (λ each. each.ask) weighted.items ≡ self.now) }
    {
        let mut weighted = Vec::new(alloc);
        let asks = self.as_slice();
        for (place, ask) in asks.iter().enumerate() {
            let times = self.count_at(place);
            weighted.push(Weighted { ask: *ask, times })?;
        }
        Ok(weighted)
    }

    /// The place of an ask, if it is there.
    fn place_of(&self, number: usize, ask: &Ask) -> Option<usize>
        ensures { IfSome result (λ _. Has self.now ask.now) }
    {
        for step in 0..self.asks.len() {
            let Some(place) = self.places.at(number, step) else {
                return None;
            };
            if place < self.asks.len() && is_same(&self.asks[place], ask) {
                return Some(place);
            }
        }
        None
    }

    fn count_once_more(&mut self, place: usize)
        ensures { self.new ≡ self.old }
    {
        if place < self.counts.len() {
            self.counts[place] = self.counts[place].saturating_add(1);
        }
    }

    /// Adds an ask, unless it is there. `TooManyAsks` if 16,384 others are there; `Memory`.
    #[tactic(auto, using(crate::proofs::suggestion_lemmas::GivenLaw::adds_known, crate::proofs::suggestion_lemmas::GivenLaw::adds_new))]
    pub(crate) fn add(&mut self, ask: &Ask) -> Result<(), SuggestFault>
        ensures { OnOk result (Adds self.old self.new ask.now) }
    {
        let number = number_of(ask);
        if let Some(place) = self.place_of(number, ask) {
            self.count_once_more(place);
            return Ok(());
        }
        if self.asks.len() >= MAX_ASKS {
            return Err(SuggestFault::TooManyAsks);
        }
        self.places.note(number, self.asks.len());
        self.counts.push(1)?;
        self.asks.push(*ask)?;
        Ok(())
    }
}

/// Whether an ask lacks the type, the instance or the property.
fn lacks_property(ask: &Ask) -> bool
    ensures { result ≡ lacks_property ask.now }
{
    ask.object_type.is_none() || ask.instance.is_none() || ask.property.is_none()
}

/// Whether an ask for an operation is a read or a write that doesn't name what it is for.
fn lacks_for(operation: u64, ask: &Ask) -> bool
    ensures { result ≡ lacks_for operation ask.now }
{
    if operation == Operation::Read.number() {
        lacks_property(ask)
    } else if operation == Operation::Write.number() {
        lacks_property(ask) || ask.priority.is_none()
    } else {
        false
    }
}

/// Whether the own rule of an ask would be about each object, each property, each priority or each operation.
pub(crate) fn is_open(ask: &Ask) -> bool
    ensures { result ≡ is_open ask.now }
{
    match ask.operation {
        Some(operation) => lacks_for(operation, ask),
        None => true,
    }
}

/// Whether two asks are alike but for the object, the property and the priority.
fn are_akin(a: &Ask, b: &Ask) -> bool
    ensures { result ≡ akin a.now b.now }
{
    a.operation == b.operation
        && a.port == b.port
        && a.source_network == b.source_network
        && a.source_key == b.source_key
        && a.destination_network == b.destination_network
        && a.service == b.service
        && a.sender == b.sender
        && a.station == b.station
}

/// The ask for the object of one and the property and the priority of another one.
fn of_both(a: &Ask, b: &Ask) -> Ask
    ensures { result ≡ of_both a.now b.now }
{
    Ask {
        property: b.property,
        priority: b.priority,
        ..*a
    }
}

/// Adds the ask of the one's object and the other's property, if they are akin.
fn add_both(all: &mut Given, a: &Ask, b: &Ask) -> Result<(), SuggestFault>
    ensures { OnOk result (AddsAll all.old all.new (if akin a.now b.now then of_both a.now b.now ∷ [] else [])) }
{
    if !are_akin(a, b) {
        return Ok(());
    }
    all.add(&of_both(a, b))
}

/// Adds an ask's object with the property and the priority of each that is akin to it.
#[tactic(auto, using(crate::proofs::suggestion_lemmas::GivenLaw::adds_step))]
fn add_akin(all: &mut Given, a: &Ask, given: &[Ask]) -> Result<(), SuggestFault>
    ensures { OnOk result (AddsAll all.old all.new (filled_from given.now a.now)) }
{
    for b in given {
        add_both(all, a, b)?;
    }
    Ok(())
}

/// Of each station, operation and destination, each object that it asked for with each property and priority
/// that it asked for. `TooManyAsks` if there are more than 16,384; `Memory`.
#[tactic(auto, using(crate::proofs::suggestion_lemmas::GivenLaw::adds_step))]
pub(crate) fn filled(alloc: Global, given: &[Ask]) -> Result<Given, SuggestFault>
    ensures { IfOk result (λ all. HaveSame all (filled given.now)) }
{
    let mut all = Given::new(alloc)?;
    for a in given {
        add_akin(&mut all, a, given)?;
    }
    Ok(all)
}
