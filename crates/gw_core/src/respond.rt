//! What is done about what is received, while the gateway stays as it is: what all its parts ask,
//! send and change.

ghost use Rattle.std.specs.Prelude.{◌≡◌, ◌++◌, [], List, None, false, IfOk, IsOk, OnOk};
ghost use Rattle.gw_objects.specs.Objects.{Database};
ghost use Rattle.gw_device.specs.Response.{HasPlace};
ghost use Rattle.gw_rules.specs.declared.rule.Rule.{Rule};
ghost use Rattle.gw_frames.specs.npdu.Npdu.{view as npdu_view};
ghost use Rattle.gw_relay.specs.Cast.{goes_on, is_unregistered};
ghost use Rattle.gw_relay.specs.Manage.{manage_asks, manage_response};
ghost use Rattle.gw_relay.specs.Message.{message_view};
ghost use Rattle.gw_relay.specs.Turn.{IsWalked};
ghost use Rattle.gw_core.specs.Asks.{asks_for, message_asks};
ghost use Rattle.gw_core.specs.Effects.{message_change, message_sends, sends_for};
ghost use Rattle.gw_core.specs.Receive.{admit};
ghost use Rattle.gw_core.specs.internal.Respond.{IsResponse, entered_response, is_taken, is_apdu, is_plain, message_response};
ghost use Rattle.gw_core.specs.internal.Respond.{passed_asks, passed_response};
ghost use Rattle.gw_core.specs.State.{device_network};
ghost use Rattle.gw_core.specs.internal.View.{judged, received_view};

use crate::receive::Received;
use crate::reply::{add_answer, apdu_for, context_of};
use gw_addr::NetNum;
use gw_device::{Change, Device, Served};
use gw_frames::bvll::Bvll;
use gw_frames::npdu::Payload;
use gw_relay::{Message, Relay, Turn};
use gw_rules::{Asker, Format};
use std::alloc::AllocError;

/// The device's network.
pub(crate) fn network_of(device: &Device) -> NetNum
    ensures { result ≡ device_network device.now }
{
    device.configured().device.network
}

/// Puts a value into its place. If there is none, and none was there, nothing is moved.
#[inline(always)]
pub(crate) fn put<T: Drop>(place: &mut Option<T>, value: Option<T>)
    ensures { place.new ≡ value }
{
    if value.is_some() || place.is_some() {
        *place = value;
    }
}

/// Takes the value out of its place. If there is none, nothing is moved.
#[inline(always)]
pub(crate) fn take_out<T: Drop>(place: &mut Option<T>) -> Option<T>
    ensures value { result ≡ place.old }
    ensures after { place.new ≡ None }
{
    if place.is_none() {
        return None;
    }
    place.take()
}

/// Whether a message brings an APDU, and none of the network layer.
fn is_apdu(message: &Message<'_>) -> bool
    ensures { result ≡ is_apdu (npdu_view message.now.npdu.now).payload }
{
    matches!(message.npdu.payload, Payload::Apdu(_))
}

/// Adds what the network layer answers to a message (step 9). It answers to no APDU.
fn add_managed<A: Asker>(
    relay: &Relay,
    message: &Message<'_>,
    turn: &mut Turn<A>,
) -> Result<(), AllocError>
    ensures walked { (rules : List Rule) → A.StandsFor turn.old.asker rules →
        let due = manage_response rules relay.now (message_view message.now) in
        OnOk result (IsWalked A.kept A.kept_of rules due turn.old turn.new) }
    ensures stays { (rules : List Rule) →
        A.StandsFor turn.old.asker rules → A.StandsFor turn.new.asker rules }
    ensures picks { A.picks turn.new.asker ≡ A.picks turn.old.asker }
    ensures silent { manage_asks relay.now (message_view message.now) ≡ [] → IsOk result }
{
    if is_apdu(message) {
        return Ok(());
    }
    relay.manage(message, turn)
}

/// Adds what is done about any message but for the device: it is distributed; and if it goes on to the network
/// layer, it is routed and answered there. It answers whether it goes on.
#[inline(never)]
fn add_each_way<A: Asker>(
    relay: &Relay,
    message: &Message<'_>,
    turn: &mut Turn<A>,
) -> Result<bool, AllocError>
    ensures walked { (rules : List Rule) → A.StandsFor turn.old.asker rules →
        let due = passed_response rules relay.now (message_view message.now) in
        OnOk result (IsWalked A.kept A.kept_of rules due turn.old turn.new) }
    ensures stays { (rules : List Rule) →
        A.StandsFor turn.old.asker rules → A.StandsFor turn.new.asker rules }
    ensures picks { A.picks turn.new.asker ≡ A.picks turn.old.asker }
    ensures goes_on { let m = message_view message.now in
        IfOk result (λ goes. goes ≡ goes_on m.here m.from m.frame) }
    ensures silent { let m = message_view message.now in
        passed_asks relay.now m ≡ [] → is_unregistered m.here m.from m.frame ≡ false → IsOk result }
{
    let goes_on = relay.cast(message, turn)?;
    if !goes_on {
        return Ok(false);
    }
    relay.route(message, turn)?;
    add_managed(relay, message, turn)?;
    Ok(true)
}

/// Whether a message is a unicast with an APDU. It is neither distributed nor answered by the network
/// layer.
fn is_plain(message: &Message<'_>) -> bool
    ensures { result ≡ is_plain (message_view message.now) }
{
    matches!(message.frame, Bvll::OriginalUnicast(_)) && is_apdu(message)
}

/// Adds what is done about a message but for the device (steps 4 and 6 to 9). It answers whether the message goes
/// on to the network layer. What asks nothing and answers no unregistered sender wants no memory.
fn add_passed<A: Asker>(
    relay: &Relay,
    message: &Message<'_>,
    turn: &mut Turn<A>,
) -> Result<bool, AllocError>
    ensures walked { (rules : List Rule) → A.StandsFor turn.old.asker rules →
        let due = passed_response rules relay.now (message_view message.now) in
        OnOk result (IsWalked A.kept A.kept_of rules due turn.old turn.new) }
    ensures stays { (rules : List Rule) →
        A.StandsFor turn.old.asker rules → A.StandsFor turn.new.asker rules }
    ensures picks { A.picks turn.new.asker ≡ A.picks turn.old.asker }
    ensures goes_on { let m = message_view message.now in
        IfOk result (λ goes. goes ≡ goes_on m.here m.from m.frame) }
    ensures silent { let m = message_view message.now in
        passed_asks relay.now m ≡ [] → is_unregistered m.here m.from m.frame ≡ false → IsOk result }
{
    if is_plain(message) {
        relay.route(message, turn)?;
        return Ok(true);
    }
    add_each_way(relay, message, turn)
}

/// Adds what is asked before a message is taken that goes on to the network layer: whether its station may
/// enter, and whether it may speak for a network. It answers whether the policy doesn't keep it out. Only a format that
/// names stations asks.
#[inline(always)]
fn add_entry<A: Asker>(
    relay: &Relay,
    message: &Message<'_>,
    turn: &mut Turn<A>,
) -> Result<bool, AllocError>
    ensures walked { (rules : List Rule) → A.StandsFor turn.old.asker rules →
        let due = entered_response rules relay.now (message_view message.now) in
        OnOk result (IsWalked A.kept A.kept_of rules due turn.old turn.new) }
    ensures stays { (rules : List Rule) →
        A.StandsFor turn.old.asker rules → A.StandsFor turn.new.asker rules }
    ensures picks { A.picks turn.new.asker ≡ A.picks turn.old.asker }
    ensures taken { (rules : List Rule) → A.StandsFor turn.old.asker rules →
        let due = is_taken rules relay.now (message_view message.now) in
        IfOk result (λ taken. taken ≡ due) }
    ensures silent { (rules : List Rule) → A.StandsFor turn.old.asker rules →
        (entered_response rules relay.now (message_view message.now)).asks ≡ [] → IsOk result }
{
    if relay.format().names_stations() && message.here.goes_on(message.from, message.frame) {
        relay.admit(message, turn)
    } else {
        Ok(true)
    }
}

/// Adds what the device does about a message (step 10), and writes what is granted into its place, which is empty, if it
/// is a write.
fn add_served<A: Asker>(
    format: Format,
    device: &Device,
    message: &Message<'_>,
    turn: &mut Turn<A>,
    write: &mut Option<Change>,
) -> Result<(), AllocError>
    requires none { write.old ≡ None }
    ensures walked { (rules : List Rule) → A.StandsFor turn.old.asker rules →
        let due = message_response rules format device.now (message_view message.now) in
        OnOk result (IsWalked A.kept A.kept_of rules due turn.old turn.new) }
    ensures write { (rules : List Rule) → A.StandsFor turn.old.asker rules →
        let due = message_change rules format device.now (message_view message.now) in
        OnOk result (write.new ≡ due) }
    ensures place { OnOk result (HasPlace device.now write.new) }
    ensures picks { A.picks turn.new.asker ≡ A.picks turn.old.asker }
    ensures silent { (rules : List Rule) → A.StandsFor turn.old.asker rules →
        let m = message_view message.now in
        message_asks rules format device.now m ≡ [] → message_sends rules format device.now m ≡ [] →
        IsOk result }
{
    let network = network_of(device);
    let Some(apdu) = apdu_for(network, message.npdu) else {
        return Ok(());
    };
    let context = context_of(format, network, message);
    let mut spare = turn.sends.spare();
    let Served { answer, change } = device.answer(&context, apdu, &mut turn.asker, &mut spare)?;
    turn.sends.keep(spare);
    add_answer(network, message, answer, &mut turn.sends)?;
    put(write, change);
    Ok(())
}

/// Adds what is done about a message (steps 4 to 10), and writes into its place, which is empty, the write to the device
/// that is granted, if there is one.
#[inline(always)]
fn add_message<A: Asker>(
    relay: &Relay,
    device: &Device,
    message: &Message<'_>,
    turn: &mut Turn<A>,
    write: &mut Option<Change>,
) -> Result<(), AllocError>
    requires none { write.old ≡ None }
    ensures response { (rules : List Rule) → A.StandsFor turn.old.asker rules →
        let due = admit rules relay.now (judged (message_view message.now)) in
        OnOk result (IsResponse A.kept A.kept_of rules relay.now device.now due turn.old turn.new write.new) }
    ensures picks { A.picks turn.new.asker ≡ A.picks turn.old.asker }
    ensures silent { (rules : List Rule) → A.StandsFor turn.old.asker rules →
        let due = admit rules relay.now (judged (message_view message.now)) in
        asks_for rules relay.now device.now due ≡ [] →
        sends_for rules relay.now device.now due ≡ [] → IsOk result }
{
    let taken = add_entry(relay, message, turn)?;
    if !taken {
        return Ok(());
    }
    let goes_on = add_passed(relay, message, turn)?;
    if !goes_on {
        return Ok(());
    }
    add_served(relay.format(), device, message, turn, write)?;
    Ok(())
}

/// Adds to a turn what is done about what is received: what is asked, what is sent, and what the relay commits. It
/// writes into its place the write to the device that is granted, or that there is none. The only fault is want of
/// memory; a part may then be added.
#[inline(always)]
pub(crate) fn respond<A: Asker>(
    relay: &Relay,
    device: &Device,
    received: &Received<'_>,
    turn: &mut Turn<A>,
    write: &mut Option<Change>,
) -> Result<(), AllocError>
    ensures response { (rules : List Rule) → A.StandsFor turn.old.asker rules →
        let due = admit rules relay.now (received_view received.now) in
        OnOk result (IsResponse A.kept A.kept_of rules relay.now device.now due turn.old turn.new write.new) }
    ensures picks { A.picks turn.new.asker ≡ A.picks turn.old.asker }
    ensures silent { (rules : List Rule) → A.StandsFor turn.old.asker rules →
        let due = admit rules relay.now (received_view received.now) in
        asks_for rules relay.now device.now due ≡ [] →
        sends_for rules relay.now device.now due ≡ [] → IsOk result }
{
    put(write, None);
    match received {
        Received::Dropped(_) => Ok(()),
        Received::Managed(message) => {
            relay.link(message, turn)?;
            Ok(())
        }
        Received::Message(message) => add_message(relay, device, message, turn, write),
    }
}
