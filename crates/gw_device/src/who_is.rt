//! Who-Is, which an I-Am answers (clause 16.10).

ghost use Rattle.std.specs.Prelude.{None, ◌≡◌, ◌++◌, [], List, IfOk, IsOk, OnOk};
ghost use Rattle.std.specs.Option.{option_map};
ghost use Rattle.gw_rules.specs.declared.rule.Rule.{Rule};
ghost use Rattle.gw_codecs.specs.services.WhoIs.{limits_view, who_is_view};
ghost use Rattle.gw_device.specs.Response.{IsServed, with_room};
ghost use Rattle.gw_device.specs.WhoIs.{i_am_apdu, is_within, unconfirmed, who_is_ask, who_is_response};

use crate::short::begin_apdu;
use crate::{Access, Served};
use gw_addr::put_slice;
use gw_codecs::services::{I_AM, IAm, Limits, Segmentation, WHO_IS, WhoIs, encode_i_am};
use gw_objects::{Configured, MAX_APDU, Property};
use gw_rules::{Ask, Asker, Operation, Service};
use std::alloc::AllocError;

/// The first octet of an unconfirmed request (clause 20.1.3).
const UNCONFIRMED_REQUEST: u8 = 0x10;

/// Appends the header of an unconfirmed request. `AllocError` where memory was refused.
pub(crate) fn put_unconfirmed(out: &mut Vec<u8>, service: u8) -> Result<(), AllocError>
    ensures { OnOk result (out.new.items ≡ out.old.items ++ unconfirmed service) }
{
    put_slice(out, &[UNCONFIRMED_REQUEST, service])
}

/// The I-Am of the device, after the room for headers.
fn i_am_apdu(spare: &mut Vec<u8>, configured: &Configured) -> Result<Vec<u8>, AllocError>
    ensures { IfOk result (λ octets. octets.items ≡ with_room (i_am_apdu configured.now)) }
{
    let mut octets = begin_apdu(spare)?;
    put_unconfirmed(&mut octets, I_AM)?;
    let announced = IAm {
        device: configured.device_id(),
        max_apdu: MAX_APDU,
        segmentation: Segmentation::None,
        vendor: configured.device.vendor,
    };
    encode_i_am(&announced, &mut octets)?;
    Ok(octets)
}

impl Access<'_> {
    /// Whether the device is asked.
    pub(crate) fn is_within(&self, limits: &Option<Limits>) -> bool
        ensures { let limits = option_map limits_view limits.now in
            result ≡ is_within limits self.now.objects.now.configured.device.instance }
    {
        let instance = self.objects.configured().device.instance.get();
        match limits {
            None => true,
            Some(limits) => limits.low <= instance && instance <= limits.high,
        }
    }

    /// The ask that a request raises.
    fn who_is_ask(&self) -> Ask
        ensures { result ≡ who_is_ask self.now.objects.now.configured self.now.context.now }
    {
        self.property_ask(
            Operation::List,
            Service::Unconfirmed(WHO_IS),
            self.objects.configured().device_id(),
            Property::ObjectIdentifier.number(),
        )
    }

    /// What the device gives to a Who-Is (clause 16.10). Its ask, if there is one, is put to `asker`; nothing is
    /// changed.
    ///
    /// # Errors
    ///
    /// 1 Memory. The asker may then have kept a part of what it is to keep.
    pub fn who_is<A: Asker>(
        &self,
        request: &WhoIs,
        asker: &mut A,
        spare: &mut Vec<u8>,
    ) -> Result<Served, AllocError>
        ensures served { (rules : List Rule) → A.StandsFor asker.old rules →
            let request = who_is_view request.now in IfOk result
            (IsServed (who_is_response rules self.now.objects.now self.now.context.now request)) }
        ensures asks { (rules : List Rule) → A.StandsFor asker.old rules →
            let request = who_is_view request.now in
            let due = who_is_response rules self.now.objects.now self.now.context.now request in
            OnOk result (A.kept asker.new ≡ A.kept asker.old ++ A.kept_of rules due.asks) }
        ensures stays { (rules : List Rule) → A.StandsFor asker.old rules →
            A.StandsFor asker.new rules }
        ensures picks { A.picks asker.new ≡ A.picks asker.old }
        ensures place { IfOk result (λ served. served.change ≡ None) }
        // What asks nothing needs no memory.
        ensures silent { (rules : List Rule) →
            let request = who_is_view request.now in
            (who_is_response rules self.now.objects.now self.now.context.now request).asks ≡ []
            → IsOk result }
    {
        if !self.is_within(&request.limits) {
            return Ok(Served::silence());
        }
        if !asker.authorize(&self.who_is_ask())? {
            return Ok(Served::silence());
        }
        let octets = i_am_apdu(spare, self.objects.configured())?;
        Ok(Served::to_everyone(octets))
    }
}
