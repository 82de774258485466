//! The objects of the device as an APDU has access to them: only by asking the policy. Each service is a method here.

ghost use Rattle.std.specs.Prelude.{◌≡◌};
ghost use Rattle.gw_codecs.specs.tags.Object.{object_view};
ghost use Rattle.gw_device.specs.Asks.{named_object, property_ask};

use crate::Context;
use gw_codecs::tags::ObjectId;
use gw_objects::{ObjectDb, ObjectType};
use gw_rules::{Ask, Operation, Service};

/// The instance by which a read names the device itself, whatever its instance (clause 12.11).
const ANY_INSTANCE: u32 = 4_194_303;

/// The objects of the device, and what is known of the APDU that wants access to them.
#[derive(Clone, Copy)]
pub struct Access<'a> {
    /// The objects.
    pub objects: &'a ObjectDb,
    /// What is known of the APDU beside its octets.
    pub context: &'a Context,
}

impl Access<'_> {
    /// The ask for a property of an object.
    pub(crate) fn property_ask(
        &self,
        operation: Operation,
        service: Service,
        object: ObjectId,
        property: u32,
    ) -> Ask
        ensures { result ≡ property_ask operation service self.now.objects.now.configured
            self.now.context.now (object_view object) property }
    {
        let context = self.context;
        let network = self.objects.configured().device.network;
        Ask {
            port: Some(u64::from(context.port)),
            source_network: Some(u64::from(context.source_network)),
            source_key: context.source_key,
            destination_network: Some(u64::from(network.get())),
            service: Some(service.number()),
            object_type: Some(u64::from(object.kind)),
            instance: Some(u64::from(object.instance)),
            property: Some(u64::from(property)),
            sender: context.sender,
            ..Ask::new(operation)
        }
    }

    /// The object that a read names.
    pub(crate) fn named_object(&self, object: ObjectId) -> ObjectId
        ensures { object_view result
            ≡ named_object self.now.objects.now.configured (object_view object) }
    {
        if object.kind == ObjectType::Device.number() && object.instance == ANY_INSTANCE {
            self.objects.configured().device_id()
        } else {
            object
        }
    }
}
