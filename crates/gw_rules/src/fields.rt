//! A value for each of the twelve fields.
ghost use Rattle.std.specs.Prelude.{◌≡◌, Ok, IfOk};
ghost use Rattle.gw_rules.specs.Fields.{value_of, with_value};
ghost use Rattle.gw_rules.specs.declared.field.FieldName.{FieldName as SpecField};

use crate::FieldName;

/// A value for each of the twelve fields: an [`Ask`](crate::Ask) has one number or none for each, a
/// [`Rule`](crate::Rule) some ranges for each.
#[derive(Clone, Copy, Drop, PartialEq, Eq)]
pub struct Fields<T> {
    /// 1: what is about to be done, by [`Operation`](crate::Operation)'s number.
    pub operation: T,
    /// 2: the port on which the datagram came, from 1.
    pub port: T,
    /// 3: the network of the station that is said to have sent it (clause 6).
    pub source_network: T,
    /// 4: the key of that station's address: of six octets their number of 48 bits (Annex J), and in format 3 of
    /// one to seven, as `gw_addr::Mac::key` says.
    pub source_key: T,
    /// 5: the network to which it goes (clause 6).
    pub destination_network: T,
    /// 6: the service, by [`Service`](crate::Service)'s number.
    pub service: T,
    /// 7: the type of the object (clause 12).
    pub object_type: T,
    /// 8: the instance of the object (clause 12).
    pub instance: T,
    /// 9: the property (clause 21).
    pub property: T,
    /// 10: the priority of a write, from 1 to 16 (clause 19).
    pub priority: T,
    /// 11: the address of the station whose datagram it is, as a number of 48 bits, in format 3 (Annex J).
    pub sender: T,
    /// 12: the key of the one station that it names, in format 3.
    pub station: T,
}

impl<T> Fields<T> {
    /// The value for a field.
    pub fn get(&self, field: FieldName) -> &T
        ensures { result.now ≡ value_of field self.now }
    {
        match field {
            FieldName::Operation => &self.operation,
            FieldName::Port => &self.port,
            FieldName::SourceNetwork => &self.source_network,
            FieldName::SourceKey => &self.source_key,
            FieldName::DestinationNetwork => &self.destination_network,
            FieldName::Service => &self.service,
            FieldName::ObjectType => &self.object_type,
            FieldName::Instance => &self.instance,
            FieldName::Property => &self.property,
            FieldName::Priority => &self.priority,
            FieldName::Sender => &self.sender,
            FieldName::Station => &self.station,
        }
    }
}

impl<T: Drop> Fields<T> {
    /// What a function returns for each field, from the first to the last, or the first `Err`.
    pub fn try_from_each<E: Drop, F: Fn(FieldName) -> Result<T, E> + Drop>(
        make: F,
    ) -> Result<Self, E>
        requires { F.IsAlwaysCallable make }
        ensures { IfOk result (λ fields. (field : SpecField) → F.post make field (Ok (value_of field fields))) }
    {
        Ok(Fields {
            operation: make(FieldName::Operation)?,
            port: make(FieldName::Port)?,
            source_network: make(FieldName::SourceNetwork)?,
            source_key: make(FieldName::SourceKey)?,
            destination_network: make(FieldName::DestinationNetwork)?,
            service: make(FieldName::Service)?,
            object_type: make(FieldName::ObjectType)?,
            instance: make(FieldName::Instance)?,
            property: make(FieldName::Property)?,
            priority: make(FieldName::Priority)?,
            sender: make(FieldName::Sender)?,
            station: make(FieldName::Station)?,
        })
    }

    /// Gives a field another value.
    pub fn set(&mut self, field: FieldName, value: T)
        ensures { self.new ≡ with_value field value self.old }
    {
        match field {
            FieldName::Operation => self.operation = value,
            FieldName::Port => self.port = value,
            FieldName::SourceNetwork => self.source_network = value,
            FieldName::SourceKey => self.source_key = value,
            FieldName::DestinationNetwork => self.destination_network = value,
            FieldName::Service => self.service = value,
            FieldName::ObjectType => self.object_type = value,
            FieldName::Instance => self.instance = value,
            FieldName::Property => self.property = value,
            FieldName::Priority => self.priority = value,
            FieldName::Sender => self.sender = value,
            FieldName::Station => self.station = value,
        }
    }
}
