//! Fields of which each has a value that its column allows.

ghost use Rattle.std.specs.Prelude.{◌≡◌, option_map, IfOk};
ghost use Rattle.fabric_world.specs.Acls.{no_fields, has_field, with_field, IsAllowed, AreAllowed};

use crate::fields::{AclField, AclFields};
use std::alloc::Global;
use std::marker::Model;
use vtep_base::{OutOfMemory, Txt};

/// The fields of an entry, each with a value that its column allows. Contracts see the fields.
#[derive(Debug, Drop)]
pub struct AclMatch {
    fields: AclFields,
}

impl Model for AclMatch {
    ghost use Rattle.fabric_world.specs.declared.fields.AclFields.{AclFields};
    ghost use Rattle.fabric_world.specs.Acls.{AreAllowed};

    ghost Value = { AclFields };

    ghost view = { λ m. m.fields };

    ghost invariant = { λ m. AreAllowed m.fields };
}

fn copy_text(alloc: Global, text: Option<&Txt>) -> Result<Option<Txt>, OutOfMemory>
    ensures { IfOk result (λ copy. copy ≡ option_map (λ t. t.now) text.entry) }
{
    match text {
        Some(text) => Ok(Some(Txt::from_str(alloc, text.as_str())?)),
        None => Ok(None),
    }
}

impl AclMatch {
    /// No field is given. Takes no memory, as `has` and `give`.
    pub fn new() -> AclMatch
        ensures { result ≡ no_fields }
    {
        AclMatch {
            fields: AclFields {
                source_mac: None,
                dest_mac: None,
                ethertype: None,
                source_ip: None,
                source_mask: None,
                dest_ip: None,
                dest_mask: None,
                protocol: None,
                icmp_type: None,
                icmp_code: None,
                source_port_min: None,
                source_port_max: None,
                dest_port_min: None,
                dest_port_max: None,
                tcp_flags: None,
                tcp_flags_mask: None,
            },
        }
    }

    /// The fields.
    pub fn fields(&self) -> &AclFields
        ensures { result.now ≡ self.now }
    {
        &self.fields
    }

    /// Whether the field of this name is given.
    pub fn has(&self, field: &AclField) -> bool
        ensures { result ≡ has_field self.now field.now }
    {
        let fields = &self.fields;
        match field {
            AclField::SourceMac(_) => fields.source_mac.is_some(),
            AclField::DestMac(_) => fields.dest_mac.is_some(),
            AclField::Ethertype(_) => fields.ethertype.is_some(),
            AclField::SourceIp(_) => fields.source_ip.is_some(),
            AclField::SourceMask(_) => fields.source_mask.is_some(),
            AclField::DestIp(_) => fields.dest_ip.is_some(),
            AclField::DestMask(_) => fields.dest_mask.is_some(),
            AclField::Protocol(_) => fields.protocol.is_some(),
            AclField::IcmpType(_) => fields.icmp_type.is_some(),
            AclField::IcmpCode(_) => fields.icmp_code.is_some(),
            AclField::SourcePortMin(_) => fields.source_port_min.is_some(),
            AclField::SourcePortMax(_) => fields.source_port_max.is_some(),
            AclField::DestPortMin(_) => fields.dest_port_min.is_some(),
            AclField::DestPortMax(_) => fields.dest_port_max.is_some(),
            AclField::TcpFlags(_) => fields.tcp_flags.is_some(),
            AclField::TcpFlagsMask(_) => fields.tcp_flags_mask.is_some(),
        }
    }

    /// Gives a field its value.
    pub fn give(&mut self, field: AclField)
        requires { IsAllowed field }
        ensures { self.new ≡ with_field self.old field }
    {
        let fields = &mut self.fields;
        match field {
            AclField::SourceMac(mac) => fields.source_mac = Some(mac),
            AclField::DestMac(mac) => fields.dest_mac = Some(mac),
            AclField::Ethertype(text) => fields.ethertype = Some(text),
            AclField::SourceIp(ip) => fields.source_ip = Some(ip),
            AclField::SourceMask(ip) => fields.source_mask = Some(ip),
            AclField::DestIp(ip) => fields.dest_ip = Some(ip),
            AclField::DestMask(ip) => fields.dest_mask = Some(ip),
            AclField::Protocol(number) => fields.protocol = Some(number),
            AclField::IcmpType(number) => fields.icmp_type = Some(number),
            AclField::IcmpCode(number) => fields.icmp_code = Some(number),
            AclField::SourcePortMin(port) => fields.source_port_min = Some(port),
            AclField::SourcePortMax(port) => fields.source_port_max = Some(port),
            AclField::DestPortMin(port) => fields.dest_port_min = Some(port),
            AclField::DestPortMax(port) => fields.dest_port_max = Some(port),
            AclField::TcpFlags(flags) => fields.tcp_flags = Some(flags),
            AclField::TcpFlagsMask(flags) => fields.tcp_flags_mask = Some(flags),
        }
    }

    /// The same fields again.
    pub fn copy(&self, alloc: Global) -> Result<AclMatch, OutOfMemory>
        ensures { IfOk result (λ copy. copy ≡ self.now) }
    {
        let ethertype = copy_text(alloc, self.fields.ethertype.as_ref())?;
        Ok(AclMatch {
            fields: AclFields {
                ethertype,
                ..self.fields
            },
        })
    }
}
