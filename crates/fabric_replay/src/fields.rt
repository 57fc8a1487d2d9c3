//! Words that give fields of entries of access lists.

ghost use Rattle.std.specs.Prelude.{◌≡◌, ◌==◌, ◌<◌, is_some, option_map, map, position, length, None, IfOk, IfSome};
ghost use Rattle.std.specs.List.{list_all};
ghost use Rattle.vtep_base.specs.Addresses.{mac_of, hex_value};
ghost use Rattle.vtep_base.specs.Texts.{ipv4_of};
ghost use Rattle.fabric_world.specs.Acls.{no_fields, AreFlags, IsAllowed};
ghost use Rattle.fabric_world.specs.Fields.{is_hex_word, ethertype_of, byte_of, port_of, flags_of, field_text, name_among, name_of_field, field_value, field_named, field_of};
ghost use Rattle.fabric_world.specs.Lines.{value_at, taken, matching_from, each_once, fields_of};
ghost use Rattle.fabric_world.specs.declared.fields.AclField.TheVariants as acl_field;
ghost use Rattle.fabric_replay.specs.Seen.{seen, Reads};

use crate::lines::{LineFault, refusal};
use crate::words::Word;
use fabric_world::{AclField, AclMatch, FieldName, Refusal};
use std::alloc::Global;
use vtep_base::{Ipv4, LineReason, Mac, OutOfMemory, Txt, parse_number};

fn mac(word: &[u8]) -> Option<Mac>
    ensures { result ≡ mac_of word.now }
{
    Mac::parse(word).ok()
}

fn ip(word: &[u8]) -> Option<Ipv4>
    ensures { result ≡ ipv4_of word.now }
{
    Ipv4::parse(word).ok()
}

/// A number of a byte.
fn byte(word: &[u8]) -> Option<u8>
    ensures { result ≡ byte_of word.now }
{
    match parse_number(word, 255) {
        Ok(number) => Some(number as u8),
        Err(_) => None,
    }
}

/// The number of a port.
fn port(word: &[u8]) -> Option<u16>
    ensures { result ≡ port_of word.now }
{
    match parse_number(word, 65535) {
        Ok(number) => Some(number as u16),
        Err(_) => None,
    }
}

/// The nine flags of TCP.
fn flags(word: &[u8]) -> Option<u16>
    ensures value { result ≡ flags_of word.now }
    ensures nine { IfSome result AreFlags }
{
    match parse_number(word, 511) {
        Ok(number) => Some(number as u16),
        Err(_) => None,
    }
}

fn is_hexadecimal(text: &[u8]) -> bool
    ensures { result ≡ list_all (λ c. is_some (hex_value c)) text.now }
{
    text.iter().all(|byte| byte.is_ascii_hexdigit())
}

/// `0x` and four hexadecimal digits.
fn is_hex_word(text: &[u8]) -> bool
    ensures { result ≡ is_hex_word text.now }
{
    text.len() == 6 && is_hexadecimal(&text[2..]) && text[0] == b'0' && text[1] == b'x'
}

fn ethertype(alloc: Global, word: &[u8]) -> Result<Option<AclField>, OutOfMemory>
    ensures value { IfOk result (λ field. field
        ≡ option_map acl_field.Ethertype (ethertype_of word.now)) }
    ensures allowed { IfOk result (λ field. IfSome field IsAllowed) }
{
    if !is_hex_word(word) {
        return Ok(None);
    }
    let text = String::from_utf8_lossy(alloc, word)?;
    Ok(Some(AclField::Ethertype(Txt::from_string(text))))
}

/// All names of fields.
const FIELD_NAMES: [FieldName; 16] = [
    FieldName::SourceMac,
    FieldName::DestMac,
    FieldName::Ethertype,
    FieldName::SourceIp,
    FieldName::SourceMask,
    FieldName::DestIp,
    FieldName::DestMask,
    FieldName::Protocol,
    FieldName::IcmpType,
    FieldName::IcmpCode,
    FieldName::SourcePortMin,
    FieldName::SourcePortMax,
    FieldName::DestPortMin,
    FieldName::DestPortMax,
    FieldName::TcpFlags,
    FieldName::TcpFlagsMask,
];

fn field_text(name: FieldName) -> &'static [u8]
    ensures { result.now ≡ field_text name }
{
    match name {
        FieldName::SourceMac => b"source_mac",
        FieldName::DestMac => b"dest_mac",
        FieldName::Ethertype => b"ethertype",
        FieldName::SourceIp => b"source_ip",
        FieldName::SourceMask => b"source_mask",
        FieldName::DestIp => b"dest_ip",
        FieldName::DestMask => b"dest_mask",
        FieldName::Protocol => b"protocol",
        FieldName::IcmpType => b"icmp_type",
        FieldName::IcmpCode => b"icmp_code",
        FieldName::SourcePortMin => b"source_port_min",
        FieldName::SourcePortMax => b"source_port_max",
        FieldName::DestPortMin => b"dest_port_min",
        FieldName::DestPortMax => b"dest_port_max",
        FieldName::TcpFlags => b"tcp_flags",
        FieldName::TcpFlagsMask => b"tcp_flags_mask",
    }
}

/// The first of the names that is this word.
fn name_among(word: &[u8], names: &[FieldName]) -> Option<FieldName>
    ensures { result ≡ name_among word.now names.now }
{
    'names: for name in names {
        if word == field_text(*name) {
            return Some(*name);
        }
    }
    None
}

fn name_of_field(word: &[u8]) -> Option<FieldName>
    ensures { result ≡ name_of_field word.now }
{
    name_among(word, &FIELD_NAMES)
}

/// The value of a field, by its form.
fn value(alloc: Global, name: FieldName, word: &[u8]) -> Result<Option<AclField>, OutOfMemory>
    ensures value { IfOk result (λ field. field ≡ field_value name word.now) }
    ensures allowed { IfOk result (λ field. IfSome field IsAllowed) }
{
    Ok(match name {
        FieldName::SourceMac => mac(word).map(AclField::SourceMac),
        FieldName::DestMac => mac(word).map(AclField::DestMac),
        FieldName::Ethertype => return ethertype(alloc, word),
        FieldName::SourceIp => ip(word).map(AclField::SourceIp),
        FieldName::SourceMask => ip(word).map(AclField::SourceMask),
        FieldName::DestIp => ip(word).map(AclField::DestIp),
        FieldName::DestMask => ip(word).map(AclField::DestMask),
        FieldName::Protocol => byte(word).map(AclField::Protocol),
        FieldName::IcmpType => byte(word).map(AclField::IcmpType),
        FieldName::IcmpCode => byte(word).map(AclField::IcmpCode),
        FieldName::SourcePortMin => port(word).map(AclField::SourcePortMin),
        FieldName::SourcePortMax => port(word).map(AclField::SourcePortMax),
        FieldName::DestPortMin => port(word).map(AclField::DestPortMin),
        FieldName::DestPortMax => port(word).map(AclField::DestPortMax),
        FieldName::TcpFlags => flags(word).map(AclField::TcpFlags),
        FieldName::TcpFlagsMask => flags(word).map(AclField::TcpFlagsMask),
    })
}

/// The field of this name, where there is one and the value has its form.
fn named(alloc: Global, name: &[u8], word: &[u8]) -> Result<Option<AclField>, OutOfMemory>
    ensures value { IfOk result (λ field. field ≡ field_named name.now word.now) }
    ensures allowed { IfOk result (λ field. IfSome field IsAllowed) }
{
    match name_of_field(name) {
        Some(name) => value(alloc, name, word),
        None => Ok(None),
    }
}

/// The place of the first `=`.
fn equals_sign(word: &[u8]) -> Option<usize>
    ensures value { result ≡ position (λ b. b == 61) word.now }
    ensures within { IfSome result (λ place. place < length word.now) }
{
    word.iter().position(|byte| *byte == b'=')
}

/// The field that a word gives.
fn field(alloc: Global, word: &[u8]) -> Result<Option<AclField>, OutOfMemory>
    ensures value { IfOk result (λ field. field ≡ field_of word.now) }
    ensures allowed { IfOk result (λ field. IfSome field IsAllowed) }
{
    let Some(place) = equals_sign(word) else {
        return Ok(None);
    };
    named(alloc, &word[..place], &word[place + 1..])
}

fn field_at(alloc: Global, word: &Word<'_>) -> Result<AclField, LineFault>
    ensures value { Reads result (value_at word.now.column (field_of word.now.bytes.now)) }
    ensures allowed { IfOk result IsAllowed }
{
    match field(alloc, word.bytes)? {
        Some(field) => Ok(field),
        None => Err(refusal(word.column, LineReason::Value).into()),
    }
}

/// What words gave so far, and the column of the first that gave a field again.
type Matching = (AclMatch, Option<usize>);

/// Takes what a word gives. A field that is there stays.
fn take(matching: &mut Matching, column: usize, field: AclField)
    requires { IsAllowed field }
    ensures { matching.new ≡ taken matching.old column field }
{
    if matching.0.has(&field) {
        matching.1 = Some(matching.1.unwrap_or(column));
    } else {
        matching.0.give(field);
    }
}

fn matching(alloc: Global, words: &[Word<'_>]) -> Result<Matching, LineFault>
    ensures { Reads result (matching_from (no_fields, None) (map seen words.now)) }
{
    let mut matching = (AclMatch::new(), None);
    'words: for word in words {
        let field = field_at(alloc, word)?;
        take(&mut matching, word.column, field);
    }
    Ok(matching)
}

fn each_once(matching: Matching) -> Result<AclMatch, Refusal>
    ensures { result ≡ each_once matching }
{
    let (fields, repeated) = matching;
    match repeated {
        None => Ok(fields),
        Some(column) => Err(refusal(column, LineReason::Repeated)),
    }
}

/// The fields that words give, each with a value in its form, and no field twice.
pub(crate) fn fields_of(alloc: Global, words: &[Word<'_>]) -> Result<AclMatch, LineFault>
    ensures { Reads result (fields_of (map seen words.now)) }
{
    let matching = matching(alloc, words)?;
    Ok(each_once(matching)?)
}
