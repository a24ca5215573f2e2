ghost use Rattle.std.specs.Prelude.{◌≡◌, ◌<◌, ◌++◌, length, IfOk, OnOk};
ghost use Rattle.std.specs.Option.{option_copied};
ghost use Rattle.vh_objects.specs.Objects.{object_kind};
ghost use Rattle.vh_objects.specs.Properties.{is_by_get_str, text_answer, number_if, text_if, flag_number, at_address, with_address, size_of, is_module_kind, is_port_kind, is_net_kind, has_name_kind, direction_in, net_type_in, net_type_text, definition_in, told_text, told_number, property_of, property};

use crate::kind::ObjectKind;
use crate::kinds::{has_name, is_module, is_port};
use crate::order::index_in;
use crate::relation::{info_at, object_kind};
use itoa::Buffer;
use std::alloc::Global;
use vh_base::{Answer, Code, NoMemory, Object, Property, Short};
use vh_design::{Design, Detail, Kind, NetType, ObjectInfo};
use vh_design_names::full_name;

/// Whether `get_str` answers the property, and not `get` (IEEE 1364-2005, 27.6 and 27.10).
pub fn is_by_get_str(property: Property) -> bool
    ensures { result ≡ is_by_get_str property }
{
    matches!(
        property,
        Property::VpiName | Property::VpiFullName | Property::VpiDefName
    )
}

/// A text that is answered: one above 255 bytes doesn't fit, which is E16.
pub fn text_answer(alloc: Global, text: &[u8]) -> Result<Answer, NoMemory>
    ensures { IfOk result (λ a. a ≡ text_answer text.now) }
{
    match Short::new(alloc, text)? {
        None => Ok(Answer::Refused(Code::E16)),
        Some(short) => Ok(Answer::Text(short)),
    }
}

// A number, where the kind has it.
fn number_if(has: bool, number: u64) -> Option<Answer>
    ensures { result ≡ number_if has number }
{
    if !has {
        return None;
    }
    Some(Answer::Number(number))
}

// A text, where the kind has it.
fn text_if(alloc: Global, has: bool, text: &[u8]) -> Result<Option<Answer>, NoMemory>
    ensures { IfOk result (λ a. a ≡ text_if has text.now) }
{
    if !has {
        return Ok(None);
    }
    Ok(Some(text_answer(alloc, text)?))
}

// The same of what the detail tells.
fn told_text(alloc: Global, has: bool, text: Option<&[u8]>) -> Result<Option<Answer>, NoMemory>
    ensures { IfOk result (λ a. a ≡ told_text has (option_copied text.entry)) }
{
    match text {
        None => Ok(None),
        Some(text) => text_if(alloc, has, text),
    }
}

fn told_number(has: bool, number: Option<u32>) -> Option<Answer>
    ensures { result ≡ told_number has number }
{
    match number {
        None => None,
        Some(number) => number_if(has, u64::from(number)),
    }
}

fn flag_number(flag: bool) -> u64
    ensures { result ≡ flag_number flag }
{
    if flag { 1 } else { 0 }
}

/// Adds an address in brackets, as in the name of a word.
pub fn push_address(text: &mut Vec<u8>, at: u32) -> Result<(), NoMemory>
    ensures { OnOk result (text.new.items ≡ at_address text.old.items at) }
{
    text.push(b'[')?;
    let mut buffer = Buffer::new();
    text.extend_from_slice(buffer.format(at).as_bytes())?;
    text.push(b']')?;
    Ok(())
}

// A name, of a word with its address.
fn named(
    alloc: Global,
    has: bool,
    name: &[u8],
    word: Option<u32>,
) -> Result<Option<Answer>, NoMemory>
    ensures { IfOk result (λ a. a ≡ text_if has (with_address name.now word)) }
{
    let Some(at) = word else {
        return text_if(alloc, has, name);
    };
    let mut text = Vec::from_slice(alloc, name)?;
    push_address(&mut text, at)?;
    text_if(alloc, has, text.as_slice())
}

// The size: digits, or of a memory its words.
fn size_of(kind: ObjectKind, info: &ObjectInfo) -> Option<Answer>
    ensures { result ≡ size_of kind info.now }
{
    match kind {
        ObjectKind::Of(Kind::Memory) => Some(Answer::Number(u64::from(info.words))),
        ObjectKind::Of(k) => number_if(kind.has_value() || is_port(k), u64::from(info.width)),
        ObjectKind::Word => Some(Answer::Number(u64::from(info.width))),
    }
}

fn is_module_kind(kind: ObjectKind) -> bool
    ensures { result ≡ is_module_kind kind }
{
    match kind {
        ObjectKind::Of(k) => is_module(k),
        ObjectKind::Word => false,
    }
}

fn is_port_kind(kind: ObjectKind) -> bool
    ensures { result ≡ is_port_kind kind }
{
    match kind {
        ObjectKind::Of(k) => is_port(k),
        ObjectKind::Word => false,
    }
}

fn is_net_kind(kind: ObjectKind) -> bool
    ensures { result ≡ is_net_kind kind }
{
    match kind {
        ObjectKind::Of(k) => k.is_net(),
        ObjectKind::Word => false,
    }
}

fn has_name_kind(kind: ObjectKind) -> bool
    ensures { result ≡ has_name_kind kind }
{
    match kind {
        ObjectKind::Of(k) => has_name(k),
        ObjectKind::Word => true,
    }
}

// The direction of a port.
fn direction_in(detail: &Detail) -> Option<&[u8]>
    ensures { option_copied result ≡ direction_in detail.now }
{
    match detail {
        Detail::Port { output: false, .. } => Some(b"vpiInput"),
        Detail::Port { output: true, .. } => Some(b"vpiOutput"),
        _ => None,
    }
}

// The type of a net.
fn net_type_text(net: NetType) -> &'static str
    ensures { result.now ≡ net_type_text net }
{
    match net {
        NetType::Wire => "vpiWire",
        NetType::Tri => "vpiTri",
        NetType::Wand => "vpiWand",
        NetType::TriAnd => "vpiTriAnd",
        NetType::Wor => "vpiWor",
        NetType::TriOr => "vpiTriOr",
    }
}

fn net_type_in(detail: &Detail) -> Option<&[u8]>
    ensures { option_copied result ≡ net_type_in detail.now }
{
    match detail {
        Detail::Net(net) => Some(net_type_text(*net).as_bytes()),
        _ => None,
    }
}

// The name of a module's definition.
fn definition_in(detail: &Detail) -> Option<&[u8]>
    ensures { option_copied result ≡ definition_in detail.now }
{
    match detail {
        Detail::Module(name) => Some(name.as_slice()),
        _ => None,
    }
}

/// A property of an object: a number or a text, nothing where the kind has no such property, and E16 for a
/// text above 255 bytes (IEEE 1364-2005, 26.6).
pub fn property(
    alloc: Global,
    d: &Design,
    p: Property,
    o: &Object,
) -> Result<Option<Answer>, NoMemory>
    ensures { IfOk result (λ a. a ≡ property d.now.objects p o.now) }
{
    let Some(info) = info_at(d, o) else {
        return Ok(None);
    };
    property_of(alloc, d, p, o, info)
}

// The same of an object that is there.
fn property_of(
    alloc: Global,
    d: &Design,
    p: Property,
    o: &Object,
    info: &ObjectInfo,
) -> Result<Option<Answer>, NoMemory>
    requires { o.now.id < length d.now.objects }
    ensures { IfOk result (λ a. a ≡ property_of d.now.objects p o.now
        (object_kind info.now.kind o.now.word) info.now) }
{
    let kind = object_kind(info.kind, o.word);
    match p {
        Property::VpiType => text_if(alloc, true, kind.name().as_bytes()),
        Property::VpiSize => Ok(size_of(kind, info)),
        Property::VpiSigned => Ok(number_if(kind.has_value(), flag_number(info.signed))),
        Property::VpiTopModule => Ok(number_if(
            is_module_kind(kind),
            flag_number(info.parent.is_none()),
        )),
        Property::VpiDirection => {
            told_text(alloc, is_port_kind(kind), direction_in(&info.detail))
        }
        Property::VpiNetType => told_text(alloc, is_net_kind(kind), net_type_in(&info.detail)),
        Property::VpiPortIndex => Ok(told_number(is_port_kind(kind), index_in(&info.detail))),
        Property::VpiLineNo => Ok(Some(Answer::Number(u64::from(info.line)))),
        Property::VpiName => named(alloc, has_name_kind(kind), info.name.as_slice(), o.word),
        Property::VpiFullName => {
            let name = full_name(alloc, d, o.id)?;
            named(alloc, has_name_kind(kind), name.as_slice(), o.word)
        }
        Property::VpiDefName => {
            told_text(alloc, is_module_kind(kind), definition_in(&info.detail))
        }
    }
}
