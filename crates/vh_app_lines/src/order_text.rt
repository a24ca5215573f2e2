ghost use Rattle.std.specs.Prelude.{◌≡◌, ◌++◌, ◌∷◌, [], true, OnOk, string_bytes, codes};
ghost use Rattle.std.specs.List.{list_all};
ghost use Rattle.std.specs.Fmt.{decimal};
ghost use Rattle.vh_app_lines.specs.Quoted.{quoted};
ghost use Rattle.vh_app_lines.specs.Routines.{routine_text};
ghost use Rattle.vh_base.specs.Words.{reason_text};
ghost use Rattle.vh_app_lines.specs.OrderText.{relation_text, property_text, format_text, mode_text, kind_text, handle_text, is_name_byte as is_byte, begins_as_name as begins_so, is_name as is_name_of, name_text, proc_text, body_text, spaced, event_words, compiletf_words, control_text, order_text, answer_text};

use crate::quoted::push_quoted;
use crate::routine::Routine;
use itoa::Buffer;
use std::alloc::AllocError;
use vh_base::{
    Answer, BodyName, Format, HandleNo, Mode, Order, ProcName, Property, Reason, Relation, Short,
    SystfKind, is_digit, is_name_start,
};

/// Adds an order as a line shows it: its name and its arguments.
pub fn push_order(line: &mut String, order: &Order) -> Result<(), AllocError>
    ensures { OnOk result (string_bytes line.new ≡ string_bytes line.old ++ order_text order.now) }
{
    match order {
        Order::ByName { text, scope } => push_by_name(line, text, *scope),
        Order::ByIndex { h, n } => push_by_index(line, *h, *n),
        Order::Handle { relation, h } => push_related(line, Routine::Handle, *relation, *h),
        Order::Iterate { relation, h } => push_related(line, Routine::Iterate, *relation, *h),
        Order::Scan { h } => push_with_handle(line, Routine::Scan, *h),
        Order::Free { h } => push_with_handle(line, Routine::Free, *h),
        Order::Compare { a, b } => push_compare(line, *a, *b),
        Order::Get { property, h } => push_get(line, Routine::Get, *property, *h),
        Order::GetStr { property, h } => push_get(line, Routine::GetStr, *property, *h),
        Order::GetValue { h, format } => push_get_value(line, *h, *format),
        Order::PutValue {
            h,
            format,
            text,
            mode,
            time,
            event,
        } => {
            push_put_value(line, *h, *format)?;
            push_put_text(line, text, *mode, *time, *event)
        }
        Order::Cancel { h } => push_with_handle(line, Routine::Cancel, *h),
        Order::GetTime => line.push_str(Routine::GetTime.name()),
        Order::Register {
            reason,
            h,
            time,
            body,
            n,
        } => {
            push_register(line, *reason, *h, *time)?;
            push_called(line, body, *n)
        }
        Order::Remove { h } => push_with_handle(line, Routine::Remove, *h),
        Order::CbInfo { h } => push_with_handle(line, Routine::CbInfo, *h),
        Order::RegisterSystf {
            kind,
            text,
            n,
            calltf,
            compiletf,
        } => {
            push_register_systf(line, *kind, text, *n)?;
            push_systf_calls(line, calltf, compiletf)
        }
        Order::ChkError => line.push_str(Routine::ChkError.name()),
        Order::Control { stop } => push_control(line, *stop),
        Order::Print { text } => push_print(line, text),
        Order::SetData { n } => push_set_data(line, *n),
        Order::Pass => line.push_str(Routine::Pass.name()),
        Order::Return => line.push_str(Routine::Return.name()),
    }
}

/// Adds an answer as a line shows it.
pub fn push_answer(line: &mut String, answer: &Answer) -> Result<(), AllocError>
    ensures { OnOk result
        (string_bytes line.new ≡ string_bytes line.old ++ answer_text answer.now) }
{
    match answer {
        Answer::Done => line.push_str("ok"),
        Answer::Null => line.push_str("null"),
        Answer::Handle(handle) => push_handle(line, Some(*handle)),
        Answer::Number(n) => push_number(line, *n),
        Answer::Text(text) => push_quoted(line, text.bytes()),
        Answer::Refused(code) => line.push_str(code.name()),
    }
}

// Adds a handle as a line shows it, `null` where there is none.
pub(crate) fn push_handle(line: &mut String, handle: Option<HandleNo>) -> Result<(), AllocError>
    ensures { OnOk result (string_bytes line.new ≡ string_bytes line.old ++ handle_text handle) }
{
    let Some(handle) = handle else {
        return line.push_str("null");
    };
    line.push_str("h")?;
    push_number(line, handle.number())
}

/// Adds a number in decimal.
pub fn push_number(line: &mut String, n: u64) -> Result<(), AllocError>
    ensures { OnOk result (string_bytes line.new ≡ string_bytes line.old ++ decimal n) }
{
    if n < 10 {
        return line.push((b'0' + n as u8) as char);
    }
    let mut buffer = Buffer::new();
    line.push_str(buffer.format(n))
}

// Adds `by_name` and its arguments.
fn push_by_name(line: &mut String, text: &Short, scope: Option<HandleNo>) -> Result<(), AllocError>
    ensures { OnOk result
        (string_bytes line.new ≡
        string_bytes line.old ++ spaced (routine_text Routine.ByName)
        (quoted text.now ∷ handle_text scope ∷ [])) }
{
    push_word(line, Routine::ByName)?;
    push_quoted(line, text.bytes())?;
    push_further(line, scope)
}

// Adds `by_index` and its arguments.
fn push_by_index(line: &mut String, h: Option<HandleNo>, n: u64) -> Result<(), AllocError>
    ensures { OnOk result
        (string_bytes line.new ≡
        string_bytes line.old ++ spaced (routine_text Routine.ByIndex)
        (handle_text h ∷ decimal n ∷ [])) }
{
    push_with_handle(line, Routine::ByIndex, h)?;
    line.push_str(" ")?;
    push_number(line, n)
}

// Adds the word of an order, a relation and a handle.
fn push_related(
    line: &mut String,
    routine: Routine,
    relation: Relation,
    h: Option<HandleNo>,
) -> Result<(), AllocError>
    ensures { OnOk result (string_bytes line.new ≡ string_bytes line.old
        ++ spaced (routine_text routine) (relation_text relation ∷ handle_text h ∷ [])) }
{
    push_word(line, routine)?;
    line.push_str(relation_name(relation))?;
    push_further(line, h)
}

// Adds the word of an order, a property and a handle.
fn push_get(
    line: &mut String,
    routine: Routine,
    property: Property,
    h: Option<HandleNo>,
) -> Result<(), AllocError>
    ensures { OnOk result (string_bytes line.new ≡ string_bytes line.old
        ++ spaced (routine_text routine) (property_text property ∷ handle_text h ∷ [])) }
{
    push_word(line, routine)?;
    line.push_str(property_name(property))?;
    push_further(line, h)
}

// Adds the word of an order, with the space behind it.
fn push_word(line: &mut String, routine: Routine) -> Result<(), AllocError>
    ensures { OnOk result (string_bytes line.new
        ≡ string_bytes line.old ++ routine_text routine ++ codes " ") }
{
    line.push_str(routine.name())?;
    line.push_str(" ")
}

// Adds the word of an order and a handle.
fn push_with_handle(
    line: &mut String,
    routine: Routine,
    h: Option<HandleNo>,
) -> Result<(), AllocError>
    ensures { OnOk result (string_bytes line.new
        ≡ string_bytes line.old ++ spaced (routine_text routine) (handle_text h ∷ [])) }
{
    push_word(line, routine)?;
    push_handle(line, h)
}

// Adds a further handle.
fn push_further(line: &mut String, h: Option<HandleNo>) -> Result<(), AllocError>
    ensures { OnOk result
        (string_bytes line.new ≡ string_bytes line.old ++ codes " " ++ handle_text h) }
{
    line.push_str(" ")?;
    push_handle(line, h)
}

// Adds `compare` and its arguments.
fn push_compare(
    line: &mut String,
    a: Option<HandleNo>,
    b: Option<HandleNo>,
) -> Result<(), AllocError>
    ensures { OnOk result
        (string_bytes line.new ≡
        string_bytes line.old ++ spaced (routine_text Routine.Compare)
        (handle_text a ∷ handle_text b ∷ [])) }
{
    push_with_handle(line, Routine::Compare, a)?;
    push_further(line, b)
}

// Adds `get_value` and its arguments.
fn push_get_value(line: &mut String, h: Option<HandleNo>, format: Format) -> Result<(), AllocError>
    ensures { OnOk result
        (string_bytes line.new ≡
        string_bytes line.old ++ spaced (routine_text Routine.GetValue)
        (handle_text h ∷ format_text format ∷ [])) }
{
    push_with_handle(line, Routine::GetValue, h)?;
    line.push_str(" ")?;
    line.push_str(format_name(format))
}

// Adds `put_value`, the handle and the format, with the space behind them.
fn push_put_value(line: &mut String, h: Option<HandleNo>, format: Format) -> Result<(), AllocError>
    ensures { OnOk result
        (string_bytes line.new ≡
        string_bytes line.old ++ routine_text Routine.PutValue ++ codes " " ++ handle_text h ++
        codes " " ++ format_text format ++ codes " ") }
{
    push_with_handle(line, Routine::PutValue, h)?;
    line.push_str(" ")?;
    line.push_str(format_name(format))?;
    line.push_str(" ")
}

// Adds the arguments of a put from its text on.
fn push_put_text(
    line: &mut String,
    text: &Short,
    mode: Mode,
    time: u64,
    event: bool,
) -> Result<(), AllocError>
    ensures { OnOk result
        (string_bytes line.new ≡
        string_bytes line.old ++ spaced (quoted text.now)
        (mode_text mode ∷ decimal time ∷ event_words event)) }
{
    push_quoted(line, text.bytes())?;
    line.push_str(" ")?;
    line.push_str(mode_name(mode))?;
    line.push_str(" ")?;
    push_put_time(line, time, event)
}

// Adds the time of a put, and `event` where its event is wanted.
fn push_put_time(line: &mut String, time: u64, event: bool) -> Result<(), AllocError>
    ensures { OnOk result
        (string_bytes line.new ≡
        string_bytes line.old ++ spaced (decimal time) (event_words event)) }
{
    push_number(line, time)?;
    if event {
        return line.push_str(" event");
    }
    Ok(())
}

// Adds `register`, its reason, its handle and its time, with the space behind them.
fn push_register(
    line: &mut String,
    reason: Reason,
    h: Option<HandleNo>,
    time: u64,
) -> Result<(), AllocError>
    ensures { OnOk result
        (string_bytes line.new ≡
        string_bytes line.old ++ routine_text Routine.Register ++ codes " " ++ reason_text reason ++
        codes " " ++ handle_text h ++ codes " " ++ decimal time ++ codes " ") }
{
    push_word(line, Routine::Register)?;
    line.push_str(reason.name())?;
    push_further(line, h)?;
    line.push_str(" ")?;
    push_number(line, time)?;
    line.push_str(" ")
}

// Adds what a registration calls, and its number.
fn push_called(line: &mut String, body: &BodyName, n: u64) -> Result<(), AllocError>
    ensures { OnOk result
        (string_bytes line.new ≡
        string_bytes line.old ++ spaced (body_text body.now) (decimal n ∷ [])) }
{
    push_body(line, body)?;
    line.push_str(" ")?;
    push_number(line, n)
}

// Adds what a callback calls.
fn push_body(line: &mut String, body: &BodyName) -> Result<(), AllocError>
    ensures { OnOk result (string_bytes line.new ≡ string_bytes line.old ++ body_text body.now) }
{
    match body {
        BodyName::Proc(procedure) => {
            line.push_str("proc ")?;
            push_procedure(line, procedure)
        }
        BodyName::Native(name) => {
            line.push_str("native ")?;
            push_name(line, name.bytes())
        }
    }
}

// Adds a procedure, as `APP.NAME`.
fn push_procedure(line: &mut String, procedure: &ProcName) -> Result<(), AllocError>
    ensures { OnOk result
        (string_bytes line.new ≡ string_bytes line.old ++ proc_text procedure.now) }
{
    push_name(line, procedure.app.bytes())?;
    line.push_str(".")?;
    push_name(line, procedure.name.bytes())
}

// Adds a name as it is, or quoted where scripts can't write it.
fn push_name(line: &mut String, text: &[u8]) -> Result<(), AllocError>
    ensures { OnOk result (string_bytes line.new ≡ string_bytes line.old ++ name_text text.now) }
{
    if is_name(text) {
        return push_plain(line, text);
    }
    push_quoted(line, text)
}

// Is a text a name as scripts write it?
fn is_name(text: &[u8]) -> bool
    ensures { result ≡ is_name_of text.now }
{
    begins_as_name(text) && has_name_bytes(text)
}

// Does a text begin as a name does?
fn begins_as_name(text: &[u8]) -> bool
    ensures { result ≡ begins_so text.now }
{
    let Some(first) = text.first() else {
        return false;
    };
    is_name_start(*first)
}

// Has a text only letters, underscores and digits?
fn has_name_bytes(text: &[u8]) -> bool
    ensures { result ≡ list_all is_byte text.now }
{
    text.iter().all(|byte| is_name_byte(*byte))
}

// Is a byte a letter, an underscore or a digit?
fn is_name_byte(byte: u8) -> bool
    ensures { result ≡ is_byte byte }
{
    is_name_start(byte) || is_digit(byte)
}

// Adds the bytes of a name.
fn push_plain(line: &mut String, text: &[u8]) -> Result<(), AllocError>
    requires { list_all is_byte text.now ≡ true }
    ensures { OnOk result (string_bytes line.new ≡ string_bytes line.old ++ text.now) }
{
    for byte in text {
        push_plain_byte(line, *byte)?;
    }
    Ok(())
}

// Adds a byte of a name.
fn push_plain_byte(line: &mut String, byte: u8) -> Result<(), AllocError>
    requires { is_byte byte ≡ true }
    ensures { OnOk result (string_bytes line.new ≡ string_bytes line.old ++ byte ∷ []) }
{
    line.push(byte as char)
}

// Adds `register_systf`, its kind, its text and its number, with the space behind them.
fn push_register_systf(
    line: &mut String,
    kind: SystfKind,
    text: &Short,
    n: u64,
) -> Result<(), AllocError>
    ensures { OnOk result
        (string_bytes line.new ≡
        string_bytes line.old ++ routine_text Routine.RegisterSystf ++ codes " " ++ kind_text
        kind ++ codes " " ++ quoted text.now ++ codes " " ++ decimal n ++ codes " ") }
{
    push_word(line, Routine::RegisterSystf)?;
    line.push_str(kind_name(kind))?;
    line.push_str(" ")?;
    push_quoted(line, text.bytes())?;
    line.push_str(" ")?;
    push_number(line, n)?;
    line.push_str(" ")
}

// Adds the procedures of a registration of a user system task or function.
fn push_systf_calls(
    line: &mut String,
    calltf: &ProcName,
    compiletf: &Option<ProcName>,
) -> Result<(), AllocError>
    ensures { OnOk result
        (string_bytes line.new ≡
        string_bytes line.old ++ spaced (codes "calltf")
        (proc_text calltf.now ∷ compiletf_words compiletf.now)) }
{
    line.push_str("calltf ")?;
    push_procedure(line, calltf)?;
    let Some(compiletf) = compiletf else {
        return Ok(());
    };
    line.push_str(" compiletf ")?;
    push_procedure(line, compiletf)
}

// Adds `control` and how the run is to end.
fn push_control(line: &mut String, stop: bool) -> Result<(), AllocError>
    ensures { OnOk result
        (string_bytes line.new ≡
        string_bytes line.old ++ spaced (routine_text Routine.Control) (control_text stop ∷ [])) }
{
    push_word(line, Routine::Control)?;
    if stop {
        return line.push_str("stop");
    }
    line.push_str("finish")
}

// Adds `print` and its text.
fn push_print(line: &mut String, text: &Short) -> Result<(), AllocError>
    ensures { OnOk result
        (string_bytes line.new ≡
        string_bytes line.old ++ spaced (routine_text Routine.Print) (quoted text.now ∷ [])) }
{
    push_word(line, Routine::Print)?;
    push_quoted(line, text.bytes())
}

// Adds `set_data` and its number.
fn push_set_data(line: &mut String, n: u64) -> Result<(), AllocError>
    ensures { OnOk result
        (string_bytes line.new ≡
        string_bytes line.old ++ spaced (routine_text Routine.SetData) (decimal n ∷ [])) }
{
    push_word(line, Routine::SetData)?;
    push_number(line, n)
}

/// The word of a relation.
pub fn relation_name(relation: Relation) -> &'static str
    ensures { result.now ≡ relation_text relation }
{
    match relation {
        Relation::VpiModule => "vpiModule",
        Relation::VpiScope => "vpiScope",
        Relation::VpiParent => "vpiParent",
        Relation::VpiSysTfCall => "vpiSysTfCall",
        Relation::VpiInternalScope => "vpiInternalScope",
        Relation::VpiNet => "vpiNet",
        Relation::VpiPort => "vpiPort",
        Relation::VpiContAssign => "vpiContAssign",
        Relation::VpiProcess => "vpiProcess",
        Relation::VpiReg => "vpiReg",
        Relation::VpiVariables => "vpiVariables",
        Relation::VpiMemory => "vpiMemory",
        Relation::VpiParameter => "vpiParameter",
        Relation::VpiNamedEvent => "vpiNamedEvent",
        Relation::VpiMemoryWord => "vpiMemoryWord",
        Relation::VpiArgument => "vpiArgument",
    }
}

/// The word of a property.
pub fn property_name(property: Property) -> &'static str
    ensures { result.now ≡ property_text property }
{
    match property {
        Property::VpiType => "vpiType",
        Property::VpiSize => "vpiSize",
        Property::VpiSigned => "vpiSigned",
        Property::VpiTopModule => "vpiTopModule",
        Property::VpiDirection => "vpiDirection",
        Property::VpiNetType => "vpiNetType",
        Property::VpiPortIndex => "vpiPortIndex",
        Property::VpiLineNo => "vpiLineNo",
        Property::VpiName => "vpiName",
        Property::VpiFullName => "vpiFullName",
        Property::VpiDefName => "vpiDefName",
    }
}

/// The word of a value's format.
pub fn format_name(format: Format) -> &'static str
    ensures { result.now ≡ format_text format }
{
    match format {
        Format::VpiBinStrVal => "vpiBinStrVal",
        Format::VpiOctStrVal => "vpiOctStrVal",
        Format::VpiHexStrVal => "vpiHexStrVal",
        Format::VpiDecStrVal => "vpiDecStrVal",
        Format::VpiIntVal => "vpiIntVal",
        Format::VpiScalarVal => "vpiScalarVal",
        Format::VpiVectorVal => "vpiVectorVal",
    }
}

/// The word of how a value is put.
pub fn mode_name(mode: Mode) -> &'static str
    ensures { result.now ≡ mode_text mode }
{
    match mode {
        Mode::VpiNoDelay => "vpiNoDelay",
        Mode::VpiInertialDelay => "vpiInertialDelay",
        Mode::VpiTransportDelay => "vpiTransportDelay",
        Mode::VpiPureTransportDelay => "vpiPureTransportDelay",
        Mode::VpiForceFlag => "vpiForceFlag",
        Mode::VpiReleaseFlag => "vpiReleaseFlag",
    }
}

// The word of a user system task or function.
fn kind_name(kind: SystfKind) -> &'static str
    ensures { result.now ≡ kind_text kind }
{
    match kind {
        SystfKind::Task => "task",
        SystfKind::Func => "func",
    }
}
