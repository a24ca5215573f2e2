ghost use Rattle.std.specs.Prelude.{◌≡◌, ◌<◌, ◌≤◌, ◌++◌, ◌^◌, ◌-◌, [], ℕ, List, true, length, IfOk, OnOk};
ghost use Rattle.std.specs.List.{list_all, list_any};
ghost use Rattle.std.specs.Option.{option_map};
ghost use Rattle.vh_design_code.specs.Codes.{fits_arg};
ghost use Rattle.vh_design_nodes.specs.declared.fits.TheConstants.{MOST_UNIT};
ghost use Rattle.vh_display.specs.Calls.{shown_text, arguments_text, with_argument, converted, line_end, argument_reads, call_reads};

use crate::conversion::{Conversion, Form};
use crate::format::front;
use crate::texts::push_value;
use std::alloc::Global;
use vh_base::{Bytes, ExprId, NoMemory, ObjId, ShowId};
use vh_design::{Design, ShowArg, ShowTask};
use vh_design_names::full_name;
use vh_eval::eval;
use vh_store::Store;
use vh_text::Radix;

// How an argument is shown that no conversion waits for.
const PLAIN: Conversion = Conversion {
    form: Form::Number(Radix::Decimal),
    columns: None,
};

/// The text of a display call, with the values that the store holds (IEEE 1364-2005, 17.1).
pub fn show(alloc: Global, d: &Design, s: &Store, call: ShowId) -> Result<Bytes, NoMemory>
    requires { call < length (d.now).shows }
    ensures { IfOk result (λ text. text ≡ shown_text d.now s.now call) }
{
    let call = d.show_call(call);
    let name = full_name(alloc, d, call.scope)?;
    let ratio = ratio_of(d.precision(), call.unit);
    let mut out = Vec::new(alloc);
    push_arguments(
        alloc,
        &mut out,
        d,
        s,
        name.as_slice(),
        ratio,
        call.args.as_slice(),
    )?;
    push_line_end(&mut out, call.task)?;
    Ok(Bytes::new(out))
}

/// Whether an argument of a display call reads an object, or a word of it (IEEE 1364-2005, 17.1.3). It goes
/// once over the arguments' expressions.
pub fn reads(d: &Design, call: ShowId, o: ObjId) -> bool
    requires { call < length (d.now).shows }
    ensures { result ≡ call_reads d.now call o }
{
    one_reads(d, d.show_call(call).args.as_slice(), o)
}

// Whether one of these arguments does.
fn one_reads(d: &Design, args: &[ShowArg], o: ObjId) -> bool
    requires { list_all (fits_arg (length (d.now).exprs)) args.now ≡ true }
    ensures { result ≡ list_any (argument_reads (d.now).exprs o) args.now }
{
    for arg in args {
        if argument_reads(d, arg, o) {
            return true;
        }
    }
    false
}

// Whether this one does.
fn argument_reads(d: &Design, arg: &ShowArg, o: ObjId) -> bool
    requires { fits_arg (length (d.now).exprs) arg.now ≡ true }
    ensures { result ≡ argument_reads (d.now).exprs o arg.now }
{
    match arg {
        ShowArg::Value(e) => vh_sense::reads(d, *e, o),
        ShowArg::Empty | ShowArg::Format(_) => false,
    }
}

// How many times the precision a unit is.
fn ratio_of(precision: u8, unit: u8) -> u64
    requires least { precision ≤ unit }
    requires most { unit ≤ MOST_UNIT }
    ensures value { result ≡ 10 ^ (unit - precision) }
    ensures most { result ≤ 10 ^ 17 }
{
    10u64.pow(u32::from(unit - precision))
}

// The text of all arguments.
fn push_arguments(
    alloc: Global,
    out: &mut Vec<u8>,
    d: &Design,
    s: &Store,
    name: &[u8],
    ratio: u64,
    args: &[ShowArg],
) -> Result<(), NoMemory>
    requires known { list_all (fits_arg (length (d.now).exprs)) args.now ≡ true }
    requires unit { ratio ≤ 10 ^ 17 }
    ensures { OnOk result (out.new.items
        ≡ out.old.items ++ arguments_text name.now (converted d.now s.now ratio) [] args.now) }
{
    let mut format: &[u8] = &[];
    for arg in args {
        let wanted = front(out, name, format)?;
        format = with_argument(alloc, out, d, s, ratio, wanted, arg)?;
    }
    front(out, name, format)?;
    Ok(())
}

// An argument, by the conversion that waits for it; answers what is left of the format.
fn with_argument<'a>(
    alloc: Global,
    out: &mut Vec<u8>,
    d: &Design,
    s: &Store,
    ratio: u64,
    wanted: Option<(Conversion, &'a [u8])>,
    arg: &'a ShowArg,
) -> Result<&'a [u8], NoMemory>
    requires known { fits_arg (length (d.now).exprs) arg.now ≡ true }
    requires unit { ratio ≤ 10 ^ 17 }
    ensures { IfOk result (λ rest. (go : List ℕ → List ℕ) → out.new.items ++ go rest.now
        ≡ out.old.items ++ with_argument (converted d.now s.now ratio) go
        (option_map (λ p. (p.0, (p.1).now)) wanted.entry) arg.now) }
{
    match (wanted, arg) {
        (None, ShowArg::Empty) => {
            out.push(b' ')?;
            Ok(&[])
        }
        (None, ShowArg::Format(text)) => Ok(text.as_slice()),
        (None, ShowArg::Value(e)) => {
            push_argument(alloc, out, d, s, ratio, PLAIN, *e)?;
            Ok(&[])
        }
        (Some((how, rest)), ShowArg::Value(e)) => {
            push_argument(alloc, out, d, s, ratio, how, *e)?;
            Ok(rest)
        }
        (Some((_, rest)), ShowArg::Empty | ShowArg::Format(_)) => Ok(rest),
    }
}

// The value of an argument as a conversion shows it.
fn push_argument(
    alloc: Global,
    out: &mut Vec<u8>,
    d: &Design,
    s: &Store,
    ratio: u64,
    how: Conversion,
    e: ExprId,
) -> Result<(), NoMemory>
    requires known { e < length (d.now).exprs }
    requires unit { ratio ≤ 10 ^ 17 }
    ensures { OnOk result (out.new.items ≡ out.old.items ++ converted d.now s.now ratio how e) }
{
    let v = eval(d, s, e, d.width(e), d.is_signed(e));
    push_value(alloc, out, ratio, how, &v)
}

// What a task shows behind its text.
fn push_line_end(out: &mut Vec<u8>, task: ShowTask) -> Result<(), NoMemory>
    ensures { OnOk result (out.new.items ≡ out.old.items ++ line_end task) }
{
    match task {
        ShowTask::Write => Ok(()),
        ShowTask::Display | ShowTask::Strobe | ShowTask::Monitor => Ok(out.push(b'\n')?),
    }
}
