ghost use Rattle.std.specs.Prelude.{◌≡◌, ◌≤◌, [], map, true, OnOk};
ghost use Rattle.std.specs.Option.{option_copied, option_map};
ghost use Rattle.vh_design_nodes.specs.Fits.{is_unit};
ghost use Rattle.vh_ast.specs.Views.{expr_tree};
ghost use Rattle.vh_bind.specs.declared.scope.Mode.TheVariants as mode;
ghost use Rattle.vh_bind.specs.Steps.{Steps, StepsOn};
ghost use Rattle.vh_bind.specs.Nodes.{IsSound};
ghost use Rattle.vh_bind.specs.Views.{scope_seen};
ghost use Rattle.vh_bind_stmt.specs.Shows.{show_task, is_letter, wants_argument, with_digit, at_letter, in_conversion, scan_byte, ended, shows_of, text_of, wanted_by, wanted_behind, arguments_fit, with_show, value_bound, format_or_value, argument_bound, arguments_bound, is_number, takes_number};

use std::alloc::Global;
use vh_ast::{Expr, ExprForm, Primary};
use vh_base::{NoMemory, Sequence};
use vh_base_shared::SharedBytes;
use vh_bind::{ElabFault, Nodes, Scope};
use vh_bind_expr::bind_expr;
use vh_design_code::{ShowArg, ShowArgs, ShowTask};

/// The display task of this name (IEEE 1364-2005, 17.1).
pub fn show_task(name: &[u8]) -> Option<ShowTask>
    ensures { result ≡ show_task name.now }
{
    if name == b"$display".as_slice() {
        Some(ShowTask::Display)
    } else if name == b"$write".as_slice() {
        Some(ShowTask::Write)
    } else if name == b"$strobe".as_slice() {
        Some(ShowTask::Strobe)
    } else if name == b"$monitor".as_slice() {
        Some(ShowTask::Monitor)
    } else {
        None
    }
}

/// What stands behind a `%` so far: nothing, `0`, or a number of columns.
#[derive(Clone, Copy)]
pub enum Columns {
    Outside,
    Bare,
    Least,
    SoMany(u32),
}

// A letter in either case.
fn is_letter(small: u8, b: u8) -> bool
    ensures { result ≡ is_letter small b }
{
    b == small || u32::from(b) + 32 == u32::from(small)
}

// The letters of conversions that show an argument.
fn wants_argument(b: u8) -> bool
    ensures { result ≡ wants_argument b }
{
    is_letter(98, b)
        || is_letter(111, b)
        || is_letter(104, b)
        || is_letter(100, b)
        || is_letter(99, b)
        || is_letter(115, b)
        || is_letter(116, b)
}

// A digit behind `%`: of columns there are from 1 to 999, written without a 0 before them.
fn with_digit(columns: Columns, b: u8) -> Option<Columns>
    requires { 48 ≤ b }
    ensures { result ≡ with_digit columns b }
{
    let digit = u32::from(b) - 48;
    match columns {
        Columns::Outside => Some(Columns::Outside),
        Columns::Bare => Some(if digit == 0 {
            Columns::Least
        } else {
            Columns::SoMany(digit)
        }),
        Columns::Least => None,
        Columns::SoMany(n) => {
            let sum = 10 * u64::from(n) + u64::from(digit);
            if sum <= 999 {
                Some(Columns::SoMany(sum as u32))
            } else {
                None
            }
        }
    }
}

// Whether the conversion with this letter shows an argument; none where it is wrong.
fn at_letter(columns: Columns, b: u8) -> Option<bool>
    ensures { result ≡ at_letter columns b }
{
    if wants_argument(b) {
        return Some(true);
    }
    if is_letter(109, b) {
        return Some(false);
    }
    if b != 37 {
        return None;
    }
    match columns {
        Columns::Bare => Some(false),
        Columns::Outside | Columns::Least | Columns::SoMany(_) => None,
    }
}

/// What a byte of a format comes to: what stands behind a `%` then, and whether it shows an argument.
#[derive(Clone, Copy)]
pub struct Scanned {
    pub columns: Columns,
    pub shows: bool,
}

// A byte of a conversion.
fn in_conversion(columns: Columns, b: u8) -> Option<Scanned>
    ensures { result ≡ in_conversion columns b }
{
    if 48 <= b && b <= 57 {
        let columns = with_digit(columns, b)?;
        return Some(Scanned {
            columns,
            shows: false,
        });
    }
    let shows = at_letter(columns, b)?;
    Some(Scanned {
        columns: Columns::Outside,
        shows,
    })
}

// A byte of a format.
fn scan_byte(columns: Columns, b: u8) -> Option<Scanned>
    ensures { result ≡ scan_byte columns b }
{
    match columns {
        Columns::Outside => Some(Scanned {
            columns: if b == 37 {
                Columns::Bare
            } else {
                Columns::Outside
            },
            shows: false,
        }),
        Columns::Bare | Columns::Least | Columns::SoMany(_) => in_conversion(columns, b),
    }
}

// How many arguments a format shows, where it is right up to its end.
fn ended(columns: Columns, count: usize) -> Option<usize>
    ensures { result ≡ ended columns count }
{
    match columns {
        Columns::Outside => Some(count),
        Columns::Bare | Columns::Least | Columns::SoMany(_) => None,
    }
}

// How many arguments a format shows; none where it is wrong.
fn shows_of(format: &[u8]) -> Option<usize>
    ensures { result ≡ shows_of format.now }
{
    let mut columns = Columns::Outside;
    let mut count: usize = 0;
    for b in format {
        let scanned = scan_byte(columns, *b)?;
        columns = scanned.columns;
        if scanned.shows {
            count += 1;
        }
    }
    ended(columns, count)
}

// A string, where the argument is one.
fn text_of(e: &Expr) -> Option<&SharedBytes>
    ensures { option_copied result ≡ text_of (expr_tree e.now) }
{
    match &e.form {
        ExprForm::Primary(Primary::Text(bytes)) => Some(bytes),
        _ => None,
    }
}

// How many arguments are to come for conversions behind an expression; none where it is wrong.
fn wanted_by(e: &Expr) -> Option<usize>
    ensures { result ≡ wanted_by (text_of (expr_tree e.now)) }
{
    match text_of(e) {
        None => Some(0),
        Some(format) => shows_of(format.as_slice()),
    }
}

// How many are to come behind an argument; none where it is wrong.
fn wanted_behind(wanted: usize, argument: &Option<Expr>) -> Option<usize>
    ensures { result ≡ wanted_behind wanted (option_map expr_tree argument.now) }
{
    match argument {
        None => { if wanted == 0 { Some(0) } else { None } }
        Some(e) => {
            if wanted == 0 {
                wanted_by(e)
            } else {
                Some(wanted - 1)
            }
        }
    }
}

/// Whether arguments fit the formats among them (IEEE 1364-2005, 17.1.1).
pub fn arguments_fit(arguments: &[Option<Expr>]) -> bool
    ensures { result ≡ arguments_fit 0 (map (option_map expr_tree) arguments.now) }
{
    let mut wanted = 0;
    for argument in arguments {
        let Some(more) = wanted_behind(wanted, argument) else {
            return false;
        };
        wanted = more;
    }
    wanted == 0
}

// The arguments of a display call so far.
type Shown = Vec<ShowArg>;

// Whether what is added isn't passed over; or the first fault.
type Adding = Result<bool, ElabFault>;

// An argument more.
fn add_argument(all: &mut Shown, argument: ShowArg) -> Result<(), NoMemory>
    ensures { OnOk result (all.new.items ≡ with_show all.old.items argument) }
{
    all.push(argument)?;
    Ok(())
}

// A value more; whether it isn't passed over.
fn bind_value(alloc: Global, scope: &Scope, nodes: &mut Nodes, all: &mut Shown, e: &Expr) -> Adding
    requires sound { IsSound mode.Value (scope_seen scope.now) nodes.old.items }
    requires unit { is_unit (scope_seen scope.now).precision (scope_seen scope.now).unit ≡ true }
    ensures step { StepsOn
        (value_bound (scope_seen scope.now) all.old.items (expr_tree e.now) nodes.old.items)
        result all.new.items nodes.new.items }
    ensures sound { OnOk result (IsSound mode.Value (scope_seen scope.now) nodes.new.items) }
{
    let Some(value) = bind_expr(alloc, nodes, scope, e)? else {
        return Ok(false);
    };
    add_argument(all, ShowArg::Value(value))?;
    Ok(true)
}

// A string or a value more.
fn format_or_value(
    alloc: Global,
    scope: &Scope,
    nodes: &mut Nodes,
    all: &mut Shown,
    e: &Expr,
) -> Adding
    requires sound { IsSound mode.Value (scope_seen scope.now) nodes.old.items }
    requires unit { is_unit (scope_seen scope.now).precision (scope_seen scope.now).unit ≡ true }
    ensures step { StepsOn
        (format_or_value (scope_seen scope.now) all.old.items (expr_tree e.now)
        (text_of (expr_tree e.now)) nodes.old.items)
        result all.new.items nodes.new.items }
    ensures sound { OnOk result (IsSound mode.Value (scope_seen scope.now) nodes.new.items) }
{
    match text_of(e) {
        None => bind_value(alloc, scope, nodes, all, e),
        Some(format) => {
            let format = Sequence::from_slice(alloc, format.as_slice())?;
            add_argument(all, ShowArg::Format(format))?;
            Ok(true)
        }
    }
}

// An argument more: a string that no conversion waits for is a format.
fn bind_argument(
    alloc: Global,
    scope: &Scope,
    nodes: &mut Nodes,
    all: &mut Shown,
    wanted: usize,
    argument: &Option<Expr>,
) -> Adding
    requires sound { IsSound mode.Value (scope_seen scope.now) nodes.old.items }
    requires unit { is_unit (scope_seen scope.now).precision (scope_seen scope.now).unit ≡ true }
    ensures step { StepsOn
        (argument_bound (scope_seen scope.now) all.old.items wanted
        (option_map expr_tree argument.now)
        nodes.old.items)
        result all.new.items nodes.new.items }
    ensures sound { OnOk result (IsSound mode.Value (scope_seen scope.now) nodes.new.items) }
{
    match argument {
        None => {
            add_argument(all, ShowArg::Empty)?;
            Ok(true)
        }
        Some(e) => {
            if wanted == 0 {
                format_or_value(alloc, scope, nodes, all, e)
            } else {
                bind_value(alloc, scope, nodes, all, e)
            }
        }
    }
}

/// The arguments of a display call, which fit (IEEE 1364-2005, 17.1). None where one needs a
/// parameter that has no value. An error is the first fault, or want of memory.
pub fn bind_arguments(
    alloc: Global,
    scope: &Scope,
    nodes: &mut Nodes,
    arguments: &[Option<Expr>],
) -> Result<Option<ShowArgs>, ElabFault>
    requires sound { IsSound mode.Value (scope_seen scope.now) nodes.old.items }
    requires unit { is_unit (scope_seen scope.now).precision (scope_seen scope.now).unit ≡ true }
    ensures step { Steps
        (arguments_bound (scope_seen scope.now) 0 [] (map (option_map expr_tree) arguments.now)
        nodes.old.items)
        result nodes.new.items }
    ensures sound { OnOk result (IsSound mode.Value (scope_seen scope.now) nodes.new.items) }
{
    let mut all = Vec::new(alloc);
    let mut wanted = 0;
    for argument in arguments {
        if !bind_argument(alloc, scope, nodes, &mut all, wanted, argument)? {
            return Ok(None);
        }
        wanted = wanted_behind(wanted, argument).unwrap_or(0);
    }
    Ok(Some(Sequence::new(all)))
}

// Whether an argument is a number.
fn is_number(argument: &Option<Expr>) -> bool
    ensures { result ≡ is_number (option_map expr_tree argument.now) }
{
    match argument {
        None => false,
        Some(e) => matches!(&e.form, ExprForm::Primary(Primary::Number(_))),
    }
}

/// Whether these are one number, or nothing (IEEE 1364-2005, 17.4).
pub fn takes_number(arguments: &[Option<Expr>]) -> bool
    ensures { result ≡ takes_number (map (option_map expr_tree) arguments.now) }
{
    match arguments {
        [] => true,
        [argument] => is_number(argument),
        _ => false,
    }
}
