ghost use Rattle.std.specs.Prelude.{◌≡◌, ◌≤◌, ◌<◌, ℕ, true, false, length};
ghost use Rattle.vh_logic.specs.declared.vector.TheConstants.{MAX_WIDTH};
ghost use Rattle.vh_logic.specs.Vector.{width_of as digits_in};
ghost use Rattle.vh_logic.specs.Number.{integer_of};
ghost use Rattle.vh_logic.specs.Reduce.{truth_of};
ghost use Rattle.vh_design_nodes.specs.declared.expr.Access.{Access};
ghost use Rattle.vh_design_nodes.specs.Fits.{fits_kind, fits_word, fits_select, fits_selected};
ghost use Rattle.vh_design_nodes.specs.Widths.{width_of, signed_of, kind_width, is_reduction, operands, summed, select_width, selected_width};
ghost use Rattle.vh_eval.specs.Operators.{choice_of};
ghost use Rattle.vh_eval.specs.Ready.{AreReady, AreBefore, FitsContext};
ghost use Rattle.vh_eval.specs.Selects.{address_of};
ghost use Rattle.vh_eval.specs.Value.{value_of, value_below, kind_value, own_value, unary_value, alone, whole, word_or_x, chosen_at, select_value, selected_value, arithmetic_chain, shift_chain, comparison_chain, compared, compared_all, logic_chain, joined};

use crate::operators::{
    arithmetic, choice, comparison, is_reduction, logic, of_digit, reduction, repeated, shift,
    sign_changed, time_in, with_sign,
};
use crate::selects::{address_of, selected, sliced};
use vh_base::{ExprId, ObjId, Object};
use vh_design::{
    Arithmetic, Chosen, Comparison, Design, ExprKind, Link, Logic, Select, Selected, Shift, Unary,
};
use vh_logic::{Digit, Vec4, concat, resize, truth};
use vh_store::Store;

/// The value of an expression in a context of a width and a sign (IEEE 1364-2005, 5.4 and 5.5). The width
/// is not below the expression's own. Takes no memory.
pub fn eval(d: &Design, s: &Store, e: ExprId, width: u32, signed: bool) -> Vec4
    requires known { e < length (d.now).exprs }
    requires wide { width_of (d.now).exprs e ≤ width }
    requires small { width ≤ MAX_WIDTH }
    ensures value { result ≡ value_of d.now s.now e width signed }
    ensures width { digits_in result ≡ width }
    ensures signed { result.signed ≡ signed }
{
    value_in(d, s, e, width, signed)
}

// The same, by the expressions below any number that is greater.
#[cycle(eval)]
#[inline(always)]
fn value_in(d: &Design, s: &Store, e: ExprId, width: u32, signed: bool) -> Vec4
    requires known { e < length (d.now).exprs }
    requires wide { width_of (d.now).exprs e ≤ width }
    requires small { width ≤ MAX_WIDTH }
    ensures value { (k : ℕ) → e < k → result ≡ value_below k d.now s.now e width signed }
    ensures width { digits_in result ≡ width }
    ensures signed { result.signed ≡ signed }
{
    let node = d.expr(e);
    kind_in(d, s, e, &node.kind, width, signed)
}

// The value of an expression where nothing around it asks for more.
#[cycle(eval)]
fn alone_in(d: &Design, s: &Store, e: ExprId) -> Vec4
    requires known { e < length (d.now).exprs }
    ensures value { (k : ℕ) → e < k → result ≡ alone (value_below k d.now s.now) (d.now).exprs e }
    ensures width { digits_in result ≡ width_of (d.now).exprs e }
    ensures signed { result.signed ≡ signed_of (d.now).exprs e }
{
    value_in(d, s, e, d.width(e), d.is_signed(e))
}

// Whether it is true.
#[cycle(eval)]
fn truth_in(d: &Design, s: &Store, e: ExprId) -> Digit
    requires known { e < length (d.now).exprs }
    ensures { (k : ℕ) → e < k →
        result ≡ truth_of (alone (value_below k d.now s.now) (d.now).exprs e) }
{
    truth(&alone_in(d, s, e))
}

// A whole object.
#[inline(always)]
fn whole(s: &Store, object: ObjId) -> Vec4
    ensures { result ≡ whole s.now object }
{
    s.shown(Object {
        id: object,
        word: None,
    })
}

// The word of a memory at an index; x where it has none there.
#[inline(never)]
fn word(d: &Design, s: &Store, memory: ObjId, index: &Vec4) -> Vec4
    requires { memory < length (d.now).objects }
    ensures { result ≡ word_or_x (address_of (integer_of index.now)) (d.now).objects s.now memory }
{
    let info = d.object(memory);
    let unknown = Vec4::filled(info.width, Digit::X, info.signed);
    let Some(at) = address_of(index) else {
        return unknown;
    };
    s.found(Object {
        id: memory,
        word: Some(at),
    })
    .unwrap_or(unknown)
}

// What is selected from.
#[cycle(eval)]
fn chosen_in(d: &Design, s: &Store, e: ExprId, of: &Chosen) -> Vec4
    requires known { e < length (d.now).exprs }
    requires fits { fits_word (d.now).objects e Access.Read of.now.object of.now.word ≡ true }
    ensures { result ≡ chosen_at (value_below e d.now s.now) d.now s.now of.now.object of.now.word }
{
    match of.word {
        None => whole(s, of.object),
        Some(index) => word(d, s, of.object, &alone_in(d, s, index)),
    }
}

// The digits that a select names of a value.
#[cycle(eval)]
fn select_in(d: &Design, s: &Store, e: ExprId, v: Vec4, select: &Select) -> Vec4
    requires known { e < length (d.now).exprs }
    requires fits { fits_select e select.now ≡ true }
    requires least { 1 ≤ select_width 1 select.now }
    requires small { select_width 1 select.now ≤ MAX_WIDTH }
    ensures { result ≡ select_value (value_below e d.now s.now) (d.now).exprs v select.now }
{
    match *select {
        Select::Whole => v,
        Select::Bit { range, index } => selected(&v, range, true, &alone_in(d, s, index), 1),
        Select::Slice {
            range,
            lowest,
            width,
        } => sliced(&v, range, lowest, width),
        Select::Indexed {
            up,
            range,
            base,
            width,
        } => selected(&v, range, up, &alone_in(d, s, base), width),
    }
}

// What an expression reads of an object or a word.
#[cycle(eval)]
fn selected_in(d: &Design, s: &Store, e: ExprId, x: &Selected) -> Vec4
    requires known { e < length (d.now).exprs }
    requires fits { fits_selected (d.now).objects e Access.Read x.now ≡ true }
    requires least { 1 ≤ selected_width (d.now).objects x.now }
    requires small { selected_width (d.now).objects x.now ≤ MAX_WIDTH }
    ensures { result ≡ selected_value (value_below e d.now s.now) d.now s.now x.now }
{
    let v = chosen_in(d, s, e, &x.of);
    select_in(d, s, e, v, &x.select)
}

// Operators whose operands have the width and the sign around them, on a value.
#[cycle(eval)]
fn arithmetic_in(d: &Design, s: &Store, e: ExprId, v: Vec4, rest: &[Link<Arithmetic>]) -> Vec4
    requires known { e < length (d.now).exprs }
    requires parts { AreReady (d.now).exprs e (digits_in v) (operands rest.now) }
    ensures value { result ≡ arithmetic_chain (value_below e d.now s.now) (digits_in v) v.signed v
        rest.now }
    ensures width { digits_in result ≡ digits_in v }
    ensures signed { result.signed ≡ v.signed }
{
    let width = v.width();
    let signed = v.is_signed();
    let mut v = v;
    for link in rest {
        let operand = value_in(d, s, link.part, width, signed);
        v = arithmetic(link.op, &v, &operand);
    }
    v
}

// Shifts and powers of a value; each operand stands alone.
#[cycle(eval)]
#[inline(never)]
fn shift_in(d: &Design, s: &Store, e: ExprId, v: Vec4, rest: &[Link<Shift>]) -> Vec4
    requires known { e < length (d.now).exprs }
    requires parts { AreBefore e (operands rest.now) }
    ensures value { result ≡ shift_chain (value_below e d.now s.now) (d.now).exprs v rest.now }
    ensures width { digits_in result ≡ digits_in v }
    ensures signed { result.signed ≡ v.signed }
{
    let mut v = v;
    for link in rest {
        let operand = alone_in(d, s, link.part);
        v = shift(link.op, &v, &operand);
    }
    v
}

// Two expressions compared, in the greater of their widths.
#[cycle(eval)]
fn compared_in(d: &Design, s: &Store, e: ExprId, a: ExprId, op: Comparison, b: ExprId) -> Digit
    requires known { e < length (d.now).exprs }
    requires left { a < e }
    requires right { b < e }
    ensures { result ≡ compared (value_below e d.now s.now) (d.now).exprs a op b }
{
    let width = d.width(a).max(d.width(b));
    let signed = d.is_signed(a) && d.is_signed(b);
    let left = value_in(d, s, a, width, signed);
    let right = value_in(d, s, b, width, signed);
    comparison(op, &left, &right)
}

// A digit compared with further operands.
#[cycle(eval)]
fn compared_further(
    d: &Design,
    s: &Store,
    e: ExprId,
    digit: Digit,
    rest: &[Link<Comparison>],
) -> Digit
    requires known { e < length (d.now).exprs }
    requires parts { AreBefore e (operands rest.now) }
    ensures { result ≡ comparison_chain (value_below e d.now s.now) (d.now).exprs digit rest.now }
{
    let mut digit = digit;
    for link in rest {
        let width = d.width(link.part);
        let left = resize(&of_digit(digit), width, false);
        let right = value_in(d, s, link.part, width, false);
        digit = comparison(link.op, &left, &right);
    }
    digit
}

// A chain of comparisons.
#[cycle(eval)]
#[inline(never)]
fn comparison_in(
    d: &Design,
    s: &Store,
    e: ExprId,
    first: ExprId,
    rest: &[Link<Comparison>],
) -> Digit
    requires known { e < length (d.now).exprs }
    requires before { first < e }
    requires parts { AreBefore e (operands rest.now) }
    ensures { result ≡ compared_all (value_below e d.now s.now) (d.now).exprs first rest.now }
{
    if rest.len() < 1 {
        return truth_in(d, s, first);
    }
    let link = rest[0];
    let digit = compared_in(d, s, e, first, link.op, link.part);
    compared_further(d, s, e, digit, &rest[1..])
}

// Whether operands are true, from a digit on.
#[cycle(eval)]
#[inline(never)]
fn logic_in(d: &Design, s: &Store, e: ExprId, digit: Digit, rest: &[Link<Logic>]) -> Digit
    requires known { e < length (d.now).exprs }
    requires parts { AreBefore e (operands rest.now) }
    ensures { result ≡ logic_chain (value_below e d.now s.now) (d.now).exprs digit rest.now }
{
    let mut digit = digit;
    for link in rest {
        digit = logic(link.op, digit, truth_in(d, s, link.part));
    }
    digit
}

// A concatenation: a value with further parts below it.
#[cycle(eval)]
#[inline(never)]
fn joined_in(d: &Design, s: &Store, e: ExprId, v: Vec4, rest: &[ExprId]) -> Vec4
    requires known { e < length (d.now).exprs }
    requires parts { AreBefore e rest.now }
    requires fits { summed (d.now).exprs (digits_in v) rest.now ≤ MAX_WIDTH }
    ensures { result ≡ joined (value_below e d.now s.now) (d.now).exprs v rest.now }
{
    let mut v = v;
    for part in rest {
        v = concat(&v, &alone_in(d, s, *part));
    }
    v
}

// An operator on one operand.
#[cycle(eval)]
#[inline(never)]
fn unary_in(d: &Design, s: &Store, op: Unary, part: ExprId, width: u32, signed: bool) -> Vec4
    requires known { part < length (d.now).exprs }
    requires wide { is_reduction op ≡ false → width_of (d.now).exprs part ≤ width }
    requires least { 1 ≤ width }
    requires small { width ≤ MAX_WIDTH }
    ensures value { (k : ℕ) → part < k
        → result ≡ unary_value (value_below k d.now s.now) (d.now).exprs op part width signed }
    ensures width { digits_in result ≡ width }
    ensures signed { result.signed ≡ signed }
{
    if is_reduction(op) {
        let digit = reduction(op, &alone_in(d, s, part));
        return resize(&of_digit(digit), width, signed);
    }
    sign_changed(op, &value_in(d, s, part, width, signed))
}

// `?:`.
#[cycle(eval)]
#[inline(never)]
fn choice_in(
    d: &Design,
    s: &Store,
    e: ExprId,
    condition: ExprId,
    branches: (ExprId, ExprId),
    width: u32,
    signed: bool,
) -> Vec4
    requires known { e < length (d.now).exprs }
    requires test { condition < e }
    requires first { branches.0 < e }
    requires second { branches.1 < e }
    requires wide_first { width_of (d.now).exprs branches.0 ≤ width }
    requires wide_second { width_of (d.now).exprs branches.1 ≤ width }
    requires small { width ≤ MAX_WIDTH }
    ensures value { result ≡ choice_of
        (truth_of (alone (value_below e d.now s.now) (d.now).exprs condition))
        (value_below e d.now s.now branches.0 width signed)
        (value_below e d.now s.now branches.1 width signed) }
    ensures width { digits_in result ≡ width }
    ensures signed { result.signed ≡ signed }
{
    let test = truth_in(d, s, condition);
    let first = value_in(d, s, branches.0, width, signed);
    let second = value_in(d, s, branches.1, width, signed);
    choice(test, first, second)
}

// The value of a kind of expression, by those of its parts.
#[cycle(eval)]
#[inline(never)]
fn composed_in(d: &Design, s: &Store, e: ExprId, kind: &ExprKind, width: u32, signed: bool) -> Vec4
    requires kind { FitsContext d.now e kind.now width }
    ensures value { result ≡ kind_value (value_below e d.now s.now) d.now s.now e kind.now width
        signed }
    ensures width { digits_in result ≡ width }
    ensures signed { result.signed ≡ signed }
{
    match kind {
        ExprKind::Unary { op, part } => unary_in(d, s, *op, *part, width, signed),
        ExprKind::Arithmetic { first, rest } => {
            let v = value_in(d, s, *first, width, signed);
            arithmetic_in(d, s, e, v, rest.as_slice())
        }
        ExprKind::Shift { first, rest } => {
            let v = value_in(d, s, *first, width, signed);
            shift_in(d, s, e, v, rest.as_slice())
        }
        ExprKind::Choice { condition, yes, no } => {
            choice_in(d, s, e, *condition, (*yes, *no), width, signed)
        }
        ExprKind::Literal(_)
        | ExprKind::Selected(_)
        | ExprKind::Comparison { .. }
        | ExprKind::Logic { .. }
        | ExprKind::Join { .. }
        | ExprKind::Repeat { .. }
        | ExprKind::WithSign { .. }
        | ExprKind::Time { .. }
        | ExprKind::Call { .. }
        | ExprKind::SysCall(_) => resize(&own_in(d, s, e, kind), width, signed),
    }
}

// The same; a literal and a whole object without a further call.
#[cycle(eval)]
#[inline(always)]
fn kind_in(d: &Design, s: &Store, e: ExprId, kind: &ExprKind, width: u32, signed: bool) -> Vec4
    requires kind { FitsContext d.now e kind.now width }
    ensures value { result ≡ kind_value (value_below e d.now s.now) d.now s.now e kind.now width
        signed }
    ensures width { digits_in result ≡ width }
    ensures signed { result.signed ≡ signed }
{
    match kind {
        ExprKind::Literal(v) => resize(v, width, signed),
        ExprKind::Selected(
            Selected {
                of: Chosen { object, word: None },
                select: Select::Whole,
            },
        ) => resize(&whole(s, *object), width, signed),
        _ => composed_in(d, s, e, kind, width, signed),
    }
}

// The value of a kind that the context only widens.
#[cycle(eval)]
#[inline(never)]
fn own_in(d: &Design, s: &Store, e: ExprId, kind: &ExprKind) -> Vec4
    requires known { e < length (d.now).exprs }
    requires fits { fits_kind (d.now).objects (d.now).precision e kind.now ≡ true }
    requires least { 1 ≤ kind_width (d.now).exprs (d.now).objects kind.now }
    requires small { kind_width (d.now).exprs (d.now).objects kind.now ≤ MAX_WIDTH }
    ensures { result ≡ own_value (value_below e d.now s.now) d.now s.now e kind.now }
{
    match kind {
        ExprKind::Literal(v) => *v,
        ExprKind::Selected(x) => selected_in(d, s, e, x),
        ExprKind::Comparison { first, rest } => {
            of_digit(comparison_in(d, s, e, *first, rest.as_slice()))
        }
        ExprKind::Logic { first, rest } => {
            let digit = truth_in(d, s, *first);
            of_digit(logic_in(d, s, e, digit, rest.as_slice()))
        }
        ExprKind::Join { first, rest } => {
            let v = alone_in(d, s, *first);
            joined_in(d, s, e, v, rest.as_slice())
        }
        ExprKind::Repeat { count, part } => repeated(&alone_in(d, s, *part), *count),
        ExprKind::WithSign { part, signed } => with_sign(&alone_in(d, s, *part), *signed),
        ExprKind::Time { unit } => time_in(s.time(), *unit, d.precision()),
        ExprKind::Call { .. } | ExprKind::SysCall(_) => s.result(e),
        ExprKind::Unary { .. }
        | ExprKind::Arithmetic { .. }
        | ExprKind::Shift { .. }
        | ExprKind::Choice { .. } => Vec4::filled(1, Digit::X, false),
    }
}
