ghost use Rattle.std.specs.Prelude.{ℕ, ◌≡◌, ◌<◌, ◌≤◌, true, length, map, IfOk, IfSome, OnOk};
ghost use Rattle.vh_logic.specs.declared.vector.TheConstants.{MAX_WIDTH};
ghost use Rattle.vh_design_nodes.specs.Fits.{all_before, fits_select};
ghost use Rattle.vh_ast.specs.Expressions;
ghost use Rattle.vh_ast.specs.Views.{expr_tree, link_tree, sel_tree};
ghost use Rattle.vh_bind.specs.declared.scope.Mode.TheVariants as mode;
ghost use Rattle.vh_bind.specs.Steps.{Steps, Gives};
ghost use Rattle.vh_bind.specs.Nodes.{IsSound};
ghost use Rattle.vh_bind.specs.Constants.{chain_pushed, operators};
ghost use Rattle.vh_bind.specs.Views.{scope_seen};
ghost use Rattle.vh_bind_expr.specs.Rows.{count_at, repeated_pushed, range_at, width_at, genvar_pushed};

use crate::names::{constant_at, genvar_value};
use sqlite_items::{Boxed, Items};
use std::alloc::Global;
use vh_ast::{Expr, Link, Sel};
use vh_base::{ExprId, Place};
use vh_bind::{
    ElabFault, Mode, Scope, chain_operators, number_in, part_select, push_concat, push_links,
    push_literal, push_times,
};
use vh_design_nodes::{ExprIds, ExprNode, Range, Select};
use vh_logic::{MAX_WIDTH, Vec4};

// How many times something is repeated: a constant.
pub(crate) fn count_at(
    alloc: Global,
    scope: &Scope,
    nodes: &[ExprNode],
    place: Place,
    count: &Expr,
) -> Result<Option<u64>, ElabFault>
    ensures { Gives (count_at (scope_seen scope.now) nodes.now place (expr_tree count.now)) result }
{
    let count = constant_at(alloc, scope, nodes, count)?;
    number_in(place, 1, u64::MAX, count)
}

// So many times what some entries are joined to, where nothing is passed over.
pub(crate) fn push_repeated(
    alloc: Global,
    scope: &Scope,
    nodes: &mut Vec<ExprNode>,
    place: Place,
    count: Option<u64>,
    parts: Option<ExprIds>,
) -> Result<Option<ExprId>, ElabFault>
    requires sound { IsSound mode.Value (scope_seen scope.now) nodes.old.items }
    requires parts { IfSome parts (λ ns. all_before (length nodes.old.items) ns ≡ true) }
    ensures step { Steps
        (repeated_pushed (scope_seen scope.now) place count parts nodes.old.items)
        result nodes.new.items }
    ensures sound { OnOk result (IsSound mode.Value (scope_seen scope.now) nodes.new.items) }
    ensures below { IfOk result (λ o. IfSome o (λ n. n < length nodes.new.items)) }
    ensures grows { OnOk result (length nodes.old.items ≤ length nodes.new.items) }
{
    let joined = push_concat(alloc, scope, Mode::Value, nodes, place, parts)?;
    push_times(scope, Mode::Value, nodes, place, count, joined)
}

// The chain of some links, where no operand is passed over.
pub(crate) fn push_chained(
    alloc: Global,
    scope: &Scope,
    nodes: &mut Vec<ExprNode>,
    place: Place,
    links: &Items<Link<Expr>>,
    first: Option<ExprId>,
    rest: Option<ExprIds>,
) -> Result<Option<ExprId>, ElabFault>
    requires sound { IsSound mode.Value (scope_seen scope.now) nodes.old.items }
    requires first { IfSome first (λ n. n < length nodes.old.items) }
    requires rest { IfSome rest (λ ns. all_before (length nodes.old.items) ns ≡ true) }
    ensures step { Steps
        (chain_pushed mode.Value (scope_seen scope.now) place
        (operators (Expressions.links (map link_tree links.now))) first rest nodes.old.items)
        result nodes.new.items }
    ensures sound { OnOk result (IsSound mode.Value (scope_seen scope.now) nodes.new.items) }
    ensures below { IfOk result (λ o. IfSome o (λ n. n < length nodes.new.items)) }
    ensures grows { OnOk result (length nodes.old.items ≤ length nodes.new.items) }
{
    let operators = chain_operators(alloc, links.as_slice())?;
    push_links(
        alloc,
        scope,
        Mode::Value,
        nodes,
        place,
        &operators,
        first,
        rest,
    )
}

/// Which digits, between two constants.
pub fn range_at(
    alloc: Global,
    scope: &Scope,
    nodes: &[ExprNode],
    bracket: Place,
    range: Range,
    left: &Expr,
    right: &Expr,
) -> Result<Option<Select>, ElabFault>
    ensures select { Gives
        (range_at (scope_seen scope.now) nodes.now bracket range
        (expr_tree left.now) (expr_tree right.now)) result }
    ensures below { (n : ℕ) → IfOk result (λ o. IfSome o (λ x. fits_select n x ≡ true)) }
{
    let left = constant_at(alloc, scope, nodes, left)?;
    let right = constant_at(alloc, scope, nodes, right)?;
    part_select(bracket, range, left, right)
}

/// How many digits, from a base on: a constant.
pub fn width_at(
    alloc: Global,
    scope: &Scope,
    nodes: &[ExprNode],
    bracket: Place,
    width: &Expr,
) -> Result<Option<u64>, ElabFault>
    ensures width { Gives
        (width_at (scope_seen scope.now) nodes.now bracket (expr_tree width.now)) result }
    ensures most { IfOk result (λ o. IfSome o (λ n. n ≤ MAX_WIDTH)) }
{
    let width = constant_at(alloc, scope, nodes, width)?;
    number_in(bracket, 1, u64::from(MAX_WIDTH), width)
}

// What is written of a genvar, or of the digits that a constant select names.
pub(crate) fn push_genvar(
    alloc: Global,
    scope: &Scope,
    nodes: &mut Vec<ExprNode>,
    place: Place,
    value: Vec4,
    sel: &Option<Boxed<Sel<Expr>>>,
) -> Result<Option<ExprId>, ElabFault>
    requires sound { IsSound mode.Value (scope_seen scope.now) nodes.old.items }
    ensures step { Steps
        (genvar_pushed (scope_seen scope.now) place (sel_tree sel.now) value nodes.old.items)
        result nodes.new.items }
    ensures sound { OnOk result (IsSound mode.Value (scope_seen scope.now) nodes.new.items) }
    ensures below { IfOk result (λ o. IfSome o (λ n. n < length nodes.new.items)) }
    ensures grows { OnOk result (length nodes.old.items ≤ length nodes.new.items) }
{
    let value = genvar_value(alloc, scope, place, value, sel)?;
    push_literal(scope, Mode::Value, nodes, place, value)
}
