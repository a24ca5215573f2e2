ghost use Rattle.std.specs.Prelude.{◌≡◌, [], ◌∷◌, ◌++◌, map, true, IfOk, OnOk};
ghost use Rattle.vh_ast.specs.Statements;
ghost use Rattle.vh_ast.specs.Views.{citem_tree, event_tree, matched_tree, stmt_tree};
ghost use Rattle.vh_design_nodes.specs.Fits.{is_unit};
ghost use Rattle.vh_bind.specs.declared.scope.Mode.TheVariants as mode;
ghost use Rattle.vh_bind.specs.Nodes.{IsSound};
ghost use Rattle.vh_bind_stmt.specs.Views.{surroundings_seen};
ghost use Rattle.vh_lower_flow.specs.Positions.{is_closed};
ghost use Rattle.vh_lower_flow.specs.Views.{flow_tree};
ghost use Rattle.vh_lower.specs.Making.{Makes};
ghost use Rattle.vh_lower.specs.Statements.{behind_timing, block_flow, event_flow, inside, inside_of, item_with, items_flow, lowered, stmt_flow, stmts_flow};
ghost use Rattle.vh_lower.specs.Views.{added_seen, cases_seen, flows_seen, MakesTo, Stands, Adds, Leaves};

use crate::added::{Added, Maker};
use crate::blocks::{block_number, block_of_row, block_scope};
use crate::cases::{Cases, case_flow, no_cases, values_of, with_default, with_item};
use crate::events::event_timing;
use crate::fault::Lowered;
use crate::heads::{Head, Timing};
use crate::instructions::{behind_operations, nothing};
use crate::loops::{for_flow, forever_flow, if_flow, loop_flow};
use crate::making::{numbered, reading_from};
use crate::simple::{one_pause, simple_flow};
use crate::timing::{delay_timing, for_head, headed, wait_timing};
use sqlite_items::Items;
use std::alloc::Global;
use vh_ast::{BlockWord, Citem, Event, Id, LoopWord, Matched, Stmt, StmtForm};
use vh_base::{NoMemory, ObjId, Place};
use vh_bind::Scope;
use vh_bind_scope::Top;
use vh_bind_stmt::Surroundings;
use vh_design_code::{Code, Pause, StmtKind};
use vh_lower_flow::{CodeKind, Flow, code_of};

// Instructions, and the statement behind them.
fn behind_timing(alloc: Global, timing: Timing, body: Flow) -> Result<Flow, NoMemory>
    ensures { IfOk result (λ f. flow_tree f ≡ behind_timing timing (flow_tree body)) }
{
    let Timing {
        number,
        instructions,
    } = timing;
    behind_operations(alloc, number, instructions, body)
}

// One statement more.
fn add_flow(row: &mut Items<Flow>, flow: Flow) -> Result<(), NoMemory>
    ensures { OnOk result (flows_seen row.new ≡ flows_seen row.old ++ flow_tree flow ∷ []) }
{
    row.push(flow)?;
    Ok(())
}

// What a statement is lowered to, a row for each form.
#[cycle(lower)]
fn lower_stmt(maker: &mut Maker, stmt: &Stmt) -> Lowered<Flow>
    requires stands { Stands maker.old }
    ensures { Adds (λ s a. MakesTo flow_tree (stmt_flow s (stmt_tree stmt.now) a))
        maker.old result maker.new }
{
    let place = stmt.place;
    match &stmt.form {
        StmtForm::Simple(simple) => simple_flow(maker, place, simple),
        StmtForm::Delay(delay, body) => {
            let timing = delay_timing(maker, place, delay.get())?;
            let body = lower_stmt(maker, body.get())?;
            Ok(behind_timing(maker.alloc, timing, body)?)
        }
        StmtForm::Event(event, body) => { lower_event(maker, place, event.get(), body.get()) }
        StmtForm::Wait(test, body) => {
            let timing = wait_timing(maker, place, test.get())?;
            let body = lower_stmt(maker, body.get())?;
            Ok(behind_timing(maker.alloc, timing, body)?)
        }
        StmtForm::If { test, holds, fails } => {
            let kind = match fails {
                None => StmtKind::If,
                Some(_) => StmtKind::IfElse,
            };
            let head = headed(maker, kind, place, test.get())?;
            let holds = lower_stmt(maker, holds.get())?;
            let fails = match fails {
                None => nothing(maker.alloc)?,
                Some(fails) => lower_stmt(maker, fails.get())?,
            };
            Ok(if_flow(maker.alloc, head, holds, fails)?)
        }
        StmtForm::Case {
            word,
            value,
            citems,
        } => {
            let Head {
                number,
                calls,
                test,
            } = headed(maker, StmtKind::Case, place, value.get())?;
            let mut cases = no_cases(maker.alloc, calls);
            lower_items(maker, &mut cases, citems.as_slice())?;
            Ok(case_flow(maker.alloc, *word, number, test, cases, &maker.added.exprs)?)
        }
        StmtForm::For {
            start,
            test,
            step,
            body,
        } => {
            let head = for_head(maker, place, start.get(), test.get(), step.get())?;
            let body = lower_stmt(maker, body.get())?;
            Ok(for_flow(maker.alloc, head, body)?)
        }
        StmtForm::Loop { word, test, body } => {
            let kind = match word {
                LoopWord::While => StmtKind::While,
                LoopWord::Repeat => StmtKind::Repeat,
            };
            let head = headed(maker, kind, place, test.get())?;
            let body = lower_stmt(maker, body.get())?;
            Ok(loop_flow(maker.alloc, *word, head, body)?)
        }
        StmtForm::Forever(body) => {
            let number = numbered(maker, StmtKind::Forever, place)?;
            let body = lower_stmt(maker, body.get())?;
            Ok(forever_flow(maker.alloc, number, body)?)
        }
        StmtForm::Block {
            word,
            id,
            stmts,
            ..
        } => lower_block(maker, place, *word, id, stmts.as_slice()),
    }
}

// An event control: `@*` waits for what its statement reads.
#[cycle(lower)]
fn lower_event(maker: &mut Maker, place: Place, event: &Event, body: &Stmt) -> Lowered<Flow>
    requires stands { Stands maker.old }
    ensures { Adds
        (λ s a. MakesTo flow_tree
        (event_flow s place (event_tree event.now) (stmt_flow s (stmt_tree body.now)) a))
        maker.old result maker.new }
{
    if let Event::Any = event {
        let number = numbered(maker, StmtKind::EventControl, place)?;
        let from = maker.added.exprs.len();
        let body = lower_stmt(maker, body)?;
        let wait = reading_from(maker.alloc, maker.added, from)?;
        let instructions = one_pause(maker.alloc, Pause::Await(wait))?;
        return Ok(behind_operations(maker.alloc, number, instructions, body)?);
    }
    let timing = event_timing(maker, place, event)?;
    let body = lower_stmt(maker, body)?;
    Ok(behind_timing(maker.alloc, timing, body)?)
}

// Statements in a row.
#[cycle(lower)]
fn lower_row(maker: &mut Maker, stmts: &[Stmt]) -> Lowered<Items<Flow>>
    requires stands { Stands maker.old }
    ensures { Adds
        (λ s a. MakesTo flows_seen (stmts_flow s [] (Statements.stmts (map stmt_tree stmts.now)) a))
        maker.old result maker.new }
{
    let mut row = Items::new(maker.alloc);
    for stmt in stmts {
        let flow = lower_stmt(maker, stmt)?;
        add_flow(&mut row, flow)?;
    }
    Ok(row)
}

// A block with its statements.
#[cycle(lower)]
fn lower_block(
    maker: &mut Maker,
    place: Place,
    word: BlockWord,
    id: &Option<Id>,
    stmts: &[Stmt],
) -> Lowered<Flow>
    requires stands { Stands maker.old }
    ensures { Adds
        (λ s a. MakesTo flow_tree
        (block_flow s place word id.now
        (λ u. stmts_flow u [] (Statements.stmts (map stmt_tree stmts.now))) a))
        maker.old result maker.new }
{
    let number = block_number(maker, word, place)?;
    let object = block_scope(maker, id)?;
    let row = lower_scoped(maker, object, stmts)?;
    Ok(block_of_row(maker.alloc, word, number, object, row)?)
}

// Its statements, which stand in its own scope where it has a name.
#[cycle(lower)]
fn lower_scoped(maker: &mut Maker, object: Option<ObjId>, stmts: &[Stmt]) -> Lowered<Items<Flow>>
    requires stands { Stands maker.old }
    ensures { Adds
        (λ s a. MakesTo flows_seen
        (stmts_flow (inside_of s object) [] (Statements.stmts (map stmt_tree stmts.now)) a))
        maker.old result maker.new }
{
    match object {
        None => lower_row(maker, stmts),
        Some(object) => lower_inside(maker, object, stmts),
    }
}

// The same inside of a named block.
#[cycle(lower)]
fn lower_inside(maker: &mut Maker, object: ObjId, stmts: &[Stmt]) -> Lowered<Items<Flow>>
    requires stands { Stands maker.old }
    ensures { Adds
        (λ s a. MakesTo flows_seen
        (stmts_flow (inside s object) [] (Statements.stmts (map stmt_tree stmts.now)) a))
        maker.old result maker.new }
{
    let scope = maker.around.scope;
    let scopes = scopes_inside(maker.alloc, object, scope.around)?;
    let scope = Scope {
        names: scope.names,
        around: &scopes,
        top: Top {
            id: scope.top.id,
            name: scope.top.name,
        },
        genvars: scope.genvars,
        objects: scope.objects,
        exprs: scope.exprs,
        routines: scope.routines,
        unit: scope.unit,
        precision: scope.precision,
    };
    let around = Surroundings {
        scope: &scope,
        arguments: maker.around.arguments,
    };
    lower_under(maker.alloc, &around, maker.added, stmts)
}

// Statements in a row, which stand in these surroundings.
#[cycle(lower)]
fn lower_under<'m>(
    alloc: Global,
    around: &'m Surroundings,
    added: &'m mut Added,
    stmts: &[Stmt],
) -> Lowered<Items<Flow>>
    requires sound { IsSound mode.Value (surroundings_seen around.now).scope
        (added_seen added.old).exprs }
    requires unit { is_unit (surroundings_seen around.now).scope.precision
        (surroundings_seen around.now).scope.unit ≡ true }
    ensures made { MakesTo flows_seen
        (stmts_flow (surroundings_seen around.now) [] (Statements.stmts (map stmt_tree stmts.now))
        (added_seen added.old))
        result (added_seen added.new) }
    ensures sound { OnOk result
        (IsSound mode.Value (surroundings_seen around.now).scope (added_seen added.new).exprs) }
{
    let mut inner = Maker {
        alloc,
        around,
        added,
    };
    lower_row(&mut inner, stmts)
}

// The statements of a `case`, from the left.
#[cycle(lower)]
fn lower_items(maker: &mut Maker, cases: &mut Cases, citems: &[Citem<Stmt>]) -> Lowered<()>
    requires stands { Stands maker.old }
    ensures { Adds
        (λ s a. Leaves
        (items_flow s (cases_seen cases.old) (Statements.citems (map citem_tree citems.now)) a)
        (cases_seen cases.new))
        maker.old result maker.new }
{
    for citem in citems {
        lower_item(maker, cases, &citem.matched, &citem.body)?;
    }
    Ok(())
}

// One of them.
#[cycle(lower)]
fn lower_item(maker: &mut Maker, cases: &mut Cases, matched: &Matched, body: &Stmt) -> Lowered<()>
    requires stands { Stands maker.old }
    ensures { Adds
        (λ s a. Leaves
        (item_with s (cases_seen cases.old) (matched_tree matched.now)
        (stmt_flow s (stmt_tree body.now)) a) (cases_seen cases.new))
        maker.old result maker.new }
{
    match matched {
        Matched::Values(values) => {
            let matched = values_of(maker, &mut cases.calls, values.as_slice())?;
            let body = lower_stmt(maker, body)?;
            with_item(cases, matched, body)?;
            Ok(())
        }
        Matched::Default => {
            let body = lower_stmt(maker, body)?;
            with_default(cases, body)?;
            Ok(())
        }
    }
}

// The scopes inside of one.
fn scopes_inside(alloc: Global, object: ObjId, around: &[ObjId]) -> Result<Vec<ObjId>, NoMemory>
    ensures { IfOk result (λ v. v.items ≡ object ∷ around.now) }
{
    let mut scopes = Vec::new(alloc);
    scopes.push(object)?;
    scopes.extend_from_slice(around)?;
    Ok(scopes)
}

// The code of a statement.
fn laid_statement(maker: &mut Maker, kind: CodeKind, stmt: &Stmt) -> Lowered<Code>
    requires stands { Stands maker.old }
    ensures { Adds (λ s a. Makes (lowered kind s (stmt_tree stmt.now) a))
        maker.old result maker.new }
{
    let flow = lower_stmt(maker, stmt)?;
    Ok(code_of(maker.alloc, kind, &flow)?)
}

/// The code of a statement by what it is of, or its first fault (IEEE 1364-2005, clause 9).
pub fn lower(maker: &mut Maker, kind: CodeKind, stmt: &Stmt) -> Lowered<Code>
    requires stands { Stands maker.old }
    ensures made { Adds (λ s a. Makes (lowered kind s (stmt_tree stmt.now) a))
        maker.old result maker.new }
    ensures closed { IfOk result (λ c. is_closed c ≡ true) }
{
    laid_statement(maker, kind, stmt)
}
