ghost use Rattle.std.specs.Prelude.{◌≡◌, IfOk};
ghost use Rattle.vh_bind.specs.Steps.{Gives};
ghost use Rattle.vh_lower_flow.specs.Views.{flow_tree};
ghost use Rattle.vh_bind_stmt.specs.Views.{surroundings_seen};
ghost use Rattle.vh_lower.specs.Making.{Makes};
ghost use Rattle.vh_lower.specs.Statements.{block_number, block_of, block_of_row, block_named, block_scope, joined, named_block};
ghost use Rattle.vh_lower.specs.Views.{flows_seen, Finds, IsSame, added_of, around_of};

use crate::added::Maker;
use crate::fault::{LowerFault, Lowered};
use crate::instructions::in_row;
use crate::making::{numbered, scope_of};
use crate::objects::meant_object;
use sqlite_items::{Boxed, Items};
use std::alloc::Global;
use vh_ast::{BlockWord, Id};
use vh_base::{DesignFault, NoMemory, ObjId, Place};
use vh_bind::ElabFault;
use vh_bind_stmt::{Surroundings, object_of};
use vh_design_code::StmtKind;
use vh_design_nodes::is_named_block_at;
use vh_lower_flow::{Flow, FlowForm, Origin};

// The number of a `fork`; a `begin` is no statement and has none.
pub(crate) fn block_number(maker: &mut Maker, word: BlockWord, place: Place) -> Lowered<u32>
    ensures made { Makes (block_number word (around_of maker.old) place (added_of maker.old)) result
        (added_of maker.new) }
    ensures exprs { (added_of maker.new).exprs ≡ (added_of maker.old).exprs }
    ensures same { IsSame maker.old maker.new }
{
    match word {
        BlockWord::Begin => Ok(0),
        BlockWord::Fork => numbered(maker, StmtKind::Fork, place),
    }
}

// The object of a block's name in its scope.
fn block_of(around: &Surroundings, id: &Id) -> Result<Option<ObjId>, ElabFault>
    ensures { Gives (block_of (surroundings_seen around.now) id.now) result }
{
    let meaning = around
        .scope
        .names
        .meaning(scope_of(around), id.name.as_slice());
    meant_object(id.place, object_of(meaning))
}

// The named block.
fn block_named(maker: &Maker, id: &Id) -> Lowered<ObjId>
    ensures { Finds (λ s a. Makes (block_named s id.now a)) maker.now result }
{
    let Some(object) = block_of(maker.around, id)? else {
        return Err(LowerFault::PassedOver);
    };
    if !is_named_block_at(maker.around.scope.objects, object) {
        return Err(LowerFault::Refused(DesignFault::N1, id.place));
    }
    Ok(object)
}

// The scope of a named block.
pub(crate) fn block_scope(maker: &Maker, id: &Option<Id>) -> Lowered<Option<ObjId>>
    ensures { Finds (λ s a. Makes (block_scope s id.now a)) maker.now result }
{
    match id {
        None => Ok(None),
        Some(id) => {
            let object = block_named(maker, id)?;
            Ok(Some(object))
        }
    }
}

// Statements of a block.
fn joined(word: BlockWord, number: u32, row: Items<Flow>) -> Result<Flow, NoMemory>
    ensures { IfOk result (λ f. flow_tree f ≡ joined word number (flows_seen row)) }
{
    match word {
        BlockWord::Begin => in_row(row),
        BlockWord::Fork => {
            let origin = Origin {
                stmt: Some(number),
                first: true,
            };
            Flow::new(FlowForm::Fork {
                origin,
                branches: row,
            })
        }
    }
}

// They, in a block of this name.
fn named_block(alloc: Global, object: Option<ObjId>, body: Flow) -> Result<Flow, NoMemory>
    ensures { IfOk result (λ f. flow_tree f ≡ named_block object (flow_tree body)) }
{
    match object {
        None => Ok(body),
        Some(object) => {
            let body = Boxed::new(alloc, body)?;
            Flow::new(FlowForm::Block { object, body })
        }
    }
}

// A block with its statements.
pub(crate) fn block_of_row(
    alloc: Global,
    word: BlockWord,
    number: u32,
    object: Option<ObjId>,
    row: Items<Flow>,
) -> Result<Flow, NoMemory>
    ensures { IfOk result (λ f. flow_tree f ≡ block_of_row word number object (flows_seen row)) }
{
    let body = joined(word, number, row)?;
    named_block(alloc, object, body)
}
