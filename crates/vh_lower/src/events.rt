ghost use Rattle.vh_ast.specs.Views.{event_tree};
ghost use Rattle.vh_bind.specs.Steps.{Gives};
ghost use Rattle.vh_bind.specs.Views.{scope_seen};
ghost use Rattle.vh_bind.specs.Scopes.{here};
ghost use Rattle.vh_lower.specs.Making.{Makes};
ghost use Rattle.vh_lower.specs.Statements.{listed_terms, waited_terms, event_timing};
ghost use Rattle.vh_lower.specs.Views.{Stands, Adds, Finds};

use crate::added::Maker;
use crate::fault::{LowerFault, Lowered};
use crate::heads::Timing;
use crate::making::{numbered, with_wait};
use crate::simple::one_pause;
use std::alloc::Global;
use vh_ast::Event;
use vh_base::{Place, Sequence};
use vh_bind::{ElabFault, Scope};
use vh_bind_scope::Top;
use vh_bind_stmt::{all_terms, name_terms};
use vh_design_code::{Pause, StmtKind, Terms};
use vh_design_nodes::ExprNode;

// What an event control other than `@*` waits for.
fn listed_terms(
    alloc: Global,
    scope: &Scope,
    nodes: &[ExprNode],
    event: &Event,
) -> Result<Option<Terms>, ElabFault>
    ensures { Gives (listed_terms (here (scope_seen scope.now) nodes.now) (event_tree event.now))
        result }
{
    let here = Scope {
        names: scope.names,
        around: scope.around,
        top: Top {
            id: scope.top.id,
            name: scope.top.name,
        },
        genvars: scope.genvars,
        objects: scope.objects,
        exprs: nodes,
        routines: scope.routines,
        unit: scope.unit,
        precision: scope.precision,
    };
    match event {
        Event::Any => Ok(Some(Sequence::new(Vec::new(alloc)))),
        Event::Name(name) => name_terms(alloc, &here, name.first.id.place, None, name, &None),
        Event::List(evs) => all_terms(alloc, &here, evs.as_slice()),
    }
}

// They, where they aren't passed over.
fn waited_terms(maker: &Maker, event: &Event) -> Lowered<Terms>
    ensures { Finds (λ s a. Makes (waited_terms s (event_tree event.now) a)) maker.now result }
{
    match listed_terms(maker.alloc, maker.around.scope, &maker.added.exprs, event)? {
        None => Err(LowerFault::PassedOver),
        Some(terms) => Ok(terms),
    }
}

// An event control before a statement.
pub(crate) fn event_timing(maker: &mut Maker, place: Place, event: &Event) -> Lowered<Timing>
    requires stands { Stands maker.old }
    ensures { Adds (λ s a. Makes (event_timing s place (event_tree event.now) a))
        maker.old result maker.new }
{
    let number = numbered(maker, StmtKind::EventControl, place)?;
    let terms = waited_terms(maker, event)?;
    let wait = with_wait(maker.added, terms)?;
    let instructions = one_pause(maker.alloc, Pause::Await(wait))?;
    Ok(Timing {
        number,
        instructions,
    })
}
