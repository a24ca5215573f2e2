//! Trees that are made of their parts. A function that reads leaves to these what it holds, so that
//! little is held where it stops.

ghost use Rattle.std.specs.Prelude.{◌≡◌, ◌++◌, [], ◌∷◌, Option, option_map, map, MatchResult};
ghost use Rattle.vh_parse_grammar.specs.declared.stop.Stop.TheVariants.{Memory};
ghost use Rattle.vh_ast.specs.Statements as trees;
ghost use Rattle.vh_ast.specs.Views.{expr_tree, delay_tree, event_tree, lv_tree, set_tree, simple_tree, stmt_tree, citem_tree};
ghost use Rattle.vh_parse_syntax.specs.Statements as parts;
ghost use Rattle.vh_parse_expr.specs.Views.{exprs_seen, path_tree};
ghost use Rattle.vh_parse_stmt.specs.Views.{head_tree, naming_tree, values_tree, stmts_seen, citems_seen};
ghost use Rattle.vh_parse_stmt.specs.Pieces.{case_by, item_by};

use crate::head::{ForHead, Naming, Values};
use sqlite_items::{Boxed, Items};
use std::alloc::Global;
use vh_ast::{
    AssignWord, BlockWord, CaseWord, Citem, Delay, Event, Expr, ForceWord, LoopWord, Lv, Matched,
    Set, Simple, Stmt, StmtForm,
};
use vh_base::Place;
use vh_parse_expr::Path;
use vh_parse_grammar::Stop;

// A statement in which none stands.
pub(crate) fn simple(alloc: Global, place: Place, form: Simple) -> Result<Boxed<Stmt>, Stop>
    ensures { let made = parts.simple_at place (simple_tree form) in
        MatchResult result (λ s. stmt_tree s ≡ made) (λ stop. stop ≡ Memory) }
{
    let form = StmtForm::Simple(form);
    Ok(Boxed::new(alloc, Stmt { place, form })?)
}

// An assignment.
pub(crate) fn assign(
    alloc: Global,
    target: Lv,
    word: AssignWord,
    delay: Option<Boxed<Delay>>,
    value: Expr,
) -> Result<Boxed<Stmt>, Stop>
    ensures { let made = parts.assign_stmt (lv_tree target) word
        (option_map delay_tree delay, expr_tree value) in
        MatchResult result (λ s. stmt_tree s ≡ made) (λ stop. stop ≡ Memory) }
{
    let place = target.place;
    let form = Simple::Assign {
        target,
        word,
        delay,
        value: Boxed::new(alloc, value)?,
    };
    simple(alloc, place, form)
}

// A `force` or an `assign`.
pub(crate) fn force(
    alloc: Global,
    place: Place,
    word: ForceWord,
    set: Set,
) -> Result<Boxed<Stmt>, Stop>
    ensures { let made = parts.simple_at place (trees.force word (set_tree set)) in
        MatchResult result (λ s. stmt_tree s ≡ made) (λ stop. stop ≡ Memory) }
{
    let set = Boxed::new(alloc, set)?;
    simple(alloc, place, Simple::Force(word, set))
}

// A call of a task.
pub(crate) fn task_call(
    alloc: Global,
    path: Path,
    arguments: Option<Items<Expr>>,
) -> Result<Boxed<Stmt>, Stop>
    ensures { let made = parts.task_of (path_tree path) (option_map exprs_seen arguments) in
        MatchResult result (λ s. stmt_tree s ≡ made) (λ stop. stop ≡ Memory) }
{
    let name = path.into_name(alloc)?;
    let place = name.first.id.place;
    let all = match arguments {
        Some(all) => all,
        None => Items::new(alloc),
    };
    simple(alloc, place, Simple::Call(Boxed::new(alloc, name)?, all))
}

// A statement behind a delay.
pub(crate) fn delayed(
    alloc: Global,
    delay: Boxed<Delay>,
    body: Boxed<Stmt>,
) -> Result<Boxed<Stmt>, Stop>
    ensures { let made = parts.delayed (delay_tree delay) (stmt_tree body) in
        MatchResult result (λ s. stmt_tree s ≡ made) (λ stop. stop ≡ Memory) }
{
    let place = delay.get().place;
    let form = StmtForm::Delay(delay, body);
    Ok(Boxed::new(alloc, Stmt { place, form })?)
}

// A statement behind an event.
pub(crate) fn awaited(
    alloc: Global,
    place: Place,
    event: Boxed<Event>,
    body: Boxed<Stmt>,
) -> Result<Boxed<Stmt>, Stop>
    ensures { let made = parts.awaited place (event_tree event, stmt_tree body) in
        MatchResult result (λ s. stmt_tree s ≡ made) (λ stop. stop ≡ Memory) }
{
    let form = StmtForm::Event(event, body);
    Ok(Boxed::new(alloc, Stmt { place, form })?)
}

// A statement behind a `wait`.
pub(crate) fn waited(
    alloc: Global,
    place: Place,
    test: Boxed<Expr>,
    body: Boxed<Stmt>,
) -> Result<Boxed<Stmt>, Stop>
    ensures { let made = parts.waited place (expr_tree test, stmt_tree body) in
        MatchResult result (λ s. stmt_tree s ≡ made) (λ stop. stop ≡ Memory) }
{
    let form = StmtForm::Wait(test, body);
    Ok(Boxed::new(alloc, Stmt { place, form })?)
}

// One statement or another by a test.
pub(crate) fn chosen(
    alloc: Global,
    place: Place,
    test: Boxed<Expr>,
    holds: Boxed<Stmt>,
    fails: Option<Boxed<Stmt>>,
) -> Result<Boxed<Stmt>, Stop>
    ensures { let made = parts.if_of place
        (expr_tree test, (stmt_tree holds, option_map stmt_tree fails)) in
        MatchResult result (λ s. stmt_tree s ≡ made) (λ stop. stop ≡ Memory) }
{
    let form = match fails {
        Some(other) => StmtForm::If {
            test,
            holds,
            fails: Some(other),
        },
        None => StmtForm::If {
            test,
            holds,
            fails: None,
        },
    };
    Ok(Boxed::new(alloc, Stmt { place, form })?)
}

// The statement of a case for all other values.
pub(crate) fn default_item(
    alloc: Global,
    place: Place,
    body: Boxed<Stmt>,
) -> Result<Boxed<Citem<Stmt>>, Stop>
    ensures { let made = parts.default_of place (stmt_tree body) in
        MatchResult result (λ c. citem_tree c ≡ made) (λ stop. stop ≡ Memory) }
{
    let matched = Matched::Default;
    let body = body.into_inner();
    Ok(Boxed::new(
        alloc,
        Citem {
            place,
            matched,
            body,
        },
    )?)
}

// A statement of a case for these values.
pub(crate) fn values_item(
    alloc: Global,
    values: Boxed<Values>,
    body: Boxed<Stmt>,
) -> Result<Boxed<Citem<Stmt>>, Stop>
    ensures { let made = item_by (values_tree values) (stmt_tree body) in
        MatchResult result (λ c. citem_tree c ≡ made) (λ stop. stop ≡ Memory) }
{
    let Values { place, all } = values.into_inner();
    let matched = Matched::Values(all);
    let body = body.into_inner();
    Ok(Boxed::new(
        alloc,
        Citem {
            place,
            matched,
            body,
        },
    )?)
}

// The statements of a case, with one more.
pub(crate) fn with_item(all: &mut Items<Citem<Stmt>>, item: Boxed<Citem<Stmt>>) -> Result<(), Stop>
    ensures { MatchResult result (λ u. all.new ≡ all.old ++ item ∷ []) (λ stop. stop ≡ Memory) }
{
    all.push(item.into_inner())?;
    Ok(())
}

// A case.
pub(crate) fn case(
    alloc: Global,
    place: Place,
    word: CaseWord,
    value: Boxed<Expr>,
    all: Items<Citem<Stmt>>,
) -> Result<Boxed<Stmt>, Stop>
    ensures { let made = case_by (place, word) (expr_tree value, citems_seen all) in
        MatchResult result (λ s. stmt_tree s ≡ made) (λ stop. stop ≡ Memory) }
{
    let stmt = Stmt::case(place, word, value, all);
    Ok(Boxed::new(alloc, stmt)?)
}

// A `for`.
pub(crate) fn for_loop(
    alloc: Global,
    place: Place,
    head: Boxed<ForHead>,
    body: Boxed<Stmt>,
) -> Result<Boxed<Stmt>, Stop>
    ensures { let made = parts.for_of place (head_tree head, stmt_tree body) in
        MatchResult result (λ s. stmt_tree s ≡ made) (λ stop. stop ≡ Memory) }
{
    let ForHead { start, test, step } = head.into_inner();
    let form = StmtForm::For {
        start,
        test,
        step,
        body,
    };
    Ok(Boxed::new(alloc, Stmt { place, form })?)
}

// A `while` or a `repeat`.
pub(crate) fn looped(
    alloc: Global,
    place: Place,
    word: LoopWord,
    test: Boxed<Expr>,
    body: Boxed<Stmt>,
) -> Result<Boxed<Stmt>, Stop>
    ensures { let made = parts.loop_of (place, word) (expr_tree test, stmt_tree body) in
        MatchResult result (λ s. stmt_tree s ≡ made) (λ stop. stop ≡ Memory) }
{
    let form = StmtForm::Loop { word, test, body };
    Ok(Boxed::new(alloc, Stmt { place, form })?)
}

// A `forever`.
pub(crate) fn forever(alloc: Global, place: Place, body: Boxed<Stmt>) -> Result<Boxed<Stmt>, Stop>
    ensures { let made = parts.forever_of place (stmt_tree body) in
        MatchResult result (λ s. stmt_tree s ≡ made) (λ stop. stop ≡ Memory) }
{
    let form = StmtForm::Forever(body);
    Ok(Boxed::new(alloc, Stmt { place, form })?)
}

// The statements of a block, with one more.
pub(crate) fn with_stmt(all: &mut Items<Stmt>, stmt: Boxed<Stmt>) -> Result<(), Stop>
    ensures { MatchResult result (λ u. all.new ≡ all.old ++ stmt ∷ []) (λ stop. stop ≡ Memory) }
{
    all.push(stmt.into_inner())?;
    Ok(())
}

// A block.
pub(crate) fn block(
    alloc: Global,
    word: BlockWord,
    place: Place,
    naming: Option<Boxed<Naming>>,
    all: Items<Stmt>,
) -> Result<Boxed<Stmt>, Stop>
    ensures { let made = parts.block_of word place (option_map naming_tree naming, stmts_seen all) in
        MatchResult result (λ s. stmt_tree s ≡ made) (λ stop. stop ≡ Memory) }
{
    let (id, decls) = match naming {
        Some(naming) => {
            let Naming { id, decls } = naming.into_inner();
            (Some(id), decls)
        }
        None => (None, Items::new(alloc)),
    };
    let form = StmtForm::Block {
        word,
        id,
        decls,
        stmts: all,
    };
    Ok(Boxed::new(alloc, Stmt { place, form })?)
}
