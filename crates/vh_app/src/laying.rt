ghost use Rattle.std.specs.Prelude.{◌≡◌, ◌++◌, ◌∷◌, [], length, map, IfOk, OnOk};
ghost use Rattle.vh_app.specs.Layout as spec;
ghost use Rattle.vh_app.specs.Layout.{asked, choice_laid, script_laid, startup_laid, turn_laid, with_command, with_commands, with_procedure, with_procedures};
ghost use Rattle.vh_app.specs.Views.{laid_seen};
ghost use Rattle.vh_app_script.specs.Tree.{commands};
ghost use Rattle.vh_app_script.specs.Views.{app_seen, command_tree, order_seen, procedure_seen, test_seen};

use crate::form::{Node, Procedure};
use crate::forms::{atom, atom_if, form, name, test};
use crate::script::Script;
use crate::sizes::{plus, sizes_of};
use std::alloc::Global;
use vh_app_script as tree;
use vh_app_script::{App, Command};
use vh_base::NoMemory;

// The steps so far, and the procedures with their starts.
#[derive(Drop)]
pub(crate) struct Laying {
    pub procedures: Vec<Procedure>,
    pub nodes: Vec<Node>,
}

// A step more.
fn add(nodes: &mut Vec<Node>, node: Node) -> Result<(), NoMemory>
    ensures { OnOk result (nodes.new.items ≡ nodes.old.items ++ node ∷ []) }
{
    nodes.push(node)?;
    Ok(())
}

// The test of an `if`.
fn add_choice(
    alloc: Global,
    nodes: &mut Vec<Node>,
    what: tree::Test<'_>,
    holds: usize,
) -> Result<(), NoMemory>
    ensures { OnOk result (nodes.new.items ≡ nodes.old.items
        ++ choice_laid (test_seen what.entry) (length nodes.old.items) holds ∷ []) }
{
    let over = plus(holds, 2)?;
    let fails = plus(nodes.len(), over)?;
    add(
        nodes,
        Node::Choose {
            test: test(alloc, what)?,
            fails,
        },
    )
}

// The test of a `while` that begins there.
fn add_turn(
    alloc: Global,
    nodes: &mut Vec<Node>,
    what: tree::Test<'_>,
    at: usize,
    size: usize,
) -> Result<(), NoMemory>
    ensures { OnOk result (nodes.new.items ≡ nodes.old.items
        ++ turn_laid (test_seen what.entry) at size ∷ []) }
{
    let holds = plus(at, 1)?;
    let over = plus(size, 2)?;
    let fails = plus(at, over)?;
    add(
        nodes,
        Node::Turn {
            test: test(alloc, what)?,
            holds,
            fails,
        },
    )
}

// The steps of a command.
#[cycle(lay)]
fn lay(alloc: Global, nodes: &mut Vec<Node>, command: &Command<'_>) -> Result<(), NoMemory>
    ensures { OnOk result
        (nodes.new.items ≡ with_command (command_tree command.now) nodes.old.items) }
{
    match command {
        Command::Ask(target, order) => add(
            nodes,
            Node::Ask {
                target: *target,
                form: form(alloc, order.get())?,
            },
        ),
        Command::Set(target, value, added) => add(
            nodes,
            Node::Set {
                target: *target,
                value: atom(alloc, *value)?,
                added: atom_if(alloc, *added)?,
            },
        ),
        Command::Return => add(nodes, Node::Return),
        Command::If { test, holds, fails } => {
            let at = nodes.len();
            let first = sizes_of(holds.as_slice())?;
            let second = sizes_of(fails.as_slice())?;
            add_choice(alloc, nodes, *test, first)?;
            lay_all(alloc, nodes, holds.as_slice())?;
            let both = plus(plus(at, first)?, second)?;
            add(nodes, Node::Go(plus(both, 2)?))?;
            lay_all(alloc, nodes, fails.as_slice())
        }
        Command::While { test, body } => {
            let at = nodes.len();
            let size = sizes_of(body.as_slice())?;
            add_turn(alloc, nodes, *test, at, size)?;
            lay_all(alloc, nodes, body.as_slice())?;
            add_turn(alloc, nodes, *test, at, size)
        }
    }
}

// Those of commands in a row.
#[cycle(lay)]
fn lay_all(alloc: Global, nodes: &mut Vec<Node>, all: &[Command<'_>]) -> Result<(), NoMemory>
    ensures { OnOk result (nodes.new.items
        ≡ with_commands (commands (map command_tree all.now)) nodes.old.items) }
{
    for command in all {
        lay(alloc, nodes, command)?;
    }
    Ok(())
}

// The startup.
fn lay_startup(alloc: Global, orders: &[tree::Order<'_>]) -> Result<Laying, NoMemory>
    ensures { IfOk result (λ so. laid_seen so ≡ startup_laid (map order_seen orders.now)) }
{
    let mut nodes = Vec::new(alloc);
    for order in orders {
        let node = Node::Ask {
            target: None,
            form: form(alloc, order)?,
        };
        add(&mut nodes, node)?;
    }
    add(&mut nodes, Node::Return)?;
    Ok(Laying {
        procedures: Vec::new(alloc),
        nodes,
    })
}

// A procedure behind the steps that are there.
fn add_procedure(
    alloc: Global,
    so: &mut Laying,
    procedure: &tree::Procedure<'_>,
) -> Result<(), NoMemory>
    ensures { OnOk result (laid_seen so.new
        ≡ with_procedure (laid_seen so.old) (procedure_seen procedure.now)) }
{
    let start = so.nodes.len();
    so.procedures.push(Procedure {
        name: name(alloc, procedure.name)?,
        start,
    })?;
    lay_all(alloc, &mut so.nodes, procedure.commands.as_slice())?;
    add(&mut so.nodes, Node::Return)
}

// All procedures.
fn add_procedures(
    alloc: Global,
    so: &mut Laying,
    procedures: &[tree::Procedure<'_>],
) -> Result<(), NoMemory>
    ensures { OnOk result (laid_seen so.new
        ≡ with_procedures (laid_seen so.old) (map procedure_seen procedures.now)) }
{
    for procedure in procedures {
        add_procedure(alloc, so, procedure)?;
    }
    Ok(())
}

// The script of a tree. It goes over the tree once, and once more for each block around a
// command.
pub(crate) fn script_of(alloc: Global, app: &App<'_>) -> Result<Script, NoMemory>
    ensures { IfOk result (λ s. s ≡ script_laid (app_seen app.now)) }
{
    let mut so = lay_startup(alloc, app.startup.as_slice())?;
    add_procedures(alloc, &mut so, app.procedures.as_slice())?;
    let name = name(alloc, app.name)?;
    let variables = app.variables.as_slice().len();
    let Laying { procedures, nodes } = so;
    Script::new(alloc, name, variables, procedures, nodes)
}
