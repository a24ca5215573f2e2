ghost use Rattle.std.specs.Prelude.{◌≡◌, map, OnOk};
ghost use Rattle.std.specs.Option.{option_map};
ghost use Rattle.vh_ast.specs.Views.{function_tree, local_tree, result_tree, stmt_tree, targ_tree, task_tree, type_tree};
ghost use Rattle.vh_elab_sites.specs.Sites;
ghost use Rattle.vh_elab_sites.specs.Sites.{each, targ_sites, local_sites, inner_sites, task_sites, function_sites};
ghost use Rattle.vh_elab_sites.specs.Views.{sites_seen, var_type_seen};

use crate::decls::add_decl;
use crate::site::{CodeWord, Declared, Listing, Thing, VarType, add_named};
use crate::stmts::add_stmt;
use vh_ast::{
    DataType, Function, Id, Local, ResultType, Stmt, Targ, Task, TaskDirection, Variable,
};
use vh_base::NoMemory;

fn argument_type<'a>(variable: Option<Variable>, data_type: &'a DataType) -> VarType<'a>
    ensures { var_type_seen result ≡ Sites.argument_type variable (type_tree data_type.now) }
{
    match variable {
        None | Some(Variable::Reg) => VarType::Typed(data_type, None),
        Some(Variable::Integer) => VarType::Integer,
        Some(Variable::Time) => VarType::Time,
    }
}

fn add_arguments<'a>(
    scope: u32,
    direction: TaskDirection,
    var_type: VarType<'a>,
    ids: &'a [Id],
    sites: &mut Listing<'a>,
) -> Result<(), NoMemory>
    ensures { OnOk result (sites_seen sites.new ≡
        each (Sites.argument_site scope direction (var_type_seen var_type.entry)) ids.now
        (sites_seen sites.old)) }
{
    for id in ids {
        add_named(
            scope,
            id,
            Declared::Typed(Thing::Argument(direction), var_type),
            sites,
        )?;
    }
    Ok(())
}

// The arguments that one word of direction declares.
fn add_targ<'a>(scope: u32, targ: &'a Targ, sites: &mut Listing<'a>) -> Result<(), NoMemory>
    ensures { OnOk result (sites_seen sites.new ≡
        targ_sites scope (targ_tree targ.now) (sites_seen sites.old)) }
{
    let var_type = argument_type(targ.variable, &targ.data_type);
    add_arguments(scope, targ.direction, var_type, targ.ids.as_slice(), sites)
}

fn add_targs<'a>(scope: u32, targs: &'a [Targ], sites: &mut Listing<'a>) -> Result<(), NoMemory>
    ensures { OnOk result (sites_seen sites.new ≡
        each (targ_sites scope) (map targ_tree targs.now) (sites_seen sites.old)) }
{
    for targ in targs {
        add_targ(scope, targ, sites)?;
    }
    Ok(())
}

fn add_local<'a>(scope: u32, local: &'a Local, sites: &mut Listing<'a>) -> Result<(), NoMemory>
    ensures { OnOk result (sites_seen sites.new ≡
        local_sites scope (local_tree local.now) (sites_seen sites.old)) }
{
    match local {
        Local::Targ(targ) => add_targ(scope, targ, sites),
        Local::Decl(decl) => add_decl(None, scope, decl, sites),
    }
}

fn add_locals<'a>(scope: u32, locals: &'a [Local], sites: &mut Listing<'a>) -> Result<(), NoMemory>
    ensures { OnOk result (sites_seen sites.new ≡
        each (local_sites scope) (map local_tree locals.now) (sites_seen sites.old)) }
{
    for local in locals {
        add_local(scope, local, sites)?;
    }
    Ok(())
}

// What a task or function declares.
fn add_inner<'a>(
    scope: u32,
    targs: &'a [Targ],
    locals: &'a [Local],
    body: &'a Stmt,
    sites: &mut Listing<'a>,
) -> Result<(), NoMemory>
    ensures { OnOk result (sites_seen sites.new ≡
        inner_sites scope (map targ_tree targs.now) (map local_tree locals.now) (stmt_tree body.now)
        (sites_seen sites.old)) }
{
    add_targs(scope, targs, sites)?;
    add_locals(scope, locals, sites)?;
    add_stmt(scope, body, sites)
}

// A task, with what it declares.
pub(crate) fn add_task<'a>(
    scope: u32,
    task: &'a Task,
    sites: &mut Listing<'a>,
) -> Result<(), NoMemory>
    ensures { OnOk result (sites_seen sites.new ≡
        task_sites scope (task_tree task.now) (sites_seen sites.old)) }
{
    let inside = sites.next;
    let code = Declared::Code(CodeWord::Task, &task.body);
    add_named(scope, &task.id, code, sites)?;
    add_inner(
        inside,
        task.targs.as_slice(),
        task.locals.as_slice(),
        &task.body,
        sites,
    )
}

fn result_type(written: &Option<ResultType>) -> VarType<'_>
    ensures { var_type_seen result ≡ Sites.result_type (option_map result_tree written.now) }
{
    match written {
        None => VarType::OneDigit,
        Some(ResultType::Integer) => VarType::Integer,
        Some(ResultType::Time) => VarType::Time,
        Some(ResultType::Data(data_type)) => VarType::Typed(data_type, None),
    }
}

// A function, with its result and what it declares.
pub(crate) fn add_function<'a>(
    scope: u32,
    function: &'a Function,
    sites: &mut Listing<'a>,
) -> Result<(), NoMemory>
    ensures { OnOk result (sites_seen sites.new ≡
        function_sites scope (function_tree function.now) (sites_seen sites.old)) }
{
    let inside = sites.next;
    let code = Declared::Code(CodeWord::Function, &function.body);
    add_named(scope, &function.id, code, sites)?;
    let var_type = result_type(&function.result_type);
    add_named(
        inside,
        &function.id,
        Declared::Typed(Thing::Result, var_type),
        sites,
    )?;
    add_inner(
        inside,
        function.targs.as_slice(),
        function.locals.as_slice(),
        &function.body,
        sites,
    )
}
