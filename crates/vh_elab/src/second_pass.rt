ghost use Rattle.std.specs.Prelude.{◌≡◌, true, OnOk};
ghost use Rattle.std.specs.Option.{option_map};
ghost use Rattle.vh_design_nodes.specs.Fits.{is_unit};
ghost use Rattle.vh_ast.specs.Views.{inst_tree, module_tree, stmt_tree};
ghost use Rattle.vh_bind.specs.declared.scope.Mode.TheVariants as mode;
ghost use Rattle.vh_bind.specs.Nodes.{IsSound};
ghost use Rattle.vh_bind_stmt.specs.Views.{surroundings_seen};
ghost use Rattle.vh_elab_modules.specs.Modules.{module_named};
ghost use Rattle.vh_elab_sites.specs.Views.{all_seen, declared_seen, site_seen};
ghost use Rattle.vh_elab_walk.specs.Views.{IsSource, source_seen};
ghost use Rattle.vh_elab.specs.Coded;
ghost use Rattle.vh_elab.specs.Elaborated;
ghost use Rattle.vh_elab.specs.Views.{Becomes, Codes, GoesOn, GoesTo, HasObjects, Stands, coding_seen, ready_seen};

use crate::coding::{Coder, Coding, Ready, code_assignment, code_body, code_construct, code_value};
use crate::connected::{code_ports, object_at};
use crate::counts::{MOST_COUNTED, count};
use crate::gates::code_gate;
use std::alloc::Global;
use vh_ast::{Id, Inst, Stmt};
use vh_base::{NoMemory, ObjId};
use vh_bind::Scope;
use vh_bind_scope::Top;
use vh_bind_stmt::Surroundings;
use vh_design::ExprNode;
use vh_elab_declare::{around, genvars_in};
use vh_elab_ports::Ports;
use vh_elab_sites::{CodeWord, Declared, Site, Thing};
use vh_elab_walk::Modules;
use vh_lower_flow::CodeKind;

// What the second pass reads: the modules, the instances, and the values of parameters as
// expressions.
#[derive(Clone, Copy)]
pub(crate) struct Pass<'a, 'b, 'r, 'p> {
    pub(crate) alloc: Global,
    pub(crate) modules: Modules<'a, 'b>,
    pub(crate) ready: Ready<'r>,
    pub(crate) parameters: &'p [ExprNode],
}

// The statement of a construct, a task or a function.
fn code_statement(coder: &mut Coder, word: CodeWord, stmt: &Stmt) -> Result<(), NoMemory>
    requires stands { Stands coder.old }
    requires same { HasObjects coder.old }
    ensures { Codes (λ r w c. Becomes (Coded.statement_coded r w word (stmt_tree stmt.now) c))
        coder.old result coder.new }
{
    match word {
        CodeWord::Initial => { code_construct(coder, CodeKind::Initial, stmt) }
        CodeWord::Always => code_construct(coder, CodeKind::Always, stmt),
        CodeWord::Task | CodeWord::Function => code_body(coder, stmt),
    }
}

// The module of a name.
fn module_named<'a, 'b>(modules: Modules<'a, 'b>, name: &[u8]) -> Option<&'b Ports<'a>>
    requires { IsSource modules }
    ensures { option_map (λ p. module_tree p.now) result
        ≡ module_named (source_seen modules.entry) name.now }
{
    let number = modules.names.position(name)?;
    modules.ports.get(number as usize)
}

// The ports of an instance, if its module and it are there.
fn code_instance(
    coder: &mut Coder,
    inst: &Inst,
    ports: Option<&Ports>,
    instance: Option<ObjId>,
) -> Result<(), NoMemory>
    requires stands { Stands coder.old }
    requires same { HasObjects coder.old }
    ensures { Codes
        (λ r w c. Becomes
        (Elaborated.instance_coded r w (inst_tree inst.now)
        (option_map (λ p. module_tree p.now) ports.entry) instance c))
        coder.old result coder.new }
{
    let Some(ports) = ports else {
        return Ok(());
    };
    let Some(instance) = instance else {
        return Ok(());
    };
    code_ports(coder, ports, instance.number(), inst)
}

// An instance.
fn code_child(
    coder: &mut Coder,
    modules: Modules,
    scope: u32,
    module: &Id,
    inst: &Inst,
) -> Result<(), NoMemory>
    requires source { IsSource modules }
    requires stands { Stands coder.old }
    requires same { HasObjects coder.old }
    ensures { Codes
        (λ r w c. Becomes
        (Elaborated.child_coded (source_seen modules.entry) r w scope module.now
        (inst_tree inst.now) c))
        coder.old result coder.new }
{
    let ports = module_named(modules, module.name.as_slice());
    let instance = object_at(coder.ready, scope, inst.id.name.as_slice());
    code_instance(coder, inst, ports, instance)
}

// A site, in its surroundings.
fn code_declared(
    coder: &mut Coder,
    modules: Modules,
    number: u32,
    scope: u32,
    declared: Declared,
) -> Result<(), NoMemory>
    requires source { IsSource modules }
    requires stands { Stands coder.old }
    requires same { HasObjects coder.old }
    ensures { Codes
        (λ r w c. Becomes
        (Elaborated.declared_coded (source_seen modules.entry) r w number scope
        (declared_seen declared.entry) c))
        coder.old result coder.new }
{
    match declared {
        Declared::Typed(Thing::Variable(Some(value)), _) => { code_value(coder, number, value) }
        Declared::Code(word, stmt) => code_statement(coder, word, stmt),
        Declared::Drives(delay, target, e) => { code_assignment(coder, delay, target, e) }
        Declared::Gate(word, delay, gate) => { code_gate(coder, word, delay, gate) }
        Declared::Child(module, _, inst) => { code_child(coder, modules, scope, module, inst) }
        Declared::Typed(_, _)
        | Declared::Words(_, _)
        | Declared::Event
        | Declared::Constant(_, _, _)
        | Declared::Block(_)
        | Declared::Wire
        | Declared::GenBlock(_, _)
        | Declared::Loop(_)
        | Declared::Genvar => Ok(()),
    }
}

// A site, whose statements stand in these surroundings.
fn code_under<'m>(
    pass: &Pass,
    around: &'m Surroundings,
    number: u32,
    scope: u32,
    declared: Declared,
    coding: &'m mut Coding,
) -> Result<(), NoMemory>
    requires source { IsSource pass.now.modules }
    requires values { IsSound mode.Value (surroundings_seen around.now).scope
        (ready_seen pass.now.ready).values }
    requires sound { IsSound mode.Value (surroundings_seen around.now).scope
        (coding_seen coding.old).added.exprs }
    requires unit { is_unit (surroundings_seen around.now).scope.precision
        (surroundings_seen around.now).scope.unit ≡ true }
    requires same { (surroundings_seen around.now).scope.objects
        ≡ (ready_seen pass.now.ready).objects }
    ensures coded { OnOk result (coding_seen coding.new
        ≡ Elaborated.declared_coded (source_seen pass.now.modules) (ready_seen pass.now.ready)
        (surroundings_seen around.now) number scope (declared_seen declared.entry)
        (coding_seen coding.old)) }
    ensures sound { OnOk result (IsSound mode.Value (surroundings_seen around.now).scope
        (coding_seen coding.new).added.exprs) }
{
    let mut coder = Coder {
        alloc: pass.alloc,
        ready: pass.ready,
        around,
        coding,
    };
    code_declared(&mut coder, pass.modules, number, scope, declared)
}

// Whether the second pass makes something of a site.
fn is_coded(declared: Declared) -> bool
    ensures { result ≡ Elaborated.is_coded (declared_seen declared.entry) }
{
    match declared {
        Declared::Typed(Thing::Variable(Some(_)), _)
        | Declared::Code(_, _)
        | Declared::Drives(_, _, _)
        | Declared::Gate(_, _, _)
        | Declared::Child(_, _, _) => true,
        Declared::Typed(_, _)
        | Declared::Words(_, _)
        | Declared::Event
        | Declared::Constant(_, _, _)
        | Declared::Block(_)
        | Declared::Wire
        | Declared::GenBlock(_, _)
        | Declared::Loop(_)
        | Declared::Genvar => false,
    }
}

// A task or function has its own scope.
fn scope_of(number: u32, scope: u32, declared: Declared) -> u32
    ensures { result ≡ Elaborated.scope_of number scope (declared_seen declared.entry) }
{
    match declared {
        Declared::Code(CodeWord::Task | CodeWord::Function, _) => number,
        _ => scope,
    }
}

// What a site is, in a scope.
fn code_in(
    pass: &Pass,
    unit: u8,
    inner: u32,
    number: u32,
    scope: u32,
    declared: Declared,
    coding: &mut Coding,
) -> Result<(), NoMemory>
    requires ready { GoesOn pass.now coding.old }
    requires unit { is_unit (ready_seen pass.now.ready).precision unit ≡ true }
    ensures { GoesTo
        (λ ms r c. Elaborated.declared_coded ms r (Coded.surroundings_at r unit inner) number scope
        (declared_seen declared.entry) c)
        pass.now coding.old result coding.new }
{
    let around = around(pass.alloc, pass.ready.objects, ObjId::new(inner))?;
    let genvars = genvars_in(pass.alloc, pass.ready.genvars, &around)?;
    let inside = Scope {
        names: pass.ready.names,
        around: &around,
        top: Top {
            id: ObjId::new(0),
            name: pass.ready.top_name,
        },
        genvars: &genvars,
        objects: pass.ready.objects,
        exprs: pass.parameters,
        routines: &pass.ready.routines.routines,
        unit,
        precision: pass.ready.precision,
    };
    let inside = Surroundings {
        scope: &inside,
        arguments: &pass.ready.routines.arguments,
    };
    code_under(pass, &inside, number, scope, declared, coding)
}

// A site, where it stands.
fn code_site(pass: &Pass, unit: u8, site: &Site, coding: &mut Coding) -> Result<(), NoMemory>
    requires ready { GoesOn pass.now coding.old }
    requires unit { is_unit (ready_seen pass.now.ready).precision unit ≡ true }
    ensures { GoesTo (λ ms r c. Elaborated.site_coded ms r unit (site_seen site.now) c)
        pass.now coding.old result coding.new }
{
    if !is_coded(site.declared) || coding.count > MOST_COUNTED {
        return Ok(());
    }
    let inner = scope_of(site.number, site.scope, site.declared);
    let stmts = coding.added.stmts.len();
    let exprs = coding.added.exprs.len();
    code_in(
        pass,
        unit,
        inner,
        site.number,
        site.scope,
        site.declared,
        coding,
    )?;
    count(site.place, stmts, exprs, coding)
}

// The sites of an instance.
pub(crate) fn code_sites(
    pass: &Pass,
    unit: u8,
    sites: &[Site],
    coding: &mut Coding,
) -> Result<(), NoMemory>
    requires ready { GoesOn pass.now coding.old }
    requires unit { is_unit (ready_seen pass.now.ready).precision unit ≡ true }
    ensures { GoesTo (λ ms r c. Elaborated.sites_coded ms r unit (all_seen sites.now) c)
        pass.now coding.old result coding.new }
{
    for site in sites {
        code_site(pass, unit, site, coding)?;
    }
    Ok(())
}
