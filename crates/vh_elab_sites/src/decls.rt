ghost use Rattle.std.specs.Prelude.{◌≡◌, map, None, OnOk};
ghost use Rattle.vh_ast.specs.Views.{decl_tree, type_tree, var_part_tree, var_tree, init_tree};
ghost use Rattle.vh_elab_sites.specs.Sites;
ghost use Rattle.vh_elab_sites.specs.Sites.{each, type_at, var_declared, var_site, init_site, decl_sites, decls_sites};
ghost use Rattle.vh_elab_sites.specs.Views.{declared_seen, home_seen, sites_seen, var_type_seen};

use crate::site::{Declared, Listing, Thing, VarType, add_named};
use vh_ast::{DataType, Decl, Init, Var, VarPart, held};
use vh_base::NoMemory;
use vh_elab_ports::Ports;

// The type of a declaration in a scope: in a module's own it may be that of a port too.
pub(crate) fn type_at<'a>(
    home: Option<&Ports<'a>>,
    name: &[u8],
    data_type: &'a DataType,
) -> VarType<'a>
    ensures { var_type_seen result
        ≡ type_at (home_seen home.entry) name.now (type_tree data_type.now) }
{
    let Some(ports) = home else {
        return VarType::Typed(data_type, None);
    };
    match ports.open_type(name) {
        None => VarType::Typed(data_type, None),
        Some(port) => VarType::Typed(data_type, Some(port)),
    }
}

// What a register or memory is, of this type.
fn var_declared<'a>(
    var_type: VarType<'a>,
    data_type: &'a DataType,
    part: &'a VarPart,
) -> Declared<'a>
    ensures own { Sites.generated_name (declared_seen result) ≡ None }
    ensures value { declared_seen result
        ≡ var_declared (var_type_seen var_type.entry) (type_tree data_type.now)
        (var_part_tree part.now) }
{
    match part {
        VarPart::Plain => Declared::Typed(Thing::Variable(None), var_type),
        VarPart::Range(range) => Declared::Words(data_type, range.get()),
        VarPart::Value(value) => Declared::Typed(Thing::Variable(Some(value.get())), var_type),
    }
}

// A register or memory.
fn add_var<'a>(
    home: Option<&Ports<'a>>,
    scope: u32,
    data_type: &'a DataType,
    var: &'a Var,
    sites: &mut Listing<'a>,
) -> Result<(), NoMemory>
    ensures { OnOk result (sites_seen sites.new ≡
        var_site (home_seen home.entry) scope (type_tree data_type.now) (var_tree var.now)
        (sites_seen sites.old)) }
{
    let var_type = type_at(home, var.id.name.as_slice(), data_type);
    let declared = var_declared(var_type, data_type, &var.part);
    add_named(scope, &var.id, declared, sites)
}

fn add_vars<'a>(
    home: Option<&Ports<'a>>,
    scope: u32,
    data_type: &'a DataType,
    vars: &'a [Var],
    sites: &mut Listing<'a>,
) -> Result<(), NoMemory>
    ensures { OnOk result (sites_seen sites.new ≡
        each (var_site (home_seen home.entry) scope (type_tree data_type.now))
        (map var_tree vars.now) (sites_seen sites.old)) }
{
    for var in vars {
        add_var(home, scope, data_type, var, sites)?;
    }
    Ok(())
}

// Integer or time variables.
fn add_inits<'a>(
    scope: u32,
    var_type: VarType<'a>,
    inits: &'a [Init],
    sites: &mut Listing<'a>,
) -> Result<(), NoMemory>
    ensures { OnOk result (sites_seen sites.new ≡
        each (init_site scope (var_type_seen var_type.entry)) (map init_tree inits.now)
        (sites_seen sites.old)) }
{
    for init in inits {
        let declared = Declared::Typed(Thing::Variable(held(&init.value)), var_type);
        add_named(scope, &init.id, declared, sites)?;
    }
    Ok(())
}

// A declaration of variables.
pub(crate) fn add_decl<'a>(
    home: Option<&Ports<'a>>,
    scope: u32,
    decl: &'a Decl,
    sites: &mut Listing<'a>,
) -> Result<(), NoMemory>
    ensures { OnOk result (sites_seen sites.new ≡
        decl_sites (home_seen home.entry) scope (decl_tree decl.now) (sites_seen sites.old)) }
{
    match decl {
        Decl::Reg {
            data_type,
            vars,
            ..
        } => add_vars(home, scope, data_type, vars.as_slice(), sites),
        Decl::Integer(_, inits) => add_inits(scope, VarType::Integer, inits.as_slice(), sites),
        Decl::Time(_, inits) => add_inits(scope, VarType::Time, inits.as_slice(), sites),
    }
}

// Declarations in a row.
pub(crate) fn add_decls<'a>(
    scope: u32,
    decls: &'a [Decl],
    sites: &mut Listing<'a>,
) -> Result<(), NoMemory>
    ensures { OnOk result (sites_seen sites.new ≡
        decls_sites scope (map decl_tree decls.now) (sites_seen sites.old)) }
{
    for decl in decls {
        add_decl(None, scope, decl, sites)?;
    }
    Ok(())
}
