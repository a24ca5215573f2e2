ghost use Rattle.std.specs.Prelude.{◌≡◌, ◌++◌, [], IfOk, OnOk};
ghost use Rattle.std.specs.Option.{option_copied};
ghost use Rattle.vh_elab_sites.specs.Views.{all_seen, declared_seen};
ghost use Rattle.vh_elab_declare.specs.Constants.{genvar_of, genvars_in, with_genvar, written};
ghost use Rattle.vh_elab_declare.specs.FirstPass.{block_kept, genvar_value, site_kept};
ghost use Rattle.vh_elab_declare.specs.Objects.{each};

use indexmap::IndexMap;
use std::alloc::Global;
use std::marker::Model;
use vh_base::{NoMemory, ObjId};
use vh_bind::Genvar;
use vh_design_nodes::Name;
use vh_elab_sites::{Declared, Site};
use vh_logic::{Plane, Vec4};

/// The genvars of generate blocks, by the blocks' objects. A look-up takes constant time in their
/// number.
#[derive(Drop)]
pub struct Genvars {
    blocks: IndexMap<u32, Genvar>,
}

impl Model for Genvars {
    ghost use Rattle.vh_elab_declare.specs.Constants.{Genvars};

    ghost Value = { Genvars };

    ghost view = { λ g. g.blocks.entries };
}

impl Genvars {
    /// None.
    pub fn new(alloc: Global) -> Genvars
        ensures { result ≡ [] }
    {
        Genvars {
            blocks: IndexMap::new(alloc),
        }
    }

    /// A block has this one.
    pub fn keep(&mut self, block: u32, genvar: Genvar) -> Result<(), NoMemory>
        ensures { OnOk result (self.new ≡ with_genvar block genvar self.old) }
    {
        self.blocks.insert(block, genvar)?;
        Ok(())
    }

    /// That of a block.
    pub fn of(&self, block: ObjId) -> Option<&Genvar>
        ensures { option_copied result ≡ genvar_of self.now block }
    {
        self.blocks.get(&block.number())
    }
}

// The value of a genvar: 32 digits, signed.
fn genvar_value(value: i32) -> Vec4
    ensures { result ≡ genvar_value value }
{
    let number: Plane = i64::from(value).rem_euclid(0x1_0000_0000).unsigned_abs();
    Vec4::from_planes(32, number, 0, true)
}

// The genvar of a generate block.
fn keep_block(
    alloc: Global,
    number: u32,
    declared: Declared,
    genvars: &mut Genvars,
) -> Result<(), NoMemory>
    ensures { OnOk result
        (genvars.new ≡ block_kept number (declared_seen declared.entry) genvars.old) }
{
    match declared {
        Declared::GenBlock(_, Some(genvar)) => {
            let name = Name::from_slice(alloc, genvar.name)?;
            genvars.keep(
                number,
                Genvar {
                    scope: ObjId::new(genvar.scope),
                    name,
                    value: genvar_value(genvar.value),
                },
            )
        }
        _ => Ok(()),
    }
}

// The genvars of blocks that are sites.
pub(crate) fn keep_genvars(
    alloc: Global,
    sites: &[Site],
    genvars: &mut Genvars,
) -> Result<(), NoMemory>
    ensures { OnOk result (genvars.new ≡ each site_kept (all_seen sites.now) genvars.old) }
{
    for site in sites {
        keep_block(alloc, site.number, site.declared, genvars)?;
    }
    Ok(())
}

// The genvar of a scope behind some.
fn add_genvar(
    alloc: Global,
    genvars: &Genvars,
    scope: ObjId,
    all: &mut Vec<Genvar>,
) -> Result<(), NoMemory>
    ensures { OnOk result (all.new.items ≡ all.old.items ++ written (genvar_of genvars.now scope)) }
{
    if let Some(genvar) = genvars.of(scope) {
        all.push(Genvar {
            scope: genvar.scope,
            name: Name::from_slice(alloc, genvar.name.as_slice())?,
            value: genvar.value,
        })?;
    }
    Ok(())
}

/// The genvars that have a value in these scopes, from the inside out.
pub fn genvars_in(
    alloc: Global,
    genvars: &Genvars,
    around: &[ObjId],
) -> Result<Vec<Genvar>, NoMemory>
    ensures { IfOk result (λ v. v.items ≡ genvars_in genvars.now around.now) }
{
    let mut all = Vec::new(alloc);
    for scope in around {
        add_genvar(alloc, genvars, *scope, &mut all)?;
    }
    Ok(all)
}
