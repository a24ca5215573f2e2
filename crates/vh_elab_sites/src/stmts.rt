ghost use Rattle.std.specs.Prelude.{◌≡◌, map, OnOk};
ghost use Rattle.vh_ast.specs.Statements;
ghost use Rattle.vh_ast.specs.Views.{citem_tree, decl_tree, stmt_tree};
ghost use Rattle.vh_elab_sites.specs.Sites.{block_sites, stmt_sites, stmts_sites, citems_sites};
ghost use Rattle.vh_elab_sites.specs.Views.{sites_seen};

use crate::decls::add_decls;
use crate::site::{Declared, Listing, add_named};
use vh_ast::{BlockWord, Citem, Decl, Id, Stmt, StmtForm};
use vh_base::NoMemory;

// A named block, and what it declares.
fn add_block<'a>(
    scope: u32,
    word: BlockWord,
    id: &'a Id,
    decls: &'a [Decl],
    sites: &mut Listing<'a>,
) -> Result<(), NoMemory>
    ensures { OnOk result (sites_seen sites.new ≡
        block_sites scope word id.now (map decl_tree decls.now) (sites_seen sites.old)) }
{
    let number = sites.next;
    add_named(scope, id, Declared::Block(word), sites)?;
    add_decls(number, decls, sites)
}

// The named blocks in a statement, with what they declare.
#[cycle(stmts)]
pub(crate) fn add_stmt<'a>(
    scope: u32,
    stmt: &'a Stmt,
    sites: &mut Listing<'a>,
) -> Result<(), NoMemory>
    ensures { OnOk result (sites_seen sites.new ≡
        stmt_sites scope (stmt_tree stmt.now) (sites_seen sites.old)) }
{
    match &stmt.form {
        StmtForm::Simple(_) => Ok(()),
        StmtForm::Delay(_, body)
        | StmtForm::Event(_, body)
        | StmtForm::Wait(_, body)
        | StmtForm::Forever(body) => add_stmt(scope, body.get(), sites),
        StmtForm::If { holds, fails, .. } => {
            add_stmt(scope, holds.get(), sites)?;
            match fails {
                None => Ok(()),
                Some(fails) => add_stmt(scope, fails.get(), sites),
            }
        }
        StmtForm::Case { citems, .. } => add_citems(scope, citems.as_slice(), sites),
        StmtForm::For { body, .. } => add_stmt(scope, body.get(), sites),
        StmtForm::Loop { body, .. } => add_stmt(scope, body.get(), sites),
        StmtForm::Block {
            word,
            id,
            decls,
            stmts,
        } => match id {
            None => add_stmts(scope, stmts.as_slice(), sites),
            Some(id) => {
                let inside = sites.next;
                add_block(scope, *word, id, decls.as_slice(), sites)?;
                add_stmts(inside, stmts.as_slice(), sites)
            }
        },
    }
}

// Those of statements in a row.
#[cycle(stmts)]
fn add_stmts<'a>(scope: u32, stmts: &'a [Stmt], sites: &mut Listing<'a>) -> Result<(), NoMemory>
    ensures { OnOk result (sites_seen sites.new ≡
        stmts_sites scope (Statements.stmts (map stmt_tree stmts.now)) (sites_seen sites.old)) }
{
    for stmt in stmts {
        add_stmt(scope, stmt, sites)?;
    }
    Ok(())
}

// Those of the statements of a `case`.
#[cycle(stmts)]
fn add_citems<'a>(
    scope: u32,
    citems: &'a [Citem<Stmt>],
    sites: &mut Listing<'a>,
) -> Result<(), NoMemory>
    ensures { OnOk result (sites_seen sites.new ≡
        citems_sites scope (Statements.citems (map citem_tree citems.now)) (sites_seen sites.old)) }
{
    for citem in citems {
        add_stmt(scope, &citem.body, sites)?;
    }
    Ok(())
}
