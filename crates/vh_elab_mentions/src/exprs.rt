ghost use Rattle.std.specs.Prelude.{◌≡◌, map, OnOk};
ghost use Rattle.std.specs.Option.{option_map};
ghost use Rattle.vh_ast.specs.Expressions;
ghost use Rattle.vh_ast.specs.Views.{conn_tree, expr_tree, index_by, link_tree, lv_part_tree};
ghost use Rattle.vh_ast.specs.Views.{lv_tree, name_tree, part_by, sel_tree, step_by};
ghost use Rattle.vh_elab_mentions.specs.Mentions;
ghost use Rattle.vh_elab_mentions.specs.Views.{ids_seen};

use sqlite_items::Boxed;
use vh_ast::{Conn, Expr, ExprForm, Id, Link, Lv, LvPart, Name, Part, Primary, Sel, Step};
use vh_base::NoMemory;

/// The names in an expression that stand alone or with a select, behind some others.
#[cycle(exprs)]
pub fn expr_ids<'a>(e: &'a Expr, ids: &mut Vec<&'a Id>) -> Result<(), NoMemory>
    ensures { OnOk result (ids_seen ids.new.items
        ≡ Mentions.expr_ids (expr_tree e.now) (ids_seen ids.old.items)) }
{
    match &e.form {
        ExprForm::Primary(primary) => match primary {
            Primary::Number(_) | Primary::Text(_) => Ok(()),
            Primary::Name(name, sel) => {
                name_ids(name.get(), ids)?;
                sel_ids(sel, ids)
            }
            Primary::Call(name, arguments) => {
                called_ids(name.get(), ids)?;
                all_ids(arguments.as_slice(), ids)
            }
            Primary::System(_, arguments) => all_ids(arguments.as_slice(), ids),
            Primary::Paren(inner) => expr_ids(inner.get(), ids),
            Primary::Concat(parts) => all_ids(parts.as_slice(), ids),
            Primary::Repeat(count, parts) => {
                expr_ids(count.get(), ids)?;
                all_ids(parts.as_slice(), ids)
            }
        },
        ExprForm::Unary(_, operand) => expr_ids(operand.get(), ids),
        ExprForm::Chain(first, links) => {
            expr_ids(first.get(), ids)?;
            links_ids(links.as_slice(), ids)
        }
        ExprForm::Choice { test, holds, fails } => {
            expr_ids(test.get(), ids)?;
            expr_ids(holds.get(), ids)?;
            expr_ids(fails.get(), ids)
        }
    }
}

// Those of expressions in a row.
#[cycle(exprs)]
fn all_ids<'a>(es: &'a [Expr], ids: &mut Vec<&'a Id>) -> Result<(), NoMemory>
    ensures { OnOk result (ids_seen ids.new.items ≡
        Mentions.exprs_ids (Expressions.exprs (map expr_tree es.now)) (ids_seen ids.old.items)) }
{
    for e in es {
        expr_ids(e, ids)?;
    }
    Ok(())
}

#[cycle(exprs)]
fn links_ids<'a>(links: &'a [Link<Expr>], ids: &mut Vec<&'a Id>) -> Result<(), NoMemory>
    ensures { OnOk result (ids_seen ids.new.items ≡
        Mentions.links_ids (Expressions.links (map link_tree links.now)) (ids_seen ids.old.items)) }
{
    for link in links {
        expr_ids(&link.operand, ids)?;
    }
    Ok(())
}

// A name that is no path.
fn own_id<'a>(name: &'a Name<Expr>, ids: &mut Vec<&'a Id>) -> Result<(), NoMemory>
    ensures { let index = index_by expr_tree name.now.first.index in
        let more = Expressions.steps (map (step_by expr_tree) name.now.more) in
        OnOk result (ids_seen ids.new.items
        ≡ Mentions.own_id index more name.now.first.id (ids_seen ids.old.items)) }
{
    if name.first.index.is_none() && name.more.is_empty() {
        ids.push(&name.first.id)?;
    }
    Ok(())
}

// A name that is no path counts, and what stands in the brackets of one that is.
#[cycle(exprs)]
fn name_ids<'a>(name: &'a Name<Expr>, ids: &mut Vec<&'a Id>) -> Result<(), NoMemory>
    ensures { OnOk result (ids_seen ids.new.items
        ≡ Mentions.name_ids (name_tree name.now) (ids_seen ids.old.items)) }
{
    own_id(name, ids)?;
    index_ids(&name.first.index, ids)?;
    steps_ids(name.more.as_slice(), ids)
}

#[cycle(exprs)]
fn called_ids<'a>(name: &'a Name<Expr>, ids: &mut Vec<&'a Id>) -> Result<(), NoMemory>
    ensures { OnOk result (ids_seen ids.new.items
        ≡ Mentions.called_ids (name_tree name.now) (ids_seen ids.old.items)) }
{
    index_ids(&name.first.index, ids)?;
    steps_ids(name.more.as_slice(), ids)
}

#[cycle(exprs)]
fn steps_ids<'a>(steps: &'a [Step<Expr>], ids: &mut Vec<&'a Id>) -> Result<(), NoMemory>
    ensures { let all = Expressions.steps (map (step_by expr_tree) steps.now) in
        OnOk result (ids_seen ids.new.items ≡ Mentions.steps_ids all (ids_seen ids.old.items)) }
{
    for step in steps {
        index_ids(&step.index, ids)?;
    }
    Ok(())
}

#[cycle(exprs)]
fn index_ids<'a>(index: &'a Option<Boxed<Expr>>, ids: &mut Vec<&'a Id>) -> Result<(), NoMemory>
    ensures { OnOk result (ids_seen ids.new.items ≡
        Mentions.index_ids (index_by expr_tree index.now) (ids_seen ids.old.items)) }
{
    match index {
        None => Ok(()),
        Some(e) => expr_ids(e.get(), ids),
    }
}

#[cycle(exprs)]
fn sel_ids<'a>(sel: &'a Option<Boxed<Sel<Expr>>>, ids: &mut Vec<&'a Id>) -> Result<(), NoMemory>
    ensures { OnOk result (ids_seen ids.new.items
        ≡ Mentions.sel_ids (sel_tree sel.now) (ids_seen ids.old.items)) }
{
    let Some(sel) = sel else {
        return Ok(());
    };
    match sel.get() {
        Sel::Index(_, e) => expr_ids(e.get(), ids),
        Sel::Both { index, last, .. } => {
            expr_ids(index.get(), ids)?;
            part_ids(&last.part, ids)
        }
        Sel::Part(last) => part_ids(&last.part, ids),
    }
}

#[cycle(exprs)]
fn part_ids<'a>(part: &'a Part<Expr>, ids: &mut Vec<&'a Id>) -> Result<(), NoMemory>
    ensures { OnOk result (ids_seen ids.new.items
        ≡ Mentions.part_ids (part_by expr_tree part.now) (ids_seen ids.old.items)) }
{
    match part {
        Part::Index(e) => expr_ids(e.get(), ids),
        Part::Range(left, right) => {
            expr_ids(left.get(), ids)?;
            expr_ids(right.get(), ids)
        }
        Part::Up(base, width) | Part::Down(base, width) => {
            expr_ids(base.get(), ids)?;
            expr_ids(width.get(), ids)
        }
    }
}

// Those of a part of a target.
fn piece_ids<'a>(piece: &'a LvPart, ids: &mut Vec<&'a Id>) -> Result<(), NoMemory>
    ensures { OnOk result (ids_seen ids.new.items
        ≡ Mentions.piece_ids (lv_part_tree piece.now) (ids_seen ids.old.items)) }
{
    match piece {
        LvPart::Open | LvPart::Close => Ok(()),
        LvPart::Name(name, sel) => {
            name_ids(name.get(), ids)?;
            sel_ids(sel, ids)
        }
    }
}

/// The names in a target.
pub fn target_ids<'a>(lv: &'a Lv, ids: &mut Vec<&'a Id>) -> Result<(), NoMemory>
    ensures { OnOk result (ids_seen ids.new.items
        ≡ Mentions.target_ids (lv_tree lv.now) (ids_seen ids.old.items)) }
{
    for piece in lv.parts.as_slice() {
        piece_ids(piece, ids)?;
    }
    Ok(())
}

/// The names in the terminals of a gate.
pub fn terminals_ids<'a>(terminals: &'a [Expr], ids: &mut Vec<&'a Id>) -> Result<(), NoMemory>
    ensures { OnOk result (ids_seen ids.new.items ≡
        Mentions.terminals_ids (map expr_tree terminals.now) (ids_seen ids.old.items)) }
{
    for terminal in terminals {
        expr_ids(terminal, ids)?;
    }
    Ok(())
}

fn written_ids<'a>(e: &'a Option<Expr>, ids: &mut Vec<&'a Id>) -> Result<(), NoMemory>
    ensures { OnOk result (ids_seen ids.new.items ≡
        Mentions.written_ids (option_map expr_tree e.now) (ids_seen ids.old.items)) }
{
    match e {
        None => Ok(()),
        Some(e) => expr_ids(e, ids),
    }
}

// Those of a connection.
fn conn_ids<'a>(conn: &'a Conn, ids: &mut Vec<&'a Id>) -> Result<(), NoMemory>
    ensures { OnOk result (ids_seen ids.new.items
        ≡ Mentions.conn_ids (conn_tree conn.now) (ids_seen ids.old.items)) }
{
    match conn {
        Conn::Ordered(e) => written_ids(e, ids),
        Conn::Named { expr, .. } => written_ids(expr, ids),
    }
}

/// The names in connections.
pub fn conns_ids<'a>(conns: &'a [Conn], ids: &mut Vec<&'a Id>) -> Result<(), NoMemory>
    ensures { OnOk result (ids_seen ids.new.items ≡
        Mentions.conns_ids (map conn_tree conns.now) (ids_seen ids.old.items)) }
{
    for conn in conns {
        conn_ids(conn, ids)?;
    }
    Ok(())
}
