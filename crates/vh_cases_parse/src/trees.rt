//! Trees that are built, read and dropped.

ghost use Rattle.std.specs.Prelude.{◌≡◌};
ghost use Rattle.vh_ast.specs.Statements as S;
ghost use Rattle.vh_ast.specs.Items as I;
ghost use Rattle.vh_ast.specs.Views.{expr_tree, stmt_tree, else_tree, item_tree, gblock_tree, assigned_tree};

use sqlite_items::{Boxed, Items};
use std::alloc::Global;
use std::test::Fail;
use vh_ast::{
    Assigned, Binary, CaseWord, Citem, Expr, ExprForm, Gblock, Id, Item, ItemForm, Link, Lv,
    LvPart, Matched, Name, Number, Primary, Simple, Step, Stmt, StmtForm, Unary,
};
use vh_base::{NoMemory, Place};
use vh_base_shared::SharedBytes;
use vh_logic::{Digit, Vec4};

fn at(column: u32) -> Place {
    Place {
        file: 1,
        line: 1,
        column,
    }
}

fn id(alloc: Global, column: u32, text: &[u8]) -> Result<Id, NoMemory> {
    Ok(Id {
        place: at(column),
        name: SharedBytes::from_slice(alloc, text)?,
    })
}

fn name(alloc: Global, column: u32, text: &[u8]) -> Result<Name<Expr>, NoMemory> {
    let first = Step {
        id: id(alloc, column, text)?,
        index: None,
    };
    Ok(Name {
        first,
        more: Items::new(alloc),
    })
}

fn named(alloc: Global, column: u32, text: &[u8]) -> Result<Expr, NoMemory> {
    let name = Boxed::new(alloc, name(alloc, column, text)?)?;
    Ok(Expr::named(name, None))
}

fn zero(column: u32) -> Expr {
    let value = Vec4::filled(32, Digit::Zero, true);
    let number = Number {
        value,
        sized: false,
    };
    Expr {
        place: at(column),
        form: ExprForm::Primary(Primary::Number(number)),
    }
}

// An `if` as contracts see it.
fn conditional(
    place: Place,
    test: Boxed<Expr>,
    holds: Boxed<Stmt>,
    fails: Option<Boxed<Stmt>>,
) -> Stmt
    ensures { let form = S.if_stmt (expr_tree test) (stmt_tree holds) (else_tree fails) in
        stmt_tree result ≡ S.stmt place form }
{
    let form = StmtForm::If { test, holds, fails };
    Stmt { place, form }
}

// A block that is repeated, as contracts see it.
fn repeated(
    place: Place,
    start: Boxed<Assigned>,
    test: Boxed<Expr>,
    step: Boxed<Assigned>,
    body: Boxed<Gblock<Item>>,
) -> Item
    ensures { let first = assigned_tree start in
        let next = assigned_tree step in
        let form = I.for_item first (expr_tree test) next (gblock_tree body) in
        item_tree result ≡ I.item place form }
{
    let form = ItemForm::For {
        start,
        test,
        step,
        body,
    };
    Item { place, form }
}

// A sum of as many operands.
fn sum_of(alloc: Global, operands: u32) -> Result<Expr, NoMemory> {
    let mut links = Items::new(alloc);
    for _ in 1..operands {
        links.push(Link {
            operator: Binary::Plus,
            operand: zero(3),
        })?;
    }
    Expr::chained(alloc, zero(1), links)
}

// How many operators of a chain are a `+`.
fn pluses(sum: &Expr) -> u32 {
    let mut count = 0u32;
    if let ExprForm::Chain(_, links) = &sum.form {
        for link in links.as_slice() {
            if link.operator == Binary::Plus {
                count = count.saturating_add(1);
            }
        }
    }
    count
}

#[test]
fn a_sum_of_a_million_operands(rt: HostRuntime) -> Result<(), Fail> {
    let sum = sum_of(rt.alloc(), 1_000_000)?;
    assert_eq!(rt; sum.place, at(1));
    assert_eq!(rt; pluses(&sum), 999_999);
    Ok(())
}

#[test]
fn one_operand_is_no_chain(rt: HostRuntime) -> Result<(), Fail> {
    let sum = sum_of(rt.alloc(), 1)?;
    assert!(rt; matches!(sum.form, ExprForm::Primary(_)));
    Ok(())
}

// A target in as many braces.
fn braced(alloc: Global, braces: u32) -> Result<Lv, NoMemory> {
    let mut parts = Items::new(alloc);
    for _ in 0..braces {
        parts.push(LvPart::Open)?;
    }
    let name = Boxed::new(alloc, name(alloc, 1, b"a")?)?;
    parts.push(LvPart::Name(name, None))?;
    for _ in 0..braces {
        parts.push(LvPart::Close)?;
    }
    Ok(Lv {
        place: at(1),
        parts,
    })
}

#[test]
fn a_target_in_a_million_braces(rt: HostRuntime) -> Result<(), Fail> {
    let target = braced(rt.alloc(), 1_000_000)?;
    assert_eq!(rt; target.parts.len(), 2_000_001);
    Ok(())
}

// As many `generate` regions in one another.
fn regions(alloc: Global, depth: u32) -> Result<Items<Item>, NoMemory> {
    let mut items = Items::new(alloc);
    for _ in 0..depth {
        items.push(Item {
            place: at(1),
            form: ItemForm::Generate,
        })?;
    }
    for _ in 0..depth {
        items.push(Item {
            place: at(2),
            form: ItemForm::Endgenerate,
        })?;
    }
    Ok(items)
}

#[test]
fn a_million_regions_in_one_another(rt: HostRuntime) -> Result<(), Fail> {
    let items = regions(rt.alloc(), 1_000_000)?;
    assert_eq!(rt; items.len(), 2_000_000);
    Ok(())
}

// A number in as many parentheses.
fn bracketed(alloc: Global, depth: u32) -> Result<Expr, NoMemory> {
    let mut inner = zero(1);
    for _ in 0..depth {
        inner = Expr {
            place: at(1),
            form: ExprForm::Primary(Primary::Paren(Boxed::new(alloc, inner)?)),
        };
    }
    Ok(inner)
}

#[test]
fn two_hundred_parentheses(rt: HostRuntime) -> Result<(), Fail> {
    let e = bracketed(rt.alloc(), 200)?;
    assert_eq!(rt; e.place, at(1));
    Ok(())
}

#[test]
fn a_lexeme_and_its_operand(rt: HostRuntime) -> Result<(), Fail> {
    let alloc = rt.alloc();
    let minus = Expr::unary(alloc, at(1), Unary::Minus, named(alloc, 2, b"a")?)?;
    assert_eq!(rt; minus.place, at(1));
    Ok(())
}

#[test]
fn a_choice(rt: HostRuntime) -> Result<(), Fail> {
    let choice = Expr::choice(rt.alloc(), zero(2), zero(6), zero(10))?;
    assert_eq!(rt; choice.place, at(2));
    Ok(())
}

#[test]
fn a_call(rt: HostRuntime) -> Result<(), Fail> {
    let alloc = rt.alloc();
    let name = Boxed::new(alloc, name(alloc, 4, b"f")?)?;
    let call = Expr::called(name, Items::new(alloc));
    assert_eq!(rt; call.place, at(4));
    Ok(())
}

// `;`
fn empty(column: u32) -> Stmt {
    Stmt {
        place: at(column),
        form: StmtForm::Simple(Simple::Empty),
    }
}

// `default ;`
fn otherwise(alloc: Global, column: u32) -> Result<Items<Citem<Stmt>>, NoMemory> {
    let mut citems = Items::new(alloc);
    citems.push(Citem {
        place: at(column),
        matched: Matched::Default,
        body: empty(column),
    })?;
    Ok(citems)
}

#[test]
fn cases(rt: HostRuntime) -> Result<(), Fail> {
    let alloc = rt.alloc();
    let value = Boxed::new(alloc, zero(8))?;
    let cases = Stmt::case(at(1), CaseWord::Casez, value, otherwise(alloc, 11)?);
    assert_eq!(rt; cases.place, at(1));
    Ok(())
}

#[test]
fn branches(rt: HostRuntime) -> Result<(), Fail> {
    let alloc = rt.alloc();
    let test = Boxed::new(alloc, zero(7))?;
    let branches = conditional(at(3), test, Boxed::new(alloc, empty(10))?, None);
    assert_eq!(rt; branches.place, at(3));
    Ok(())
}

// `i = 0`
fn zeroed(alloc: Global, column: u32) -> Result<Boxed<Assigned>, NoMemory> {
    let assigned = Assigned {
        id: id(alloc, column, b"i")?,
        value: zero(column),
    };
    Ok(Boxed::new(alloc, assigned)?)
}

#[test]
fn a_repeated_block(rt: HostRuntime) -> Result<(), Fail> {
    let alloc = rt.alloc();
    let test = Boxed::new(alloc, zero(13))?;
    let body = Boxed::new(alloc, Gblock::Item(at(30), Items::new(alloc)))?;
    let made = repeated(at(1), zeroed(alloc, 6)?, test, zeroed(alloc, 16)?, body);
    assert_eq!(rt; made.place, at(1));
    Ok(())
}
