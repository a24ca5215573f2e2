ghost use Rattle.std.specs.Prelude.{◌≡◌, IfOk};

use crate::name::{Name, Sel};
use crate::operator::{Binary, Unary};
use crate::token::Id;
use sqlite_items::{Boxed, Items};
use std::alloc::Global;
use vh_base::{NoMemory, Place};
use vh_base_shared::SharedBytes;
use vh_lex::Number;

/// `prim`, over expressions `E` (IEEE 1364-2005, 5.2 and Annex A.8.4). A name and a select stand in boxes,
/// so that an expression takes little, whatever it is.
#[derive(Drop)]
pub enum Primary<E> {
    /// `NUMBER`
    Number(Number),
    /// `STRING`, after its escapes.
    Text(SharedBytes),
    /// `name [ sel ]`
    Name(Boxed<Name<E>>, Option<Boxed<Sel<E>>>),
    /// `name "(" expr { "," expr } ")"`
    Call(Boxed<Name<E>>, Items<E>),
    /// `SYS [ "(" expr { "," expr } ")" ]`: no expression where nothing is written.
    System(Boxed<Id>, Items<E>),
    /// `"(" expr ")"`
    Paren(Boxed<E>),
    /// `"{" expr { "," expr } "}"`
    Concat(Items<E>),
    /// `"{" expr "{" expr { "," expr } "}" "}"`
    Repeat(Boxed<E>, Items<E>),
}

/// A binary operator, and the operand behind it.
#[derive(Drop)]
pub struct Link<E> {
    pub operator: Binary,
    pub operand: E,
}

/// What an expression is.
#[derive(Drop)]
pub enum ExprForm<E> {
    Primary(Primary<E>),
    /// A unary operator before its operand.
    Unary(Unary, Boxed<E>),
    /// Operators of one precedence, which group to the left: the first operand, and each operator
    /// with the operand behind it. There is at least one operator.
    Chain(Boxed<E>, Items<Link<E>>),
    /// `expr "?" expr ":" expr`, which groups to the right.
    Choice {
        test: Boxed<E>,
        holds: Boxed<E>,
        fails: Boxed<E>,
    },
}

/// `expr` (IEEE 1364-2005, 5 and Annex A.8.3). Its place is that of its first token.
#[derive(Drop)]
pub struct Expr {
    pub place: Place,
    pub form: ExprForm<Expr>,
}

impl Expr {
    ghost use Rattle.std.specs.Prelude.{map};
    ghost use Rattle.vh_ast.specs.Expressions.{named_at, unary_at, chosen};
    ghost use Rattle.vh_ast.specs.Expressions;
    ghost use Rattle.vh_ast.specs.Views.{expr_tree, link_tree, name_tree, sel_tree};

    /// A name, with the select behind it.
    pub fn named(name: Boxed<Name<Expr>>, sel: Option<Boxed<Sel<Expr>>>) -> Expr
        ensures { expr_tree result ≡ named_at (name_tree name) (sel_tree sel) }
    {
        let place = name.get().first.id.place;
        let form = ExprForm::Primary(Primary::Name(name, sel));
        Expr { place, form }
    }

    /// A call of a name with its arguments.
    pub fn called(name: Boxed<Name<Expr>>, arguments: Items<Expr>) -> Expr
        ensures { expr_tree result ≡ Expressions.called (name_tree name) (map expr_tree arguments) }
    {
        let place = name.get().first.id.place;
        let form = ExprForm::Primary(Primary::Call(name, arguments));
        Expr { place, form }
    }

    /// A unary operator at its place, and its operand.
    pub fn unary(
        alloc: Global,
        place: Place,
        operator: Unary,
        operand: Expr,
    ) -> Result<Expr, NoMemory>
        ensures { IfOk result (λ e. expr_tree e ≡ unary_at place operator (expr_tree operand)) }
    {
        let form = ExprForm::Unary(operator, Boxed::new(alloc, operand)?);
        Ok(Expr { place, form })
    }

    /// An operand, and operators of one precedence with the operands behind them. With no operator
    /// it is the operand.
    pub fn chained(alloc: Global, first: Expr, links: Items<Link<Expr>>) -> Result<Expr, NoMemory>
        ensures { let operands = map link_tree links in
            IfOk result (λ e. expr_tree e ≡ Expressions.chained (expr_tree first) operands) }
    {
        if links.is_empty() {
            return Ok(first);
        }
        let place = first.place;
        let form = ExprForm::Chain(Boxed::new(alloc, first)?, links);
        Ok(Expr { place, form })
    }

    /// One of two expressions, by a test.
    pub fn choice(alloc: Global, test: Expr, holds: Expr, fails: Expr) -> Result<Expr, NoMemory>
        ensures { let picked = chosen (expr_tree test) (expr_tree holds) (expr_tree fails) in
            IfOk result (λ e. expr_tree e ≡ picked) }
    {
        let place = test.place;
        let form = ExprForm::Choice {
            test: Boxed::new(alloc, test)?,
            holds: Boxed::new(alloc, holds)?,
            fails: Boxed::new(alloc, fails)?,
        };
        Ok(Expr { place, form })
    }
}
