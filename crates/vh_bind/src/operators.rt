ghost use Rattle.std.specs.Prelude.{◌≡◌, IfOk, Option};
ghost use Rattle.vh_bind.specs.Nodes.{unary_of, operator_of, links_by};

use std::alloc::Global;
use vh_ast::{Binary, Unary as UnaryOperator};
use vh_base::{ExprId, NoMemory, Sequence};
use vh_design::{Arithmetic, Comparison, Link, Links, Logic, Shift, Unary};

/// A binary operator, by the kind of its chain.
#[derive(Clone, Copy)]
pub enum Operator {
    Arithmetic(Arithmetic),
    Shift(Shift),
    Comparison(Comparison),
    Logic(Logic),
}

pub(crate) fn unary_of(sign: UnaryOperator) -> Unary
    ensures { result ≡ unary_of sign }
{
    match sign {
        UnaryOperator::Plus => Unary::Plus,
        UnaryOperator::Minus => Unary::Negate,
        UnaryOperator::Not => Unary::Not,
        UnaryOperator::Invert => Unary::Invert,
        UnaryOperator::ReduceAnd => Unary::And,
        UnaryOperator::ReduceNand => Unary::Nand,
        UnaryOperator::ReduceOr => Unary::Or,
        UnaryOperator::ReduceNor => Unary::Nor,
        UnaryOperator::ReduceXor => Unary::Xor,
        UnaryOperator::ReduceXnor => Unary::Xnor,
    }
}

pub(crate) fn operator_of(binary: Binary) -> Operator
    ensures { result ≡ operator_of binary }
{
    match binary {
        Binary::Power => Operator::Shift(Shift::Power),
        Binary::Times => Operator::Arithmetic(Arithmetic::Multiply),
        Binary::Divide => Operator::Arithmetic(Arithmetic::Divide),
        Binary::Modulus => Operator::Arithmetic(Arithmetic::Remainder),
        Binary::Plus => Operator::Arithmetic(Arithmetic::Add),
        Binary::Minus => Operator::Arithmetic(Arithmetic::Subtract),
        Binary::ShiftLeft => Operator::Shift(Shift::Left),
        Binary::ShiftRight => Operator::Shift(Shift::Right),
        Binary::ArithmeticShiftLeft => Operator::Shift(Shift::SignedLeft),
        Binary::ArithmeticShiftRight => Operator::Shift(Shift::SignedRight),
        Binary::Less => Operator::Comparison(Comparison::Less),
        Binary::LessEqual => Operator::Comparison(Comparison::LessOrEqual),
        Binary::Greater => Operator::Comparison(Comparison::Greater),
        Binary::GreaterEqual => Operator::Comparison(Comparison::GreaterOrEqual),
        Binary::LogicalEqual => Operator::Comparison(Comparison::Equal),
        Binary::LogicalUnequal => Operator::Comparison(Comparison::NotEqual),
        Binary::CaseEqual => Operator::Comparison(Comparison::CaseEqual),
        Binary::CaseUnequal => Operator::Comparison(Comparison::CaseNotEqual),
        Binary::And => Operator::Arithmetic(Arithmetic::And),
        Binary::Xor => Operator::Arithmetic(Arithmetic::Xor),
        Binary::Xnor => Operator::Arithmetic(Arithmetic::Xnor),
        Binary::Or => Operator::Arithmetic(Arithmetic::Or),
        Binary::AndAnd => Operator::Logic(Logic::And),
        Binary::OrOr => Operator::Logic(Logic::Or),
    }
}

// An operator of one kind of chain.
pub(crate) trait Linked: Copy {
    ghost use Rattle.std.specs.Prelude.{Option};
    ghost use Rattle.vh_bind.specs.declared.operators.Operator.{Operator};

    ghost pick: { Operator → Option Self };

    // The operator, where it is of this kind.
    fn of(operator: Operator) -> Option<Self>
        ensures { result ≡ pick operator };
}

impl Linked for Arithmetic {
    ghost use Rattle.vh_bind.specs.Nodes.{as_arithmetic};

    ghost pick = { as_arithmetic };

    fn of(operator: Operator) -> Option<Arithmetic> {
        match operator {
            Operator::Arithmetic(op) => Some(op),
            Operator::Shift(_) | Operator::Comparison(_) | Operator::Logic(_) => None,
        }
    }
}

impl Linked for Shift {
    ghost use Rattle.vh_bind.specs.Nodes.{as_shift};

    ghost pick = { as_shift };

    fn of(operator: Operator) -> Option<Shift> {
        match operator {
            Operator::Shift(op) => Some(op),
            Operator::Arithmetic(_) | Operator::Comparison(_) | Operator::Logic(_) => None,
        }
    }
}

impl Linked for Comparison {
    ghost use Rattle.vh_bind.specs.Nodes.{as_comparison};

    ghost pick = { as_comparison };

    fn of(operator: Operator) -> Option<Comparison> {
        match operator {
            Operator::Comparison(op) => Some(op),
            Operator::Arithmetic(_) | Operator::Shift(_) | Operator::Logic(_) => None,
        }
    }
}

impl Linked for Logic {
    ghost use Rattle.vh_bind.specs.Nodes.{as_logic};

    ghost pick = { as_logic };

    fn of(operator: Operator) -> Option<Logic> {
        match operator {
            Operator::Logic(op) => Some(op),
            Operator::Arithmetic(_) | Operator::Shift(_) | Operator::Comparison(_) => None,
        }
    }
}

// The operators of a chain with the operands behind them.
pub(crate) fn links_of<Op: Linked>(
    alloc: Global,
    operators: &[Operator],
    operands: &[ExprId],
) -> Result<Links<Op>, NoMemory>
    ensures { IfOk result (λ links. links ≡ links_by Op.pick operators.now operands.now) }
{
    let mut links = Vec::new(alloc);
    for (operator, part) in operators.iter().zip(operands) {
        if let Some(op) = Op::of(*operator) {
            links.push(Link { op, part: *part })?;
        }
    }
    Ok(Sequence::new(links))
}
