ghost use Rattle.vh_ast.specs.Views.{delay_tree, expr_tree, set_tree};
ghost use Rattle.vh_lower.specs.Making.{Makes};
ghost use Rattle.vh_lower.specs.Statements.{headed, delay_timing, wait_timing, for_head};
ghost use Rattle.vh_lower.specs.Views.{Stands, Adds};

use crate::added::Maker;
use crate::assignments::{set_of, with_operation};
use crate::fault::Lowered;
use crate::heads::{ForHead, Head, Timing};
use crate::making::{delay_of, numbered, reading_from, value_of};
use vh_ast::{Delay, Expr, Set};
use vh_base::{Place, Sequence};
use vh_design_code::{Operation, Pause, StmtKind};

// A statement's number, with its test and the calls that this makes.
pub(crate) fn headed(maker: &mut Maker, kind: StmtKind, place: Place, test: &Expr) -> Lowered<Head>
    requires stands { Stands maker.old }
    ensures { Adds (λ s a. Makes (headed kind s place (expr_tree test.now) a))
        maker.old result maker.new }
{
    let number = numbered(maker, kind, place)?;
    let mut calls = Vec::new(maker.alloc);
    let test = value_of(maker, &mut calls, test)?;
    Ok(Head {
        number,
        calls: Sequence::new(calls),
        test,
    })
}

// A delay before a statement.
pub(crate) fn delay_timing(maker: &mut Maker, place: Place, delay: &Delay) -> Lowered<Timing>
    requires stands { Stands maker.old }
    ensures { Adds (λ s a. Makes (delay_timing s place (delay_tree delay.now) a))
        maker.old result maker.new }
{
    let number = numbered(maker, StmtKind::DelayControl, place)?;
    let mut operations = Vec::new(maker.alloc);
    let delay = delay_of(maker, &mut operations, delay)?;
    let instructions = with_operation(operations, Operation::Pause(Pause::Wait(delay)))?;
    Ok(Timing {
        number,
        instructions,
    })
}

// A `wait` before a statement.
pub(crate) fn wait_timing(maker: &mut Maker, place: Place, test: &Expr) -> Lowered<Timing>
    requires stands { Stands maker.old }
    ensures { Adds (λ s a. Makes (wait_timing s place (expr_tree test.now) a))
        maker.old result maker.new }
{
    let from = maker.added.exprs.len();
    let Head {
        number,
        calls,
        test,
    } = headed(maker, StmtKind::Wait, place, test)?;
    let wait = reading_from(maker.alloc, maker.added, from)?;
    let pause = Pause::WaitFor {
        condition: test,
        wait,
    };
    let instructions = with_operation(calls.into_vec(), Operation::Pause(pause))?;
    Ok(Timing {
        number,
        instructions,
    })
}

// What a `for` has before its body.
pub(crate) fn for_head(
    maker: &mut Maker,
    place: Place,
    start: &Set,
    test: &Expr,
    step: &Set,
) -> Lowered<ForHead>
    requires stands { Stands maker.old }
    ensures { Adds
        (λ s a. Makes
        (for_head s place (set_tree start.now) (expr_tree test.now) (set_tree step.now) a))
        maker.old result maker.new }
{
    let number = numbered(maker, StmtKind::For, place)?;
    let start = set_of(maker, start)?;
    let mut calls = Vec::new(maker.alloc);
    let test = value_of(maker, &mut calls, test)?;
    let step = set_of(maker, step)?;
    Ok(ForHead {
        number,
        start,
        calls: Sequence::new(calls),
        test,
        step,
    })
}
