ghost use Rattle.std.specs.Prelude.{◌≡◌, ◌++◌, ◌∷◌, List, [], string_bytes, OnOk, codes, unwrap_or};
ghost use Rattle.std.specs.Option.{option_map};
ghost use Rattle.std.specs.Fmt.{decimal};
ghost use Rattle.vh_kernel.specs.Line.{ending_name, stamped, who_text, object_text, script_name, shown_text};
ghost use Rattle.vh_kernel.specs.Run.{line_of_move};
ghost use Rattle.vh_base.specs.Words.{reason_text};
ghost use Rattle.vh_app_lines.specs.OrderText.{order_text, answer_text};
ghost use Rattle.vh_app_lines.specs.Quoted.{plain_text};
ghost use Rattle.vh_kernel.specs.Views.{state_of};

use crate::kernel::Kernel;
use crate::label::Label;
use std::alloc::AllocError;
use vh_app_lines::{push_answer, push_number, push_order, push_plain, push_quoted};
use vh_base::{Answer, Bytes, Object, Order, Reason};
use vh_orders::{Ending, Who};

/// Adds the line of a label at the time that the kernel shows, with its newline; nothing for a
/// label that is silent.
pub fn push_line(line: &mut String, k: &Kernel, l: &Label) -> Result<(), AllocError>
    ensures { OnOk result (string_bytes line.new
        ≡ string_bytes line.old ++ line_of_move (l.now, state_of k.now)) }
{
    let time = k.time();
    match l {
        Label::Pass(_)
        | Label::Ret(_)
        | Label::Activate(_)
        | Label::Advance(_)
        | Label::Finish(_) => Ok(()),
        Label::Startup(number) => push_startup(line, k, *number),
        Label::Do(who, order, answer) => push_do(line, time, *who, order.get(), answer),
        Label::Occ(n, reason, object) => push_occurrence(line, k, *n, *reason, *object),
        Label::Fire(n, c) => push_fire(line, time, *n, c.number()),
        Label::Done(n) => push_done(line, time, *n),
        Label::Pick(_, shown) | Label::Stmt(_, shown) => push_shown(line, time, shown),
        Label::End(ending) => push_end(line, time, ending),
    }
}

// Adds the time, and the word of a label with a space on each side.
fn push_front(line: &mut String, time: u64, word: &str) -> Result<(), AllocError>
    ensures { OnOk result (string_bytes line.new
        ≡ string_bytes line.old ++ decimal time ++ 32 ∷ word.now ++ 32 ∷ []) }
{
    push_number(line, time)?;
    line.push(' ')?;
    line.push_str(word)?;
    line.push(' ')
}

// The line of a startup that begins.
fn push_startup(line: &mut String, k: &Kernel, number: u32) -> Result<(), AllocError>
    ensures { OnOk result (string_bytes line.new ≡ string_bytes line.old
        ++ stamped (codes "startup " ++ plain_text (script_name number (state_of k.now)))
        (state_of k.now)) }
{
    push_front(line, k.time(), "startup")?;
    push_plain(line, k.script_name(number))?;
    line.push('\n')
}

// The line of an order with its answer.
fn push_do(
    line: &mut String,
    time: u64,
    who: Who,
    order: &Order,
    answer: &Answer,
) -> Result<(), AllocError>
    ensures { OnOk result (string_bytes line.new ≡ string_bytes line.old
        ++ decimal time ++ 32 ∷
        (codes "do " ++ who_text who ++ 32 ∷ order_text order.now ++ codes " => " ++ answer_text
        answer.now) ++ 10 ∷ []) }
{
    push_front(line, time, "do")?;
    push_who(line, who)?;
    line.push(' ')?;
    push_order(line, order)?;
    line.push_str(" => ")?;
    push_answer(line, answer)?;
    line.push('\n')
}

// Who gives an order.
fn push_who(line: &mut String, who: Who) -> Result<(), AllocError>
    ensures { OnOk result (string_bytes line.new ≡ string_bytes line.old ++ who_text who) }
{
    match who {
        Who::Callback(c) => {
            line.push('c')?;
            push_number(line, c.number())
        }
        Who::Startup(number) => {
            line.push('s')?;
            push_number(line, u64::from(number))
        }
    }
}

// The line of an occurrence.
fn push_occurrence(
    line: &mut String,
    k: &Kernel,
    n: u64,
    reason: Reason,
    object: Option<Object>,
) -> Result<(), AllocError>
    ensures { OnOk result (string_bytes line.new ≡ string_bytes line.old
        ++ stamped
        (codes "occ " ++ decimal n ++ 32 ∷ reason_text reason ++ 32 ∷ object_text object
        (state_of k.now)) (state_of k.now)) }
{
    push_told(line, k.time(), n, reason)?;
    push_object(line, k, object)?;
    line.push('\n')
}

// The time, the number of an occurrence and its reason.
fn push_told(line: &mut String, time: u64, n: u64, reason: Reason) -> Result<(), AllocError>
    ensures { OnOk result (string_bytes line.new ≡ string_bytes line.old
        ++ decimal time ++ 32 ∷ codes "occ " ++ decimal n ++ 32 ∷ reason_text reason ++ 32 ∷ []) }
{
    push_front(line, time, "occ")?;
    push_number(line, n)?;
    line.push(' ')?;
    line.push_str(reason.name())?;
    line.push(' ')
}

// Adds the full name of an object or a word, or a dash for none.
fn push_object(line: &mut String, k: &Kernel, object: Option<Object>) -> Result<(), AllocError>
    ensures { OnOk result (string_bytes line.new
        ≡ string_bytes line.old ++ object_text object (state_of k.now)) }
{
    let Some(object) = object else {
        return line.push('-');
    };
    push_plain(line, k.object_name(object.id))?;
    match object.word {
        Some(address) => push_address(line, address),
        None => Ok(()),
    }
}

// Adds the address of a word in brackets.
fn push_address(line: &mut String, address: u32) -> Result<(), AllocError>
    ensures { OnOk result (string_bytes line.new
        ≡ string_bytes line.old ++ 91 ∷ (decimal address ++ 93 ∷ [])) }
{
    line.push('[')?;
    push_number(line, u64::from(address))?;
    line.push(']')
}

// The line of a callback that fires.
fn push_fire(line: &mut String, time: u64, n: u64, c: u64) -> Result<(), AllocError>
    ensures { OnOk result (string_bytes line.new ≡ string_bytes line.old
        ++ decimal time ++ 32 ∷ (codes "fire " ++ decimal n ++ codes " c" ++ decimal c) ++ 10 ∷
        []) }
{
    push_front(line, time, "fire")?;
    push_number(line, n)?;
    line.push_str(" c")?;
    push_number(line, c)?;
    line.push('\n')
}

// The line of an occurrence that is done.
fn push_done(line: &mut String, time: u64, n: u64) -> Result<(), AllocError>
    ensures { OnOk result (string_bytes line.new ≡ string_bytes line.old
        ++ decimal time ++ 32 ∷ (codes "done " ++ decimal n) ++ 10 ∷ []) }
{
    push_front(line, time, "done")?;
    push_number(line, n)?;
    line.push('\n')
}

// The line of an end.
fn push_end(line: &mut String, time: u64, ending: &Ending) -> Result<(), AllocError>
    ensures { OnOk result (string_bytes line.new ≡ string_bytes line.old
        ++ decimal time ++ 32 ∷ (codes "end " ++ ending_name ending.now) ++ 10 ∷ []) }
{
    push_front(line, time, "end")?;
    line.push_str(name_of(ending))?;
    line.push('\n')
}

// The name of an end.
fn name_of(ending: &Ending) -> &'static str
    ensures { result.now ≡ ending_name ending.now }
{
    match ending {
        Ending::Cause(cause) => cause.name(),
        Ending::Fault(fault) => fault.name(),
    }
}

// The line of a text that was shown, if one was.
fn push_shown(line: &mut String, time: u64, shown: &Option<Bytes>) -> Result<(), AllocError>
    ensures { OnOk result (string_bytes line.new ≡ string_bytes line.old
        ++ unwrap_or (option_map (λ text. decimal time ++ 32 ∷ text ++ 10 ∷ [])
        (shown_text shown.now)) []) }
{
    let Some(text) = shown else {
        return Ok(());
    };
    push_front(line, time, "out")?;
    push_quoted(line, text.as_slice())?;
    line.push('\n')
}
