//! Orders: a function for the arguments of each routine, which ensures one equation with the
//! reading of its row.

ghost use Rattle.std.specs.Prelude.{◌≡◌};
ghost use Rattle.vh_parse_grammar.specs.Part.{act, tok, seq, opt, after};
ghost use Rattle.vh_app_script.specs.Grammar as rows;
ghost use Rattle.vh_app_script.specs.Grammar.{is_word, the_word};
ghost use Rattle.vh_app_script.specs.declared.token.Keyword.TheVariants as keyword;
ghost use Rattle.vh_app_script.specs.Tree as tree;
ghost use Rattle.vh_app_script.specs.Words as words;
ghost use Rattle.vh_app_script.specs.Views.{Reads, env_seen, atom_seen, atoms_seen, body_seen, name_seen, order_seen, test_seen};

use crate::env::Env;
use crate::take::{
    At, Read, atom, body_word, control, format, mode, name, order_opening, property, reason,
    relation, symbol_is_next, systf_kind, take_symbol, take_word, word_is_next,
};
use crate::token::{Keyword, Symbol};
use crate::tree::{Atom, Body, Order, Test};
use crate::words::{BodyWord, Opening};
use vh_app_lines::Routine;
use vh_base::{AppFault, Property, Relation};
use vh_parse_grammar::Stop;

// Two atoms.
fn atoms<'t, 'a>(levels: usize, env: &Env<'a>, at: At<'t, 'a>) -> Read<'t, 'a, (Atom<'a>, Atom<'a>)>
    ensures { Reads atoms_seen levels (rows.atoms (env_seen env.now)) at.now result }
{
    let (first, more) = atom(env, at)?;
    let (second, rest) = atom(env, more)?;
    Ok(((first, second), rest))
}

// `TEXT SCOPE`
fn by_name<'t, 'a>(levels: usize, env: &Env<'a>, at: At<'t, 'a>) -> Read<'t, 'a, Order<'a>>
    ensures { let part = act rows.by_name_of (rows.atoms (env_seen env.now)) in
        Reads order_seen levels part at.now result }
{
    let ((text, scope), rest) = atoms(levels, env, at)?;
    Ok((Order::ByName { text, scope }, rest))
}

// `H N`
fn by_index<'t, 'a>(levels: usize, env: &Env<'a>, at: At<'t, 'a>) -> Read<'t, 'a, Order<'a>>
    ensures { let part = act rows.by_index_of (rows.atoms (env_seen env.now)) in
        Reads order_seen levels part at.now result }
{
    let ((memory, index), rest) = atoms(levels, env, at)?;
    Ok((Order::ByIndex { memory, index }, rest))
}

// `H H`
fn compare<'t, 'a>(levels: usize, env: &Env<'a>, at: At<'t, 'a>) -> Read<'t, 'a, Order<'a>>
    ensures { let part = act rows.compare_of (rows.atoms (env_seen env.now)) in
        Reads order_seen levels part at.now result }
{
    let ((left, right), rest) = atoms(levels, env, at)?;
    Ok((Order::Compare(left, right), rest))
}

// `RELATION H`
fn related<'t, 'a>(
    levels: usize,
    env: &Env<'a>,
    at: At<'t, 'a>,
) -> Read<'t, 'a, (Relation, Atom<'a>)>
    ensures { let env = env_seen env.now in
        let part = seq (tok (words.relation_in env.rules)) (rows.atom env) in
        Reads (λ p. (p.0, atom_seen p.1)) levels part at.now result }
{
    let (relation, more) = relation(env.rules, at)?;
    let (object, rest) = atom(env, more)?;
    Ok(((relation, object), rest))
}

// `PROPERTY H`
fn asked<'t, 'a>(levels: usize, env: &Env<'a>, at: At<'t, 'a>) -> Read<'t, 'a, (Property, Atom<'a>)>
    ensures { let env = env_seen env.now in
        let part = seq (tok (words.property_in env.rules)) (rows.atom env) in
        Reads (λ p. (p.0, atom_seen p.1)) levels part at.now result }
{
    let (property, more) = property(env.rules, at)?;
    let (object, rest) = atom(env, more)?;
    Ok(((property, object), rest))
}

// `H FORMAT`
#[tactic(auto, unfolding(crate::specs::Grammar::get_value_row))]
fn get_value<'t, 'a>(levels: usize, env: &Env<'a>, at: At<'t, 'a>) -> Read<'t, 'a, Order<'a>>
    ensures { Reads order_seen levels (rows.get_value_row (env_seen env.now)) at.now result }
{
    let (object, more) = atom(env, at)?;
    let (format, rest) = format(env.rules, more)?;
    Ok((Order::GetValue { object, format }, rest))
}

// `[ "event" ]`
fn event<'t, 'a>(levels: usize, at: At<'t, 'a>) -> Read<'t, 'a, Option<()>>
    ensures { let word = keyword.Event in
        Reads (λ e. e) levels (opt (is_word word) (the_word word)) at.now result }
{
    if !word_is_next(at, Keyword::Event) {
        return Ok((None, at));
    }
    let rest = take_word(at, Keyword::Event)?;
    Ok((Some(()), rest))
}

// `H FORMAT TEXT MODE TIME [ "event" ]`
#[tactic(auto, unfolding(crate::specs::Grammar::put_value_row))]
fn put_value<'t, 'a>(levels: usize, env: &Env<'a>, at: At<'t, 'a>) -> Read<'t, 'a, Order<'a>>
    ensures { Reads order_seen levels (rows.put_value_row (env_seen env.now)) at.now result }
{
    let (object, more) = atom(env, at)?;
    let (format, more) = format(env.rules, more)?;
    let (text, more) = atom(env, more)?;
    let (mode, more) = mode(env.rules, more)?;
    let (time, more) = atom(env, more)?;
    let (event, rest) = event(levels, more)?;
    let order = Order::PutValue {
        object,
        format,
        text,
        mode,
        time,
        event: event.is_some(),
    };
    Ok((order, rest))
}

// What a callback is to call.
fn body_of<'a>(word: BodyWord, name: &'a [u8]) -> Body<'a>
    ensures { body_seen result ≡ rows.body_of word name.now }
{
    match word {
        BodyWord::Proc => Body::Proc(name),
        BodyWord::Native => Body::Native(name),
    }
}

// BODY
#[tactic(auto, unfolding(crate::specs::Grammar::body))]
fn body<'t, 'a>(levels: usize, rules: AppFault, at: At<'t, 'a>) -> Read<'t, 'a, Body<'a>>
    ensures { Reads body_seen levels (rows.body rules) at.now result }
{
    let (word, more) = body_word(at)?;
    let (name, rest) = name(rules, more)?;
    Ok((body_of(word, name), rest))
}

// `REASON H TIME BODY N`
#[tactic(auto, unfolding(crate::specs::Grammar::register_row))]
fn register<'t, 'a>(levels: usize, env: &Env<'a>, at: At<'t, 'a>) -> Read<'t, 'a, Order<'a>>
    ensures { Reads order_seen levels (rows.register_row (env_seen env.now)) at.now result }
{
    let (reason, more) = reason(env.rules, at)?;
    let (object, more) = atom(env, more)?;
    let (time, more) = atom(env, more)?;
    let (body, more) = body(levels, env.rules, more)?;
    let (data, rest) = atom(env, more)?;
    let order = Order::Register {
        reason,
        object,
        time,
        body,
        data,
    };
    Ok((order, rest))
}

// `"calltf" P`
fn calltf<'t, 'a>(levels: usize, rules: AppFault, at: At<'t, 'a>) -> Read<'t, 'a, &'a [u8]>
    ensures { let part = after (the_word keyword.Calltf) (rows.name rules) in
        Reads (λ n. n.now) levels part at.now result }
{
    let more = take_word(at, Keyword::Calltf)?;
    name(rules, more)
}

// `[ "compiletf" P ]`
fn compiletf<'t, 'a>(
    levels: usize,
    rules: AppFault,
    at: At<'t, 'a>,
) -> Read<'t, 'a, Option<&'a [u8]>>
    ensures { let word = keyword.Compiletf in
        let part = opt (is_word word) (after (the_word word) (rows.name rules)) in
        Reads name_seen levels part at.now result }
{
    if !word_is_next(at, Keyword::Compiletf) {
        return Ok((None, at));
    }
    let more = take_word(at, Keyword::Compiletf)?;
    let (name, rest) = name(rules, more)?;
    Ok((Some(name), rest))
}

// `KIND TEXT N "calltf" P [ "compiletf" P ]`
#[tactic(auto, unfolding(crate::specs::Grammar::register_systf_row))]
fn register_systf<'t, 'a>(levels: usize, env: &Env<'a>, at: At<'t, 'a>) -> Read<'t, 'a, Order<'a>>
    ensures { Reads order_seen levels (rows.register_systf_row (env_seen env.now)) at.now result }
{
    let (kind, more) = systf_kind(at)?;
    let (name, more) = atom(env, more)?;
    let (size, more) = atom(env, more)?;
    let (calltf, more) = calltf(levels, env.rules, more)?;
    let (compiletf, rest) = compiletf(levels, env.rules, more)?;
    let order = Order::RegisterSystf {
        kind,
        name,
        size,
        calltf,
        compiletf,
    };
    Ok((order, rest))
}

// `"finish" | "stop"`
fn control_end<'t, 'a>(levels: usize, at: At<'t, 'a>) -> Read<'t, 'a, Order<'a>>
    ensures { Reads order_seen levels (act tree.control (tok words.control_in)) at.now result }
{
    let (stop, rest) = control(at)?;
    Ok((Order::Control { stop }, rest))
}

/// The arguments of the routine, behind its word.
pub fn arguments<'t, 'a>(
    levels: usize,
    env: &Env<'a>,
    routine: Routine,
    at: At<'t, 'a>,
) -> Read<'t, 'a, Order<'a>>
    ensures { Reads order_seen levels (rows.arguments (env_seen env.now) routine) at.now result }
{
    match routine {
        Routine::ByName => by_name(levels, env, at),
        Routine::ByIndex => by_index(levels, env, at),
        Routine::Handle => related(levels, env, at).map(|((relation, object), rest)| (
            Order::Handle { relation, object },
            rest,
        )),
        Routine::Iterate => related(levels, env, at).map(|((relation, object), rest)| (
            Order::Iterate { relation, object },
            rest,
        )),
        Routine::Scan => atom(env, at).map(|(value, rest)| (Order::Scan(value), rest)),
        Routine::Free => atom(env, at).map(|(value, rest)| (Order::Free(value), rest)),
        Routine::Compare => compare(levels, env, at),
        Routine::Get => asked(levels, env, at).map(|((property, object), rest)| (
            Order::Get { property, object },
            rest,
        )),
        Routine::GetStr => asked(levels, env, at).map(|((property, object), rest)| (
            Order::GetStr { property, object },
            rest,
        )),
        Routine::GetValue => get_value(levels, env, at),
        Routine::PutValue => put_value(levels, env, at),
        Routine::Cancel => atom(env, at).map(|(value, rest)| (Order::Cancel(value), rest)),
        Routine::GetTime => Ok((Order::GetTime, at)),
        Routine::Register => register(levels, env, at),
        Routine::Remove => atom(env, at).map(|(value, rest)| (Order::Remove(value), rest)),
        Routine::CbInfo => atom(env, at).map(|(value, rest)| (Order::CbInfo(value), rest)),
        Routine::RegisterSystf => register_systf(levels, env, at),
        Routine::ChkError => Ok((Order::ChkError, at)),
        Routine::Control => control_end(levels, at),
        Routine::Print => atom(env, at).map(|(value, rest)| (Order::Print(value), rest)),
        Routine::SetData => atom(env, at).map(|(value, rest)| (Order::SetData(value), rest)),
        // These two aren't written.
        Routine::Pass => Err(Stop::Lost(at.len())),
        Routine::Return => Err(Stop::Lost(at.len())),
    }
}

// What stands behind the word of an order.
fn order_end<'t, 'a>(
    levels: usize,
    env: &Env<'a>,
    opening: Opening,
    at: At<'t, 'a>,
) -> Read<'t, 'a, Order<'a>>
    ensures { Reads order_seen levels (rows.order_end (env_seen env.now) opening) at.now result }
{
    match opening {
        Opening::Ask(routine) => arguments(levels, env, routine, at),
        _ => Err(Stop::Lost(at.len())),
    }
}

/// `order`
#[tactic(auto, unfolding(crate::specs::Grammar::order))]
pub fn order<'t, 'a>(levels: usize, env: &Env<'a>, at: At<'t, 'a>) -> Read<'t, 'a, Order<'a>>
    ensures { Reads order_seen levels (rows.order (env_seen env.now)) at.now result }
{
    let (opening, more) = order_opening(env.rules, at)?;
    order_end(levels, env, opening, more)
}

// `"==" | "!="`
#[tactic(auto, unfolding(crate::specs::Grammar::sign))]
fn sign<'t, 'a>(levels: usize, at: At<'t, 'a>) -> Read<'t, 'a, bool>
    ensures { Reads (λ b. b) levels rows.sign at.now result }
{
    if symbol_is_next(at, Symbol::Equals) {
        let rest = take_symbol(at, Symbol::Equals)?;
        return Ok((true, rest));
    }
    let rest = take_symbol(at, Symbol::Differs)?;
    Ok((false, rest))
}

/// `test`
#[tactic(auto, unfolding(crate::specs::Grammar::test_row))]
pub fn test<'t, 'a>(levels: usize, env: &Env<'a>, at: At<'t, 'a>) -> Read<'t, 'a, Test<'a>>
    ensures { Reads test_seen levels (rows.test_row (env_seen env.now)) at.now result }
{
    let (left, more) = atom(env, at)?;
    let (same, more) = sign(levels, more)?;
    let (right, rest) = atom(env, more)?;
    Ok((Test { left, same, right }, rest))
}
