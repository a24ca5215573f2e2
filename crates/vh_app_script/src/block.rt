//! Commands and blocks: a function for each production, which ensures one equation with the reading
//! of its part. They call each other, a level deeper for each block; the commands of a block are a
//! loop.

ghost use Rattle.std.specs.Prelude.{◌≡◌, Option, Some, None, option_map, MatchResult, OnOk};
ghost use Rattle.vh_parse_grammar.specs.declared.stop.Stop.TheVariants.{Memory};
ghost use Rattle.vh_parse_grammar.specs.Part.{opt, after};
ghost use Rattle.vh_parse_grammar.specs.Reading.{read};
ghost use Rattle.vh_app_script.specs.declared.token.Symbol.TheVariants as symbol;
ghost use Rattle.vh_app_script.specs.Grammar as rows;
ghost use Rattle.vh_app_script.specs.Grammar.{the, grammar};
ghost use Rattle.vh_app_script.specs.Token.{is_symbol};
ghost use Rattle.vh_app_script.specs.Tree as tree;
ghost use Rattle.vh_app_script.specs.Views.{Reads, Gives, terminals, env_seen, atom_seen, order_seen, test_seen, command_tree, commands_seen, run_seen, counted_seen};

use crate::arguments::{arguments, order, test};
use crate::env::Env;
use crate::take::{
    At, Read, atom, opening, opening_is_next, symbol_is_next, take_symbol, take_word, variable,
    word_is_next,
};
use crate::token::{Keyword, Symbol};
use crate::tree::{Atom, Command, Order, Test};
use crate::words::Opening;
use sqlite_items::{Boxed, Items};
use std::alloc::{AllocError, Global};
use vh_app_lines::Routine;
use vh_parse_grammar::Stop;

/// Commands as far as they are read, and how many more there may be.
#[derive(Drop)]
pub struct Run<'a> {
    pub commands: Items<Command<'a>>,
    pub room: usize,
}

/// A command, and how many more there may be.
#[derive(Drop)]
pub struct Counted<'a> {
    pub command: Boxed<Command<'a>>,
    pub room: usize,
}

impl<'a> Run<'a> {
    // No command, with room for so many.
    fn new(alloc: Global, room: usize) -> Run<'a>
        ensures { run_seen result ≡ rows.no_commands room }
    {
        Run {
            commands: Items::new(alloc),
            room,
        }
    }

    // Adds a command.
    fn add(&mut self, next: Counted<'a>) -> Result<(), AllocError>
        ensures { let more = rows.with_command (run_seen self.old) (counted_seen next.entry) in
            OnOk result (run_seen self.new ≡ more) }
    {
        let Counted { command, room } = next;
        self.commands.push(command.into_inner())?;
        self.room = room;
        Ok(())
    }
}

// A command that takes the room of one.
fn one_command(room: usize, command: Boxed<Command<'_>>) -> Counted<'_>
    ensures { counted_seen result ≡ rows.counted room (command_tree command.entry) }
{
    Counted {
        command,
        room: room.saturating_sub(1),
    }
}

// An order, and where its answer goes to.
fn asked<'a>(
    alloc: Global,
    target: Option<usize>,
    order: Order<'a>,
) -> Result<Boxed<Command<'a>>, Stop>
    ensures { let made = tree.ask target (order_seen order.entry) in
        MatchResult result (λ c. command_tree c ≡ made) (λ stop. stop ≡ Memory) }
{
    let order = Boxed::new(alloc, order)?;
    Ok(Boxed::new(alloc, Command::Ask(target, order))?)
}

// A variable that is set.
fn set<'a>(
    alloc: Global,
    number: usize,
    first: Atom<'a>,
    second: Option<Atom<'a>>,
) -> Result<Boxed<Command<'a>>, Stop>
    ensures { let more = option_map atom_seen second.entry in
        let made = tree.set number (atom_seen first.entry) more in
        MatchResult result (λ c. command_tree c ≡ made) (λ stop. stop ≡ Memory) }
{
    Ok(Boxed::new(alloc, Command::Set(number, first, second))?)
}

// Commands by a test.
fn chosen<'a>(
    alloc: Global,
    test: Test<'a>,
    holds: Items<Command<'a>>,
    fails: Run<'a>,
) -> Result<Counted<'a>, Stop>
    ensures { let other = run_seen fails.entry in
        let made = rows.choice_of (test_seen test.entry) (commands_seen holds.entry) other in
        MatchResult result (λ c. counted_seen c ≡ made) (λ stop. stop ≡ Memory) }
{
    let Run {
        commands: fails,
        room,
    } = fails;
    let command = Boxed::new(alloc, Command::If { test, holds, fails })?;
    Ok(Counted { command, room })
}

// Commands as long as a test holds.
fn repeated<'a>(alloc: Global, test: Test<'a>, body: Run<'a>) -> Result<Counted<'a>, Stop>
    ensures { let made = rows.loop_of (test_seen test.entry) (run_seen body.entry) in
        MatchResult result (λ c. counted_seen c ≡ made) (λ stop. stop ≡ Memory) }
{
    let Run {
        commands: body,
        room,
    } = body;
    let command = Boxed::new(alloc, Command::While { test, body })?;
    Ok(Counted { command, room })
}

// `"=" order ";"`
#[tactic(auto, unfolding(crate::specs::Grammar::target_end))]
fn target_end<'t, 'a>(
    alloc: Global,
    levels: usize,
    env: &Env<'a>,
    number: usize,
    at: At<'t, 'a>,
) -> Read<'t, 'a, Boxed<Command<'a>>>
    ensures { Reads command_tree levels (rows.target_end (env_seen env.now) number) at.now result }
{
    let more = take_symbol(at, Symbol::Becomes)?;
    let (order, end) = order(levels, env, more)?;
    let rest = take_symbol(end, Symbol::Semicolon)?;
    Ok((asked(alloc, Some(number), order)?, rest))
}

// An order's arguments, and `";"`.
#[tactic(auto, unfolding(crate::specs::Grammar::ask_end))]
fn ask_end<'t, 'a>(
    alloc: Global,
    levels: usize,
    env: &Env<'a>,
    routine: Routine,
    at: At<'t, 'a>,
) -> Read<'t, 'a, Boxed<Command<'a>>>
    ensures { Reads command_tree levels (rows.ask_end (env_seen env.now) routine) at.now result }
{
    let (order, end) = arguments(levels, env, routine, at)?;
    let rest = take_symbol(end, Symbol::Semicolon)?;
    Ok((asked(alloc, None, order)?, rest))
}

// `";"`
#[tactic(auto, unfolding(crate::specs::Grammar::return_end))]
fn return_end<'t, 'a>(
    alloc: Global,
    levels: usize,
    at: At<'t, 'a>,
) -> Read<'t, 'a, Boxed<Command<'a>>>
    ensures { Reads command_tree levels rows.return_end at.now result }
{
    let rest = take_symbol(at, Symbol::Semicolon)?;
    Ok((Boxed::new(alloc, Command::Return)?, rest))
}

// `[ "+" atom ]`
fn added<'t, 'a>(levels: usize, env: &Env<'a>, at: At<'t, 'a>) -> Read<'t, 'a, Option<Atom<'a>>>
    ensures { let part = after (the symbol.Plus) (rows.atom (env_seen env.now)) in
        Reads (option_map atom_seen) levels (opt (is_symbol symbol.Plus) part) at.now result }
{
    if !symbol_is_next(at, Symbol::Plus) {
        return Ok((None, at));
    }
    let more = take_symbol(at, Symbol::Plus)?;
    let (atom, rest) = atom(env, more)?;
    Ok((Some(atom), rest))
}

// `NAME "=" atom [ "+" atom ] ";"`
#[tactic(auto, unfolding(crate::specs::Grammar::set_end))]
fn set_end<'t, 'a>(
    alloc: Global,
    levels: usize,
    env: &Env<'a>,
    at: At<'t, 'a>,
) -> Read<'t, 'a, Boxed<Command<'a>>>
    ensures { Reads command_tree levels (rows.set_end (env_seen env.now)) at.now result }
{
    let (number, more) = variable(&env.names, at)?;
    let more = take_symbol(more, Symbol::Becomes)?;
    let (first, more) = atom(env, more)?;
    let (second, end) = added(levels, env, more)?;
    let rest = take_symbol(end, Symbol::Semicolon)?;
    Ok((set(alloc, number, first, second)?, rest))
}

// `"(" test ")"`
fn tested<'t, 'a>(levels: usize, env: &Env<'a>, at: At<'t, 'a>) -> Read<'t, 'a, Test<'a>>
    ensures { let part = rows.in_parens (rows.test_row (env_seen env.now)) in
        Reads test_seen levels part at.now result }
{
    let inside = take_symbol(at, Symbol::OpenParen)?;
    let (test, end) = test(levels, env, inside)?;
    let rest = take_symbol(end, Symbol::CloseParen)?;
    Ok((test, rest))
}

// A block, with so many levels left for it and what stands in it.
#[cycle(blocks)]
fn inner_block<'t, 'a>(
    alloc: Global,
    levels: usize,
    env: &Env<'a>,
    room: usize,
    at: At<'t, 'a>,
) -> Read<'t, 'a, Run<'a>>
    ensures { Reads run_seen levels (rows.inner_block (env_seen env.now) room) at.now result }
{
    if levels > 0 {
        any_block(alloc, levels - 1, env, room, at)
    } else if at.is_empty() {
        Err(Stop::Lost(0))
    } else {
        Err(Stop::Deep(at.len()))
    }
}

/// `block`, with so many levels left for it and what stands in it, and room for so many commands.
/// It takes stack in the levels, and not in the number of tokens.
#[cycle(blocks)]
#[tactic(auto, unfolding(crate::specs::Grammar::nested_block))]
pub fn nested_block<'t, 'a>(
    alloc: Global,
    levels: usize,
    env: &Env<'a>,
    room: usize,
    at: At<'t, 'a>,
) -> Read<'t, 'a, Run<'a>>
    ensures { Reads run_seen levels (rows.nested_block (env_seen env.now) room) at.now result }
{
    if symbol_is_next(at, Symbol::OpenBrace) {
        inner_block(alloc, levels, env, room, at)
    } else {
        Err(Stop::Lost(at.len()))
    }
}

// `"{" { cmd } "}"`, with so many levels left below it.
#[cycle(blocks)]
#[tactic(auto, unfolding(crate::specs::Grammar::any_block))]
fn any_block<'t, 'a>(
    alloc: Global,
    levels: usize,
    env: &Env<'a>,
    room: usize,
    at: At<'t, 'a>,
) -> Read<'t, 'a, Run<'a>>
    ensures { Reads run_seen levels (rows.any_block (env_seen env.now) room) at.now result }
{
    let inside = take_symbol(at, Symbol::OpenBrace)?;
    let (run, end) = more_commands(alloc, levels, env, room, inside)?;
    let rest = take_symbol(end, Symbol::CloseBrace)?;
    Ok((run, rest))
}

// `{ cmd }`
#[cycle(blocks)]
fn more_commands<'t, 'a>(
    alloc: Global,
    levels: usize,
    env: &Env<'a>,
    room: usize,
    at: At<'t, 'a>,
) -> Read<'t, 'a, Run<'a>>
    ensures { let env = env_seen env.now in
        Reads run_seen levels (rows.more_commands env (rows.no_commands room)) at.now result }
{
    let mut run = Run::new(alloc, room);
    let (_, mut rest) = at.split_at(0);
    'commands: while opening_is_next(env, run.room, rest) {
        rest = one_more(alloc, levels, env, &mut run, rest)?;
    }
    Ok((run, rest))
}

// One command more.
#[cycle(blocks)]
#[tactic(auto, unfolding(crate::specs::Grammar::one_more))]
fn one_more<'t, 'a>(
    alloc: Global,
    levels: usize,
    env: &Env<'a>,
    run: &mut Run<'a>,
    at: At<'t, 'a>,
) -> Result<At<'t, 'a>, Stop>
    ensures { let part = rows.one_more (env_seen env.now) (run_seen run.old) in
        Gives (run_seen run.new) (read grammar levels part (terminals at.now)) result }
{
    let (next, rest) = command(alloc, levels, env, run.room, at)?;
    run.add(next)?;
    Ok(rest)
}

// `cmd`
#[cycle(blocks)]
#[tactic(auto, unfolding(crate::specs::Grammar::command))]
fn command<'t, 'a>(
    alloc: Global,
    levels: usize,
    env: &Env<'a>,
    room: usize,
    at: At<'t, 'a>,
) -> Read<'t, 'a, Counted<'a>>
    ensures { Reads counted_seen levels (rows.command (env_seen env.now) room) at.now result }
{
    let (opening, more) = opening(env, room, at)?;
    command_end(alloc, levels, env, room, opening, more)
}

// A command behind its first word.
#[cycle(blocks)]
fn command_end<'t, 'a>(
    alloc: Global,
    levels: usize,
    env: &Env<'a>,
    room: usize,
    opening: Opening,
    at: At<'t, 'a>,
) -> Read<'t, 'a, Counted<'a>>
    ensures { let env = env_seen env.now in
        Reads counted_seen levels (rows.command_end env room opening) at.now result }
{
    match opening {
        Opening::Target(number) => {
            let (command, rest) = target_end(alloc, levels, env, number, at)?;
            Ok((one_command(room, command), rest))
        }
        Opening::Set => {
            let (command, rest) = set_end(alloc, levels, env, at)?;
            Ok((one_command(room, command), rest))
        }
        Opening::Return => {
            let (command, rest) = return_end(alloc, levels, at)?;
            Ok((one_command(room, command), rest))
        }
        Opening::If => if_end(alloc, levels, env, room, at),
        Opening::While => while_end(alloc, levels, env, room, at),
        Opening::Ask(routine) => {
            let (command, rest) = ask_end(alloc, levels, env, routine, at)?;
            Ok((one_command(room, command), rest))
        }
        Opening::Nothing => Err(Stop::Lost(at.len())),
    }
}

// `[ "else" block ]`
#[cycle(blocks)]
#[tactic(auto, unfolding(crate::specs::Grammar::otherwise))]
fn otherwise<'t, 'a>(
    alloc: Global,
    levels: usize,
    env: &Env<'a>,
    room: usize,
    at: At<'t, 'a>,
) -> Read<'t, 'a, Run<'a>>
    ensures { Reads run_seen levels (rows.otherwise (env_seen env.now) room) at.now result }
{
    if !word_is_next(at, Keyword::Else) {
        return Ok((Run::new(alloc, room), at));
    }
    let more = take_word(at, Keyword::Else)?;
    nested_block(alloc, levels, env, room, more)
}

// `block [ "else" block ]`
#[cycle(blocks)]
#[tactic(auto, unfolding(crate::specs::Grammar::branches))]
fn branches<'t, 'a>(
    alloc: Global,
    levels: usize,
    env: &Env<'a>,
    test: Test<'a>,
    room: usize,
    at: At<'t, 'a>,
) -> Read<'t, 'a, Counted<'a>>
    ensures { let part = rows.branches (env_seen env.now) (test_seen test.entry) room in
        Reads counted_seen levels part at.now result }
{
    let (holds, more) = nested_block(alloc, levels, env, room, at)?;
    let Run {
        commands: holds,
        room,
    } = holds;
    let (fails, rest) = otherwise(alloc, levels, env, room, more)?;
    Ok((chosen(alloc, test, holds, fails)?, rest))
}

// `"(" test ")" block [ "else" block ]`
#[cycle(blocks)]
#[tactic(auto, unfolding(crate::specs::Grammar::if_end))]
fn if_end<'t, 'a>(
    alloc: Global,
    levels: usize,
    env: &Env<'a>,
    room: usize,
    at: At<'t, 'a>,
) -> Read<'t, 'a, Counted<'a>>
    ensures { Reads counted_seen levels (rows.if_end (env_seen env.now) room) at.now result }
{
    let (test, more) = tested(levels, env, at)?;
    branches(alloc, levels, env, test, room.saturating_sub(1), more)
}

// `"(" test ")" block`
#[cycle(blocks)]
#[tactic(auto, unfolding(crate::specs::Grammar::while_end))]
fn while_end<'t, 'a>(
    alloc: Global,
    levels: usize,
    env: &Env<'a>,
    room: usize,
    at: At<'t, 'a>,
) -> Read<'t, 'a, Counted<'a>>
    ensures { Reads counted_seen levels (rows.while_end (env_seen env.now) room) at.now result }
{
    let (test, more) = tested(levels, env, at)?;
    let room = room.saturating_sub(1);
    let (body, rest) = nested_block(alloc, levels, env, room, more)?;
    Ok((repeated(alloc, test, body)?, rest))
}
