//! A whole script: its heading, its variables, its startup and its procedures.

ghost use Rattle.std.specs.Prelude.{◌≡◌, map, OnOk, MatchResult};
ghost use Rattle.vh_base.specs.Lists.{names_seen};
ghost use Rattle.vh_parse_grammar.specs.declared.stop.Stop.TheVariants.{Memory};
ghost use Rattle.vh_parse_grammar.specs.Reading as reading;
ghost use Rattle.vh_parse_grammar.specs.Reading.{read, whole};
ghost use Rattle.vh_parse_grammar.specs.Says.{Accepts};
ghost use Rattle.vh_app_script.specs.Answers.{answer};
ghost use Rattle.vh_app_script.specs.Env as spec;
ghost use Rattle.vh_app_script.specs.Grammar as rows;
ghost use Rattle.vh_app_script.specs.Grammar.{grammar};
ghost use Rattle.vh_app_script.specs.Spelling.{kinds_of};
ghost use Rattle.vh_app_script.specs.Words as words;
ghost use Rattle.vh_app_script.specs.Views.{Reads, TakesMeaning, Gives, terminals, env_seen, order_seen, run_seen, procs_seen, app_seen, token_seen};

use crate::arguments::order;
use crate::block::{Run, nested_block};
use crate::env::{Block, Env, MOST_COMMANDS, counts};
use crate::take::{
    At, Read, is_long_name, new_name, order_is_next, symbol_is_next, take_symbol, take_word,
    word_is_next,
};
use crate::token::{Keyword, Kind, Symbol, Token};
use crate::tree::{App, Order, Procedure};
use indexmap::IndexSet;
use sqlite_items::Items;
use std::alloc::Global;
use vh_base::{AppFault, Short};
use vh_parse_grammar::Stop;

/// How deep blocks nest at most, a procedure's having the depth 1.
pub const MOST_LEVELS: usize = 64;

/// Procedures as far as they are read, their names, and how many more commands there may be.
#[derive(Drop)]
pub struct Procs<'a> {
    pub names: IndexSet<&'a [u8]>,
    pub procedures: Items<Procedure<'a>>,
    pub room: usize,
}

impl<'a> Procs<'a> {
    // No procedure.
    fn new(alloc: Global) -> Procs<'a>
        ensures { procs_seen result ≡ rows.no_procedure }
    {
        Procs {
            names: IndexSet::new(alloc),
            procedures: Items::new(alloc),
            room: MOST_COMMANDS,
        }
    }

    // Adds a procedure.
    fn add(&mut self, name: &'a [u8], run: Run<'a>) -> Result<(), Stop>
        ensures { let procs = procs_seen self.old in
            let next = rows.with_procedure procs name.now (run_seen run.entry) in
            MatchResult result (λ u. procs_seen self.new ≡ next) (λ stop. stop ≡ Memory) }
    {
        let Run { commands, room } = run;
        add_name(&mut self.names, name)?;
        self.procedures.push(Procedure { name, commands })?;
        self.room = room;
        Ok(())
    }
}

// Adds a name, unless it is there. It takes time that doesn't grow with the number of names.
fn add_name<'a>(names: &mut IndexSet<&'a [u8]>, name: &'a [u8]) -> Result<(), Stop>
    ensures { let next = spec.with_name (names_seen names.old.keys) name.now in
        MatchResult result (λ u. names_seen names.new.keys ≡ next) (λ stop. stop ≡ Memory) }
{
    names.insert_full(name)?;
    Ok(())
}

// Whether an earlier script has this name.
fn is_earlier(earlier: &[Short], name: &[u8]) -> bool
    ensures { result ≡ spec.is_among earlier.now name.now }
{
    for one in earlier {
        if name == one.bytes() {
            return true;
        }
    }
    false
}

// `NAME`, which is none of the earlier scripts'.
fn own_name<'t, 'a>(rules: AppFault, earlier: &[Short], at: At<'t, 'a>) -> Read<'t, 'a, &'a [u8]>
    ensures { TakesMeaning (λ n. n.now) (words.new_name_in rules earlier.now) at.now result }
{
    let [first, rest @ ..] = at else {
        return Err(Stop::Lost(0));
    };
    match first.kind {
        Kind::Word(_, word) => {
            let taken = counts(rules, AppFault::A4) && is_earlier(earlier, word);
            if taken || is_long_name(rules, word) {
                Err(Stop::Lost(at.len()))
            } else {
                Ok((word, rest))
            }
        }
        _ => Err(Stop::Lost(at.len())),
    }
}

// `"app" NAME ";"`
#[tactic(auto, unfolding(crate::specs::Grammar::heading))]
fn heading<'t, 'a>(
    levels: usize,
    rules: AppFault,
    earlier: &[Short],
    at: At<'t, 'a>,
) -> Read<'t, 'a, &'a [u8]>
    ensures { Reads (λ n. n.now) levels (rows.heading rules earlier.now) at.now result }
{
    let more = take_word(at, Keyword::App)?;
    let (name, end) = own_name(rules, earlier, more)?;
    let rest = take_symbol(end, Symbol::Semicolon)?;
    Ok((name, rest))
}

// `NAME`, which is none of those so far.
fn another<'t, 'a>(
    rules: AppFault,
    names: &mut IndexSet<&'a [u8]>,
    at: At<'t, 'a>,
) -> Result<At<'t, 'a>, Stop>
    ensures { let meaning = words.names_in rules (names_seen names.old.keys) in
        Gives (names_seen names.new.keys) (reading.token_of meaning (terminals at.now)) result }
{
    let (name, rest) = new_name(rules, names, at)?;
    add_name(names, name)?;
    Ok(rest)
}

// `{ "," NAME }`
fn further_names<'t, 'a>(
    levels: usize,
    rules: AppFault,
    names: &mut IndexSet<&'a [u8]>,
    at: At<'t, 'a>,
) -> Result<At<'t, 'a>, Stop>
    ensures { let part = rows.further_names rules (names_seen names.old.keys) in
        Gives (names_seen names.new.keys) (read grammar levels part (terminals at.now)) result }
{
    let (_, mut rest) = at.split_at(0);
    'names: while symbol_is_next(rest, Symbol::Comma) {
        let more = take_symbol(rest, Symbol::Comma)?;
        rest = another(rules, names, more)?;
    }
    Ok(rest)
}

// `"var" NAME { "," NAME } ";"`
#[tactic(auto, unfolding(crate::specs::Grammar::declaration))]
fn declaration<'t, 'a>(
    levels: usize,
    rules: AppFault,
    names: &mut IndexSet<&'a [u8]>,
    at: At<'t, 'a>,
) -> Result<At<'t, 'a>, Stop>
    ensures { let part = rows.declaration rules (names_seen names.old.keys) in
        Gives (names_seen names.new.keys) (read grammar levels part (terminals at.now)) result }
{
    let more = take_word(at, Keyword::Var)?;
    let more = another(rules, names, more)?;
    let end = further_names(levels, rules, names, more)?;
    take_symbol(end, Symbol::Semicolon)
}

// `{ "var" NAME { "," NAME } ";" }`
fn declarations<'t, 'a>(
    levels: usize,
    rules: AppFault,
    names: &mut IndexSet<&'a [u8]>,
    at: At<'t, 'a>,
) -> Result<At<'t, 'a>, Stop>
    ensures { let part = rows.declarations rules (names_seen names.old.keys) in
        Gives (names_seen names.new.keys) (read grammar levels part (terminals at.now)) result }
{
    let (_, mut rest) = at.split_at(0);
    'declarations: while word_is_next(rest, Keyword::Var) {
        rest = declaration(levels, rules, names, rest)?;
    }
    Ok(rest)
}

// `order ";"`
#[tactic(auto, unfolding(crate::specs::Grammar::startup_order))]
fn startup_order<'t, 'a>(levels: usize, env: &Env<'a>, at: At<'t, 'a>) -> Read<'t, 'a, Order<'a>>
    requires { env_seen env.now ≡ spec.startup_env (env_seen env.now).rules }
    ensures { Reads order_seen levels (rows.startup_order (env_seen env.now).rules) at.now result }
{
    let (order, end) = order(levels, env, at)?;
    let rest = take_symbol(end, Symbol::Semicolon)?;
    Ok((order, rest))
}

// `{ order ";" }`
fn startup_orders<'t, 'a>(
    alloc: Global,
    levels: usize,
    env: &Env<'a>,
    at: At<'t, 'a>,
) -> Read<'t, 'a, Items<Order<'a>>>
    requires { env_seen env.now ≡ spec.startup_env (env_seen env.now).rules }
    ensures { let part = rows.startup_orders (env_seen env.now).rules in
        Reads (map order_seen) levels part at.now result }
{
    let mut found = Items::new(alloc);
    let (_, mut rest) = at.split_at(0);
    'orders: while order_is_next(env.rules, rest) {
        let (next, after) = startup_order(levels, env, rest)?;
        found.push(next)?;
        rest = after;
    }
    Ok((found, rest))
}

// `[ "startup" "{" { order ";" } "}" ]`
#[tactic(auto, unfolding(crate::specs::Grammar::startup))]
fn startup<'t, 'a>(
    alloc: Global,
    levels: usize,
    rules: AppFault,
    at: At<'t, 'a>,
) -> Read<'t, 'a, Items<Order<'a>>>
    ensures { Reads (map order_seen) levels (rows.startup rules) at.now result }
{
    if !word_is_next(at, Keyword::Startup) {
        return Ok((Items::new(alloc), at));
    }
    let more = take_word(at, Keyword::Startup)?;
    let inside = take_symbol(more, Symbol::OpenBrace)?;
    let env = Env {
        rules,
        block: Block::Startup,
        names: IndexSet::new(alloc),
    };
    let (orders, end) = startup_orders(alloc, levels, &env, inside)?;
    let rest = take_symbol(end, Symbol::CloseBrace)?;
    Ok((orders, rest))
}

// `"proc" NAME block`
#[tactic(auto, unfolding(crate::specs::Grammar::procedure))]
fn procedure<'t, 'a>(
    alloc: Global,
    levels: usize,
    env: &Env<'a>,
    procs: &mut Procs<'a>,
    at: At<'t, 'a>,
) -> Result<At<'t, 'a>, Stop>
    ensures { let part = rows.procedure (env_seen env.now) (procs_seen procs.old) in
        Gives (procs_seen procs.new) (read grammar levels part (terminals at.now)) result }
{
    let more = take_word(at, Keyword::Proc)?;
    let (name, more) = new_name(env.rules, &procs.names, more)?;
    let (run, rest) = nested_block(alloc, levels, env, procs.room, more)?;
    procs.add(name, run)?;
    Ok(rest)
}

// `{ "proc" NAME block }`
fn procedures<'t, 'a>(
    alloc: Global,
    levels: usize,
    env: &Env<'a>,
    at: At<'t, 'a>,
) -> Read<'t, 'a, Procs<'a>>
    ensures { let part = rows.more_procedures (env_seen env.now) rows.no_procedure in
        Reads procs_seen levels part at.now result }
{
    let mut procs = Procs::new(alloc);
    let (_, mut rest) = at.split_at(0);
    'procedures: while word_is_next(rest, Keyword::Proc) {
        rest = procedure(alloc, levels, env, &mut procs, rest)?;
    }
    Ok((procs, rest))
}

// The script, behind its variables.
#[tactic(auto, unfolding(crate::specs::Grammar::rest_of))]
fn rest_of<'t, 'a>(
    alloc: Global,
    levels: usize,
    rules: AppFault,
    name: &'a [u8],
    names: IndexSet<&'a [u8]>,
    at: At<'t, 'a>,
) -> Read<'t, 'a, App<'a>>
    ensures { let part = rows.rest_of rules name.now (names_seen names.entry.keys) in
        Reads app_seen levels part at.now result }
{
    let (startup, more) = startup(alloc, levels, rules, at)?;
    let env = Env {
        rules,
        block: Block::Procedure,
        names,
    };
    let (procs, rest) = procedures(alloc, levels, &env, more)?;
    let variables = Items::from_slice(alloc, env.names.as_slice())?;
    let app = App {
        name,
        variables,
        startup,
        procedures: procs.procedures,
    };
    Ok((app, rest))
}

// `app`
#[tactic(auto, unfolding(crate::specs::Grammar::app, crate::specs::Grammar::declared))]
fn app<'t, 'a>(
    alloc: Global,
    levels: usize,
    rules: AppFault,
    earlier: &[Short],
    at: At<'t, 'a>,
) -> Read<'t, 'a, App<'a>>
    ensures { Reads app_seen levels (rows.app rules earlier.now) at.now result }
{
    let (name, more) = heading(levels, rules, earlier, at)?;
    let mut names = IndexSet::new(alloc);
    let more = declarations(levels, rules, &mut names, more)?;
    rest_of(alloc, levels, rules, name, names, more)
}

// The script that the tokens are, all of them.
fn whole_app<'a>(
    alloc: Global,
    rules: AppFault,
    earlier: &[Short],
    tokens: &[Token<'a>],
) -> Result<App<'a>, Stop>
    ensures { let part = rows.app rules earlier.now in
        Accepts app_seen (whole (read grammar MOST_LEVELS part (terminals tokens.now))) result }
{
    let (app, rest) = app(alloc, MOST_LEVELS, rules, earlier, tokens)?;
    if rest.is_empty() {
        Ok(app)
    } else {
        Err(Stop::Lost(rest.len()))
    }
}

/// The script that the tokens are, under the rules up to this fault; or why they are none.
pub fn parsed<'a>(
    alloc: Global,
    rules: AppFault,
    earlier: &[Short],
    tokens: &[Token<'a>],
) -> Result<App<'a>, Stop>
    ensures { let told = answer rules earlier.now (kinds_of (map token_seen tokens.now)) in
        Accepts app_seen told result }
{
    whole_app(alloc, rules, earlier, tokens)
}
