//! Tokens, one at a time: what each means where it stands.

ghost use Rattle.std.specs.Prelude.{◌≡◌, length, option_map, is_some, false};
ghost use Rattle.vh_base.specs.Lists.{names_seen};
ghost use Rattle.vh_parse_grammar.specs.Reading as reading;
ghost use Rattle.vh_app_script.specs.Env as spec;
ghost use Rattle.vh_app_script.specs.Grammar.{is_word, begins_order};
ghost use Rattle.vh_app_script.specs.Spelling.{unescaped};
ghost use Rattle.vh_app_script.specs.Token.{is_symbol, is_spelled};
ghost use Rattle.vh_app_script.specs.Words as words;
ghost use Rattle.vh_app_script.specs.Views.{TakesToken, TakesMeaning, token_is_next, Says, terminals, env_seen, atom_seen, kind_seen, name_seen};

use crate::built;
use crate::env::{Block, Env, MOST_NAME, MOST_TEXT, counts};
use crate::named::{
    FORMATS, MODES, PROPERTIES, RELATIONS, Worded, control_of, kind_of, named, routine_of,
};
use crate::token::{Keyword, Kind, Symbol, Token};
use crate::tree::Atom;
use crate::words::{BodyWord, Opening};
use indexmap::IndexSet;
use vh_base::{AppFault, Format, Mode, Property, Reason, Relation, SystfKind};
use vh_parse_grammar::Stop;

/// The tokens before a parser.
pub type At<'t, 'a> = &'t [Token<'a>];

/// What a parser reads, and where it goes on.
pub type Read<'t, 'a, T> = Result<(T, &'t [Token<'a>]), Stop>;

// Whether the token is the symbol.
fn is_the_symbol(kind: Kind<'_>, symbol: Symbol) -> bool
    ensures { result ≡ is_symbol symbol (kind_seen kind.entry) }
{
    match kind {
        Kind::Symbol(own) => symbol.number() == own.number(),
        _ => false,
    }
}

// Whether the token is the word.
fn is_the_word(kind: Kind<'_>, keyword: Keyword) -> bool
    ensures { result ≡ is_word keyword (kind_seen kind.entry) }
{
    match kind {
        Kind::Word(_, own) => own == keyword.text(),
        _ => false,
    }
}

/// Whether the symbol is next.
pub fn symbol_is_next(at: At<'_, '_>, symbol: Symbol) -> bool
    ensures { result ≡ token_is_next (is_symbol symbol) at.now }
{
    match at {
        [] => false,
        [first, ..] => is_the_symbol(first.kind, symbol),
    }
}

/// Takes the symbol.
pub fn take_symbol<'t, 'a>(at: At<'t, 'a>, symbol: Symbol) -> Result<At<'t, 'a>, Stop>
    ensures { TakesToken (is_symbol symbol) at.now result }
{
    match at {
        [first, rest @ ..] if is_the_symbol(first.kind, symbol) => Ok(rest),
        _ => Err(Stop::Lost(at.len())),
    }
}

/// Whether the word is next.
pub fn word_is_next(at: At<'_, '_>, keyword: Keyword) -> bool
    ensures { result ≡ token_is_next (is_word keyword) at.now }
{
    match at {
        [] => false,
        [first, ..] => is_the_word(first.kind, keyword),
    }
}

/// Takes the word.
pub fn take_word<'t, 'a>(at: At<'t, 'a>, keyword: Keyword) -> Result<At<'t, 'a>, Stop>
    ensures { TakesToken (is_word keyword) at.now result }
{
    match at {
        [first, rest @ ..] if is_the_word(first.kind, keyword) => Ok(rest),
        _ => Err(Stop::Lost(at.len())),
    }
}

// What the first token was found to mean, before the others.
fn taken<'t, 'a, T: Copy>(found: Option<T>, rest: At<'t, 'a>) -> Read<'t, 'a, T>
    ensures { Says (λ t. t) (reading.taken found (terminals rest.now)) result }
{
    match found {
        Some(meaning) => Ok((meaning, rest)),
        None => Err(Stop::Lost(rest.len() + 1)),
    }
}

// What was found; where an unknown word isn't refused, any.
fn known<T: Copy>(rules: AppFault, any: T, found: Option<T>) -> Option<T>
    ensures { result ≡ words.known rules any found }
{
    match found {
        Some(meaning) => Some(meaning),
        None if counts(rules, AppFault::A3) => None,
        None => Some(any),
    }
}

// The one of these whose word is next.
fn worded<'t, 'a, T: Worded>(rules: AppFault, any: T, all: &[T], at: At<'t, 'a>) -> Read<'t, 'a, T>
    ensures { TakesMeaning (λ t. t) (words.one_of T.word rules any all.now) at.now result }
{
    let [first, rest @ ..] = at else {
        return Err(Stop::Lost(0));
    };
    match first.kind {
        Kind::Word(_, word) => taken(known(rules, any, named(all, word)), rest),
        _ => Err(Stop::Lost(at.len())),
    }
}

/// A reason.
pub fn reason<'t, 'a>(rules: AppFault, at: At<'t, 'a>) -> Read<'t, 'a, Reason>
    ensures { TakesMeaning (λ r. r) (words.reason_in rules) at.now result }
{
    worded(rules, Reason::CbValueChange, built::reasons(), at)
}

/// A relation.
pub fn relation<'t, 'a>(rules: AppFault, at: At<'t, 'a>) -> Read<'t, 'a, Relation>
    ensures { TakesMeaning (λ r. r) (words.relation_in rules) at.now result }
{
    worded(rules, Relation::VpiModule, &RELATIONS, at)
}

/// A property.
pub fn property<'t, 'a>(rules: AppFault, at: At<'t, 'a>) -> Read<'t, 'a, Property>
    ensures { TakesMeaning (λ r. r) (words.property_in rules) at.now result }
{
    worded(rules, Property::VpiType, &PROPERTIES, at)
}

/// A format.
pub fn format<'t, 'a>(rules: AppFault, at: At<'t, 'a>) -> Read<'t, 'a, Format>
    ensures { TakesMeaning (λ r. r) (words.format_in rules) at.now result }
{
    worded(rules, Format::VpiBinStrVal, &FORMATS, at)
}

/// A mode.
pub fn mode<'t, 'a>(rules: AppFault, at: At<'t, 'a>) -> Read<'t, 'a, Mode>
    ensures { TakesMeaning (λ r. r) (words.mode_in rules) at.now result }
{
    worded(rules, Mode::VpiNoDelay, &MODES, at)
}

/// `task` or `func`.
pub fn systf_kind<'t, 'a>(at: At<'t, 'a>) -> Read<'t, 'a, SystfKind>
    ensures { TakesMeaning (λ k. k) words.kind_in at.now result }
{
    let [first, rest @ ..] = at else {
        return Err(Stop::Lost(0));
    };
    match first.kind {
        Kind::Word(_, word) => taken(kind_of(word), rest),
        _ => Err(Stop::Lost(at.len())),
    }
}

/// Whether it is `stop`, and not `finish`.
pub fn control<'t, 'a>(at: At<'t, 'a>) -> Read<'t, 'a, bool>
    ensures { TakesMeaning (λ b. b) words.control_in at.now result }
{
    let [first, rest @ ..] = at else {
        return Err(Stop::Lost(0));
    };
    match first.kind {
        Kind::Word(_, word) => taken(control_of(word), rest),
        _ => Err(Stop::Lost(at.len())),
    }
}

// `proc`, and `native` where natives are built.
fn body_word_of(word: &[u8]) -> Option<BodyWord>
    ensures { result ≡ words.body_word_of word.now }
{
    if word == b"proc".as_slice() {
        Some(BodyWord::Proc)
    } else if built::natives() && word == b"native".as_slice() {
        Some(BodyWord::Native)
    } else {
        None
    }
}

/// `proc`, and `native` where natives are built.
pub fn body_word<'t, 'a>(at: At<'t, 'a>) -> Read<'t, 'a, BodyWord>
    ensures { TakesMeaning (λ b. b) words.body_word_in at.now result }
{
    let [first, rest @ ..] = at else {
        return Err(Stop::Lost(0));
    };
    match first.kind {
        Kind::Word(_, word) => taken(body_word_of(word), rest),
        _ => Err(Stop::Lost(at.len())),
    }
}

/// Whether a name is too long.
pub fn is_long_name(rules: AppFault, name: &[u8]) -> bool
    ensures { result ≡ spec.is_long_name rules name.now }
{
    counts(rules, AppFault::A5) && name.len() > MOST_NAME
}

// Whether a name is taken. It takes time that doesn't grow with the number of names.
fn is_taken(rules: AppFault, names: &IndexSet<&[u8]>, name: &[u8]) -> bool
    ensures { result ≡ spec.is_taken rules (names_seen names.now.keys) name.now }
{
    counts(rules, AppFault::A4) && names.contains(name)
}

// The number of a variable. It takes time that doesn't grow with the number of variables.
fn variable_of(names: &IndexSet<&[u8]>, name: &[u8]) -> Option<usize>
    ensures { result ≡ spec.variable_of (names_seen names.now.keys) name.now }
{
    names.get_index_of(name)
}

/// `NAME`
pub fn name<'t, 'a>(rules: AppFault, at: At<'t, 'a>) -> Read<'t, 'a, &'a [u8]>
    ensures { TakesMeaning (λ n. n.now) (words.name_in rules) at.now result }
{
    let [first, rest @ ..] = at else {
        return Err(Stop::Lost(0));
    };
    match first.kind {
        Kind::Word(_, word) => {
            if is_long_name(rules, word) {
                Err(Stop::Lost(at.len()))
            } else {
                Ok((word, rest))
            }
        }
        _ => Err(Stop::Lost(at.len())),
    }
}

/// `NAME`, which is none of these.
pub fn new_name<'t, 'a>(
    rules: AppFault,
    names: &IndexSet<&'a [u8]>,
    at: At<'t, 'a>,
) -> Read<'t, 'a, &'a [u8]>
    ensures { let meaning = words.new_name_in rules (names_seen names.now.keys) in
        TakesMeaning (λ n. n.now) meaning at.now result }
{
    let [first, rest @ ..] = at else {
        return Err(Stop::Lost(0));
    };
    match first.kind {
        Kind::Word(_, word) => {
            if is_taken(rules, names, word) || is_long_name(rules, word) {
                Err(Stop::Lost(at.len()))
            } else {
                Ok((word, rest))
            }
        }
        _ => Err(Stop::Lost(at.len())),
    }
}

/// A variable's name.
pub fn variable<'t, 'a>(names: &IndexSet<&'a [u8]>, at: At<'t, 'a>) -> Read<'t, 'a, usize>
    ensures { TakesMeaning (λ n. n) (words.variable_in (names_seen names.now.keys)) at.now result }
{
    let [first, rest @ ..] = at else {
        return Err(Stop::Lost(0));
    };
    match first.kind {
        Kind::Word(_, word) => taken(variable_of(names, word), rest),
        _ => Err(Stop::Lost(at.len())),
    }
}

// How many bytes a text has after its escapes.
fn unescaped_length(text: &[u8]) -> usize
    ensures { result ≡ length (unescaped false text.now) }
{
    let mut escaped = false;
    let mut length = 0;
    let mut rest = text;
    'text: while let [first, after @ ..] = rest {
        if !escaped && *first == b'\\' {
            escaped = true;
        } else {
            escaped = false;
            length += 1;
        }
        rest = after;
    }
    length
}

// Whether a text is too long.
fn is_long_text(rules: AppFault, text: &[u8]) -> bool
    ensures { result ≡ spec.is_long_text rules (unescaped false text.now) }
{
    counts(rules, AppFault::A5) && unescaped_length(text) > MOST_TEXT
}

// What a name is in an atom of a procedure.
fn procedure_word(names: &IndexSet<&[u8]>, word: &[u8]) -> Option<Atom<'static>>
    ensures { let names = names_seen names.now.keys in
        option_map atom_seen result ≡ words.procedure_word names word.now }
{
    if word == b"null".as_slice() {
        Some(Atom::Null)
    } else if word == b"obj".as_slice() {
        Some(Atom::Obj)
    } else if word == b"me".as_slice() {
        Some(Atom::Me)
    } else if word == b"value".as_slice() {
        Some(Atom::Value)
    } else if word == b"index".as_slice() {
        Some(Atom::Index)
    } else if word == b"data".as_slice() {
        Some(Atom::Data)
    } else if word == b"time".as_slice() {
        Some(Atom::Time)
    } else if word == b"last".as_slice() {
        Some(Atom::Last)
    } else {
        match variable_of(names, word) {
            Some(number) => Some(Atom::Variable(number)),
            None => None,
        }
    }
}

// What a name is in an atom.
fn atom_word(env: &Env<'_>, word: &[u8]) -> Option<Atom<'static>>
    ensures { let seen = env_seen env.now in
        option_map atom_seen result ≡ words.atom_word seen.block seen.variables word.now }
{
    match env.block {
        Block::Startup if word == b"null".as_slice() => Some(Atom::Null),
        Block::Startup => None,
        Block::Procedure => procedure_word(&env.names, word),
    }
}

// What a token is in an atom.
fn atom_of<'a>(env: &Env<'_>, kind: Kind<'a>) -> Option<Atom<'a>>
    ensures { let env = env_seen env.now in
        option_map atom_seen result ≡ words.atom_in env (kind_seen kind.entry) }
{
    match kind {
        Kind::Word(_, word) => atom_word(env, word),
        Kind::Number(number) => Some(Atom::Number(number)),
        Kind::Text(text) if is_long_text(env.rules, text) => None,
        Kind::Text(text) => Some(Atom::Text(text)),
        Kind::Symbol(_) => None,
        Kind::Wrong => None,
    }
}

/// `atom`
pub fn atom<'t, 'a>(env: &Env<'a>, at: At<'t, 'a>) -> Read<'t, 'a, Atom<'a>>
    ensures { TakesMeaning atom_seen (words.atom_in (env_seen env.now)) at.now result }
{
    let [first, rest @ ..] = at else {
        return Err(Stop::Lost(0));
    };
    match atom_of(env, first.kind) {
        Some(atom) => Ok((atom, rest)),
        None => Err(Stop::Lost(at.len())),
    }
}

// The word of an order.
fn order_word(rules: AppFault, word: &[u8]) -> Option<Opening>
    ensures { result ≡ words.order_word rules word.now }
{
    let found = match routine_of(word) {
        Some(routine) => Some(Opening::Ask(routine)),
        None => None,
    };
    known(rules, Opening::Nothing, found)
}

// The word of an order, if the token is one.
fn order_in(rules: AppFault, kind: Kind<'_>) -> Option<Opening>
    ensures { result ≡ words.order_in rules (kind_seen kind.entry) }
{
    match kind {
        Kind::Word(_, word) => order_word(rules, word),
        _ => None,
    }
}

/// What an order begins with, if it is next.
pub fn order_is_next(rules: AppFault, at: At<'_, '_>) -> bool
    ensures { result ≡ token_is_next (begins_order rules) at.now }
{
    match at {
        [] => false,
        [first, ..] => order_in(rules, first.kind).is_some(),
    }
}

/// The word of an order.
pub fn order_opening<'t, 'a>(rules: AppFault, at: At<'t, 'a>) -> Read<'t, 'a, Opening>
    ensures { TakesMeaning (λ o. o) (words.order_in rules) at.now result }
{
    match at {
        [] => Err(Stop::Lost(0)),
        [first, rest @ ..] => taken(order_in(rules, first.kind), rest),
    }
}

// What an order begins with, or a variable without a `=` behind it, or another word.
fn order_or_variable(env: &Env<'_>, word: &[u8]) -> Option<Opening>
    ensures { let seen = env_seen env.now in
        let variable = spec.variable_of seen.variables word.now in
        result ≡ words.order_or_variable seen.rules (words.routine_of word.now) variable }
{
    if let Some(routine) = routine_of(word) {
        return Some(Opening::Ask(routine));
    }
    if variable_of(&env.names, word).is_some() || !counts(env.rules, AppFault::A3) {
        Some(Opening::Nothing)
    } else {
        None
    }
}

// What a command begins with whose first word isn't aimed at.
fn plain_opening(env: &Env<'_>, word: &[u8]) -> Option<Opening>
    ensures { result ≡ words.plain_opening (env_seen env.now) word.now }
{
    if word == b"set".as_slice() {
        Some(Opening::Set)
    } else if word == b"return".as_slice() {
        Some(Opening::Return)
    } else if word == b"if".as_slice() {
        Some(Opening::If)
    } else if word == b"while".as_slice() {
        Some(Opening::While)
    } else {
        order_or_variable(env, word)
    }
}

// What a command begins with.
fn opening_of(env: &Env<'_>, aimed: bool, word: &[u8]) -> Option<Opening>
    ensures { result ≡ words.opening_of (env_seen env.now) aimed word.now }
{
    if !aimed {
        return plain_opening(env, word);
    }
    match variable_of(&env.names, word) {
        Some(number) => Some(Opening::Target(number)),
        None => None,
    }
}

// What a command begins with, if the token begins one and there is room for so many.
fn opening_in(env: &Env<'_>, room: usize, kind: Kind<'_>) -> Option<Opening>
    ensures { result ≡ words.opening_in (env_seen env.now) room (kind_seen kind.entry) }
{
    match kind {
        Kind::Word(aimed, word) => {
            if counts(env.rules, AppFault::A5) && room == 0 {
                None
            } else {
                opening_of(env, aimed, word)
            }
        }
        _ => None,
    }
}

/// Whether a command is next, where there is room for so many.
pub fn opening_is_next(env: &Env<'_>, room: usize, at: At<'_, '_>) -> bool
    ensures { let env = env_seen env.now in
        result ≡ token_is_next (λ t. is_some (words.opening_in env room t)) at.now }
{
    match at {
        [] => false,
        [first, ..] => opening_in(env, room, first.kind).is_some(),
    }
}

/// What a command begins with, where there is room for so many.
pub fn opening<'t, 'a>(env: &Env<'a>, room: usize, at: At<'t, 'a>) -> Read<'t, 'a, Opening>
    ensures { TakesMeaning (λ o. o) (words.opening_in (env_seen env.now) room) at.now result }
{
    match at {
        [] => Err(Stop::Lost(0)),
        [first, rest @ ..] => taken(opening_in(env, room, first.kind), rest),
    }
}
