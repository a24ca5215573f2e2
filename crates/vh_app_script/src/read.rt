//! A script of bytes: its tree, or its first fault and where that stands.

ghost use Rattle.std.specs.Prelude.{◌≡◌, ◌<◌, length, map, option_map, Err, IfOk};
ghost use Rattle.vh_parse_grammar.specs.Says.{Stops};
ghost use Rattle.vh_base.specs.declared.faults.AppFault.TheVariants.{A5};
ghost use Rattle.vh_app_script.specs.Answers as spec;
ghost use Rattle.vh_app_script.specs.Answers.{answer, answered, script_of};
ghost use Rattle.vh_app_script.specs.Places as places;
ghost use Rattle.vh_app_script.specs.Spelling.{kinds_of};
ghost use Rattle.vh_app_script.specs.Views.{IsAnswer, token_seen};

use crate::app::parsed;
use crate::fault::ScriptFault;
use crate::lexer;
use crate::token::{Kind, Token};
use crate::tree::App;
use std::alloc::Global;
use vh_base::{AppFault, NoMemory, Place, Short};
use vh_parse_grammar::Stop;

// The token with so many left, itself among them.
fn token_at<'a>(tokens: &[Token<'a>], left: usize) -> Option<Token<'a>>
    ensures { option_map token_seen result ≡ spec.token_at (map token_seen tokens.now) left }
{
    tokens.get(tokens.len().saturating_sub(left)).copied()
}

// Whether no token begins there, or a number is too large.
fn is_wrong(token: Option<Token<'_>>) -> bool
    ensures { result ≡ spec.is_wrong (option_map token_seen token.entry) }
{
    match token {
        None => false,
        Some(token) => matches!(token.kind, Kind::Wrong),
    }
}

// How many bytes are left at a token, and none behind the last one.
fn bytes_left(token: Option<Token<'_>>) -> usize
    ensures { result ≡ spec.bytes_left (option_map token_seen token.entry) }
{
    match token {
        None => 0,
        Some(token) => token.left,
    }
}

// Whether the tokens are refused at this one, under the rules up to this fault.
fn is_lost_at(
    alloc: Global,
    rules: AppFault,
    earlier: &[Short],
    tokens: &[Token<'_>],
    left: usize,
) -> Result<bool, NoMemory>
    ensures { let told = answer rules earlier.now (kinds_of (map token_seen tokens.now)) in
        IfOk result (λ b. b ≡ spec.is_lost_at told left) }
{
    match parsed(alloc, rules, earlier, tokens) {
        Ok(_) => Ok(false),
        Err(Stop::Lost(own)) => Ok(own == left),
        Err(Stop::Deep(_)) => Ok(false),
        Err(Stop::LeftOut(_)) => Ok(false),
        Err(Stop::Memory) => Err(NoMemory),
    }
}

// The first fault at a token that is refused. The tokens are read again under fewer rules.
fn fault_at(
    alloc: Global,
    earlier: &[Short],
    tokens: &[Token<'_>],
    left: usize,
) -> Result<AppFault, NoMemory>
    ensures { IfOk result (λ f. f ≡ spec.fault_at earlier.now (map token_seen tokens.now) left) }
{
    if is_wrong(token_at(tokens, left)) {
        return Ok(AppFault::A1);
    }
    if is_lost_at(alloc, AppFault::A2, earlier, tokens, left)? {
        return Ok(AppFault::A2);
    }
    if is_lost_at(alloc, AppFault::A3, earlier, tokens, left)? {
        return Ok(AppFault::A3);
    }
    if is_lost_at(alloc, AppFault::A4, earlier, tokens, left)? {
        return Ok(AppFault::A4);
    }
    Ok(AppFault::A5)
}

// The place in the bytes at which so many of them are left.
fn place_at(bytes: &[u8], left: usize) -> Place
    requires { length bytes.now < 2147483648 }
    ensures { result ≡ places.place_at bytes.now left }
{
    let (front, _) = bytes.split_at(bytes.len().saturating_sub(left));
    let mut line = 1;
    let mut column = 1;
    for byte in front {
        if *byte == b'\n' {
            line += 1;
            column = 1;
        } else {
            column += 1;
        }
    }
    Place {
        file: 0,
        line,
        column,
    }
}

// Where a token stands.
fn place_of(bytes: &[u8], tokens: &[Token<'_>], left: usize) -> Place
    requires { length bytes.now < 2147483648 }
    ensures { result ≡ spec.place_of bytes.now (map token_seen tokens.now) left }
{
    place_at(bytes, bytes_left(token_at(tokens, left)))
}

// What is answered where a parser stopped.
fn refused(
    alloc: Global,
    bytes: &[u8],
    earlier: &[Short],
    tokens: &[Token<'_>],
    stop: Stop,
) -> ScriptFault
    requires few { length bytes.now < 2147483648 }
    requires stopped { Stops (answer A5 earlier.now (kinds_of (map token_seen tokens.now))) stop }
    ensures { let told = answer A5 earlier.now (kinds_of (map token_seen tokens.now)) in
        IsAnswer (answered bytes.now earlier.now (map token_seen tokens.now) told) (Err result) }
{
    match stop {
        Stop::Lost(left) => match fault_at(alloc, earlier, tokens, left) {
            Ok(fault) => ScriptFault::Refused(fault, place_of(bytes, tokens, left)),
            Err(NoMemory) => ScriptFault::NoMemory,
        },
        Stop::Deep(left) => ScriptFault::Refused(AppFault::A5, place_of(bytes, tokens, left)),
        Stop::LeftOut(left) => ScriptFault::Refused(AppFault::A5, place_of(bytes, tokens, left)),
        Stop::Memory => ScriptFault::NoMemory,
    }
}

/// The script that the bytes are, in front of which scripts of these names stand; or its first
/// fault, and where that stands. Of two faults at one place the least is answered. It takes time
/// and memory in the number of bytes, and stack in the levels of blocks alone; a script that is
/// refused is read up to three times more.
pub fn read_script<'a>(
    alloc: Global,
    bytes: &'a [u8],
    earlier: &Vec<Short>,
) -> Result<App<'a>, ScriptFault>
    requires { length bytes.now < 2147483648 }
    // The answer is the table's for the tokens that the bytes spell; want of memory is the one free
    // answer.
    ensures { IsAnswer (script_of bytes.now earlier.now.items) result }
{
    let tokens = lexer::tokens(alloc, bytes)?;
    match parsed(alloc, AppFault::A5, earlier.as_slice(), tokens.as_slice()) {
        Ok(app) => Ok(app),
        Err(stop) => Err(refused(alloc, bytes, earlier.as_slice(), tokens.as_slice(), stop)),
    }
}
