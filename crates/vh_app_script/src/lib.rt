//! The scripts of applications.
#![tactic(auto)]

mod app;
mod arguments;
mod block;
mod built;
mod bytes;
mod env;
mod fault;
mod laws;
mod lexer;
mod named;
mod read;
mod take;
mod token;
mod tree;
mod words;

pub use app::MOST_LEVELS;
pub use arguments::arguments as read_arguments;
pub use env::{Block, Env};
pub use fault::ScriptFault;
pub use laws::script_laws;
pub use lexer::tokens;
pub use read::read_script;
pub use token::{Keyword, Kind, Symbol, Token};
pub use tree::{App, Atom, Body, Command, Order, Procedure, Test};
pub use words::{BodyWord, Opening};
