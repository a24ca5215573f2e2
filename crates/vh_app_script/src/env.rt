//! What decides on a token beside the grammar's rows: which rules count, and which names are in
//! sight.

ghost use Rattle.std.specs.Prelude.{◌≡◌};
ghost use Rattle.vh_app_script.specs.Env as spec;

use indexmap::IndexSet;
use vh_base::AppFault;

/// The greatest number of bytes of a name.
pub const MOST_NAME: usize = 100;

/// The greatest number of bytes of a text, after its escapes.
pub const MOST_TEXT: usize = 255;

/// The greatest number of commands in the procedures of a script, nested ones too.
pub const MOST_COMMANDS: usize = 65536;

/// The kinds of blocks.
#[derive(Clone, Copy, Debug, PartialEq, Eq)]
pub enum Block {
    Startup,
    Procedure,
}

/// Where commands stand: the rules up to this fault count, and these are the variables.
#[derive(Drop)]
pub struct Env<'a> {
    pub rules: AppFault,
    pub block: Block,
    pub names: IndexSet<&'a [u8]>,
}

// The faults in order.
fn rank(fault: AppFault) -> u8
    ensures { result ≡ spec.rank fault }
{
    match fault {
        AppFault::A1 => 1,
        AppFault::A2 => 2,
        AppFault::A3 => 3,
        AppFault::A4 => 4,
        AppFault::A5 => 5,
    }
}

/// Whether the rules of a fault count where those up to another one do.
pub fn counts(rules: AppFault, fault: AppFault) -> bool
    ensures { result ≡ spec.counts rules fault }
{
    rank(fault) <= rank(rules)
}
