ghost use Rattle.std.specs.Prelude.{◌≡◌};
ghost use Rattle.vh_sense.specs.Follows.{kept_by, follow_of};
ghost use Rattle.vh_sense.specs.Views.{follow_at, key_of};

use vh_base::{ExprId, ObjId};
use vh_design::{Operation, Single};

/// What a force or a procedural assign keeps up to date (IEEE 1364-2005, 9.3): the object, whether it is
/// forced, and the expression whose changes it follows.
#[derive(Clone, Copy, Debug, PartialEq, Eq)]
pub struct Follow {
    pub object: ObjId,
    pub force: bool,
    pub expr: ExprId,
}

// A follow as a key, whose order is that of follows.
#[derive(Clone, Copy, PartialEq, Eq, PartialOrd, Ord)]
pub(crate) struct Key {
    object: u32,
    assign: bool,
    expr: u32,
}

impl Key {
    pub(crate) fn new(f: Follow) -> Key
        ensures { result ≡ key_of f }
    {
        Key {
            object: f.object.number(),
            assign: !f.force,
            expr: f.expr.number(),
        }
    }

    pub(crate) fn follow(self) -> Follow
        ensures { result ≡ follow_at self }
    {
        Follow {
            object: ObjId::new(self.object),
            force: !self.assign,
            expr: ExprId::new(self.expr),
        }
    }
}

// What a statement with one label keeps up to date.
fn kept_by(single: Single) -> Option<Follow>
    ensures { result ≡ kept_by single }
{
    match single {
        Single::Force { object, value } => Some(Follow {
            object,
            force: true,
            expr: value,
        }),
        Single::Procedural { object, value } => Some(Follow {
            object,
            force: false,
            expr: value,
        }),
        _ => None,
    }
}

// What an operation keeps up to date.
pub(crate) fn follow_of(operation: &Operation) -> Option<Follow>
    ensures { result ≡ follow_of operation.now }
{
    match operation {
        Operation::Single(single) => kept_by(*single),
        _ => None,
    }
}
