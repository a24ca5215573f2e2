ghost use Rattle.std.specs.Prelude.{◌≡◌, ◌<◌, ℕ, length};
ghost use Rattle.vh_proc_simulation.specs.Clock.{asks_below, asks_time, is_clock};

use vh_base::ExprId;
use vh_design::{Design, ExprKind};
use vh_sense::{count_parts, part_at};

// Is it `$time`?
fn is_clock(kind: &ExprKind) -> bool
    ensures { result ≡ is_clock kind.now }
{
    matches!(kind, ExprKind::Time { .. })
}

// Whether it or a part of it reads the time. It is as deep as the expression.
fn asks_in(d: &Design, e: ExprId) -> bool
    requires { e < length d.now.exprs }
    ensures { (k : ℕ) → e < k → result ≡ asks_below k d.now.exprs e }
{
    let kind = &d.expr(e).kind;
    let mut found = is_clock(kind);
    for k in 0..count_parts(kind) {
        if let Some(part) = part_at(kind, k) {
            found |= asks_in(d, part);
        }
    }
    found
}

// Does the expression read the present time?
pub(crate) fn asks_time(d: &Design, e: ExprId) -> bool
    requires { e < length d.now.exprs }
    ensures { result ≡ asks_time d.now.exprs e }
{
    asks_in(d, e)
}
