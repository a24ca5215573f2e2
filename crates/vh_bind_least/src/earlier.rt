ghost use Rattle.std.specs.Prelude.{◌≡◌};
ghost use Rattle.vh_bind_least.specs.Least;

use vh_base::{DesignFault, Place};

/// A fault of a design, and where it stands.
pub type Fault = (DesignFault, Place);

// Whether a place stands before another one.
fn is_earlier(p: Place, q: Place) -> bool
    ensures { result ≡ Least.is_earlier p q }
{
    p.file < q.file
        || (p.file == q.file && (p.line < q.line || (p.line == q.line && p.column < q.column)))
}

fn is_same(p: Place, q: Place) -> bool
    ensures { result ≡ Least.is_same p q }
{
    p.file == q.file && (p.line == q.line && p.column == q.column)
}

// The number of a fault; those of texts don't come here.
fn fault_number(fault: DesignFault) -> u32
    ensures { result ≡ Least.fault_number fault }
{
    match fault {
        DesignFault::N1 => 1,
        DesignFault::N2 => 2,
        DesignFault::N3 => 3,
        DesignFault::N4 => 4,
        DesignFault::N5 => 5,
        DesignFault::N6 => 6,
        DesignFault::N7 => 7,
        DesignFault::N8 => 8,
        DesignFault::N9 => 9,
        DesignFault::N10 => 10,
        DesignFault::N11 => 11,
        DesignFault::L1
        | DesignFault::L2
        | DesignFault::L3
        | DesignFault::L4
        | DesignFault::L5
        | DesignFault::L6
        | DesignFault::S1
        | DesignFault::S2
        | DesignFault::S3 => 0,
    }
}

// Whether the first stands before the second.
fn is_less(f: Fault, g: Fault) -> bool
    ensures { result ≡ Least.is_less f g }
{
    is_earlier(f.1, g.1) || (is_same(f.1, g.1) && fault_number(f.0) < fault_number(g.0))
}

/// The lesser of two faults: by place, and at one place by number.
pub fn lesser(f: Fault, g: Fault) -> Fault
    ensures { result ≡ Least.lesser f g }
{
    if is_less(g, f) { g } else { f }
}

/// The least fault so far.
pub fn least(so_far: Option<Fault>, fault: Option<Fault>) -> Option<Fault>
    ensures { result ≡ Least.least so_far fault }
{
    match (so_far, fault) {
        (None, fault) => fault,
        (Some(f), None) => Some(f),
        (Some(f), Some(g)) => Some(lesser(f, g)),
    }
}

/// A fault at a place, where there is one.
pub fn fault_if(is_one: bool, fault: DesignFault, place: Place) -> Option<Fault>
    ensures { result ≡ Least.fault_if is_one fault place }
{
    if is_one { Some((fault, place)) } else { None }
}
