ghost use Rattle.std.specs.Prelude.{◌≡◌};
ghost use Rattle.vh_logic.specs.Vector.{width_of, zip_digits};
ghost use Rattle.vh_store.specs.Resolution.{joined, wire_digit, wired_and_digit, wired_or_digit};

use vh_design::NetType;
use vh_logic::{Plane, Vec4};

// Two drivers' values of one net joined by the table of its type (IEEE 1364-2005, 4.6).
pub(crate) fn join(table: NetType, a: &Vec4, b: &Vec4) -> Vec4
    requires { width_of a.now ≡ width_of b.now }
    ensures value { result ≡ joined table a.now b.now }
    ensures width { width_of result ≡ width_of a.now }
{
    match table {
        NetType::Wire | NetType::Tri => wire(a, b),
        NetType::Wand | NetType::TriAnd => wired_and(a, b),
        NetType::Wor | NetType::TriOr => wired_or(a, b),
    }
}

// In each of the three, a vector takes the other's digits where it is z itself; where both are z
// the result of the operator is x, whose first bit is taken away.
fn wire(a: &Vec4, b: &Vec4) -> Vec4
    requires { width_of a.now ≡ width_of b.now }
    ensures value { result ≡ record {
      digits = zip_digits wire_digit a.now.digits b.now.digits;
      signed = a.now.signed;
    } }
    ensures width { width_of result ≡ width_of a.now }
{
    let (p, q): (Plane, Plane) = (a.aval(), a.bval());
    let (r, s): (Plane, Plane) = (b.aval(), b.bval());
    let first = q ^ (q & p);
    let second = s ^ (s & r);
    let left = p | (first & r);
    let right = r | (second & p);
    let unknown = (left ^ right) | ((q ^ first) | (first & s)) | ((s ^ second) | (second & q));
    let all = left | unknown;
    Vec4::from_planes(a.width(), all ^ (first & second), unknown, a.is_signed())
}

fn wired_and(a: &Vec4, b: &Vec4) -> Vec4
    requires { width_of a.now ≡ width_of b.now }
    ensures value { result ≡ record {
      digits = zip_digits wired_and_digit a.now.digits b.now.digits;
      signed = a.now.signed;
    } }
    ensures width { width_of result ≡ width_of a.now }
{
    let (p, q): (Plane, Plane) = (a.aval(), a.bval());
    let (r, s): (Plane, Plane) = (b.aval(), b.bval());
    let first = q ^ (q & p);
    let second = s ^ (s & r);
    let left = (q ^ first) | (first & s);
    let right = (s ^ second) | (second & q);
    let all = (p | (first & r) | left) & (r | (second & p) | right);
    Vec4::from_planes(
        a.width(),
        all ^ (first & second),
        all & (left | right),
        a.is_signed(),
    )
}

fn wired_or(a: &Vec4, b: &Vec4) -> Vec4
    requires { width_of a.now ≡ width_of b.now }
    ensures value { result ≡ record {
      digits = zip_digits wired_or_digit a.now.digits b.now.digits;
      signed = a.now.signed;
    } }
    ensures width { width_of result ≡ width_of a.now }
{
    let (p, q): (Plane, Plane) = (a.aval(), a.bval());
    let (r, s): (Plane, Plane) = (b.aval(), b.bval());
    let first = q ^ (q & p);
    let second = s ^ (s & r);
    let left = (q ^ first) | (first & s);
    let right = (s ^ second) | (second & q);
    let one = p | (first & r) | left;
    let other = r | (second & p) | right;
    let ones = (one ^ left) | (other ^ right);
    let all = one | other;
    Vec4::from_planes(a.width(), all ^ (first & second), all ^ ones, a.is_signed())
}
