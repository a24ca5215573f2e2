ghost use Rattle.std.specs.Prelude.{◌≡◌, ◌≤◌, ℕ, [], map, IfOk, slice_get};
ghost use Rattle.std.specs.List.{fold};
ghost use Rattle.std.specs.BTreeMap.{get};
ghost use Rattle.std.specs.Ordering.{nat_cmp};
ghost use Rattle.vh_logic.specs.declared.vector.TheConstants.{MAX_WIDTH};
ghost use Rattle.vh_design.specs.Validity.{IsThere};
ghost use Rattle.vh_store.specs.Opening.{unknown, undriven, table_of, literal_at, constant_in, first_value, opening_base, opening_record, with_one_driver, count_at, wired, is_call, first_result, result_at};
ghost use Rattle.vh_store.specs.Contents.{with_record};
ghost use Rattle.vh_store.specs.Views.{assigned_of, record_of};

use crate::net::Net;
use crate::record::{Base, Record};
use crate::store::DriverPosition;
use std::alloc::Global;
use std::collections::BTreeMap;
use vh_base::{DriverId, ExprId, NoMemory, ObjId};
use vh_design::{Design, Detail, DriverInfo, ExprKind, NetType, ObjectInfo, lowest_of};
use vh_logic::{Digit, Vec4, resize};

// x at each digit of an object.
fn unknown(object: &ObjectInfo) -> Vec4
    requires least { 1 ≤ (object.now).width }
    requires most { (object.now).width ≤ MAX_WIDTH }
    ensures { result ≡ unknown object.now }
{
    Vec4::filled(object.width, Digit::X, object.signed)
}

// The number at a detail's expression.
fn constant_in(d: &Design, detail: &Detail) -> Option<Vec4>
    requires { IsThere d.now detail.now }
    ensures { result ≡ constant_in (d.now).exprs detail.now }
{
    let Detail::Value(e) = detail else {
        return None;
    };
    match &d.expr(*e).kind {
        ExprKind::Literal(v) => Some(*v),
        _ => None,
    }
}

// What an object holds before all.
fn first_value(d: &Design, object: &ObjectInfo) -> Vec4
    requires there { IsThere d.now (object.now).detail }
    requires least { 1 ≤ (object.now).width }
    requires most { (object.now).width ≤ MAX_WIDTH }
    ensures { result ≡ first_value object.now (constant_in (d.now).exprs (object.now).detail) }
{
    match constant_in(d, &object.detail) {
        Some(v) => resize(&v, object.width, object.signed),
        None => unknown(object),
    }
}

// z at each digit of a net.
fn undriven(object: &ObjectInfo) -> Vec4
    requires least { 1 ≤ object.now.width }
    requires most { object.now.width ≤ MAX_WIDTH }
    ensures { result ≡ undriven object.now }
{
    Vec4::filled(object.width, Digit::Z, object.signed)
}

// The type of a net.
fn table_of(detail: &Detail) -> NetType
    ensures { result ≡ table_of detail.now }
{
    match detail {
        Detail::Net(table) => *table,
        _ => NetType::Wire,
    }
}

// What was assigned to an object before all.
fn opening_base(alloc: Global, d: &Design, object: &ObjectInfo) -> Result<Base, NoMemory>
    requires there { IsThere d.now object.now.detail }
    requires least { 1 ≤ object.now.width }
    requires most { object.now.width ≤ MAX_WIDTH }
    ensures { IfOk result (λ b. assigned_of b ≡ opening_base d.now.exprs object.now) }
{
    if object.kind.is_memory() {
        let words = vec![in alloc; unknown(object); object.words as usize]?;
        return Ok(Base::Words(lowest_of(&object.detail), words));
    }
    if object.kind.is_net() {
        let net = Net::new(alloc, table_of(&object.detail), undriven(object));
        return Ok(Base::Net(net));
    }
    Ok(Base::Value(first_value(d, object)))
}

fn opening_record(alloc: Global, d: &Design, object: &ObjectInfo) -> Result<Record, NoMemory>
    requires there { IsThere d.now object.now.detail }
    requires least { 1 ≤ object.now.width }
    requires most { object.now.width ≤ MAX_WIDTH }
    ensures { IfOk result (λ r. record_of r ≡ opening_record d.now.exprs object.now) }
{
    let base = opening_base(alloc, d, object)?;
    Ok(Record::plain(base))
}

// What each object holds before all.
pub(crate) fn opening_records(alloc: Global, d: &Design) -> Result<Vec<Record>, NoMemory>
    ensures { IfOk result
        (λ rs. map record_of rs.items ≡ map (opening_record d.now.exprs) d.now.objects) }
{
    let count = d.counts().objects;
    let mut records = Vec::with_capacity(alloc, count as usize)?;
    for o in 0..count {
        let record = opening_record(alloc, d, d.object(ObjId::new(o)))?;
        records.push(record)?;
    }
    Ok(records)
}

// A driver comes to its net, where that is there; answers its position.
fn connect_one(records: &mut [Record], x: &DriverInfo) -> Result<u32, NoMemory>
    requires least { 1 ≤ x.now.width }
    requires most { x.now.width ≤ MAX_WIDTH }
    ensures position { IfOk result
        (λ i. i ≡ count_at (slice_get (map record_of records.old) x.now.object)) }
    ensures records { let rs = map record_of records.old in IfOk result
        (λ i. map record_of records.new
        ≡ with_record (slice_get rs x.now.object) x.now.object (with_one_driver x.now) rs) }
{
    let number = x.object.number() as usize;
    if number < records.len() {
        let index = records[number].connect(x)?;
        return Ok(index);
    }
    Ok(0)
}

// Each driver comes to its net, in order; answers their positions.
pub(crate) fn connect(
    alloc: Global,
    d: &Design,
    records: &mut [Record],
) -> Result<Vec<DriverPosition>, NoMemory>
    ensures { IfOk result (λ ps. record { records = map record_of records.new; drivers = ps.items }
        ≡ fold wired (record { records = map record_of records.old; drivers = [] }) d.now.drivers) }
{
    let count = d.counts().drivers;
    let mut positions = Vec::with_capacity(alloc, count as usize)?;
    for x in 0..count {
        let driver = d.driver(DriverId::new(x));
        let index = connect_one(records, driver)?;
        positions.push(DriverPosition {
            object: driver.object,
            index,
        })?;
    }
    Ok(positions)
}

// Whether a call stands at an expression.
fn is_call(kind: &ExprKind) -> bool
    ensures { result ≡ is_call kind.now }
{
    matches!(kind, ExprKind::Call { .. } | ExprKind::SysCall(_))
}

// x for each call in an expression.
pub(crate) fn opening_results(
    alloc: Global,
    d: &Design,
) -> Result<BTreeMap<u32, Vec4, Global>, NoMemory>
    ensures { IfOk result (λ m. (e : ℕ) → get nat_cmp m e ≡ result_at (slice_get (d.now).exprs e)) }
{
    let mut results = BTreeMap::new(alloc);
    for e in 0..d.counts().exprs {
        let node = d.expr(ExprId::new(e));
        if is_call(&node.kind) {
            results.insert(e, Vec4::filled(node.width, Digit::X, node.signed))?;
        }
    }
    Ok(results)
}
