ghost use Rattle.std.specs.Prelude.{◌≡◌, false, map, slice_get, IfOk};
ghost use Rattle.std.specs.Option.{option_and_then};
ghost use Rattle.std.specs.BTreeMap.{is_at};
ghost use Rattle.std.specs.Map.{set_value};
ghost use Rattle.std.specs.Ordering.{nat_cmp};
ghost use Rattle.vh_store.specs.Views.{record_of};
ghost use Rattle.vh_logic.specs.declared.digits.Digit.TheVariants.{X};
ghost use Rattle.vh_logic.specs.Vector.{filled};
ghost use Rattle.vh_store.specs.Acts.{acted};
ghost use Rattle.vh_store.specs.Contents.{found, shown, edited, written, put_at, with_driven, driven, driver_at, forced, released, procedural, deassigned, is_forced, force_of, assign_of, whole, with_record, IsChange, IsDriven, result_of, with_result};
ghost use Rattle.vh_store.specs.Opening.{IsOpening};

use crate::opening::{connect, opening_records, opening_results};
use crate::record::{Act, Held, Record};
use crate::same::change_of;
use std::alloc::Global;
use std::collections::BTreeMap;
use std::marker::Model;
use vh_base::{DriverId, ExprId, NoMemory, ObjId, Object};
use vh_design::{Change, Design};
use vh_logic::{Digit, Vec4};

// A driver's net, and its position among the net's drivers.
#[derive(Clone, Copy)]
pub(crate) struct DriverPosition {
    pub(crate) object: ObjId,
    pub(crate) index: u32,
}

/// The values of a design's objects, which contracts see as `Contents`.
#[derive(Drop)]
pub struct Store {
    records: Vec<Record>,
    drivers: Vec<DriverPosition>,
    results: BTreeMap<u32, Vec4, Global>,
    time: u64,
}

impl Model for Store {
    ghost use Rattle.std.specs.Prelude.{map};
    ghost use Rattle.vh_store.specs.Contents.{Contents};
    ghost use Rattle.vh_store.specs.Views.{record_of};

    ghost Value = { Contents };

    ghost view = { λ s. record {
      records = map record_of s.records.items;
      drivers = s.drivers.items;
      results = s.results.entries;
      time = s.time;
    } };
}

// An object as a whole.
fn whole(o: ObjId) -> Object
    ensures { result ≡ whole o }
{
    Object { id: o, word: None }
}

// One x digit, which stands for the value of what has none.
fn no_value() -> Vec4
    ensures { result ≡ filled 1 X false }
{
    Vec4::filled(1, Digit::X, false)
}

impl Store {
    /// The store of a design at time 0: parameters and constants have their values, each driver is
    /// z at each digit and each net shows that, and all else is x.
    pub fn new(alloc: Global, d: &Design) -> Result<Store, NoMemory>
        ensures { IfOk result (λ s. IsOpening d.now s) }
    {
        let mut records = opening_records(alloc, d)?;
        let drivers = connect(alloc, d, &mut records)?;
        Ok(Store {
            records,
            drivers,
            results: opening_results(alloc, d)?,
            time: 0,
        })
    }

    /// The value that an object or a word of a memory shows; one x digit where the design has no
    /// such object or word. An object of a kind without a value shows x.
    pub fn shown(&self, o: Object) -> Vec4
        ensures { result ≡ shown self.now o }
    {
        self.found(o).unwrap_or(no_value())
    }

    /// The value that an object or a word of a memory shows; none where the design has no such
    /// object or word.
    pub fn found(&self, o: Object) -> Option<Vec4>
        ensures { result ≡ found self.now o }
    {
        self.records
            .get(o.id.number() as usize)
            .and_then(|record| record.shown(o.word))
    }

    // Something is done to an object.
    fn act(&mut self, o: Object, act: &Act) -> Option<Change>
        ensures contents { self.new ≡ edited o.id (acted act.now) self.old }
        ensures change { IsChange o (shown self.old o) (shown self.new o) result }
    {
        let old = self.shown(o);
        act_at(&mut self.records, &o, act);
        let new = self.shown(o);
        change_of(o, old, new)
    }

    /// Assigns a value to a variable or a word of a memory (IEEE 1364-2005, 9.2); where a force or
    /// a procedural assign holds it, it stays. The value has the object's width and sign.
    pub fn write(&mut self, o: Object, v: &Vec4) -> Option<Change>
        ensures contents { self.new ≡ written o v.now self.old }
        ensures change { IsChange o (shown self.old o) (shown self.new o) result }
    {
        self.act(o, &Act::Write(o.word, *v))
    }

    /// Puts a value there as an application does, without a force: it overrides a net until one of
    /// its drivers has another value. Where a force or a procedural assign holds the object, it
    /// stays.
    pub fn put(&mut self, o: Object, v: &Vec4) -> Option<Change>
        ensures contents { self.new ≡ put_at o v.now self.old }
        ensures change { IsChange o (shown self.old o) (shown self.new o) result }
    {
        self.act(o, &Act::Put(o.word, *v))
    }

    /// A driver of a net takes a value of its width (IEEE 1364-2005, 6.1). It goes once over the
    /// drivers of its net.
    pub fn drive(&mut self, x: DriverId, v: &Vec4) -> Option<Change>
        ensures contents { self.new ≡ with_driven x v.now self.old }
        ensures change { IsDriven (slice_get self.old.drivers x) self.old self.new result }
        ensures time { self.new.time ≡ self.old.time }
    {
        let position = self.position(x)?;
        self.act(whole(position.object), &Act::Drive(position.index, *v))
    }

    // The position of a driver.
    fn position(&self, x: DriverId) -> Option<DriverPosition>
        ensures { result ≡ slice_get self.now.drivers x }
    {
        self.drivers.get(x.number() as usize).copied()
    }

    /// The value of a driver; one x digit where the design has no such driver.
    pub fn driven(&self, x: DriverId) -> Vec4
        ensures { result ≡ driven self.now x }
    {
        self.driver_found(x).unwrap_or(no_value())
    }

    fn driver_found(&self, x: DriverId) -> Option<Vec4>
        ensures { result ≡ option_and_then (driver_at self.now) (slice_get self.now.drivers x) }
    {
        let position = self.position(x)?;
        self.records
            .get(position.object.number() as usize)
            .and_then(|record| record.driven(position.index))
    }

    /// Forces an object, with the expression that the force follows where a statement gave it
    /// (IEEE 1364-2005, 9.3.2). The value has the object's width and sign.
    pub fn force(&mut self, o: ObjId, v: &Vec4, from: Option<ExprId>) -> Option<Change>
        ensures contents { self.new ≡ forced o v.now from self.old }
        ensures change { IsChange (whole o) (shown self.old (whole o)) (shown self.new (whole o))
            result }
    {
        self.act(whole(o), &Act::Force(*v, from))
    }

    /// Ends the force of an object, where there is one: a net shows its drivers, a variable its
    /// procedural assign, and where there is none it keeps the value (IEEE 1364-2005, 9.3.2).
    pub fn release(&mut self, o: ObjId) -> Option<Change>
        ensures contents { self.new ≡ released o self.old }
        ensures change { IsChange (whole o) (shown self.old (whole o)) (shown self.new (whole o))
            result }
    {
        self.act(whole(o), &Act::Release)
    }

    /// A procedural assign of a variable begins, with the expression that it follows (IEEE
    /// 1364-2005, 9.3.1).
    pub fn assign(&mut self, o: ObjId, v: &Vec4, from: ExprId) -> Option<Change>
        ensures contents { self.new ≡ procedural o v.now from self.old }
        ensures change { IsChange (whole o) (shown self.old (whole o)) (shown self.new (whole o))
            result }
    {
        self.act(whole(o), &Act::Assign(*v, from))
    }

    /// It ends, where there is one, and the variable keeps its value (IEEE 1364-2005, 9.3.1).
    pub fn deassign(&mut self, o: ObjId) -> Option<Change>
        ensures contents { self.new ≡ deassigned o self.old }
        ensures change { IsChange (whole o) (shown self.old (whole o)) (shown self.new (whole o))
            result }
    {
        self.act(whole(o), &Act::Deassign)
    }

    // The force of an object.
    fn force_at(&self, o: ObjId) -> Option<Held>
        ensures { result ≡ option_and_then (λ r. r.force) (slice_get self.now.records o) }
    {
        self.records
            .get(o.number() as usize)
            .and_then(|record| record.force)
    }

    // Its procedural assign.
    fn assign_at(&self, o: ObjId) -> Option<Held>
        ensures { result ≡ option_and_then (λ r. r.procedural) (slice_get self.now.records o) }
    {
        self.records
            .get(o.number() as usize)
            .and_then(|record| record.procedural)
    }

    /// Whether an object is forced.
    pub fn is_forced(&self, o: ObjId) -> bool
        ensures { result ≡ is_forced self.now o }
    {
        self.force_at(o).is_some()
    }

    /// The expression that the force of an object follows; none where it isn't forced, or by a put.
    pub fn force_of(&self, o: ObjId) -> Option<ExprId>
        ensures { result ≡ force_of self.now o }
    {
        self.force_at(o)?.from
    }

    /// The expression that its procedural assign follows; none where there is no assign.
    pub fn assign_of(&self, o: ObjId) -> Option<ExprId>
        ensures { result ≡ assign_of self.now o }
    {
        self.assign_at(o)?.from
    }

    /// The last result of the call that stands at an expression; one x digit where none stands
    /// there.
    pub fn result(&self, e: ExprId) -> Vec4
        ensures { result ≡ result_of self.now e }
    {
        self.results.get(&e.number()).copied().unwrap_or(no_value())
    }

    /// The call at an expression has answered this.
    pub fn set_result(&mut self, e: ExprId, v: &Vec4)
        ensures { self.new ≡ with_result e v.now self.old }
    {
        answer(&mut self.results, e, v);
    }

    /// The present time, in units of the simulation's precision.
    pub fn time(&self) -> u64
        ensures { result ≡ (self.now).time }
    {
        self.time
    }

    /// Sets the present time.
    pub fn set_time(&mut self, time: u64)
        ensures { self.new ≡ record self.old { time = time } }
    {
        self.time = time;
    }
}

// Something is done to an object, where it is there.
fn act_at(records: &mut [Record], o: &Object, act: &Act)
    ensures { map record_of records.new
        ≡ with_record (slice_get (map record_of records.old) o.now.id) o.now.id (acted act.now)
        (map record_of records.old) }
{
    let number = o.id.number() as usize;
    if number < records.len() {
        records[number].act(act);
    }
}

// The call at an expression has answered.
fn answer(results: &mut BTreeMap<u32, Vec4, Global>, e: ExprId, v: &Vec4)
    ensures { results.new.entries ≡ set_value (is_at (nat_cmp e)) results.old.entries v.now }
{
    if let Some(last) = results.get_mut(&e.number()) {
        *last = *v;
    }
}
