ghost use Rattle.std.specs.Prelude.{◌≡◌, ◌≤◌, IfOk, Some, None};
ghost use Rattle.vh_logic.specs.declared.vector.TheConstants.{MAX_WIDTH};
ghost use Rattle.vh_store.specs.Opening.{count_in, one_driver_more, with_one_driver};
ghost use Rattle.vh_store.specs.Contents.{is_net, plain, assigned_at, assigned, memory, word_at, top_of, record_at, is_held, record_written, put_into, record_put, record_forced, record_released, record_procedural, record_deassigned, drives, redriven, record_driven, driver_in};
ghost use Rattle.vh_store.specs.Views.{assigned_of, record_of};
ghost use Rattle.vh_store.specs.Acts.{acted};

use crate::net::{Driven, Net};
use vh_base::{ExprId, NoMemory};
use vh_design::DriverInfo;
use vh_logic::{Digit, Vec4};

// What an object was assigned.
#[derive(Drop)]
pub(crate) enum Base {
    Value(Vec4),
    // The words of a memory, from its lowest address up.
    Words(u32, Vec<Vec4>),
    Net(Net),
}

impl Base {
    // What was assigned to the object, or to its word at an address.
    fn assigned(&self, at: Option<u32>) -> Option<Vec4>
        ensures { result ≡ assigned_at (assigned_of self.now) at }
    {
        match (self, at) {
            (Base::Value(v), None) => Some(*v),
            (Base::Words(lowest, words), Some(at)) => word_at(*lowest, words, at),
            (Base::Net(net), None) => Some(net.resolved()),
            (Base::Value(_) | Base::Net(_), Some(_)) | (Base::Words(..), None) => None,
        }
    }

    // It is assigned another value.
    fn assign(&mut self, at: Option<u32>, v: &Vec4)
        ensures { assigned_of self.new ≡ assigned at v.now (assigned_of self.old) }
    {
        match (self, at) {
            (Base::Value(old), None) => *old = *v,
            (Base::Words(lowest, words), Some(at)) => put_word(*lowest, words, at, v),
            (Base::Value(_), Some(_)) | (Base::Words(..), None) | (Base::Net(_), _) => {}
        }
    }

    // Has a driver this value?
    fn drives(&self, index: u32, v: &Vec4) -> bool
        ensures { result ≡ drives index v.now (assigned_of self.now) }
    {
        match self {
            Base::Net(net) => net.drives(index, v),
            Base::Value(_) | Base::Words(..) => true,
        }
    }

    // It takes a value.
    fn drive(&mut self, index: u32, v: &Vec4)
        ensures { assigned_of self.new ≡ redriven index v.now (assigned_of self.old) }
    {
        match self {
            Base::Net(net) => net.drive(index, v),
            Base::Value(_) | Base::Words(..) => {}
        }
    }

    // The value of a driver.
    fn driven(&self, index: u32) -> Option<Vec4>
        ensures { result ≡ driver_in index (assigned_of self.now) }
    {
        match self {
            Base::Net(net) => net.driven(index),
            Base::Value(_) | Base::Words(..) => None,
        }
    }

    // A driver more, which is z at each digit; answers how many there were.
    fn connect(&mut self, x: &DriverInfo) -> Result<u32, NoMemory>
        requires least { 1 ≤ x.now.width }
        requires most { x.now.width ≤ MAX_WIDTH }
        ensures position { IfOk result (λ i. i ≡ count_in (assigned_of self.old)) }
        ensures base { IfOk result
            (λ i. assigned_of self.new ≡ one_driver_more x.now (assigned_of self.old)) }
    {
        match self {
            Base::Net(net) => net.add(Driven {
                low: x.low,
                below: x.below,
                value: Vec4::filled(x.width, Digit::Z, false),
            }),
            Base::Value(_) | Base::Words(..) => Ok(0),
        }
    }

    fn is_net(&self) -> bool
        ensures { result ≡ is_net (assigned_of self.now) }
    {
        matches!(self, Base::Net(_))
    }
}

// A value that a force or an assign holds, and the expression that it follows, if there is one.
#[derive(Clone, Copy)]
pub(crate) struct Held {
    pub(crate) value: Vec4,
    pub(crate) from: Option<ExprId>,
}

// What is known of an object.
#[derive(Drop)]
pub(crate) struct Record {
    pub(crate) base: Base,
    // A put's value, which a net shows until one of its drivers has another.
    pub(crate) overridden: Option<Vec4>,
    pub(crate) procedural: Option<Held>,
    pub(crate) force: Option<Held>,
}

// What may be done to an object: a row for each call of the store.
#[derive(Clone, Copy)]
pub(crate) enum Act {
    Write(Option<u32>, Vec4),
    Put(Option<u32>, Vec4),
    Drive(u32, Vec4),
    Force(Vec4, Option<ExprId>),
    Release,
    Assign(Vec4, ExprId),
    Deassign,
}

impl Record {
    // A record of which nothing is known but what was assigned.
    pub(crate) fn plain(base: Base) -> Record
        ensures { record_of result ≡ plain (assigned_of base) }
    {
        Record {
            base,
            overridden: None,
            procedural: None,
            force: None,
        }
    }

    // What stands on top of the layers, over what was assigned.
    fn top(&self, v: Vec4) -> Vec4
        ensures { result ≡ top_of (record_of self.now) v }
    {
        if let Some(held) = self.force {
            return held.value;
        }
        if let Some(held) = self.procedural {
            return held.value;
        }
        self.overridden.unwrap_or(v)
    }

    // What the object shows, or its word at an address.
    pub(crate) fn shown(&self, at: Option<u32>) -> Option<Vec4>
        ensures { result ≡ record_at (Some (record_of self.now)) at }
    {
        let v = self.base.assigned(at)?;
        Some(self.top(v))
    }

    // Does a force or an assign hold it?
    fn is_held(&self) -> bool
        ensures { result ≡ is_held (record_of self.now) }
    {
        self.force.is_some() || self.procedural.is_some()
    }

    fn write(&mut self, at: Option<u32>, v: &Vec4)
        ensures { record_of self.new ≡ record_written at v.now (record_of self.old) }
    {
        if self.is_held() {
            return;
        }
        self.base.assign(at, v);
    }

    fn put(&mut self, at: Option<u32>, v: &Vec4)
        ensures { record_of self.new ≡ record_put at v.now (record_of self.old) }
    {
        if self.is_held() {
            return;
        }
        self.put_into(at, v);
    }

    // What a put does where nothing holds the object.
    fn put_into(&mut self, at: Option<u32>, v: &Vec4)
        ensures { record_of self.new
            ≡ put_into at v.now (record_of self.old) (record_of self.old).base }
    {
        if self.base.is_net() {
            if at.is_none() {
                self.overridden = Some(*v);
            }
            return;
        }
        self.base.assign(at, v);
    }

    fn drive(&mut self, index: u32, v: &Vec4)
        ensures { record_of self.new ≡ record_driven index v.now (record_of self.old) }
    {
        if self.base.drives(index, v) {
            return;
        }
        self.base.drive(index, v);
        self.overridden = None;
    }

    fn force(&mut self, v: &Vec4, from: Option<ExprId>)
        ensures { record_of self.new ≡ record_forced v.now from (record_of self.old) }
    {
        self.force = Some(Held { value: *v, from });
        self.overridden = None;
    }

    fn release(&mut self)
        ensures { record_of self.new ≡ record_released (record_of self.old) }
    {
        let Some(held) = self.force else {
            return;
        };
        if self.procedural.is_none() {
            self.base.assign(None, &held.value);
        }
        self.force = None;
    }

    fn assign(&mut self, v: &Vec4, from: ExprId)
        ensures { record_of self.new ≡ record_procedural v.now from (record_of self.old) }
    {
        self.procedural = Some(Held {
            value: *v,
            from: Some(from),
        });
    }

    fn deassign(&mut self)
        ensures { record_of self.new ≡ record_deassigned (record_of self.old) }
    {
        let Some(held) = self.procedural else {
            return;
        };
        self.base.assign(None, &held.value);
        self.procedural = None;
    }

    // A driver more; answers how many there were.
    pub(crate) fn connect(&mut self, x: &DriverInfo) -> Result<u32, NoMemory>
        requires least { 1 ≤ x.now.width }
        requires most { x.now.width ≤ MAX_WIDTH }
        ensures position { IfOk result (λ i. i ≡ count_in (record_of self.old).base) }
        ensures known { IfOk result
            (λ i. record_of self.new ≡ with_one_driver x.now (record_of self.old)) }
    {
        let index = self.base.connect(x)?;
        Ok(index)
    }

    // One of these.
    pub(crate) fn act(&mut self, act: &Act)
        ensures { record_of self.new ≡ acted act.now (record_of self.old) }
    {
        match act {
            Act::Write(at, v) => self.write(*at, v),
            Act::Put(at, v) => self.put(*at, v),
            Act::Drive(index, v) => self.drive(*index, v),
            Act::Force(v, from) => self.force(v, *from),
            Act::Release => self.release(),
            Act::Assign(v, from) => self.assign(v, *from),
            Act::Deassign => self.deassign(),
        }
    }

    // The value of one of a net's drivers.
    pub(crate) fn driven(&self, index: u32) -> Option<Vec4>
        ensures { result ≡ driver_in index (record_of self.now).base }
    {
        self.base.driven(index)
    }
}

// The word at an address.
fn word_at(lowest: u32, words: &[Vec4], at: u32) -> Option<Vec4>
    ensures { result ≡ word_at lowest words.now at }
{
    let position = at.checked_sub(lowest)?;
    words.get(position as usize).copied()
}

// Another word at an address, where the memory has it.
fn put_word(lowest: u32, words: &mut [Vec4], at: u32, v: &Vec4)
    ensures { memory lowest words.new ≡ assigned (Some at) v.now (memory lowest words.old) }
{
    if at < lowest {
        return;
    }
    let position = (at - lowest) as usize;
    if position < words.len() {
        words[position] = *v;
    }
}
