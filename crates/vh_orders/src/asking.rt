ghost use Rattle.std.specs.Prelude.{◌≡◌, ◌++◌, ◌∷◌, [], Some, Ok, codes, IfOk, OnOk};
ghost use Rattle.std.specs.Fmt.{decimal};
ghost use Rattle.vh_base.specs.Checks.{with_ok};
ghost use Rattle.vh_objects.specs.Properties.{text_answer};
ghost use Rattle.vh_orders.specs.Orders.{answers, effect_of, thing_named, told, property_told, objects_of, same_handle, flag_number};
ghost use Rattle.vh_orders.specs.Things.{is_type, kind_alone, property_in, info_text, info_in, same_word, same_thing, code_number, error_number};
ghost use Rattle.vh_orders.specs.Views.{world_of, HasEffect};

use crate::halt::Halt;
use crate::tables::is_startup;
use crate::who::Who;
use crate::world::World;
use itoa::Buffer;
use std::alloc::Global;
use vh_base::{Answer, CbNumber, Code, HandleNo, NoMemory, Order, Property};
use vh_callbacks::Registration;
use vh_handles::Thing;
use vh_objects::{is_by_get_str, property, text_answer};

// Is it the property that tells the kind?
fn is_type(property: Property) -> bool
    ensures { result ≡ is_type property }
{
    matches!(property, Property::VpiType)
}

// The one property of what is no object of the design.
fn kind_alone(alloc: Global, property: Property, text: &[u8]) -> Result<Option<Answer>, NoMemory>
    ensures { IfOk result (λ a. a ≡ kind_alone property text.now) }
{
    if !is_type(property) {
        return Ok(None);
    }
    Ok(Some(text_answer(alloc, text)?))
}

// What a callback was registered with, as a text.
fn info_text(alloc: Global, registration: &Registration) -> Result<Vec<u8>, NoMemory>
    ensures { IfOk result (λ text. text.items ≡ info_text registration.now) }
{
    let mut text = Vec::from_slice(alloc, registration.reason.name().as_bytes())?;
    text.push(b' ')?;
    let mut buffer = Buffer::new();
    text.extend_from_slice(buffer.format(registration.user_data).as_bytes())?;
    Ok(text)
}

fn same_word(a: Option<u32>, b: Option<u32>) -> bool
    ensures { result ≡ same_word a b }
{
    match (a, b) {
        (None, None) => true,
        (Some(a), Some(b)) => a == b,
        (None, Some(_)) | (Some(_), None) => false,
    }
}

// Are two things one? Iterators are where both are one handle's.
fn same_thing(one: bool, a: Thing, b: Thing) -> bool
    ensures { result ≡ same_thing one a b }
{
    match a {
        Thing::Object(object) => match b {
            Thing::Object(other) => {
                object.id.number() == other.id.number() && same_word(object.word, other.word)
            }
            Thing::Iterator { .. } | Thing::Callback(_) | Thing::Event(_) => false,
        },
        Thing::Iterator { .. } => one && matches!(b, Thing::Iterator { .. }),
        Thing::Callback(c) => match b {
            Thing::Callback(other) => c.number() == other.number(),
            Thing::Object(_) | Thing::Iterator { .. } | Thing::Event(_) => false,
        },
        Thing::Event(serial) => match b {
            Thing::Event(other) => serial.number() == other.number(),
            Thing::Object(_) | Thing::Iterator { .. } | Thing::Callback(_) => false,
        },
    }
}

fn flag_number(flag: bool) -> u64
    ensures { result ≡ flag_number flag }
{
    if flag { 1 } else { 0 }
}

// The number of an error.
fn code_number(code: Code) -> u64
    ensures { result ≡ code_number code }
{
    match code {
        Code::E1 => 1,
        Code::E2 => 2,
        Code::E3 => 3,
        Code::E4 => 4,
        Code::E5 => 5,
        Code::E6 => 6,
        Code::E7 => 7,
        Code::E8 => 8,
        Code::E9 => 9,
        Code::E10 => 10,
        Code::E11 => 11,
        Code::E12 => 12,
        Code::E13 => 13,
        Code::E14 => 14,
        Code::E15 => 15,
        Code::E16 => 16,
    }
}

// The same, or 0 for none.
pub(crate) fn error_number(error: Option<Code>) -> u64
    ensures { result ≡ error_number error }
{
    match error {
        Some(code) => code_number(code),
        None => 0,
    }
}

impl World {
    // get and get_str: a property, of those that the routine answers.
    #[inline(never)]
    pub(crate) fn get(
        &self,
        alloc: Global,
        who: &Who,
        p: Property,
        h: Option<HandleNo>,
    ) -> Result<Answer, Halt>
        ensures { HasEffect (effect_of (Order.Get p h) who.now (world_of self.now))
            self.now result self.now }
    {
        if is_startup(who) {
            return Err(Halt::Refused(Code::E9));
        }
        self.property_told(alloc, is_by_get_str(p), p, h)
    }

    #[inline(never)]
    pub(crate) fn get_str(
        &self,
        alloc: Global,
        who: &Who,
        p: Property,
        h: Option<HandleNo>,
    ) -> Result<Answer, Halt>
        ensures { HasEffect (effect_of (Order.GetStr p h) who.now (world_of self.now))
            self.now result self.now }
    {
        if is_startup(who) {
            return Err(Halt::Refused(Code::E9));
        }
        self.property_told(alloc, !is_by_get_str(p), p, h)
    }

    // The property, unless it is one of those that the other routine answers.
    fn property_told(
        &self,
        alloc: Global,
        other: bool,
        p: Property,
        h: Option<HandleNo>,
    ) -> Result<Answer, Halt>
        ensures { HasEffect (property_told other p h (world_of self.now)) self.now result self.now }
    {
        let thing = match self.thing_named(h) {
            Ok(thing) => thing,
            Err(code) => return Err(Halt::Refused(code)),
        };
        if other {
            return Err(Halt::Refused(Code::E3));
        }
        let found = self.property_in(alloc, p, thing)?;
        self.told(found)
    }

    // A property of what a handle names.
    fn property_in(
        &self,
        alloc: Global,
        p: Property,
        thing: Thing,
    ) -> Result<Option<Answer>, NoMemory>
        ensures { IfOk result (λ a. a ≡ property_in (objects_of (world_of self.now)) p thing) }
    {
        match thing {
            Thing::Object(object) => property(alloc, self.simulation.design(), p, &object),
            Thing::Iterator { .. } => kind_alone(alloc, p, b"vpiIterator"),
            Thing::Callback(_) => kind_alone(alloc, p, b"vpiCallback"),
            Thing::Event(_) => kind_alone(alloc, p, b"vpiSchedEvent"),
        }
    }

    // A number or a text that is told.
    fn told(&self, answer: Option<Answer>) -> Result<Answer, Halt>
        ensures { HasEffect (told answer (world_of self.now)) self.now result self.now }
    {
        match answer {
            Some(Answer::Number(number)) => Ok(Answer::Number(number)),
            Some(Answer::Text(text)) => Ok(Answer::Text(text)),
            Some(Answer::Refused(code)) => Err(Halt::Refused(code)),
            Some(Answer::Done | Answer::Null | Answer::Handle(_)) | None => {
                Err(Halt::Refused(Code::E3))
            }
        }
    }

    // cb_info: what a callback was registered with.
    #[inline(never)]
    pub(crate) fn cb_info(
        &self,
        alloc: Global,
        who: &Who,
        h: Option<HandleNo>,
    ) -> Result<Answer, Halt>
        ensures { HasEffect (effect_of (Order.CbInfo h) who.now (world_of self.now))
            self.now result self.now }
    {
        if is_startup(who) {
            return Err(Halt::Refused(Code::E9));
        }
        let thing = match self.thing_named(h) {
            Ok(thing) => thing,
            Err(code) => return Err(Halt::Refused(code)),
        };
        match thing {
            Thing::Callback(c) => self.info_told(alloc, c),
            Thing::Object(_) | Thing::Iterator { .. } | Thing::Event(_) => {
                Err(Halt::Refused(Code::E2))
            }
        }
    }

    // The same of a callback.
    fn info_told(&self, alloc: Global, c: CbNumber) -> Result<Answer, Halt>
        ensures { HasEffect (with_ok (info_in (world_of self.now).callbacks (Thing.Callback c))
            (λ a. told (Some a) (world_of self.now))) self.now result self.now }
    {
        let Some(registration) = self.registry.info(c) else {
            return Err(Halt::Refused(Code::E2));
        };
        let text = info_text(alloc, &registration)?;
        let info = text_answer(alloc, text.as_slice())?;
        self.told(Some(info))
    }

    // compare: whether two handles name one thing.
    #[inline(never)]
    pub(crate) fn compare(
        &self,
        who: &Who,
        a: Option<HandleNo>,
        b: Option<HandleNo>,
    ) -> Result<Answer, Halt>
        ensures { HasEffect (effect_of (Order.Compare a b) who.now (world_of self.now))
            self.now result self.now }
    {
        if is_startup(who) {
            return Err(Halt::Refused(Code::E9));
        }
        let Some(handle) = a else {
            return Err(Halt::Refused(Code::E1));
        };
        let Some(thing) = self.handles.thing(handle) else {
            return Err(Halt::Refused(Code::E1));
        };
        self.compare_with(handle, thing, b)
    }

    // The same of a live handle and its thing with another one.
    fn compare_with(
        &self,
        handle: HandleNo,
        thing: Thing,
        b: Option<HandleNo>,
    ) -> Result<Answer, Halt>
        ensures { HasEffect (with_ok (thing_named b (world_of self.now)) (λ u. Ok (answers
            (Answer.Number (flag_number (same_thing (same_handle (Some handle) b) thing u)))
            (world_of self.now)))) self.now result self.now }
    {
        let Some(other) = b else {
            return Err(Halt::Refused(Code::E1));
        };
        let Some(second) = self.handles.thing(other) else {
            return Err(Halt::Refused(Code::E1));
        };
        let same = same_thing(handle.number() == other.number(), thing, second);
        Ok(Answer::Number(flag_number(same)))
    }

    // free: the handle is freed, and what it named stays.
    pub(crate) fn free(&mut self, who: &Who, h: Option<HandleNo>) -> Result<Answer, Halt>
        ensures { HasEffect (effect_of (Order.Free h) who.now (world_of self.old))
            self.old result self.new }
    {
        if is_startup(who) {
            return Err(Halt::Refused(Code::E9));
        }
        let Some(handle) = h else {
            return Err(Halt::Refused(Code::E1));
        };
        let Some(_) = self.handles.thing(handle) else {
            return Err(Halt::Refused(Code::E1));
        };
        self.handles.free(handle);
        Ok(Answer::Number(1))
    }
}
