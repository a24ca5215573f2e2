ghost use Rattle.std.specs.Prelude.{◌≡◌, ◌++◌, ◌∷◌, [], length, slice_get, IfOk};
ghost use Rattle.std.specs.Option.{option_map};
ghost use Rattle.vh_logic.specs.Vector.{width_of};
ghost use Rattle.vh_store.specs.Resolution.{placed, resolution};
ghost use Rattle.vh_store.specs.Contents.{resolved, has_value, with_value};

use crate::join::join;
use crate::same::is_same_value;
use std::alloc::Global;
use std::marker::Model;
use vh_base::NoMemory;
use vh_design::NetType;
use vh_logic::{Vec4, replace, select};

// A driver of a net: its value, of whose digits so many lie below the net's lowest, and the position
// of the next.
#[derive(Clone, Copy)]
pub(crate) struct Driven {
    pub(crate) low: u32,
    pub(crate) below: u32,
    pub(crate) value: Vec4,
}

// A net's drivers, and what they make of it, kept up to date.
#[derive(Drop)]
pub(crate) struct Net {
    table: NetType,
    undriven: Vec4,
    drivers: Vec<Driven>,
    resolved: Vec4,
}

impl Model for Net {
    ghost use Rattle.std.specs.Prelude.{◌≡◌};
    ghost use Rattle.vh_logic.specs.Vector.{width_of};
    ghost use Rattle.vh_store.specs.Resolution.{resolution};
    ghost use Rattle.vh_store.specs.Contents.{Net as State};

    ghost Value = { State };

    ghost view = { λ n. record {
      table = n.table;
      undriven = n.undriven;
      drivers = n.drivers.items;
    } };

    ghost invariant = { λ n. (n.resolved ≡ resolution n.table n.undriven n.drivers.items)
        × (width_of n.resolved ≡ width_of n.undriven) };
}

// The digits of a driver at their position in a net.
fn placed(undriven: &Vec4, driver: &Driven) -> Vec4
    ensures value { result ≡ placed undriven.now driver.now }
    ensures width { width_of result ≡ width_of undriven.now }
{
    let width = undriven.width();
    let most = driver.value.width();
    if driver.low >= width || driver.below >= most {
        return *undriven;
    }
    let inside = (most - driver.below).min(width - driver.low);
    let part = select(&driver.value, driver.below, inside);
    replace(undriven, driver.low, &part)
}

// What drivers make of a net: it goes once over them.
fn resolve(table: NetType, undriven: &Vec4, drivers: &[Driven]) -> Vec4
    ensures value { result ≡ resolution table undriven.now drivers.now }
    ensures width { width_of result ≡ width_of undriven.now }
{
    let mut all = *undriven;
    for driver in drivers {
        let digits = placed(undriven, driver);
        all = join(table, &all, &digits);
    }
    all
}

impl Net {
    // A net without drivers.
    pub(crate) fn new(alloc: Global, table: NetType, undriven: Vec4) -> Net
        ensures { result ≡ record { table = table; undriven = undriven; drivers = [] } }
    {
        Net {
            table,
            undriven,
            drivers: Vec::new(alloc),
            resolved: undriven,
        }
    }

    // What its drivers make of it.
    pub(crate) fn resolved(&self) -> Vec4
        ensures { result ≡ resolved self.now }
    {
        self.resolved
    }

    // The value of a driver by its position.
    pub(crate) fn driven(&self, index: u32) -> Option<Vec4>
        ensures { result ≡ option_map (λ d. d.value) (slice_get self.now.drivers index) }
    {
        self.drivers.get(index as usize).map(|driver| driver.value)
    }

    // Has it this value? One that isn't there has every value.
    pub(crate) fn drives(&self, index: u32, v: &Vec4) -> bool
        ensures { result ≡ has_value v.now (slice_get self.now.drivers index) }
    {
        match self.drivers.get(index as usize) {
            None => true,
            Some(driver) => is_same_value(&driver.value, v),
        }
    }

    // It takes a value.
    pub(crate) fn drive(&mut self, index: u32, v: &Vec4)
        ensures { let ds = self.old.drivers in
            let driven = with_value v.now (slice_get ds index) index ds in
            self.new ≡ record self.old { drivers = driven } }
    {
        take_value(&mut self.drivers, index as usize, v);
        self.resolved = resolve(self.table, &self.undriven, &self.drivers);
    }

    // A driver more; answers how many there were.
    pub(crate) fn add(&mut self, driver: Driven) -> Result<u32, NoMemory>
        ensures count { IfOk result (λ i. i ≡ length self.old.drivers) }
        ensures net { IfOk result
            (λ i. self.new ≡ record self.old { drivers = self.old.drivers ++ driver ∷ [] }) }
    {
        let Ok(index) = u32::try_from(self.drivers.len()) else {
            return Err(NoMemory);
        };
        let digits = placed(&self.undriven, &driver);
        self.drivers.push(driver)?;
        self.resolved = join(self.table, &self.resolved, &digits);
        Ok(index)
    }
}

fn take_value(drivers: &mut [Driven], index: usize, v: &Vec4)
    ensures { drivers.new ≡ with_value v.now (slice_get drivers.old index) index drivers.old }
{
    if index < drivers.len() {
        drivers[index].value = *v;
    }
}
