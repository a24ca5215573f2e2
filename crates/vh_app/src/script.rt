ghost use Rattle.std.specs.Prelude.{◌≡◌, true, slice_get, IfOk};
ghost use Rattle.vh_app.specs.Next as spec;
ghost use Rattle.vh_app.specs.Next.{ReturnsAt, came, next_of, number_of, procedure_in, procedure_named};

use crate::form::{Node, Procedure};
use crate::numbers::numbers_of;
use crate::point::Point;
use crate::value::{holds, set_to};
use crate::vars::Vars;
use indexmap::IndexMap;
use std::alloc::Global;
use std::marker::Model;
use vh_base::{NoMemory, Order, Seen, Sequence, Short};

/// A script that was read.
#[derive(Drop)]
pub struct Script {
    name: Short,
    variables: usize,
    procedures: Sequence<Procedure>,
    nodes: Sequence<Node>,
    // the number of the first procedure of each name
    numbers: IndexMap<Vec<u8>, usize>,
}

impl Model for Script {
    ghost use Rattle.vh_app.specs.Numbers.{IsTableOf};
    ghost use Rattle.vh_app.specs.Script.{ScriptData};

    ghost Value = { ScriptData };

    ghost view = { λ s. record {
      name = s.name;
      variables = s.variables;
      procedures = s.procedures;
      nodes = s.nodes;
    } };

    ghost invariant = { λ s. IsTableOf s.procedures s.numbers.entries };
}

impl Script {
    // A script of these parts. It takes memory for each name of a procedure.
    pub(crate) fn new(
        alloc: Global,
        name: Short,
        variables: usize,
        procedures: Vec<Procedure>,
        nodes: Vec<Node>,
    ) -> Result<Script, NoMemory>
        ensures { IfOk result (λ s. s ≡ record {
          name = name;
          variables = variables;
          procedures = procedures.items;
          nodes = nodes.items;
        }) }
    {
        let numbers = numbers_of(alloc, procedures.as_slice())?;
        Ok(Script {
            name,
            variables,
            procedures: Sequence::new(procedures),
            nodes: Sequence::new(nodes),
            numbers,
        })
    }

    /// Its name.
    pub fn name(&self) -> &Short
        ensures { result.now ≡ self.now.name }
    {
        &self.name
    }

    // How many variables it has.
    pub(crate) fn variable_count(&self) -> usize
        ensures { result ≡ self.now.variables }
    {
        self.variables
    }

    /// Where its startup begins.
    pub fn startup(&self) -> Point
        ensures { result ≡ spec.startup }
    {
        Point::new(0)
    }

    /// Where the procedure of this name begins, found by one hash of the name, whatever the number
    /// of the procedures.
    pub fn procedure(&self, name: &[u8]) -> Option<Point>
        ensures { result ≡ procedure_named self.now name.now }
    {
        self.start(self.number(name))
    }

    // The number of a procedure.
    fn number(&self, name: &[u8]) -> Option<usize>
        ensures { result ≡ number_of self.now name.now }
    {
        self.numbers.get(name).copied()
    }

    // Where a procedure begins, if there is one.
    fn start(&self, number: Option<usize>) -> Option<Point>
        ensures { result ≡ procedure_in self.now number }
    {
        let Some(n) = number else {
            return None;
        };
        match self.procedures.as_slice().get(n) {
            Some(procedure) => Some(Point::new(procedure.start)),
            None => None,
        }
    }

    /// Does an activation return at a point at once, with no variable that waits for an answer? Then nothing
    /// else happens there. Where it doesn't say so, [`Script::next`] does.
    pub fn returns_at(&self, at: &Point) -> bool
        ensures { result ≡ true → ReturnsAt self.now at.now }
    {
        if at.waiting.is_some() {
            return false;
        }
        matches!(self.nodes.as_slice().get(at.at), Some(Node::Return) | None)
    }

    /// The next order from a point that this script gave, and the point behind it. The variable that waits
    /// for the last order's answer gets it first. Takes memory for a text alone that it makes of a number,
    /// a handle or an error; its time grows with the steps on the way to the order.
    pub fn next(
        &self,
        alloc: Global,
        at: &mut Point,
        vars: &mut Vars,
        seen: &Seen,
    ) -> Result<Order, NoMemory>
        ensures { IfOk result (λ order. (order, at.new, vars.new)
            ≡ next_of self.now at.old vars.old seen.now) }
    {
        vars.store(at.waiting, &seen.last)?;
        *at = Point::new(at.at);
        for _ in 0..self.nodes.as_slice().len() {
            let ordered = self.step(alloc, at, vars, seen)?;
            if let Some(order) = ordered {
                return Ok(order);
            }
        }
        Ok(Order::Return)
    }

    // One step, which may be an order.
    fn step(
        &self,
        alloc: Global,
        at: &mut Point,
        vars: &mut Vars,
        seen: &Seen,
    ) -> Result<Option<Order>, NoMemory>
        ensures { IfOk result (λ order. record { order = order; at = at.new; vars = vars.new }
            ≡ came self.now seen.now vars.old (at.old).at) }
    {
        match self.nodes.as_slice().get(at.at) {
            Some(Node::Ask { target, form }) => {
                let order = self.order(alloc, vars, seen, form)?;
                *at = Point {
                    at: at.at + 1,
                    waiting: *target,
                };
                Ok(Some(order))
            }
            Some(
                Node::Set {
                    target,
                    value,
                    added,
                },
            ) => {
                let value = set_to(vars, seen, value, added)?;
                vars.set(*target, value);
                *at = Point::new(at.at + 1);
                Ok(None)
            }
            Some(Node::Choose { test, fails }) => {
                let next = if holds(vars, seen, test)? {
                    at.at + 1
                } else {
                    *fails
                };
                *at = Point::new(next);
                Ok(None)
            }
            Some(
                Node::Turn {
                    test,
                    holds: first,
                    fails,
                },
            ) => {
                let next = if holds(vars, seen, test)? {
                    *first
                } else {
                    *fails
                };
                *at = Point::new(next);
                Ok(Some(Order::Pass))
            }
            Some(Node::Go(to)) => {
                *at = Point::new(*to);
                Ok(None)
            }
            Some(Node::Return) | None => {
                *at = Point::new(at.at);
                Ok(Some(Order::Return))
            }
        }
    }
}
