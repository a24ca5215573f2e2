ghost use Rattle.std.specs.Prelude.{◌≡◌, ◌<◌, ◌≤◌, length, slice_get, Some, true, IfSome, SomeIff};
ghost use Rattle.vh_logic.specs.declared.vector.TheConstants.{MAX_WIDTH};
ghost use Rattle.vh_design_nodes.specs.Fits.{has_body, fits_kind, IsOfKind};
ghost use Rattle.vh_design_nodes.specs.Kinds.{is_net, is_scope};
ghost use Rattle.vh_design_nodes.specs.Widths.{width_of, signed_of};
ghost use Rattle.vh_design_code.specs.Codes.{fits_wait};
ghost use Rattle.vh_design.specs.Handed.{shape_of};
ghost use Rattle.vh_design.specs.Validity.{body_at, CodeFits, CallFits, IsValid, IsCounted, IsMeasured, IsThere};

use crate::fitting::is_valid;
use crate::parts::Parts;
use std::marker::Model;
use vh_base::{DriverId, ExprId, ObjId, ProcId, ShowId, WaitId};
use vh_design_code::{Code, ShowCall, StmtInfo, WaitInfo};
use vh_design_nodes::{DriverInfo, ExprNode, MOST_UNIT, ObjectInfo, body_number};
use vh_logic::MAX_WIDTH;

/// A design that is valid by its type: contracts see the lists of its parts, each part at its
/// number, and the simulation's precision.
#[derive(Drop)]
pub struct Design {
    parts: Parts,
}

impl Model for Design {
    ghost use Rattle.vh_design.specs.Shape.{Shape};
    ghost use Rattle.vh_design.specs.Handed.{shape_of};
    ghost use Rattle.vh_design.specs.Validity.{IsDesign};

    ghost Value = { Shape };

    ghost view = { λ d. shape_of d.parts };

    ghost invariant = { λ d. IsDesign (shape_of d.parts) };
}

/// How many of each a design has: their numbers are below.
#[derive(Clone, Copy, Debug, PartialEq, Eq)]
pub struct Counts {
    pub objects: u32,
    pub processes: u32,
    pub drivers: u32,
    pub exprs: u32,
    pub waits: u32,
    pub shows: u32,
    pub stmts: u32,
}

impl Design {
    /// The design of these parts, or nothing where a rule is broken; takes no memory. It goes
    /// once over the elements, and a few times over the parts of each.
    pub fn build(parts: Parts) -> Option<Design>
        requires { IsCounted (shape_of parts) }
        ensures { SomeIff result (IsValid (shape_of parts)) (shape_of parts) }
    {
        if !is_valid(&parts) {
            return None;
        }
        Some(Design { parts })
    }

    /// An object of the design.
    pub fn object(&self, o: ObjId) -> &ObjectInfo
        requires { o < length self.now.objects }
        ensures value { slice_get self.now.objects o ≡ Some result.now }
        ensures scope { IfSome result.now.parent (λ p. p < o) }
        ensures least { 1 ≤ result.now.width }
        ensures most { result.now.width ≤ MAX_WIDTH }
        ensures detail { IsThere self.now result.now.detail }
    {
        &self.parts.objects[o.number() as usize]
    }

    /// An expression of the design.
    pub fn expr(&self, e: ExprId) -> &ExprNode
        requires { e < length self.now.exprs }
        ensures value { slice_get self.now.exprs e ≡ Some result.now }
        ensures fits { fits_kind self.now.objects self.now.precision e result.now.kind ≡ true }
        ensures measured { IsMeasured self.now result.now }
    {
        &self.parts.exprs[e.number() as usize]
    }

    /// The width of an expression where nothing around it asks for more.
    pub fn width(&self, e: ExprId) -> u32
        requires { e < length self.now.exprs }
        ensures value { result ≡ width_of self.now.exprs e }
        ensures least { 1 ≤ result }
        ensures most { result ≤ MAX_WIDTH }
    {
        self.expr(e).width
    }

    /// Whether an expression is signed where nothing around it is unsigned.
    pub fn is_signed(&self, e: ExprId) -> bool
        requires { e < length self.now.exprs }
        ensures { result ≡ signed_of self.now.exprs e }
    {
        self.expr(e).signed
    }

    /// A driver of the design.
    pub fn driver(&self, x: DriverId) -> &DriverInfo
        requires { x < length self.now.drivers }
        ensures value { slice_get self.now.drivers x ≡ Some result.now }
        ensures net { IsOfKind self.now.objects is_net result.now.object }
        ensures least { 1 ≤ result.now.width }
        ensures most { result.now.width ≤ MAX_WIDTH }
    {
        &self.parts.drivers[x.number() as usize]
    }

    /// The code of a process. A branch of a fork runs that of its parent.
    pub fn code(&self, p: ProcId) -> &Code
        requires { p < length self.now.codes }
        ensures value { slice_get self.now.codes p ≡ Some result.now }
        ensures fits { CodeFits self.now result.now }
    {
        &self.parts.codes[p.number() as usize]
    }

    /// The body of a task or function.
    pub fn body(&self, t: ObjId) -> &Code
        requires { has_body self.now.objects t ≡ true }
        ensures value { body_at self.now t ≡ Some result.now }
        ensures fits { CodeFits self.now result.now }
    {
        match body_number(&self.parts.objects, t) {
            Some(n) => &self.parts.bodies[n as usize],
            None => unreachable!(),
        }
    }

    /// A wait of the design.
    pub fn wait(&self, w: WaitId) -> &WaitInfo
        requires { w < length self.now.waits }
        ensures value { slice_get self.now.waits w ≡ Some result.now }
        ensures fits { fits_wait self.now.objects result.now ≡ true }
    {
        &self.parts.waits[w.number() as usize]
    }

    /// A display call of the design.
    pub fn show_call(&self, c: ShowId) -> &ShowCall
        requires { c < length self.now.shows }
        ensures value { slice_get self.now.shows c ≡ Some result.now }
        ensures fits { CallFits self.now result.now }
    {
        &self.parts.shows[c.number() as usize]
    }

    /// A statement of the design.
    pub fn stmt(&self, n: u32) -> &StmtInfo
        requires { n < length self.now.stmts }
        ensures value { slice_get self.now.stmts n ≡ Some result.now }
        ensures scope { IsOfKind self.now.objects is_scope result.now.scope }
    {
        &self.parts.stmts[n as usize]
    }

    /// How many of each there are.
    pub fn counts(&self) -> Counts
        ensures objects { result.objects ≡ length self.now.objects }
        ensures processes { result.processes ≡ length self.now.codes }
        ensures drivers { result.drivers ≡ length self.now.drivers }
        ensures exprs { result.exprs ≡ length self.now.exprs }
        ensures waits { result.waits ≡ length self.now.waits }
        ensures shows { result.shows ≡ length self.now.shows }
        ensures stmts { result.stmts ≡ length self.now.stmts }
        ensures valid { IsValid self.now }
    {
        Counts {
            objects: self.parts.objects.len() as u32,
            processes: self.parts.codes.len() as u32,
            drivers: self.parts.drivers.len() as u32,
            exprs: self.parts.exprs.len() as u32,
            waits: self.parts.waits.len() as u32,
            shows: self.parts.shows.len() as u32,
            stmts: self.parts.stmts.len() as u32,
        }
    }

    /// The simulation's precision, from 0 for 1 fs to 17 for 100 s.
    pub fn precision(&self) -> u8
        ensures value { result ≡ self.now.precision }
        ensures most { result ≤ MOST_UNIT }
    {
        self.parts.precision
    }
}
