ghost use Rattle.std.specs.Prelude.{◌≡◌, ◌≤◌, ◌+◌, length, IfOk};
ghost use Rattle.std.specs.List.{list_any};
ghost use Rattle.vh_lex.specs.Bytes.{is_line_end};
ghost use Rattle.vh_lex.specs.Directives;
ghost use Rattle.vh_lex.specs.Views.{named_seen};
ghost use Rattle.vh_lex.specs.Outcomes.{Went, Finds};
ghost use Rattle.vh_lex.specs.State.{first_setting};

use crate::bytes::{Class, after, begins, run_len, upto};
use crate::conditional::{Branch, Conditional};
use crate::directive::{Directive, is_directive};
use crate::fault::Stop;
use crate::gap::gap_len;
use crate::macro_text::macro_text;
use crate::name::{Named, is_long, name_of};
use crate::reader::Reader;
use crate::scale::{slash_behind, time_behind};
use crate::setting::{DefaultNet, Setting};
use std::alloc::Global;
use vh_base::DesignFault;

impl Reader {
    // Performs a directive in text that is read, behind whose name, `at` bytes behind the
    // backquote, the bytes stand; answers how many bytes it has.
    pub(crate) fn directed(
        &mut self,
        alloc: Global,
        directive: Directive,
        at: usize,
        bytes: &[u8],
    ) -> Result<usize, Stop>
        requires { at + length bytes.now ≤ usize.MAX }
        ensures { Went (Directives.directed directive at bytes.now self.old) result self.new }
    {
        match directive {
            Directive::Define => self.define(alloc, at, bytes),
            Directive::Undef => self.undef(alloc, at, bytes),
            Directive::Ifdef => self.ifdef(true, at, bytes),
            Directive::Ifndef => self.ifdef(false, at, bytes),
            Directive::Elsif => self.elsif(at, bytes),
            Directive::Else => self.else_branch(at),
            Directive::Endif => self.endif(at),
            Directive::Timescale => self.timescale(at, bytes),
            Directive::DefaultNettype => self.default_nettype(at, bytes),
            Directive::Resetall => {
                self.setting = first_setting();
                Ok(at)
            }
            Directive::Other => refused(),
        }
    }

    // Performs a directive of a conditional in skipped text, and passes over another one.
    pub(crate) fn seen_directive(
        &mut self,
        directive: Directive,
        at: usize,
        bytes: &[u8],
    ) -> Result<usize, Stop>
        requires { at + length bytes.now ≤ usize.MAX }
        ensures { Went (Directives.seen_directive directive at bytes.now self.old) result self.new }
    {
        match directive {
            Directive::Ifdef => self.ifdef(true, at, bytes),
            Directive::Ifndef => self.ifdef(false, at, bytes),
            Directive::Elsif => self.elsif(at, bytes),
            Directive::Else => self.else_branch(at),
            Directive::Endif => self.endif(at),
            Directive::Define
            | Directive::Undef
            | Directive::Timescale
            | Directive::DefaultNettype
            | Directive::Resetall
            | Directive::Other => Ok(at),
        }
    }

    fn define(&mut self, alloc: Global, at: usize, bytes: &[u8]) -> Result<usize, Stop>
        requires { at + length bytes.now ≤ usize.MAX }
        ensures { Went (Directives.define at bytes.now self.old) result self.new }
    {
        let gap = gap_len(bytes);
        if has_line_end(upto(gap, bytes)) {
            return refused();
        }
        let behind = after(gap, bytes);
        let Some(named) = name_of(behind) else {
            return refused();
        };
        self.define_name(alloc, at + gap, named, behind)
    }

    fn define_name(
        &mut self,
        alloc: Global,
        at: usize,
        named: Named<'_>,
        bytes: &[u8],
    ) -> Result<usize, Stop>
        requires total { at + length bytes.now ≤ usize.MAX }
        requires inside { named.len ≤ length bytes.now }
        ensures { Went (Directives.define_name at (named_seen named.entry) bytes.now self.old)
            result self.new }
    {
        let behind = after(named.len, bytes);
        if is_directive(named.name) {
            return refused();
        }
        if begins(b'(', behind) {
            return Err(Stop::Fault(DesignFault::L3, 0));
        }
        if is_long(named.name) {
            return Err(Stop::Fault(DesignFault::L6, at));
        }
        let (parts, len) = macro_text(alloc, &mut self.made, behind)?;
        self.macros.set(alloc, named.name, Some(parts))?;
        Ok(at + named.len + len)
    }

    fn undef(&mut self, alloc: Global, at: usize, bytes: &[u8]) -> Result<usize, Stop>
        requires { at + length bytes.now ≤ usize.MAX }
        ensures { Went (Directives.undef at bytes.now self.old) result self.new }
    {
        let (from, named) = name_behind(at, bytes)?;
        self.macros.set(alloc, named.name, None)?;
        Ok(from + named.len)
    }

    fn ifdef(&mut self, wanted: bool, at: usize, bytes: &[u8]) -> Result<usize, Stop>
        requires { at + length bytes.now ≤ usize.MAX }
        ensures { Went (Directives.ifdef wanted at bytes.now self.old) result self.new }
    {
        let (from, named) = name_behind(at, bytes)?;
        let holds = condition(wanted, self.macros.has(named.name));
        let branch = opening(self.conditionals.skips(), holds);
        self.conditionals.push(Conditional {
            place: self.place,
            branch,
            has_else: false,
        })?;
        Ok(from + named.len)
    }

    fn elsif(&mut self, at: usize, bytes: &[u8]) -> Result<usize, Stop>
        requires { at + length bytes.now ≤ usize.MAX }
        ensures { Went (Directives.elsif at bytes.now self.old) result self.new }
    {
        let Some(innermost) = self.conditionals.innermost() else {
            return refused();
        };
        if innermost.has_else {
            return refused();
        }
        let (from, named) = name_behind(at, bytes)?;
        let branch = next_branch(innermost.branch, self.macros.has(named.name));
        self.conditionals.replace(Conditional {
            place: innermost.place,
            branch,
            has_else: innermost.has_else,
        });
        Ok(from + named.len)
    }

    fn else_branch(&mut self, at: usize) -> Result<usize, Stop>
        ensures { Went (Directives.else_ at self.old) result self.new }
    {
        let Some(innermost) = self.conditionals.innermost() else {
            return refused();
        };
        if innermost.has_else {
            return refused();
        }
        self.conditionals.replace(Conditional {
            place: innermost.place,
            branch: next_branch(innermost.branch, true),
            has_else: true,
        });
        Ok(at)
    }

    fn endif(&mut self, at: usize) -> Result<usize, Stop>
        ensures { Went (Directives.endif at self.old) result self.new }
    {
        if self.conditionals.innermost().is_none() {
            return refused();
        }
        self.conditionals.close();
        Ok(at)
    }

    fn timescale(&mut self, at: usize, bytes: &[u8]) -> Result<usize, Stop>
        requires { at + length bytes.now ≤ usize.MAX }
        ensures { Went (Directives.timescale at bytes.now self.old) result self.new }
    {
        let Some(unit) = time_behind(bytes) else {
            return refused();
        };
        let Some(precision) = slash_behind(after(unit.len, bytes)) else {
            return refused();
        };
        if precision.value > unit.value {
            return refused();
        }
        self.setting = Setting {
            unit: unit.value,
            precision: precision.value,
            default_net: self.setting.default_net,
        };
        Ok(at + unit.len + precision.len)
    }

    fn default_nettype(&mut self, at: usize, bytes: &[u8]) -> Result<usize, Stop>
        requires { at + length bytes.now ≤ usize.MAX }
        ensures { Went (Directives.default_nettype at bytes.now self.old) result self.new }
    {
        let gap = gap_len(bytes);
        let behind = after(gap, bytes);
        let len = run_len(Class::Name, behind);
        let Some(default_net) = net_of(upto(len, behind)) else {
            return refused();
        };
        self.setting = Setting {
            unit: self.setting.unit,
            precision: self.setting.precision,
            default_net,
        };
        Ok(at + gap + len)
    }
}

// A fault of the directive, at its backquote.
fn refused() -> Result<usize, Stop>
    ensures { result ≡ Err (Stop.Fault DesignFault.L2 0) }
{
    Err(Stop::Fault(DesignFault::L2, 0))
}

// What is set where no directive says otherwise: a unit and a precision of 1 ns, and wires.
pub(crate) fn first_setting() -> Setting
    ensures { result ≡ first_setting }
{
    Setting {
        unit: 6,
        precision: 6,
        default_net: DefaultNet::Wire,
    }
}

// The name that a directive takes, and how many bytes stand before it.
fn name_behind(at: usize, bytes: &[u8]) -> Result<(usize, Named<'_>), Stop>
    requires { at + length bytes.now ≤ usize.MAX }
    ensures found { Finds (Directives.name_behind at bytes.now) result }
    ensures inside { IfOk result (λ found. found.0 + found.1.len ≤ at + length bytes.now) }
{
    let gap = gap_len(bytes);
    let Some(named) = name_of(after(gap, bytes)) else {
        return Err(Stop::Fault(DesignFault::L2, 0));
    };
    if is_long(named.name) {
        return Err(Stop::Fault(DesignFault::L6, at + gap));
    }
    Ok((at + gap, named))
}

fn has_line_end(bytes: &[u8]) -> bool
    ensures { result ≡ list_any is_line_end bytes.now }
{
    bytes.iter().any(|b| *b == b'\n')
}

fn condition(wanted: bool, is_defined: bool) -> bool
    ensures { result ≡ Directives.condition wanted is_defined }
{
    if wanted { is_defined } else { !is_defined }
}

fn chosen(holds: bool) -> Branch
    ensures { result ≡ Directives.chosen holds }
{
    if holds { Branch::Read } else { Branch::Sought }
}

// A first branch, in text that is skipped or not.
fn opening(skips: bool, holds: bool) -> Branch
    ensures { result ≡ Directives.opening skips holds }
{
    if skips { Branch::Past } else { chosen(holds) }
}

// The branch behind one, where its condition holds or not.
fn next_branch(branch: Branch, holds: bool) -> Branch
    ensures { result ≡ Directives.next_branch branch holds }
{
    match branch {
        Branch::Sought => chosen(holds),
        Branch::Read | Branch::Past => Branch::Past,
    }
}

fn net_of(word: &[u8]) -> Option<DefaultNet>
    ensures { result ≡ Directives.net_of word.now }
{
    if b"wire".as_slice() == word {
        Some(DefaultNet::Wire)
    } else if b"none".as_slice() == word {
        Some(DefaultNet::Nothing)
    } else {
        None
    }
}
