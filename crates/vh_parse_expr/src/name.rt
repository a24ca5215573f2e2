//! Names with what could be their select, as they are read.

ghost use Rattle.std.specs.Prelude.{◌≡◌, IfOk, MatchResult, map};
ghost use Rattle.vh_ast.specs.Views.{expr_tree, name_tree, sel_tree, index_by};
ghost use Rattle.vh_parse_grammar.specs.declared.stop.Stop.TheVariants.{Memory};
ghost use Rattle.vh_parse_syntax.specs.Names.{last_of, index_of, sel_of, is_closed, whole_name, name_before, name_by, path_of, with_step};
ghost use Rattle.vh_parse_expr.specs.Views.{step_tree, part_tree, last_tree, path_tree, stem_tree, IsMade};

use crate::word::kept;
use sqlite_items::{Boxed, Items};
use std::alloc::Global;
use vh_ast::{Esel, Expr, Id, Name, Part, Sel, Step};
use vh_base::Place;
use vh_parse_grammar::Stop;

/// What stands behind the last `ID` of a path: nothing, one index, which is the name's or the
/// select's, or a select.
#[derive(Drop)]
pub enum Last {
    Plain,
    Indexed(Place, Boxed<Expr>),
    Closed(Sel<Expr>),
}

/// The steps of a path that are whole, and its last `ID`.
#[derive(Drop)]
pub struct Stem {
    pub earlier: Items<Step<Expr>>,
    pub id: Id,
}

/// A name with what could be its select.
#[derive(Drop)]
pub struct Path {
    pub stem: Stem,
    pub last: Last,
}

impl Last {
    // The first bracket of a select, or an index.
    pub(crate) fn new(place: Place, part: Part<Expr>) -> Last
        ensures { last_tree result ≡ last_of place (part_tree part) }
    {
        match part {
            Part::Index(index) => Last::Indexed(place, index),
            Part::Range(left, right) => Last::part(place, Part::Range(left, right)),
            Part::Up(base, width) => Last::part(place, Part::Up(base, width)),
            Part::Down(base, width) => Last::part(place, Part::Down(base, width)),
        }
    }

    // A select of one bracket.
    fn part(place: Place, part: Part<Expr>) -> Last
        ensures { result ≡ Last.Closed (Sel.Part (record { place = place; part = part })) }
    {
        Last::Closed(Sel::Part(Esel { place, part }))
    }

    // Whether it is a select that nothing else could be.
    pub(crate) fn is_closed(&self) -> bool
        ensures { result ≡ is_closed (last_tree self.now) }
    {
        match self {
            Last::Plain => false,
            Last::Indexed(..) => false,
            Last::Closed(_) => true,
        }
    }

    // The index that stays with the name where there is no select.
    fn into_index(self) -> Option<Boxed<Expr>>
        ensures { index_by expr_tree result ≡ index_of (last_tree self) }
    {
        match self {
            Last::Plain => None,
            Last::Indexed(_, index) => Some(index),
            Last::Closed(_) => None,
        }
    }

    // The select where there is one, in a box.
    fn into_sel(self, alloc: Global) -> Result<Option<Boxed<Sel<Expr>>>, Stop>
        ensures { MatchResult result (λ s. sel_tree s ≡ sel_of (last_tree self))
            (λ stop. stop ≡ Memory) }
    {
        match self {
            Last::Plain => Ok(None),
            Last::Indexed(place, index) => {
                Ok(Some(Boxed::new(alloc, Sel::Index(place, index))?))
            }
            Last::Closed(sel) => Ok(Some(Boxed::new(alloc, sel)?)),
        }
    }
}

impl Stem {
    // The stem with another `ID`, the index staying with the one before it.
    pub(crate) fn then(self, index: Option<Boxed<Expr>>, id: Id) -> Result<Stem, Stop>
        ensures { MatchResult result
            (λ s. stem_tree s ≡ with_step (stem_tree self) (index_by expr_tree index) id)
            (λ stop. stop ≡ Memory) }
    {
        let Stem {
            mut earlier,
            id: before,
        } = self;
        earlier.push(Step { id: before, index })?;
        Ok(Stem { earlier, id })
    }

    // A name of its steps, the index of the last one apart.
    fn into_name(self, alloc: Global, index: Option<Boxed<Expr>>) -> Result<Name<Expr>, Stop>
        ensures { MatchResult result
            (λ n. name_tree n ≡
            name_by (map step_tree self.earlier) self.id (index_by expr_tree index))
            (λ stop. stop ≡ Memory) }
    {
        let Stem { mut earlier, id } = self;
        let last = Step { id, index };
        if earlier.is_empty() {
            return Ok(Name {
                first: last,
                more: Items::new(alloc),
            });
        }
        earlier.push(last)?;
        let first = earlier.remove(0);
        Ok(Name {
            first,
            more: earlier,
        })
    }
}

impl Path {
    /// The path of one `ID`.
    pub fn new(alloc: Global, id: Id) -> Path
        ensures { path_tree result ≡ path_of id }
    {
        let earlier = Items::new(alloc);
        Path {
            stem: Stem { earlier, id },
            last: Last::Plain,
        }
    }

    /// Whether a select stands behind the name that could not be an index of it.
    pub fn is_closed(&self) -> bool
        ensures { result ≡ is_closed (path_tree self.now).last }
    {
        self.last.is_closed()
    }

    /// The path as a name: an index behind the last `ID` is the name's, and a select is dropped. It
    /// takes time in the number of steps.
    pub fn into_name(self, alloc: Global) -> Result<Name<Expr>, Stop>
        ensures { MatchResult result (λ n. name_tree n ≡ whole_name (path_tree self))
            (λ stop. stop ≡ Memory) }
    {
        self.stem.into_name(alloc, self.last.into_index())
    }

    /// The path as a name with a select, each in a box: an index behind the last `ID` is the select's.
    /// It takes time in the number of steps.
    pub fn into_selected(
        self,
        alloc: Global,
    ) -> Result<(Boxed<Name<Expr>>, Option<Boxed<Sel<Expr>>>), Stop>
        ensures { MatchResult result (λ n. IsMade n (path_tree self)) (λ stop. stop ≡ Memory) }
    {
        let sel = self.last.into_sel(alloc)?;
        let name = self.stem.into_name(alloc, None)?;
        Ok((Boxed::new(alloc, name)?, sel))
    }
}
