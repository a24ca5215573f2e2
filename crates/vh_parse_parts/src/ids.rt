//! Lists of identifiers.

ghost use Rattle.std.specs.Prelude.{map};
ghost use Rattle.vh_ast.specs.declared.token.Id.{Id};
ghost use Rattle.vh_parse_syntax.specs.Parts.{an_id, comma_list};
ghost use Rattle.vh_parse_syntax.specs.Declarations as parts;
ghost use Rattle.vh_parse_expr.specs.Views.{Reads};

use std::alloc::Global;
use vh_ast::{Id, Ids};
use vh_parse_decl::{Listed, bare_id, list};
use vh_parse_expr::{At, Read, id};

// Identifiers.
struct Names;

impl Listed for Names {
    type Item = Id;

    ghost Tree = { Id };

    ghost view = { λ i. i };

    ghost part = { λ form. an_id };

    ghost advances = { λ form. tt };

    fn read<'t>(_alloc: Global, _depth: usize, _form: bool, at: At<'t>) -> Read<'t, Id> {
        id(at)
    }
}

// Identifiers behind which a range is left out, where it is so.
struct BareNames;

impl Listed for BareNames {
    type Item = Id;

    ghost Tree = { Id };

    ghost view = { λ i. i };

    ghost part = { parts.bare_id };

    ghost advances = { λ form. (tt, tt) };

    fn read<'t>(_alloc: Global, _depth: usize, form: bool, at: At<'t>) -> Read<'t, Id> {
        bare_id(form, at)
    }
}

// `ID { "," ID }`
pub(crate) fn ids<'t>(alloc: Global, depth: usize, at: At<'t>) -> Read<'t, Ids>
    ensures { Reads (λ all. all) depth (comma_list an_id) at.entry result }
{
    list::<Names>(alloc, depth, false, at)
}

// `ID { "," ID }`, behind each of which a range is left out, where it is so.
pub(crate) fn bare_ids<'t>(alloc: Global, depth: usize, barred: bool, at: At<'t>) -> Read<'t, Ids>
    ensures { Reads (λ all. all) depth (comma_list (parts.bare_id barred)) at.entry result }
{
    list::<BareNames>(alloc, depth, barred, at)
}
