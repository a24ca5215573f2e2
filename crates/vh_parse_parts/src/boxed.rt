//! Types in a box: little is held where a reading stops behind one.

ghost use Rattle.vh_ast.specs.Views.{type_tree};
ghost use Rattle.vh_parse_syntax.specs.Declarations.{a_type};
ghost use Rattle.vh_parse_expr.specs.Views.{Reads};

use sqlite_items::Boxed;
use std::alloc::Global;
use vh_ast::DataType;
use vh_parse_decl::data_type;
use vh_parse_expr::{At, Read};

// `type`
pub(crate) fn boxed_type<'t>(alloc: Global, depth: usize, at: At<'t>) -> Read<'t, Boxed<DataType>>
    ensures { Reads type_tree depth a_type at.entry result }
{
    let (data_type, rest) = data_type(alloc, depth, at)?;
    Ok((Boxed::new(alloc, data_type)?, rest))
}
