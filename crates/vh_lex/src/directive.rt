ghost use Rattle.std.specs.Prelude.{◌≡◌, is_some};
ghost use Rattle.vh_lex.specs.Directives;

use crate::table::spelled;
use vh_base::is_name_start;

/// A directive (IEEE 1364-2005, clause 19).
#[derive(Clone, Copy, PartialEq, Eq)]
pub enum Directive {
    Define,
    Undef,
    Ifdef,
    Ifndef,
    Elsif,
    Else,
    Endif,
    Timescale,
    DefaultNettype,
    Resetall,
    /// A directive of the standard that is left out.
    Other,
}

// The directives by their names (IEEE 1364-2005, clause 19).
static DIRECTIVES: [(&[u8], Directive); 19] = [
    (b"define", Directive::Define),
    (b"undef", Directive::Undef),
    (b"ifdef", Directive::Ifdef),
    (b"ifndef", Directive::Ifndef),
    (b"elsif", Directive::Elsif),
    (b"else", Directive::Else),
    (b"endif", Directive::Endif),
    (b"timescale", Directive::Timescale),
    (b"default_nettype", Directive::DefaultNettype),
    (b"resetall", Directive::Resetall),
    (b"begin_keywords", Directive::Other),
    (b"celldefine", Directive::Other),
    (b"end_keywords", Directive::Other),
    (b"endcelldefine", Directive::Other),
    (b"include", Directive::Other),
    (b"line", Directive::Other),
    (b"nounconnected_drive", Directive::Other),
    (b"pragma", Directive::Other),
    (b"unconnected_drive", Directive::Other),
];

// The directive that a name behind a backquote is, if it is one.
pub(crate) fn directive_of(name: &[u8]) -> Option<Directive>
    ensures { result ≡ Directives.directive_of name.now }
{
    spelled(&DIRECTIVES, name)
}

// The directive that a name is with which these bytes behind a backquote begin; an escaped one
// is none.
pub(crate) fn directive_behind(bytes: &[u8], name: &[u8]) -> Option<Directive>
    ensures { result ≡ Directives.directive_behind bytes.now name.now }
{
    let Some((first, _)) = bytes.split_first() else {
        return None;
    };
    if is_name_start(*first) {
        return directive_of(name);
    }
    None
}

// Whether a name is the word of a directive.
pub(crate) fn is_directive(name: &[u8]) -> bool
    ensures { result ≡ is_some (Directives.directive_of name.now) }
{
    directive_of(name).is_some()
}
