ghost use Rattle.std.specs.Prelude.{◌≡◌};

use crate::declared::Decl;
use crate::expr::Expr;
use crate::name::Name;
use crate::target::{Lv, Set};
use crate::timing::{Delay, Event};
use crate::token::Id;
use sqlite_items::{Boxed, Items};
use vh_base::Place;

/// `"=" | "<="` (IEEE 1364-2005, 9.2).
#[derive(Clone, Copy, Debug, PartialEq, Eq)]
pub enum AssignWord {
    Blocking,
    Nonblocking,
}

/// `"force" | "assign"` (IEEE 1364-2005, 9.3).
#[derive(Clone, Copy, Debug, PartialEq, Eq)]
pub enum ForceWord {
    Force,
    Assign,
}

/// `"release" | "deassign"` (IEEE 1364-2005, 9.3).
#[derive(Clone, Copy, Debug, PartialEq, Eq)]
pub enum ReleaseWord {
    Release,
    Deassign,
}

/// `"case" | "casez" | "casex"` (IEEE 1364-2005, 9.5).
#[derive(Clone, Copy, Debug, PartialEq, Eq)]
pub enum CaseWord {
    Case,
    Casez,
    Casex,
}

/// `"while" | "repeat"` (IEEE 1364-2005, 9.6).
#[derive(Clone, Copy, Debug, PartialEq, Eq)]
pub enum LoopWord {
    While,
    Repeat,
}

/// `"begin" .. "end" | "fork" .. "join"` (IEEE 1364-2005, 9.8).
#[derive(Clone, Copy, Debug, PartialEq, Eq)]
pub enum BlockWord {
    Begin,
    Fork,
}

/// A statement in which none stands. What is large stands in a box, so that it takes little in a row of
/// statements.
#[derive(Drop)]
pub enum Simple {
    /// `";"`
    Empty,
    /// `lv ( "=" | "<=" ) [ delay ] expr ";"`
    Assign {
        target: Lv,
        word: AssignWord,
        delay: Option<Boxed<Delay>>,
        value: Boxed<Expr>,
    },
    /// `"->" name ";"`
    Trigger(Name<Expr>),
    /// `"disable" name ";"`
    Disable(Name<Expr>),
    /// `( "force" | "assign" ) lv "=" expr ";"`
    Force(ForceWord, Boxed<Set>),
    /// `( "release" | "deassign" ) lv ";"`
    Release(ReleaseWord, Lv),
    /// `name [ "(" expr { "," expr } ")" ] ";"`: no expression where nothing is written.
    Call(Boxed<Name<Expr>>, Items<Expr>),
    /// `SYS [ "(" [ expr ] { "," [ expr ] } ")" ] ";"`: no argument for `()` too.
    System(Id, Items<Option<Expr>>),
}

/// `expr { "," expr } | "default"`
#[derive(Drop)]
pub enum Matched {
    Values(Items<Expr>),
    Default,
}

/// `citem = ( expr { "," expr } | "default" ) [ ":" ] stmt`, over statements `S`.
#[derive(Drop)]
pub struct Citem<S> {
    pub place: Place,
    pub matched: Matched,
    pub body: S,
}

/// What a statement is. What is large stands in a box, as in [`Simple`].
#[derive(Drop)]
pub enum StmtForm<S> {
    Simple(Simple),
    /// `delay stmt`
    Delay(Boxed<Delay>, Boxed<S>),
    /// `"@" ( .. ) stmt`
    Event(Boxed<Event>, Boxed<S>),
    /// `"wait" "(" expr ")" stmt`
    Wait(Boxed<Expr>, Boxed<S>),
    /// `"if" "(" expr ")" stmt [ "else" stmt ]`
    If {
        test: Boxed<Expr>,
        holds: Boxed<S>,
        fails: Option<Boxed<S>>,
    },
    /// `( "case" | "casez" | "casex" ) "(" expr ")" citem { citem } "endcase"`
    Case {
        word: CaseWord,
        value: Boxed<Expr>,
        citems: Items<Citem<S>>,
    },
    /// `"for" "(" lv "=" expr ";" expr ";" lv "=" expr ")" stmt`
    For {
        start: Boxed<Set>,
        test: Boxed<Expr>,
        step: Boxed<Set>,
        body: Boxed<S>,
    },
    /// `( "while" | "repeat" ) "(" expr ")" stmt`
    Loop {
        word: LoopWord,
        test: Boxed<Expr>,
        body: Boxed<S>,
    },
    /// `"forever" stmt`
    Forever(Boxed<S>),
    /// `"begin" [ ":" ID { decl } ] { stmt } "end" | "fork" [ ":" ID { decl } ] { stmt } "join"`
    Block {
        word: BlockWord,
        id: Option<Id>,
        decls: Items<Decl>,
        stmts: Items<S>,
    },
}

/// `stmt` (IEEE 1364-2005, 9 and Annex A.6). Its place is that of its first token.
#[derive(Drop)]
pub struct Stmt {
    pub place: Place,
    pub form: StmtForm<Stmt>,
}

impl Stmt {
    ghost use Rattle.std.specs.Prelude.{map};
    ghost use Rattle.vh_ast.specs.Statements.{stmt, case_stmt, citems};
    ghost use Rattle.vh_ast.specs.Views.{expr_tree, stmt_tree, citem_tree};

    /// `case`, `casez` or `casex`: a statement for each value.
    pub fn case(place: Place, word: CaseWord, value: Boxed<Expr>, all: Items<Citem<Stmt>>) -> Stmt
        ensures { let form = case_stmt word (expr_tree value) (citems (map citem_tree all)) in
            stmt_tree result ≡ stmt place form }
    {
        let form = StmtForm::Case {
            word,
            value,
            citems: all,
        };
        Stmt { place, form }
    }
}
