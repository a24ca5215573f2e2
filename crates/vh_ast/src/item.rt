use crate::data_type::{DataType, NetType};
use crate::declared::{Assigned, Decl, Net};
use crate::expr::Expr;
use crate::instance::{Conns, Gate, GateType, Inst};
use crate::port::{Direction, PortType};
use crate::routine::{Function, Task};
use crate::stmt::Stmt;
use crate::target::Set;
use crate::timing::Delay;
use crate::token::{Id, Ids};
use sqlite_items::{Boxed, Items};
use vh_base::Place;

/// `"parameter" | "localparam"` (IEEE 1364-2005, 4.10).
#[derive(Clone, Copy, Debug, PartialEq, Eq)]
pub enum ParameterWord {
    Parameter,
    Localparam,
}

/// `"initial" | "always"` (IEEE 1364-2005, 9.9).
#[derive(Clone, Copy, Debug, PartialEq, Eq)]
pub enum ProcessWord {
    Initial,
    Always,
}

/// An item in which none stands. What is large stands in a box, so that it takes little in a row of
/// items.
#[derive(Drop)]
pub enum Plain {
    /// `( "input" | "output" ) [ NET | "reg" | "integer" | "time" ] type ID { "," ID } ";"`
    Port {
        direction: Direction,
        port_type: Option<PortType>,
        data_type: DataType,
        ids: Ids,
    },
    /// `NET type [ delay ] net { "," net } ";"`
    Net {
        net_type: NetType,
        data_type: DataType,
        delay: Option<Boxed<Delay>>,
        nets: Items<Net>,
    },
    /// `decl`
    Decl(Decl),
    /// `"event" ids ";"`
    Event(Ids),
    /// `"genvar" ids ";"`
    Genvar(Ids),
    /// `( "parameter" | "localparam" ) type ID "=" expr { "," ID "=" expr } ";"`
    Parameter {
        word: ParameterWord,
        data_type: DataType,
        values: Items<Assigned>,
    },
    /// `"assign" [ delay ] lv "=" expr { "," lv "=" expr } ";"`
    Assign(Option<Boxed<Delay>>, Items<Set>),
    /// `GATE [ delay ] gate { "," gate } ";"`
    Gate {
        gate_type: GateType,
        delay: Option<Boxed<Delay>>,
        gates: Items<Gate>,
    },
    /// `ID [ "#" "(" conns ")" ] inst { "," inst } ";"`: no `conns` where nothing is written.
    Inst {
        module: Id,
        conns: Conns,
        insts: Items<Inst>,
    },
    /// `( "initial" | "always" ) stmt`
    Process(ProcessWord, Boxed<Stmt>),
    /// `"task" .. "endtask"`
    Task(Boxed<Task>),
    /// `"function" .. "endfunction"`
    Function(Boxed<Function>),
}

/// `gblock = item | "begin" [ ":" ID ] { item } "end"`, over items `I`.
#[derive(Drop)]
pub enum Gblock<I> {
    /// `item`: several where it is a `generate` region.
    Item(Place, Items<I>),
    /// `"begin" [ ":" ID ] { item } "end"`
    Block {
        place: Place,
        id: Option<Id>,
        items: Items<I>,
    },
}

/// What an item is. A `generate` region is its two words in a row of items, with its items between
/// them, so that regions of any depth are flat; each first word has its second one. What is large stands
/// in a box, as in [`Plain`].
#[derive(Drop)]
pub enum ItemForm<I> {
    Plain(Plain),
    /// `"generate"`
    Generate,
    /// `"endgenerate"`
    Endgenerate,
    /// `"for" "(" ID "=" expr ";" expr ";" ID "=" expr ")" gblock`
    For {
        start: Boxed<Assigned>,
        test: Boxed<Expr>,
        step: Boxed<Assigned>,
        body: Boxed<Gblock<I>>,
    },
    /// `"if" "(" expr ")" gblock [ "else" gblock ]`
    If {
        test: Boxed<Expr>,
        holds: Boxed<Gblock<I>>,
        fails: Option<Boxed<Gblock<I>>>,
    },
}

/// `item` (IEEE 1364-2005, 12.1 and Annex A.1.4). Its place is that of its first token.
#[derive(Drop)]
pub struct Item {
    pub place: Place,
    pub form: ItemForm<Item>,
}
