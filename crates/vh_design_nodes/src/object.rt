ghost use Rattle.std.specs.Prelude.{◌≡◌};
ghost use Rattle.vh_design_nodes.specs.Kinds.{is_vector, is_variable, is_memory, is_function, is_system_function, is_net, is_forcible, is_event, is_named_block, is_disable_target, is_routine, is_system_task, is_scope};
ghost use Rattle.vh_design_nodes.specs.Fits.{body_of};

use vh_base::{Bytes, ExprId, ObjId, Object, Sequence};

/// The name of an object or of a module's definition, which contracts see as its bytes.
pub type Name = Bytes;

/// The arguments of a user system call, which contracts see as a list of objects.
pub type Args = Sequence<Object>;

/// What an object is (IEEE 1364-2005, 26.6). A word of a memory is no object of its own: it is
/// named by the memory and an address.
#[derive(Clone, Copy, Debug, PartialEq, Eq)]
pub enum Kind {
    Module,
    GenScope,
    NamedBegin,
    NamedFork,
    Task,
    Function,
    Net,
    Reg,
    IntegerVar,
    TimeVar,
    Memory,
    Parameter,
    Port,
    NamedEvent,
    Initial,
    Always,
    ContAssign,
    SysTaskCall,
    SysFuncCall,
    Constant,
    Operation,
}

impl Kind {
    /// Whether it may be read or selected from as a whole vector (IEEE 1364-2005, 4.3 and 5.2).
    pub fn is_vector(self) -> bool
        ensures { result ≡ is_vector self }
    {
        matches!(
            self,
            Kind::Net | Kind::Reg | Kind::IntegerVar | Kind::TimeVar | Kind::Parameter
        )
    }

    /// Whether it may hold a function's result (IEEE 1364-2005, 10.4).
    pub fn is_variable(self) -> bool
        ensures { result ≡ is_variable self }
    {
        matches!(self, Kind::Reg | Kind::IntegerVar | Kind::TimeVar)
    }

    /// Whether it is an array of words (IEEE 1364-2005, 4.9).
    pub fn is_memory(self) -> bool
        ensures { result ≡ is_memory self }
    {
        matches!(self, Kind::Memory)
    }

    /// Whether it is a function of the design (IEEE 1364-2005, 10.4).
    pub fn is_function(self) -> bool
        ensures { result ≡ is_function self }
    {
        matches!(self, Kind::Function)
    }

    /// Whether it is a call of a user system function (IEEE 1364-2005, 26.6.19).
    pub fn is_system_function(self) -> bool
        ensures { result ≡ is_system_function self }
    {
        matches!(self, Kind::SysFuncCall)
    }

    /// Whether a driver may change it (IEEE 1364-2005, 6.1).
    pub fn is_net(self) -> bool
        ensures { result ≡ is_net self }
    {
        matches!(self, Kind::Net)
    }

    /// Whether it may be forced (IEEE 1364-2005, 9.3.2).
    pub fn is_forcible(self) -> bool
        ensures { result ≡ is_forcible self }
    {
        self.is_net() || self.is_variable()
    }

    /// Whether it is a named event (IEEE 1364-2005, 9.7.3).
    pub fn is_event(self) -> bool
        ensures { result ≡ is_event self }
    {
        matches!(self, Kind::NamedEvent)
    }

    /// Whether it is a named `begin` or `fork` (IEEE 1364-2005, 9.8.3).
    pub fn is_named_block(self) -> bool
        ensures { result ≡ is_named_block self }
    {
        matches!(self, Kind::NamedBegin | Kind::NamedFork)
    }

    /// Whether a `disable` may end it (IEEE 1364-2005, 10.3).
    pub fn is_disable_target(self) -> bool
        ensures { result ≡ is_disable_target self }
    {
        self.is_named_block() || matches!(self, Kind::Task)
    }

    /// Whether it is a task or a function of the design (IEEE 1364-2005, 10).
    pub fn is_routine(self) -> bool
        ensures { result ≡ is_routine self }
    {
        matches!(self, Kind::Task | Kind::Function)
    }

    /// Whether it is a call of a user system task (IEEE 1364-2005, 26.6.19).
    pub fn is_system_task(self) -> bool
        ensures { result ≡ is_system_task self }
    {
        matches!(self, Kind::SysTaskCall)
    }

    /// Whether it holds other objects by their names (IEEE 1364-2005, 12.6).
    pub fn is_scope(self) -> bool
        ensures { result ≡ is_scope self }
    {
        matches!(self, Kind::Module | Kind::GenScope) || self.is_named_block() || self.is_routine()
    }
}

/// The type of a net (IEEE 1364-2005, 4.6).
#[derive(Clone, Copy, Debug, PartialEq, Eq)]
pub enum NetType {
    Wire,
    Tri,
    Wand,
    TriAnd,
    Wor,
    TriOr,
}

/// What is known of an object beside what all have.
#[derive(Drop)]
pub enum Detail {
    Plain,
    Net(NetType),
    /// A port, by its place in the header from 0.
    Port {
        output: bool,
        index: u32,
    },
    /// A module, by the name of its definition.
    Module(Name),
    /// A memory, by its lowest address.
    Memory(u32),
    /// A parameter, a constant or an operation, by its value.
    Value(ExprId),
    /// A call of a user system task or function, by its place in the table of these.
    Call {
        systf: u32,
        /// The call in an expression, where it is one of a function.
        result: Option<ExprId>,
        args: Args,
    },
    /// A task or function, by its body's number.
    Routine(u32),
}

impl Detail {
    /// The number of a task's or function's body.
    pub fn body(&self) -> Option<u32>
        ensures { result ≡ body_of self.now }
    {
        match self {
            Detail::Routine(body) => Some(*body),
            _ => None,
        }
    }
}

/// An object of the design.
#[derive(Drop)]
pub struct ObjectInfo {
    pub kind: Kind,
    pub name: Name,
    /// Its scope; none for the top.
    pub parent: Option<ObjId>,
    /// In digits; 1 where the kind has none. Of a memory, that of a word.
    pub width: u32,
    pub signed: bool,
    /// How many words a memory has; 0 for every other kind.
    pub words: u32,
    /// Where it is declared, from 1.
    pub line: u32,
    pub detail: Detail,
}
