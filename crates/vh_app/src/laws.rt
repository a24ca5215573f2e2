//! The law of the next order of a script.

ghost use Rattle.vh_app.specs.Todo.{StartupBegins, ProcedureBegins, OrdersInTurn};

/// The law of the next order, of every script that was laid out. It does nothing: its contract is
/// the theorem.
pub fn point_law()
    // Where a startup begins its orders are still to do,
    ensures begins { StartupBegins }
    // and where a procedure begins its commands.
    ensures starts { ProcedureBegins }

    // Where commands are still to do the next order is theirs, and what they leave is still to do
    // at the point behind it.
    ensures goes { OrdersInTurn }
{}
