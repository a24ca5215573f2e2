ghost use Rattle.vh_kernel_laws.specs.Laws.{PathsKeepLaws, RunsKeepLaws, OpensFresh};

/// The firing law and the handle law, of every path of the machine from a state in which nothing
/// is on control and no handle was given, as at the opening of every design with its scripts;
/// and so of each run under an order of choice. It does nothing: its contract is the theorem.
pub fn laws()
    ensures paths { PathsKeepLaws }
    ensures runs { RunsKeepLaws }
    ensures opens { OpensFresh }
{}
