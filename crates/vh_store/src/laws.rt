ghost use Rattle.vh_store.specs.Laws.{JoinsDigits, HasNoOrder, HasItsDrivers, HasItsPosition};

/// The laws of nets, which nobody calls: each digit of a net is the join of the digits that its
/// drivers give it, whatever their order (IEEE 1364-2005, 4.6); before all a net has those of the
/// design that name it, and each driver its position among them. The body does nothing.
pub fn store_laws()
    ensures digits { JoinsDigits }
    ensures order { HasNoOrder }
    ensures opening { HasItsDrivers }
    ensures positions { HasItsPosition }
{}
