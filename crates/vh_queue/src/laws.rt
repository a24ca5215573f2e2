ghost use Rattle.vh_queue.specs.Laws.{UpdatesInOrder, OneIsGone, OthersStand};

/// The laws of the queue's definitions. It does nothing: its contract is the theorem.
pub fn queue_laws()
    // Nonblocking updates are picked in the order of adding (IEEE 1364-2005, 11.4.1),
    ensures in_order { UpdatesInOrder }
    // and of a serial that was picked or cancelled nothing stands any more, while nothing else goes.
    ensures gone { OneIsGone }
    ensures others { OthersStand }
{}
