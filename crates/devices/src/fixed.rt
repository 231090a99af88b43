//! What holds of the sinks beyond the clauses of a link: nothing of them is left open.
ghost use Rattle.devices.specs.Fixed.{NoGaps, PlainInOrder, SinksFixed};

/// What a sink answers and becomes is fixed, a plain one has nothing early, and its pipe is pipe 0.
pub fn sinks_fixed()
    ensures fixed { SinksFixed }
    ensures plain { PlainInOrder }
    ensures gaps { NoGaps }
{}
