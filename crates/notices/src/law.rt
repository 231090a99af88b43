//! The law of the notice buffer, on a contract.
ghost use Rattle.notices.specs.Law.{EachOnce};

/// Over any arrivals, takings and switchings from a new buffer, the notices taken, then those left, are the accepted ones, each once,
/// in order, and a block that is taken shows what arrived.
pub fn each_once()
    ensures { EachOnce }
{}
