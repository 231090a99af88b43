//! What holds of every memory, each on a contract of its own.
ghost use Rattle.memory.specs.Faults.{PlaceAnswers};
ghost use Rattle.memory.specs.Kept.{Crosses, Placeless, Keeps};

/// The walk from one page of a list to the next.
#[tactic(auto, using(crate::proofs::Keeping::crosses))]
pub fn walk_crosses_pages()
    ensures { Crosses }
{}

/// A byte whose entry strays is neither written nor read.
#[tactic(auto, using(crate::proofs::Keeping::placeless))]
pub fn strays_have_no_place()
    ensures { Placeless }
{}

/// A packet stored in pages that all differ reads back, and no other byte moved.
pub fn packets_are_kept()
    ensures { Keeps }
{}

/// The law of faults leaves one answer, that of the judging.
#[tactic(auto, using(crate::proofs::Telling::answers_once))]
pub fn faults_are_one()
    ensures { PlaceAnswers }
{}
