//! What holds of every claim, on a contract of its own.
ghost use Rattle.owners.specs.Taken.{PageAnswers};

/// The law of taken pages leaves one answer, that of the claim.
#[tactic(auto, using(crate::proofs::Telling::pages_once))]
pub fn taken_pages_are_one()
    ensures { PageAnswers }
{}
