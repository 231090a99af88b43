//! What a layer does to the calls that it stops.
ghost use Rattle.std.specs.Prelude.{ℕ, Bool, true, false};
ghost use Rattle.link.specs.declared.answers.Collected.{Collected};
ghost use Rattle.link.specs.declared.answers.Collected.TheVariants as collected;
ghost use Rattle.link.specs.declared.answers.PollAnswer.{PollAnswer};
ghost use Rattle.link.specs.declared.answers.PollAnswer.TheVariants as poll;
ghost use Rattle.link.specs.Meaning.{Pipe, Polls, Collects};
ghost use Rattle.link.proofs.Clauses.{quiet_poll, busy_poll, quiet_collect, busy_collect};

use link::{Collected, PollAnswer};

/// What a layer does to the calls that it stops. The laws say that its answers are lawful on every pipe if nothing happens.
pub trait Fault {
    ghost POLLED: { PollAnswer };

    ghost COLLECTED: { Collected };

    ghost PACKETS: { Bool };

    /// What it answers to a Poll.
    const POLLED: PollAnswer;

    /// What it answers to a Collect.
    const COLLECTED: Collected;

    /// Whether it stops Fetches and Sends too, which are lost then.
    const PACKETS: bool;

    ghost poll_lawful: { (p : Pipe) (b : ℕ) → Polls p b POLLED p };

    ghost collect_lawful: { (p : Pipe) → Collects p COLLECTED p };
}

/// Nothing is heard.
#[derive(Drop)]
pub struct Silent;

impl Fault for Silent {
    ghost POLLED = { poll.Silence };

    ghost COLLECTED = { collected.Silence };

    ghost PACKETS = { true };

    const POLLED: PollAnswer = PollAnswer::Silence;

    const COLLECTED: Collected = Collected::Silence;

    const PACKETS: bool = true;

    ghost poll_lawful = { quiet_poll };

    ghost collect_lawful = { quiet_collect };
}

/// The function is not ready to be polled, or to say what it wants.
#[derive(Drop)]
pub struct Unready;

impl Fault for Unready {
    ghost POLLED = { poll.NotReady };

    ghost COLLECTED = { collected.NotReady };

    ghost PACKETS = { false };

    const POLLED: PollAnswer = PollAnswer::NotReady;

    const COLLECTED: Collected = Collected::NotReady;

    const PACKETS: bool = false;

    ghost poll_lawful = { busy_poll };

    ghost collect_lawful = { busy_collect };
}
