//! The link: what carries packets between the engine and functions, with the meaning of its pipes.
#![tactic(auto)]

ghost use Rattle.std.specs.Prelude.{◌≡◌, ℕ, ◌≤◌, List, Option};
ghost use Rattle.link.specs.Meaning.{Collects, Fetches, Only, Pipe, Polls, Restarts, Sends, absent, direction};
ghost use Rattle.link.specs.Terms.{Bounded};
ghost use Rattle.link.specs.Packets.{got};
ghost use Rattle.link.specs.declared.term.Window.{Window};
ghost use Rattle.link.specs.declared.answers.Collected.{Collected};
ghost use Rattle.link.specs.declared.answers.PollAnswer.{PollAnswer};

pub mod answers;
pub mod laws;
pub mod optional;
pub mod packet;
pub mod term;

pub use answers::{Collected, Direction, Fetched, PollAnswer};
pub use packet::{Packet, TooLong};
pub use term::{SoundWindow, Window};

/// What carries packets between the engine and functions.
///
/// `meaning` is the meaning of each pipe, by its number. The other ghost members say what each function may do, from the link before the call
/// to the link after it; the laws tie each of them to its clause on the meaning, and say that all other pipes keep theirs.
pub trait Link {
    ghost meaning: { Self → ℕ → Pipe };

    ghost restarted: { Self → ℕ → Window → Self → Type 0 };

    ghost polled: { Self → ℕ → ℕ → PollAnswer → Self → Type 0 };

    ghost fetched: { Self → ℕ → ℕ → Option (List ℕ) → Self → Type 0 };

    ghost sent: { Self → ℕ → ℕ → List ℕ → Self → Type 0 };

    ghost collected: { Self → ℕ → Collected → Self → Type 0 };

    /// The direction of a pipe, or nothing for a pipe that the link lacks.
    fn describe(&self, pipe: u8) -> Option<Direction>
        ensures { result ≡ direction (meaning self.now pipe) };

    /// Begins a term of the pipe with these numbers.
    fn restart(&mut self, pipe: u8, window: Window)
        ensures { restarted self.old pipe window self.new };

    /// Asks for packets: bit s of `wanted`, below the sequence range, wants sequence number s.
    fn poll(&mut self, pipe: u8, wanted: u32) -> PollAnswer
        ensures { polled self.old pipe wanted result self.new };

    /// Gives the packet at an offset from the place. What `into` holds after `Lost` is open.
    fn fetch(&mut self, pipe: u8, offset: u8, into: &mut Packet) -> Fetched
        ensures { fetched self.old pipe offset (got result into.new) self.new };

    /// Hands over one packet under its sequence number.
    fn send(&mut self, pipe: u8, number: u8, bytes: &[u8])
        ensures { sent self.old pipe number bytes.now self.new };

    /// Asks which packets are still wanted.
    fn collect(&mut self, pipe: u8) -> Collected
        ensures { collected self.old pipe result self.new };

    ghost above: { (s : Self) (p : ℕ) → 32 ≤ p → meaning s p ≡ absent };

    ghost bounds: { (s : Self) (p : ℕ) → Bounded (meaning s p) };

    ghost restarting: { (s t : Self) (p : ℕ) (w : Window) → restarted s p w t → Restarts (meaning s p) w (meaning t p) × Only p (meaning s) (meaning t) };

    ghost polling: { (s t : Self) (p b : ℕ) (a : PollAnswer) → polled s p b a t → Polls (meaning s p) b a (meaning t p) × Only p (meaning s) (meaning t) };

    ghost fetching: { (s t : Self) (p i : ℕ) (a : Option (List ℕ)) → fetched s p i a t → Fetches (meaning s p) i a (meaning t p) × Only p (meaning s) (meaning t) };

    ghost sending: { (s t : Self) (p n : ℕ) (b : List ℕ) → sent s p n b t → Sends (meaning s p) n b (meaning t p) × Only p (meaning s) (meaning t) };

    ghost collecting: { (s t : Self) (p : ℕ) (a : Collected) → collected s p a t → Collects (meaning s p) a (meaning t p) × Only p (meaning s) (meaning t) };
}
