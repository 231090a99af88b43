//! Which packet of the window a sequence number stands for.
ghost use Rattle.std.specs.Prelude.{◌≡◌, ℕ, ◌^◌, ◌≤◌, None, MatchOption};
ghost use Rattle.link.specs.Meaning.{Meant};

use link::SoundWindow;

/// The packet of the window that a sequence number stands for.
pub fn standing(taken: usize, window: SoundWindow, number: u8) -> Option<usize>
    requires { taken ≤ 2 ^ 25 }
    ensures { MatchOption result ((j : ℕ) → Meant window.window taken (λ k. None) number j → ⊥) (λ j. Meant window.window taken (λ k. None) number j) }
{
    let window = window.get();
    if number >= window.range {
        return None;
    }
    let range = window.range as usize;
    let ahead = (range - taken % range + number as usize) % range;
    (ahead < window.burst as usize).then_some(taken + ahead)
}
