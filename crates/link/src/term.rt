//! The numbers of a term: packet size, burst and sequence range.
ghost use Rattle.std.specs.Prelude.{◌≡◌, true, cond, Some, None};
ghost use Rattle.std.specs.Option.{option_map};
ghost use Rattle.link.specs.Bounds.{sound};

/// The numbers of a term.
#[derive(Clone, Copy, PartialEq, Eq, Debug)]
pub struct Window {
    /// The packet size P.
    pub packet: u16,
    /// The burst W, the most packets that are under way at once.
    pub burst: u8,
    /// The sequence range M: packet j of a term has sequence number j mod M.
    pub range: u8,
}

impl Window {
    /// Whether the numbers are within their bounds.
    pub fn is_sound(self) -> bool
        ensures { result ≡ sound self }
    {
        (1..=3584).contains(&self.packet)
            && (1..=16).contains(&self.burst)
            && (2..=32).contains(&self.range)
            && 2 * self.burst <= self.range
    }
}

/// A window whose numbers are within their bounds.
#[derive(Clone, Copy)]
pub struct SoundWindow {
    window: Window,
    ghost within: { sound window ≡ true },
}

impl SoundWindow {
    /// The window, if its numbers are within their bounds.
    pub fn new(window: Window) -> Option<SoundWindow>
        ensures { option_map (λ s. s.window) result ≡ cond (sound window) (Some window) None }
    {
        if window.is_sound() {
            Some(SoundWindow { window })
        } else {
            None
        }
    }

    /// The window itself.
    pub fn get(self) -> Window
        ensures value { result ≡ self.window }
        ensures within { sound result ≡ true }
    {
        self.window
    }
}
