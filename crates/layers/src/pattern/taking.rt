//! How the bits of a pattern are taken.
ghost use Rattle.std.specs.Prelude.{◌≡◌};
ghost use Rattle.layers.specs.Patterns.{Begins, MovesOn, next_bit};

use crate::pattern::Pattern;

impl Pattern {
    /// The pattern with these bits, of which bit 0 comes first.
    pub fn new(bits: u64) -> Pattern
        ensures { Begins bits result }
    {
        Pattern { bits, position: 0 }
    }

    /// Takes the next bit.
    pub fn take(&mut self) -> bool
        ensures is { result ≡ next_bit self.old }
        ensures on { MovesOn self.old self.new }
    {
        let bit = (self.bits >> self.position) & 1 == 1;
        self.position = (self.position + 1) % 64;
        bit
    }
}
