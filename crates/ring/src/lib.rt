//! A ring of N places used in turn: which places are in use, from the oldest on. Slots and notices keep their order by it.
#![tactic(auto)]

ghost use Rattle.std.specs.Prelude.{◌≡◌, ◌+◌, ◌-◌, ◌%◌, ◌<◌, [], ◌∷◌, ◌++◌, Some, MatchOption};
ghost use Rattle.std.specs.Option.{option_to_list};
ghost use Rattle.ring.specs.Rings.{order, count, fresh, oldest, following, taken, freed, InTurn};

/// Which of N places are in use: the oldest, and how many from there on. Every pair of numbers means something: counts
/// above N count as N, and places go round.
#[derive(Clone, Copy)]
pub struct Ring<const N: usize> {
    first: usize,
    used: usize,
}

impl<const N: usize> Ring<N> {
    /// No place in use, place 0 the next.
    pub fn new() -> Self
        ensures value { result ≡ fresh N }
        ensures empty { order N result ≡ [] }
    {
        Ring { first: 0, used: 0 }
    }

    /// How many places are in use.
    pub fn used(&self) -> usize
        ensures { result ≡ count N self.now }
    {
        self.used.min(N)
    }

    /// How many places are free.
    pub fn free(&self) -> usize
        ensures { result ≡ N - count N self.now }
    {
        N - self.used()
    }

    /// The place in use for the longest time, if any is.
    pub fn oldest(&self) -> Option<usize>
        ensures { result ≡ oldest (order N self.now) }
    {
        if self.used() == 0 {
            return None;
        }
        Some(self.front())
    }

    /// Takes the place after the last; none if all are in use.
    pub fn take(&mut self) -> Option<usize>
        ensures answer { result ≡ following N self.old }
        ensures after { self.new ≡ taken N self.old }
        ensures order { order N self.new ≡ order N self.old ++ option_to_list result }
        ensures some { MatchOption result (self.new ≡ self.old) (λ p. p < N) }
    {
        if self.used >= N {
            return None;
        }
        Some(self.grow())
    }

    /// Frees the oldest place; none if no place is in use.
    pub fn release(&mut self) -> Option<usize>
        ensures answer { result ≡ oldest (order N self.old) }
        ensures after { self.new ≡ freed N self.old }
        ensures order { order N self.old ≡ option_to_list result ++ order N self.new }
        ensures some { MatchOption result (self.new ≡ self.old) (λ p. p < N) }
    {
        if self.used() == 0 {
            return None;
        }
        Some(self.shrink())
    }

    // The oldest place of a ring that is not empty.
    fn front(&self) -> usize
        requires { 0 < count N self.now }
        ensures { oldest (order N self.now) ≡ Some result }
    {
        self.first % N
    }

    // Takes a place of a ring that is not full.
    fn grow(&mut self) -> usize
        requires { self.old.used < N }
        ensures answer { result ≡ (self.old.first + self.old.used) % N }
        ensures after { self.new ≡ record { first = self.old.first; used = self.old.used + 1 } }
        ensures order { order N self.new ≡ order N self.old ++ (result ∷ []) }
    {
        let used = self.used;
        let first = self.first % N;
        let ahead = N - first;
        self.used = used + 1;
        if used < ahead {
            first + used
        } else {
            used - ahead
        }
    }

    // Frees the oldest place of a ring that is not empty.
    fn shrink(&mut self) -> usize
        requires { 0 < count N self.old }
        ensures answer { result ≡ self.old.first % N }
        ensures after { self.new ≡ record { first = (self.old.first + 1) % N; used = count N self.old - 1 } }
        ensures order { order N self.old ≡ result ∷ order N self.new }
    {
        let used = self.used();
        let first = self.first % N;
        self.first = if first + 1 == N { 0 } else { first + 1 };
        self.used = used - 1;
        first
    }
}

/// Whatever is done to a ring from its making on, its places go out in turn and come back in the same order.
pub fn in_turn<const N: usize>()
    ensures { InTurn N }
{}
