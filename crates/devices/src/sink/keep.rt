//! What a sink keeps, and the vector that says so.
ghost use Rattle.std.specs.Prelude.{ℕ, length, MatchOption};
ghost use Rattle.devices.specs.Sinking.{SentIn};
ghost use Rattle.devices.specs.Sinks.{sink_of};
ghost use Rattle.link.specs.Meaning.{Meant, Vector};
ghost use Rattle.link.specs.Numbered.{numbers_of};

use crate::settle::settle;
use crate::since::Since;
use crate::sink::Sink;
use crate::standing::standing;
use link::SoundWindow;

impl Sink {
    /// The packet that a sequence number stands for, unless it is kept already.
    fn meant(&self, window: SoundWindow, number: u8) -> Option<usize>
        ensures { MatchOption result ((j : ℕ) → Meant window.window (length (sink_of self.now).out.taken) (sink_of self.now).out.early number j → ⊥) (λ j. Meant window.window (length (sink_of self.now).out.taken) (sink_of self.now).out.early number j) }
    {
        let j = standing(self.store.count(), window, number)?;
        match &self.ahead {
            Some(ahead) if ahead.packet(j).is_some() => None,
            _ => Some(j),
        }
    }

    /// The numbers that are still wanted: those of the window, except early ones.
    pub(crate) fn vector(&self, window: SoundWindow) -> u32
        ensures { Vector window.window (length (sink_of self.now).out.taken) (sink_of self.now).out.early result }
    {
        // The numbers themselves are counted, and each is a bit: a fold of words would say it no plainer.
        let mut bits = 0;
        for number in 0..window.get().range {
            if self.meant(window, number).is_some() {
                bits += 1u32 << number;
            }
        }
        bits
    }

    /// Takes in one Send.
    pub(crate) fn receive(&mut self, number: u8, bytes: &[u8])
        ensures { SentIn (numbers_of self.old.window) (sink_of self.old) number bytes.now (sink_of self.new) }
    {
        let Some(window) = self.window else {
            return;
        };
        let since = self.since;
        self.since = Since::Otherwise;
        let size = window.get().packet;
        if bytes.len() > size as usize {
            return;
        }
        let Some(j) = self.meant(window, number) else {
            return;
        };
        if self.store.lacks_space(size, j, bytes.len()) {
            self.since = since.lacked_one();
        } else if j == self.store.count() {
            self.store.append(bytes);
            if let Some(ahead) = &self.ahead {
                settle(&mut self.store, ahead);
            }
        } else if let Some(ahead) = &mut self.ahead {
            ahead.keep(j, bytes);
        }
    }
}
