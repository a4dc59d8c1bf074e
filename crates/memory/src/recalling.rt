//! Remembering and recalling combinations.
ghost use Rattle.std.specs.Prelude.{◌≡◌, [], ◌∷◌, take, reverse};
ghost use Rattle.memory.specs.Recalling.{newest_first, recalled};

use crate::entry::Remembered;
use crate::recent::{MOST, Recent};
use arrayvec::ArrayVec;
use functions::Combination;

impl Recent {
    /// Nothing is remembered.
    pub fn new() -> Recent
        ensures { newest_first result ≡ [] }
    {
        let entries = ArrayVec::new();
        Recent { entries, oldest: 0 }
    }

    /// Forgets everything.
    pub fn clear(&mut self)
        ensures { newest_first self.new ≡ [] }
    {
        self.entries.clear();
        self.oldest = 0;
    }

    /// Remembers a combination, and forgets the oldest of 64.
    pub fn remember(&mut self, remembered: Remembered)
        ensures { newest_first self.new ≡ take 64 (remembered ∷ newest_first self.old) }
    {
        if self.entries.len() < MOST {
            self.entries.push(remembered);
        } else {
            self.entries[self.oldest] = remembered;
            self.oldest = (self.oldest + 1) % MOST;
        }
    }

    /// The answer of the newest that is the combination asked for.
    pub fn recall(&self, asked: Combination) -> Option<u32>
        ensures { result ≡ recalled (newest_first self.now) asked }
    {
        let (newer, older) = self.entries.split_at(self.oldest);
        match last_for(newer, asked) {
            Some(answer) => Some(answer),
            None => last_for(older, asked),
        }
    }
}

// The answer of the last that is the combination asked for.
fn last_for(entries: &[Remembered], asked: Combination) -> Option<u32>
    ensures { result ≡ recalled (reverse entries.now) asked }
{
    entries
        .iter()
        .rev()
        .find(|entry| entry.combination == asked)
        .map(|entry| entry.answer)
}
