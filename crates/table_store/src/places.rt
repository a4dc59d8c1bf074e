//! Places: how functions lie among the words.
ghost use Rattle.std.specs.Prelude.{◌≡◌, ℕ, ◌+◌, ◌*◌, ◌<◌, ◌≤◌, ◌↔◌, false, true, Some, None, length, IsTrue, MatchOption};
ghost use Rattle.std.specs.List.{slice_get};
ghost use Rattle.table_words.specs.Words.{Clean};
ghost use Rattle.table_store.specs.Places.{width, words_at};
ghost use Rattle.table_store.specs.Stores.{InOrder, LaidOut, places_of, SomeWith, Written};

use crate::TableStore;
use crate::marks::Marked;
use exact::QubitCount;
use std::ops::Range;
use table_words::PackedTable;

// How many words the values of a function take.
pub(crate) fn width(qubits: QubitCount<8>) -> usize
    ensures value { result ≡ width qubits.number }
    ensures few { result ≤ 4 }
{
    ((1 << qubits.number) + 63) / 64
}

// The first of some places that passes.
fn first<F: Fn(usize) -> bool>(mut places: Range<usize>, passes: &F) -> Option<usize>
    requires { (place : ℕ) → places.start ≤ place → place < places.end → F.pre passes.now place }
    ensures { MatchOption result ((place : ℕ) → places.start ≤ place → place < places.end → F.post passes.now place false)
        (λ place. (places.start ≤ place) × (place < places.end) × F.post passes.now place true × ((before : ℕ) → places.start ≤ before → before < place → F.post passes.now before false)) }
{
    places.find(
        |place|
            requires { F.pre passes.now place.now }
        { passes(*place) },
    )
}

impl TableStore {
    // Where the words of a place are.
    fn range(&self, place: usize) -> Range<usize>
        requires order { LaidOut self.now.qubits.number self.now.limit self.now.words.items }
        requires within { place < self.now.limit }
        ensures start { result.start ≡ self.now.limit + width self.now.qubits.number * place }
        ensures end { result.end ≡ result.start + width self.now.qubits.number }
        ensures suffice { result.end ≤ length self.now.words.items }
    {
        let width = width(self.qubits);
        let start = self.limit + width * place;
        start..start + width
    }

    // The function at a place.
    pub(crate) fn read(&self, place: usize) -> PackedTable
        requires order { LaidOut self.now.qubits.number self.now.limit self.now.words.items }
        requires within { place < self.now.limit }
        ensures { result.words ≡ words_at self.now.qubits.number self.now.limit self.now.words.items place }
    {
        let mut words = [0; 4];
        words[..width(self.qubits)].copy_from_slice(&self.words[self.range(place)]);
        PackedTable { words }
    }

    // Writes a function and its mark at a place.
    pub(crate) fn write(&mut self, place: usize, function: Marked)
        requires order { LaidOut self.old.qubits.number self.old.limit self.old.words.items }
        requires within { place < self.old.limit }
        requires clean { Clean self.old.qubits.number function.table.words }
        ensures qubits { self.new.qubits ≡ self.old.qubits }
        ensures limit { self.new.limit ≡ self.old.limit }
        ensures written { Written self.old.qubits.number self.old.limit place function.table.words self.old.words.items self.new.words.items }
    {
        let width = width(self.qubits);
        let range = self.range(place);
        self.words[place] = function.mark;
        self.words[range].copy_from_slice(&function.table.words[..width]);
    }

    // Whether a place is free.
    fn is_free(&self, place: usize) -> bool
        requires order { InOrder self.now }
        requires within { place < self.now.limit }
        ensures { IsTrue result ↔ (slice_get (places_of self.now) place ≡ Some None) }
    {
        self.words[place] == 0
    }

    // Whether a place has a function: words are compared where marks are equal.
    fn has(&self, place: usize, function: Marked) -> bool
        requires order { InOrder self.now }
        requires within { place < self.now.limit }
        ensures { IsTrue result ↔ (slice_get (places_of self.now) place ≡ Some (Some function.table.words)) }
    {
        self.words[place] == function.mark && self.read(place).same(&function.table)
    }

    // The first place that passes, from one that the mark tells on, and then before it.
    fn find<F: Fn(usize) -> bool>(&self, mark: u64, passes: F) -> Option<usize>
        requires { (place : ℕ) → place < self.now.limit → F.pre passes place }
        ensures { MatchOption result ((place : ℕ) → place < self.now.limit → F.post passes place false) (λ place. (place < self.now.limit) × F.post passes place true) }
    {
        let start = (mark >> 32) as usize;
        let start = start.checked_rem(self.limit).unwrap_or(0);
        // Tried: one chain of both ranges. Over a full store it took 2.4 times as long.
        match first(start..self.limit, &passes) {
            Some(place) => Some(place),
            None => first(0..start, &passes),
        }
    }

    // The place of a function.
    pub(crate) fn place_of(&self, function: Marked) -> Option<usize>
        requires { InOrder self.now }
        ensures { SomeWith (places_of self.now) (Some function.table.words) self.now.limit result }
    {
        self.find(function.mark, |place| self.has(place, function))
    }

    // A free place.
    pub(crate) fn free_place(&self, mark: u64) -> Option<usize>
        requires { InOrder self.now }
        ensures { SomeWith (places_of self.now) None self.now.limit result }
    {
        self.find(mark, |place| self.is_free(place))
    }
}
