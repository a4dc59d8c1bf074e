//! A memory of combinations, over any function store.
#![tactic(auto)]

ghost use Rattle.std.specs.Prelude.{◌≡◌, ℕ, [], Some, Ok};
ghost use Rattle.functions.specs.Answers.{Made, Kept, literal_asked, fixed_asked, combine_asked};
ghost use Rattle.memory.specs.Recalling.{newest_first, recalled};
ghost use Rattle.memory.specs.Remembering.{OrderedOver, Remembers, CombinedOver, KeptOver};

use exact::Qubit;
use functions::{Combination, FunctionStore, StoreFault};

mod entry;
mod recalling;
mod recent;

pub use entry::Remembered;
pub use recent::Recent;

/// A function store with a memory of the 64 combinations accepted last. It means what the store below means.
#[derive(Drop)]
pub struct Memory<S> {
    store: S,
    recent: Recent,
}

impl<S: FunctionStore> Memory<S> {
    /// A memory that remembers nothing yet.
    pub fn new(store: S) -> Memory<S>
        requires { S.ordered store }
        ensures same { result.store ≡ store }
        ensures order { OrderedOver S.meaning S.ordered result }
        ensures empty { Remembers result [] }
    {
        let recent = Recent::new();
        Memory { store, recent }
    }

    // The answer that is remembered, else that of the store below.
    fn answer(&mut self, asked: Combination) -> Result<u32, StoreFault>
        requires { OrderedOver S.meaning S.ordered self.old }
        ensures order { OrderedOver S.meaning S.ordered self.new }
        ensures made { Made (S.meaning self.old.store) (S.meaning self.new.store) (combine_asked (S.meaning self.old.store) asked.rule asked.f asked.g asked.h) result }
        ensures memory { self.new.recent ≡ self.old.recent }
        ensures recalls { (answer : ℕ) → recalled (newest_first self.old.recent) asked ≡ Some answer → (result ≡ Ok answer) × (self.new.store ≡ self.old.store) }
    {
        match self.recent.recall(asked) {
            Some(answer) => Ok(answer),
            None => self.store.combine(asked.rule, asked.f, asked.g, asked.h),
        }
    }
}

impl<S: FunctionStore> FunctionStore for Memory<S> {
    ghost meaning = { λ s. S.FunctionStore.meaning s.store };

    ghost ordered = { OrderedOver S.FunctionStore.meaning S.FunctionStore.ordered };

    ghost lawful = { λ s h. S.FunctionStore.lawful s.store h.below };

    // A method that promises more than the trait has to say the trait's clauses again.

    /// Passes the call on.
    fn literal(&mut self, q: Qubit) -> Result<u32, StoreFault>
        requires { OrderedOver S.meaning S.ordered self.old }
        ensures order { OrderedOver S.meaning S.ordered self.new }
        ensures made { Made (S.meaning self.old.store) (S.meaning self.new.store) (literal_asked (S.meaning self.old.store) q) result }
        ensures memory { self.new.recent ≡ self.old.recent }
    {
        self.store.literal(q)
    }

    /// Passes the call on.
    fn fixed(&mut self, f: u32, q: Qubit, bit: bool) -> Result<u32, StoreFault>
        requires { OrderedOver S.meaning S.ordered self.old }
        ensures order { OrderedOver S.meaning S.ordered self.new }
        ensures made { Made (S.meaning self.old.store) (S.meaning self.new.store) (fixed_asked (S.meaning self.old.store) f q bit) result }
        ensures memory { self.new.recent ≡ self.old.recent }
    {
        self.store.fixed(f, q, bit)
    }

    /// Answers a combination that is remembered, asks the store below for any other, and remembers it if it is accepted.
    fn combine(&mut self, rule: u8, f: u32, g: u32, h: u32) -> Result<u32, StoreFault>
        requires { OrderedOver S.meaning S.ordered self.old }
        ensures order { OrderedOver S.meaning S.ordered self.new }
        ensures made { Made (S.meaning self.old.store) (S.meaning self.new.store) (combine_asked (S.meaning self.old.store) rule f g h) result }
        ensures memory { CombinedOver self.old self.new (record { rule = rule; f = f; g = g; h = h }) result }
    {
        let combination = Combination { rule, f, g, h };
        let answer = self.answer(combination)?;
        self.recent.remember(Remembered {
            combination,
            answer,
        });
        Ok(answer)
    }

    fn value(&self, f: u32, index: u32) -> Result<bool, StoreFault> {
        self.store.value(f, index)
    }

    fn ones(&self, f: u32) -> Result<u32, StoreFault> {
        self.store.ones(f)
    }

    fn qubits(&self) -> u32 {
        self.store.qubits()
    }

    /// Passes a keep on, and forgets everything if it is accepted: a handle let go may come to stand for another function.
    fn keep(&mut self, list: &[u32]) -> Result<(), StoreFault>
        requires { OrderedOver S.meaning S.ordered self.old }
        ensures order { OrderedOver S.meaning S.ordered self.new }
        ensures kept { Kept (S.meaning self.old.store) (S.meaning self.new.store) list.now result }
        ensures memory { KeptOver self.old self.new result }
    {
        self.store.keep(list)?;
        self.recent.clear();
        Ok(())
    }
}

/// A memory over a memory, which is a store as well.
pub fn two_memories<S: FunctionStore>(store: S) -> Memory<Memory<S>>
    requires { S.ordered store }
    ensures same { result.store.store ≡ store }
    ensures order { OrderedOver (λ s. S.meaning s.store) (OrderedOver S.meaning S.ordered) result }
    ensures empty { Remembers result [] × Remembers result.store [] }
{
    Memory::new(Memory::new(store))
}
