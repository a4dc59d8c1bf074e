//! Making a store.
ghost use Rattle.std.specs.Prelude.{◌≡◌, ◌≤◌, ◌++◌, drop, length, replicate};
ghost use Rattle.table_store.specs.Places.{limit_of};
ghost use Rattle.table_store.specs.Stores.{store_check, NewStore};

use crate::TableStore;
use crate::places::width;
use exact::QubitCount;
use functions::StoreFault;

// The most functions that a store holds.
pub(crate) const MOST: usize = 4096;

// How many functions some words hold.
fn limit(words: usize, qubits: QubitCount<8>) -> usize
    ensures { result ≡ limit_of qubits.number words }
{
    (words / (width(qubits) + 1)).min(MOST)
}

// Frees the first places.
fn free(words: &mut [u64], places: usize)
    requires { places ≤ length words.old }
    ensures { words.new ≡ replicate places 0 ++ drop places words.old }
{
    words[..places].fill(0);
}

impl TableStore {
    /// Whether a store of n qubits can be made of some words: from 1 to 8 qubits, and words for one function at least.
    pub fn check(words: usize, qubits: u32) -> Result<(), StoreFault>
        ensures { result ≡ store_check qubits words }
    {
        if qubits < 1 || qubits > 8 {
            return Err(StoreFault::NoSuchStore(qubits));
        }
        if limit(words, QubitCount { number: qubits }) == 0 {
            return Err(StoreFault::NoSuchStore(0));
        }
        Ok(())
    }

    /// A store in words that may hold anything. It holds only the constants. Where the check refuses, it has one qubit and
    /// no place for a function, and the words stay as they are.
    pub fn new(mut words: Vec<u64>, qubits: u32) -> TableStore
        ensures { NewStore qubits words.items result }
    {
        match TableStore::check(words.len(), qubits) {
            Ok(()) => {
                let qubits = QubitCount { number: qubits };
                let limit = limit(words.len(), qubits);
                free(&mut words, limit);
                TableStore {
                    qubits,
                    limit,
                    words,
                }
            }
            Err(_) => TableStore {
                qubits: QubitCount { number: 1 },
                limit: 0,
                words,
            },
        }
    }
}
