//! Making a store.
ghost use Rattle.std.specs.Prelude.{◌≡◌, length, vec_len};
ghost use Rattle.functions.specs.Meanings.{constants_only};
ghost use Rattle.node_store.specs.Orders.{node_meaning, Ordered};
ghost use Rattle.node_store.specs.New.{store_check, new_setting, Untouched};

use crate::store::NodeStore;
use exact::QubitCount;
use functions::StoreFault;
use node_answers::Remembered;
use node_table::NodeTable;

impl NodeStore {
    /// Whether a store of so many qubits can be made of these words: 1 to 16 qubits, and one whole node of four words at least.
    pub fn check(words: &[u32], qubits: u32) -> Result<(), StoreFault>
        ensures { result ≡ store_check (length words.now) qubits }
    {
        if qubits < 1 || qubits > 16 {
            return Err(StoreFault::NoSuchStore(qubits));
        }
        if words.len() < 4 {
            return Err(StoreFault::NoSuchStore(0));
        }
        Ok(())
    }

    /// A store that holds only the constants, with room for as many nodes as there are four words each, 65,536 at most. Where
    /// the check fails, it has one qubit and no room, and the words stay as they are.
    pub fn new(words: Vec<u32>, qubits: u32) -> NodeStore
        ensures order { Ordered result }
        ensures meaning { node_meaning result ≡ constants_only (new_setting (vec_len words) qubits) }
        ensures words { Untouched (store_check (vec_len words) qubits) words.items result.nodes.words.items }
    {
        let remembered = Remembered::new();
        match NodeStore::check(&words, qubits) {
            Ok(_) => NodeStore {
                nodes: NodeTable::new(words, QubitCount { number: qubits }),
                remembered,
            },
            Err(_) => NodeStore {
                nodes: NodeTable::none(words),
                remembered,
            },
        }
    }
}
