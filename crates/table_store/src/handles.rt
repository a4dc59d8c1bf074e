//! What handles stand for.
ghost use Rattle.std.specs.Prelude.{◌≡◌};
ghost use Rattle.table_store.specs.Handles.{handle_of};
ghost use Rattle.table_store.specs.Stores.{InOrder, places_of, TableUnder};

use crate::TableStore;
use functions::StoreFault;
use table_words::PackedTable;

/// What is held under a handle.
#[derive(Clone, Copy)]
pub(crate) enum Handle {
    Constant(bool),
    Place(usize),
}

impl TableStore {
    // What is held under a handle.
    pub(crate) fn look_up(&self, k: u32) -> Result<Handle, StoreFault>
        requires { InOrder self.now }
        ensures { result ≡ handle_of (places_of self.now) k }
    {
        if k < 2 {
            return Ok(Handle::Constant(k == 1));
        }
        let place = (k - 2) as usize;
        if place < self.limit && self.words[place] != 0 {
            Ok(Handle::Place(place))
        } else {
            Err(StoreFault::NotHeld(k))
        }
    }

    // The function under a handle.
    pub(crate) fn table(&self, k: u32) -> Result<PackedTable, StoreFault>
        requires { InOrder self.now }
        ensures { TableUnder self.now k result }
    {
        match self.look_up(k)? {
            Handle::Constant(bit) => Ok(PackedTable::constant(self.qubits, bit)),
            Handle::Place(place) => Ok(self.read(place)),
        }
    }
}
