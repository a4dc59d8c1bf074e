//! Handing out handles of functions.
ghost use Rattle.std.specs.Prelude.{Ok};
ghost use Rattle.functions.specs.Answers.{Made};
ghost use Rattle.table_words.specs.Words.{unpacked, Clean};
ghost use Rattle.table_places.specs.Order.{Varies};
ghost use Rattle.table_store.specs.Stores.{InOrder, meaning_of};

use crate::TableStore;
use crate::marks::Marked;
use functions::StoreFault;
use table_words::PackedTable;

impl TableStore {
    // The handle of a function that is not constant, at a free place if it has none yet. That the table is clean is no fact of
    // its type, since a table does not know its number of qubits.
    fn store(&mut self, function: Marked) -> Result<u32, StoreFault>
        requires order { InOrder self.old }
        requires clean { Clean self.old.qubits.number function.table.words }
        requires varies { Varies self.old.qubits.number function.table.words }
        ensures order { InOrder self.new }
        ensures made { Made (meaning_of self.old) (meaning_of self.new) (Ok (unpacked self.old.qubits.number function.table.words)) result }
    {
        if let Some(place) = self.place_of(function) {
            return Ok(place as u32 + 2);
        }
        match self.free_place(function.mark) {
            Some(place) => {
                self.write(place, function);
                Ok(place as u32 + 2)
            }
            None => Err(StoreFault::NoSpace(self.limit as u32)),
        }
    }

    // The handle of a function.
    pub(crate) fn handle(&mut self, table: PackedTable) -> Result<u32, StoreFault>
        requires order { InOrder self.old }
        requires clean { Clean self.old.qubits.number table.words }
        ensures order { InOrder self.new }
        ensures made { Made (meaning_of self.old) (meaning_of self.new) (Ok (unpacked self.old.qubits.number table.words)) result }
    {
        if table.same(&PackedTable::constant(self.qubits, false)) {
            return Ok(0);
        }
        if table.same(&PackedTable::constant(self.qubits, true)) {
            return Ok(1);
        }
        self.store(Marked::of(table))
    }
}
