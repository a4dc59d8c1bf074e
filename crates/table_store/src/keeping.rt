//! Keeping only what is listed.
ghost use Rattle.std.specs.Prelude.{◌≡◌};
ghost use Rattle.table_store.specs.Keeping.{Checked, KeptMarks};
ghost use Rattle.table_store.specs.Stores.{InOrder, meaning_of};

use crate::TableStore;
use crate::handles::Handle;
use crate::making::MOST;
use functions::StoreFault;

/// The places whose handles are listed.
// A flag for each place there can be: a set of them would allocate.
#[derive(Drop)]
pub(crate) struct Listed {
    pub(crate) places: [bool; MOST],
}

impl TableStore {
    // Checks and marks the listed handles; nothing is freed yet.
    pub(crate) fn listed(&self, list: &[u32]) -> Result<Listed, StoreFault>
        requires { InOrder self.now }
        ensures { Checked (meaning_of self.now) list.now result }
    {
        let mut places = [false; MOST];
        for k in list {
            match self.look_up(*k)? {
                Handle::Place(place) => places[place] = true,
                Handle::Constant(_) => {}
            }
        }
        Ok(Listed { places })
    }

    // Frees every place that is not listed.
    pub(crate) fn free_unlisted(&mut self, listed: &Listed)
        requires { InOrder self.old }
        ensures qubits { self.new.qubits ≡ self.old.qubits }
        ensures limit { self.new.limit ≡ self.old.limit }
        ensures kept { KeptMarks self.old.limit listed.now.places self.old.words.items self.new.words.items }
    {
        for (place, kept) in listed.places[..self.limit].iter().enumerate() {
            if !*kept {
                self.words[place] = 0;
            }
        }
    }
}
