//! What the calls that make functions check and answer.
ghost use Rattle.diagrams.specs.Forming.{Wanted};
ghost use Rattle.node_store.specs.Orders.{diagram, Tried, Concluded, HeldOrRefused};

use crate::store::NodeStore;
use functions::StoreFault;

impl NodeStore {
    // Answers what was tried since the table had this number `used`. If there was no room, every node made since is taken
    // back, and what was remembered is forgotten.
    pub(crate) fn conclude(&mut self, used: u32, tried: Option<u32>) -> Result<u32, StoreFault>
        ensures { (old : NodeStore) (f : Wanted) → Tried old self.old f used tried → Concluded old self.new f result }
    {
        match tried {
            Some(handle) => Ok(handle),
            None => {
                self.nodes.undo(used);
                self.remembered.forget();
                Err(StoreFault::NoSpace(self.nodes.limit()))
            }
        }
    }

    // Refuses a handle that is not held.
    pub(crate) fn check_held(&self, h: u32) -> Result<(), StoreFault>
        ensures { HeldOrRefused (diagram self.now) h result }
    {
        if self.nodes.holds(h) {
            Ok(())
        } else {
            Err(StoreFault::NotHeld(h))
        }
    }
}
