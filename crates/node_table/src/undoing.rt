//! Taking back what was made.
ghost use Rattle.std.specs.Prelude.{◌≡◌, ◌≤◌};
ghost use Rattle.node_table.specs.Layout.{SameSetting, OnlyWords};
ghost use Rattle.node_table.specs.Ordering.{InOrder, Grown};
ghost use Rattle.node_table.specs.Freeing.{Freed, Restored};

use crate::table::{NodeTable, first_word};

impl NodeTable {
    /// Takes back every node made since the table had this number `used`.
    pub fn undo(&mut self, used: u32)
        ensures setting { SameSetting self.old self.new }
        ensures restored { (old : NodeTable) → InOrder old → Grown old self.old → old.used ≡ used → Restored old self.new }
    {
        let from = used.min(self.used);
        self.free_unmarked(from, self.used);
        self.used = from;
        self.rebuild();
    }

    // Frees the places of a range that are not marked.
    pub(crate) fn free_unmarked(&mut self, from: u32, to: u32)
        requires { (from ≤ to) × (to ≤ self.old.limit) }
        ensures only { OnlyWords self.old self.new }
        ensures freed { Freed self.old self.new from to }
    {
        for h in from + 2..to + 2 {
            if !self.marked(h) {
                self.words[first_word(h)] = 0;
            }
        }
    }
}
