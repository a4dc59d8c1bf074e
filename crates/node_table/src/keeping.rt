//! Keeping what some handles reach, and freeing the rest.
ghost use Rattle.std.specs.Prelude.{◌≡◌, ℕ, ◌+◌, ◌<◌, ◌≤◌, ◌==◌, ◌≢◌, cond};
ghost use Rattle.diagrams.specs.Diagrams.{Held, Reduced};
ghost use Rattle.node_table.specs.Layout.{diagram_of, Node, mark, SameSetting, OnlyWords};
ghost use Rattle.node_table.specs.Ordering.{InOrder};
ghost use Rattle.node_table.specs.Marking.{SameButMarks, Marks, KeptNodes};

use crate::table::{Branch, LINK, MARK, NodeTable, first_word};
use functions::StoreFault;

impl NodeTable {
    /// Frees every node that no listed handle reaches. If a listed handle is not held, the first such is refused, and no node
    /// is freed.
    pub fn keep(&mut self, list: &[u32]) -> Result<(), StoreFault>
        requires { InOrder self.old }
        ensures setting { SameSetting self.old self.new }
        ensures order { InOrder self.new }
        ensures kept { KeptNodes (diagram_of self.old) (diagram_of self.new) list.now result }
    {
        self.set_marks(false);
        for h in list {
            if !self.holds(*h) {
                // Where `used` stands says nothing of marks then, so that every place has to have one.
                self.set_marks(true);
                return Err(StoreFault::NotHeld(*h));
            }
            self.mark(*h);
        }
        self.free_unmarked(0, self.limit);
        self.used = 0;
        self.rebuild();
        Ok(())
    }

    // Marks every place, or none.
    fn set_marks(&mut self, marked: bool)
        ensures only { OnlyWords self.old self.new }
        ensures same { SameButMarks self.old self.new }
        ensures all { (h : ℕ) → 2 ≤ h → h < self.old.limit + 2 → mark self.new h ≡ cond marked 1 0 }
    {
        for h in 2..self.limit + 2 {
            self.set_mark(h, marked);
        }
    }

    // Marks what a handle reaches, unless it is marked.
    #[tactic(auto, using(crate::proofs::Layouts::node_at))]
    fn mark(&mut self, h: u32)
        requires reduced { Reduced self.old.qubits.number (diagram_of self.old) }
        requires held { Held (diagram_of self.old) h }
        ensures only { OnlyWords self.old self.new }
        ensures marks { Marks self.old self.new h }
    {
        if h < 2 || self.marked(h) {
            return;
        }
        let Branch { low, high, .. } = self.branch(h);
        self.set_mark(h, true);
        self.mark(low);
        self.mark(high);
    }

    // Whether a place is marked.
    pub(crate) fn marked(&self, h: u32) -> bool
        requires { (2 ≤ h) × (h < self.now.limit + 2) }
        ensures { result ≡ (mark self.now h == 1) }
    {
        self.node(h)[0] / MARK % 2 == 1
    }

    // Marks a place, or takes its mark away.
    fn set_mark(&mut self, h: u32, marked: bool)
        requires { (2 ≤ h) × (h < self.old.limit + 2) }
        ensures only { OnlyWords self.old self.new }
        ensures same { SameButMarks self.old self.new }
        ensures marked { mark self.new h ≡ cond marked 1 0 }
        ensures others { (k : ℕ) → 2 ≤ k → (k ≢ h) → mark self.new k ≡ mark self.old k }
    {
        let at = first_word(h);
        let word = self.words[at];
        self.words[at] = word / LINK * LINK + MARK * u32::from(marked) + word % MARK;
    }
}
