//! Finding or making the node of two halves.
ghost use Rattle.std.specs.Prelude.{◌≡◌, ◌+◌, ◌<◌, ◌≤◌, MatchOption};
ghost use Rattle.diagrams.specs.Diagrams.{Held};
ghost use Rattle.diagrams.specs.Forming.{Joined};
ghost use Rattle.node_table.specs.Layout.{diagram_of, OnlyWords};
ghost use Rattle.node_table.specs.Ordering.{InOrder, Grown};
ghost use Rattle.node_table.specs.Adding.{AllNodes, FirstFree, Written, Fits, JoinAnswer};

use crate::table::{Branch, NodeTable, first_word};

impl NodeTable {
    /// The handle that stands for two halves at a height: the half itself if they are one, else the node that has them, which
    /// is made if there is none. `None` if there is none and no place is free.
    // Three numbers and not a `Branch`, for which callers have no other use.
    pub fn join(&mut self, height: u32, low: u32, high: u32) -> Option<u32>
        requires order { InOrder self.old }
        requires level { (0 < height) × (height ≤ self.old.qubits.number) }
        requires lows { Held (diagram_of self.old) low × ((diagram_of self.old).height low < height) }
        requires highs { Held (diagram_of self.old) high × ((diagram_of self.old).height high < height) }
        ensures order { InOrder self.new }
        ensures grown { Grown self.old self.new }
        ensures joined { JoinAnswer self.old self.new height low high result }
    {
        if low == high {
            return Some(low);
        }
        let branch = Branch { height, low, high };
        if let Some(h) = self.find(branch) {
            return Some(h);
        }
        let h = self.first_free()?;
        self.add(h, branch);
        Some(h)
    }

    // The first free handle from the used places on.
    fn first_free(&self) -> Option<u32>
        ensures { MatchOption result (AllNodes self.now (self.now.used + 2) (self.now.limit + 2)) (λ h. FirstFree self.now h) }
    {
        (self.used + 2..self.limit + 2).find(|h| self.height(*h) == 0)
    }

    // Makes a node of a free handle, and puts it into its chain.
    fn add(&mut self, h: u32, branch: Branch)
        requires order { InOrder self.old }
        requires free { FirstFree self.old h }
        requires fits { Fits self.old.qubits.number (diagram_of self.old) branch.height branch.low branch.high }
        ensures order { InOrder self.new }
        ensures grown { Grown self.old self.new }
        ensures joined { Joined (diagram_of self.old) (diagram_of self.new) branch.height branch.low branch.high h }
    {
        self.used = h - 1;
        self.write(h, branch);
        self.attach(h);
    }

    // Writes a node, in no chain yet.
    fn write(&mut self, h: u32, branch: Branch)
        requires { (2 ≤ h) × (h < self.old.limit + 2) }
        ensures only { OnlyWords self.old self.new }
        ensures written { Written self.old self.new h branch.height branch.low branch.high }
    {
        let at = first_word(h);
        self.words[at] = branch.height;
        self.words[at + 1] = branch.low;
        self.words[at + 2] = branch.high;
    }
}
