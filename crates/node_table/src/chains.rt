//! The chains, by which a node is found.
ghost use Rattle.std.specs.Prelude.{◌≡◌, ℕ, ◌+◌, ◌<◌, ◌≤◌, MatchOption};
ghost use Rattle.diagrams.specs.Forming.{IsNode, NoNode};
ghost use Rattle.node_table.specs.Layout.{diagram_of, Node, link, head, OnlyWords};
ghost use Rattle.node_table.specs.Chains.{chain_for, handle_in, Chains, ChainedTo, SameNodes, Attached, SmallHeads};

use crate::table::{Branch, LINK, NodeTable, first_word};

// The handle in a chain's word; below 2 the chain has ended.
#[tactic(auto, unfolding(crate::specs::Chains::handle_in))]
fn handle_in(word: u32) -> Option<u32>
    ensures { result ≡ handle_in word }
{
    (word >= 2).then_some(word)
}

impl NodeTable {
    // The next handle of a node's chain.
    #[tactic(auto, using(crate::proofs::Layouts::node_at), unfolding(crate::specs::Layout::link))]
    fn link(&self, h: u32) -> Option<u32>
        requires { Node self.now h }
        ensures { result ≡ handle_in (link self.now h) }
    {
        handle_in(self.node(h)[0] / LINK)
    }

    // The first handle of a chain.
    fn head(&self, b: usize) -> Option<u32>
        requires { b < self.now.limit }
        ensures { result ≡ handle_in (head self.now b) }
    {
        handle_in(self.words[4 * b + 3])
    }

    // The chain of a node: a hash by three primes.
    #[tactic(auto, using(crate::proofs::Layouts::chain_below), unfolding(crate::specs::Chains::chain_for))]
    fn chain(&self, branch: Branch) -> usize
        requires { 0 < self.now.limit }
        ensures is { result ≡ chain_for self.now.limit branch.height branch.low branch.high }
        ensures within { result < self.now.limit }
    {
        let Branch { height, low, high } = branch;
        (low as usize * 12289 + high as usize * 24593 + height as usize * 786433)
            % self.limit as usize
    }

    // The node with this height and these halves, if there is one.
    pub(crate) fn find(&self, branch: Branch) -> Option<u32>
        requires positive { 0 < branch.height }
        requires chains { Chains self.now (self.now.limit + self.now.used) (Node self.now) }
        ensures { MatchOption result (NoNode (diagram_of self.now) branch.height branch.low branch.high) (λ h. IsNode (diagram_of self.now) h branch.height branch.low branch.high) }
    {
        if self.limit == 0 {
            return None;
        }
        let mut next = self.head(self.chain(branch));
        // Not `successors`: its closure would have to go on from any number, and a link is there only at a node.
        for _step in 0..self.limit + self.used {
            let h = next?;
            if self.branch(h) == branch {
                return Some(h);
            }
            next = self.link(h);
        }
        None
    }

    // Puts a node at the head of its chain.
    #[tactic(auto, using(crate::proofs::Layouts::node_at), unfolding(crate::specs::Layout::diagram_of))]
    pub(crate) fn attach(&mut self, h: u32)
        requires node { Node self.old h }
        requires heads { SmallHeads self.old }
        ensures only { OnlyWords self.old self.new }
        ensures attached { Attached self.old self.new h }
    {
        let b = self.chain(self.branch(h));
        let at = first_word(h);
        self.words[at] = self.words[at] % LINK + LINK * self.words[4 * b + 3];
        self.words[4 * b + 3] = h;
    }

    // Empties the chains.
    fn drop_heads(&mut self)
        ensures only { OnlyWords self.old self.new }
        ensures same { SameNodes self.old self.new }
        ensures none { (b : ℕ) → b < self.old.limit → head self.new b ≡ 0 }
    {
        // Not over chunks of four words: the library says nothing of what they hold after a write.
        for b in 0..self.limit as usize {
            self.words[4 * b + 3] = 0;
        }
    }

    // Puts the handle, if it is a node, into its chain, where those before it are.
    fn enter(&mut self, h: u32)
        requires { (2 ≤ h) × ChainedTo self.old h }
        ensures only { OnlyWords self.old self.new }
        ensures same { SameNodes self.old self.new }
        ensures chains { ChainedTo self.new (h + 1) }
    {
        if self.height(h) != 0 {
            self.attach(h);
        }
    }

    // Makes the chains anew.
    pub(crate) fn rebuild(&mut self)
        ensures only { OnlyWords self.old self.new }
        ensures same { SameNodes self.old self.new }
        ensures chains { Chains self.new self.new.limit (Node self.new) }
    {
        self.drop_heads();
        for h in 2..self.limit + 2 {
            self.enter(h);
        }
    }
}
