//! Forming functions half by half.
ghost use Rattle.node_answers.specs.Answers.{asked, Given};
ghost use Rattle.node_store.specs.Orders.{diagram, Ordered, Forms};
ghost use Rattle.node_store.specs.Questions.{Positive};

use crate::questions::simplest;
use crate::store::NodeStore;
use node_answers::Question;

impl NodeStore {
    // What a question asks for: its answer at once, or one that is remembered; else those of the halves where the first qubit
    // that matters is 0 and where it is 1, joined. `None` if there is no room for a node.
    pub(crate) fn form(&mut self, question: Question) -> Option<u32>
        requires order { Ordered self.old }
        requires held { Given (diagram self.old) question }
        requires positive { Positive question }
        ensures { Forms self.old self.new (asked (diagram self.old) question) result }
    {
        let simple = simplest(question);
        if let Some(r) = self.at_once(simple) {
            return Some(r);
        }
        if let Some(r) = self.remembered.recall(simple) {
            return Some(r);
        }
        let height = self.highest(simple);
        let (lows, highs) = self.halved(simple, height);
        let low = self.form(lows)?;
        let high = self.form(highs)?;
        let r = self.nodes.join(height, low, high)?;
        self.remembered.remember(simple, r);
        Some(r)
    }
}
