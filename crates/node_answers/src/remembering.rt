//! Remembering, recalling and forgetting answers.
ghost use Rattle.std.specs.Prelude.{◌≡◌, ℕ, ◌<◌, ◌≢◌, ◌↔◌, Some, IfSome};
ghost use Rattle.diagrams.specs.Diagrams.{Diagram};
ghost use Rattle.node_answers.specs.declared.question.Question.{Question};
ghost use Rattle.node_answers.specs.Answers.{Right, Sound, slot_of, Remembers};

use crate::answered::Answered;
use crate::question::Question;
use crate::remembered::Remembered;

impl Remembered {
    /// Nothing is remembered.
    pub fn new() -> Remembered
        ensures none { (q : Question) (a : ℕ) → Remembers result q a → ⊥ }
        ensures sound { (s : Diagram) → Sound s result }
    {
        Remembered {
            entries: [None; 4096],
            generation: 0,
        }
    }

    /// The answer of a question, if it is remembered.
    pub fn recall(&self, question: Question) -> Option<u32>
        ensures is { (a : ℕ) → (result ≡ Some a) ↔ Remembers self.now question a }
        ensures right { (s : Diagram) → Sound s self.now → IfSome result (Right s question) }
    {
        let entry = self.entries[slot(question)]?;
        (entry.generation == self.generation && entry.question == question).then_some(entry.answer)
    }

    /// Remembers an answer, in place of any other in its slot.
    pub fn remember(&mut self, question: Question, answer: u32)
        ensures now { Remembers self.new question answer }
        ensures others { (q : Question) (a : ℕ) → slot_of q ≢ slot_of question → (Remembers self.new q a ↔ Remembers self.old q a) }
        ensures sound { (s : Diagram) → Sound s self.old → Right s question answer → Sound s self.new }
    {
        self.entries[slot(question)] = Some(Answered {
            question,
            answer,
            generation: self.generation,
        });
    }

    /// Forgets everything.
    pub fn forget(&mut self)
        ensures none { (q : Question) (a : ℕ) → Remembers self.new q a → ⊥ }
        ensures sound { (s : Diagram) → Sound s self.new }
    {
        if self.generation == u32::MAX {
            self.entries.fill(None);
            self.generation = 0;
        } else {
            self.generation += 1;
        }
    }
}

// The slot of a question.
fn slot(question: Question) -> usize
    ensures is { result ≡ slot_of question }
    ensures within { result < 4096 }
{
    let key = match question {
        Question::Combined(c) => u64::from(c.f)
            ^ u64::from(c.g) << 17
            ^ u64::from(c.h) << 34
            ^ u64::from(c.rule) << 55,
        Question::Fixed(x) => u64::from(x.f)
            ^ u64::from(x.height) << 17
            ^ u64::from(x.bit) << 34
            ^ 1 << 63,
    };
    (key.wrapping_mul(0x9e37_79b9_7f4a_7c15) >> 52) as usize
}
