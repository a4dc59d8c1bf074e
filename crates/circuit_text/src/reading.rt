//! How a circuit text is checked, and its lines are read.
ghost use Rattle.std.specs.Prelude.{◌≡◌, length, Ok};
ghost use Rattle.circuit_text.specs.Forms.{checked};
ghost use Rattle.circuit_text.specs.Lines.{Kept, AllToCome, to_come, Next};
ghost use Rattle.std.specs.Iterator.{at_most};

use crate::content::content;
use crate::form::{Form, check_form};
use crate::line::Line;
use crate::lines::Lines;
use crate::text::CircuitText;
use exact::QubitCount;
use text_reader::{Reader, TextFault};

impl CircuitText {
    /// Keeps the bytes if they are a circuit text; otherwise answers their first fault.
    pub fn check(bytes: Vec<u8>) -> Result<CircuitText, TextFault>
        ensures { Kept bytes.items result }
    {
        let form = check_form(&bytes)?;
        Ok(CircuitText { bytes, form })
    }

    /// The counts of its sections.
    pub fn form(&self) -> Form
        ensures { checked self.now.bytes.items ≡ Ok result }
    {
        self.form
    }

    /// Its lines, from the first on.
    pub fn lines(&self) -> Lines<'_>
        ensures { AllToCome self.now.bytes.items result }
    {
        Lines {
            reader: Reader::new(&self.bytes),
            form: self.form,
        }
    }
}

impl<'a> Iterator for Lines<'a> {
    type Item = Line<'a>;

    ghost next_gives = { λ s r t. Next s t r };

    ghost remaining = { λ s. at_most (length (to_come s)) };

    fn next(&mut self) -> Option<Line<'a>> {
        if let Ok(()) = self.reader.end() {
            return None;
        }
        let number = self.reader.place().line;
        let bytes = self.reader.line();
        let qubits = QubitCount {
            number: self.form.qubits,
        };
        let content = content(&mut self.reader, qubits);
        Some(Line {
            number,
            bytes,
            content,
        })
    }
}
