//! Whether a text is a circuit text.
ghost use Rattle.std.specs.Prelude.{◌≡◌};
ghost use Rattle.text_grammar.specs.Syntaxes as syntax;
ghost use Rattle.text_fields.specs.Reading.{Follows, Many, onward};
ghost use Rattle.circuit_text.specs.Forms.{form_read, checked, FormVerdict};

use crate::listed::Listed;
use exact::QubitCount;
use text_phrases::{Opening, Question, Step, section};
use text_reader::{Reader, TextFault};
use text_words::Section;

/// The counts of a circuit text's sections.
#[derive(Clone, Copy)]
pub struct Form {
    pub qubits: u32,
    pub opens: u32,
    pub steps: u32,
    pub reads: u32,
}

/// The most bytes that a circuit text may have.
pub const MAX_BYTES: usize = 16384;

/// The form of the circuit text that these bytes are, or their first fault.
pub fn check_form(text: &[u8]) -> Result<Form, TextFault>
    ensures equals { result ≡ checked text.now }
    ensures right { FormVerdict text.now result }
{
    if text.len() > MAX_BYTES {
        return Err(TextFault::TooLong { length: text.len() });
    }
    let mut reader = Reader::new(text);
    circuit(&mut reader)
}

fn circuit(reader: &mut Reader) -> Result<Form, TextFault>
    ensures { result ≡ form_read (onward syntax.circuit reader.old) }
{
    let number = section(reader, Section::Qubits)?;
    let qubits = QubitCount { number };
    let opens = section(reader, Section::Opens)?;
    lines::<Opening>(reader, qubits, opens)?;
    let steps = section(reader, Section::Steps)?;
    lines::<Step>(reader, qubits, steps)?;
    let reads = section(reader, Section::Reads)?;
    lines::<Question>(reader, qubits, reads)?;
    reader.end()?;
    Ok(Form {
        qubits: number,
        opens,
        steps,
        reads,
    })
}

/// So many lines of one kind.
fn lines<L: Listed>(
    reader: &mut Reader,
    qubits: QubitCount<16>,
    total: u32,
) -> Result<(), TextFault>
    ensures { Follows (syntax.several (L.phrase qubits.number) total) (Many total) reader.old reader.new result }
{
    for _ in 0..total {
        L::read(reader, qubits)?;
    }
    Ok(())
}
