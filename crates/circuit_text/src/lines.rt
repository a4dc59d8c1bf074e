//! Where the lines of a circuit text are read on.
ghost use Rattle.std.specs.Prelude.{◌≡◌, true};
ghost use Rattle.std.specs.List.{flat_map};
ghost use Rattle.text_reader.specs.Reading.{text_of, rest, standing};
ghost use Rattle.text_grammar.specs.Circuits.{line_bytes};
ghost use Rattle.circuit_text.specs.Texts.{passes, lines_from};

use crate::form::Form;
use text_reader::Reader;

/// The lines of a text that has passed the form check, those of its sections' counts included.
#[derive(Drop)]
pub struct Lines<'a> {
    pub(crate) reader: Reader<'a>,
    pub(crate) form: Form,
    ghost passed: { passes (text_of reader) form ≡ true },
    ghost ahead: { rest reader ≡ flat_map line_bytes (lines_from (text_of reader) (standing reader)) },
}
