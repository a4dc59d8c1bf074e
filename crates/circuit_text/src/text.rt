//! A text that has passed the form check.
ghost use Rattle.std.specs.Prelude.{◌≡◌, true};
ghost use Rattle.circuit_text.specs.Texts.{passes};

use crate::form::Form;

/// The bytes of a circuit text, kept with its form. There is none that has not passed the form check.
#[derive(Drop)]
pub struct CircuitText {
    pub(crate) bytes: Vec<u8>,
    pub(crate) form: Form,
    ghost passed: { passes bytes.items form ≡ true },
}
