//! Integers in slices: columns of Boolean functions, one for each bit of the integers at all indices.
//!
//! A column is a list of functions, the slice of the lowest bit first. At an index its slices' values are the bits of an
//! integer in two's complement.
#![tactic(auto)]

ghost use Rattle.std.specs.Prelude.{◌≡◌};
ghost use Rattle.slicing.specs.Components.{component};

pub mod laws;

use exact::Quadruple;

/// One of the four whole numbers of aω³ + bω² + cω + d.
#[derive(Clone, Copy, PartialEq, Eq)]
pub enum Component {
    A,
    B,
    C,
    D,
}

impl Component {
    /// This component of a quadruple.
    // Four fields: one generic struct for this, recipes and columns would rename the fields that all definitions name.
    pub fn of(self, quadruple: Quadruple) -> i32
        ensures { result ≡ component self quadruple }
    {
        match self {
            Component::A => quadruple.a,
            Component::B => quadruple.b,
            Component::C => quadruple.c,
            Component::D => quadruple.d,
        }
    }
}
