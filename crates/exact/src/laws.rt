//! The laws of the numbers, each proved as the contract of a function that does nothing.
ghost use Rattle.exact.specs.Laws.{IndexLaws, RingLaws, RootTwoLaws, AmplitudeLaws, NormalFormLaws, WidthLaws, SquareLaws, ShareLaws};

/// An index and its number determine one another, qubit 0 is the highest bit, and lists in index order are tables.
pub fn index_laws()
    ensures { IndexLaws }
{}

/// Quadruples form a commutative ring, in which ω and √2 are quadruples.
pub fn ring_laws()
    ensures { RingLaws }
{}

/// Times √2 is injective, twice it doubles, and it can be undone exactly where no sum is odd.
pub fn root_two_laws()
    ensures { RootTwoLaws }
{}

/// Being the same amplitude is an equivalence.
pub fn amplitude_laws()
    ensures { AmplitudeLaws }
{}

/// Every state has exactly one normal form, with the same amplitudes.
pub fn normal_form_laws()
    ensures { NormalFormLaws }
{}

/// The width is the least number of bits, at least 1, that holds every entry.
pub fn width_laws()
    ensures { WidthLaws }
{}

/// The square is that of the modulus, division by √2 halves sums of squares, and the outcomes of a qubit add up.
pub fn square_laws()
    ensures { SquareLaws }
{}

/// The share is rounded to the nearest whole number, halves up.
pub fn share_laws()
    ensures { ShareLaws }
{}
