//! The plain machine: what a run of calls means, and when a call is refused. It is defined in specs/; its laws are proved as
//! the contracts of functions that do nothing.
#![tactic(auto)]

ghost use Rattle.plain.specs.Laws.{RefusalLaws, CallLaws, RunLaws};

/// A call is refused exactly with the first fault, in the order of numbers, that applies to it.
pub fn refusal_laws()
    ensures { RefusalLaws }
{}

/// A refused call and a question change nothing; a copy has all that its source has.
pub fn call_laws()
    ensures { CallLaws }
{}

/// What holds of the open registers after any run: each is a column of a product of matrices, in normal form and within
/// bounds; equal amplitudes are equal states; equal products make equal states; the weights of a qubit add up.
pub fn run_laws()
    ensures { RunLaws }
{}
