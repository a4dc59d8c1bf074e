//! The laws of functions, plans and handles, each proved as the contract of a function that does nothing.
ghost use Rattle.functions.specs.Laws.{RuleLaws, PlanLaws, HandleLaws, NewStoreLaws};

/// A function is given by its values, and the rules that have names do what the names say.
pub fn rule_laws()
    ensures { RuleLaws }
{}

/// Plans compose, early stops included, and are stopped exactly if they exceed the limit.
pub fn plan_laws()
    ensures { PlanLaws }
{}

/// The constants have the handles 0 and 1, and two held handles are equal exactly if their functions are.
pub fn handle_laws()
    ensures { HandleLaws }
{}

/// A store that holds only the constants keeps the laws, and they can be kept with any number of qubits from 1 to 16.
pub fn new_store_laws()
    ensures { NewStoreLaws }
{}
