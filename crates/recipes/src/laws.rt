//! The laws of recipes and plans, each proved as the contract of a function that does nothing.
ghost use Rattle.recipes.specs.Examples.{PlanExamples};
ghost use Rattle.recipes.specs.Laws.{RecipeLaws, StateLaws, OpeningLaws, PlanLaws};

/// Every recipe is its gate's matrix, and with normal form and trimming gives the columns of the moved state.
pub fn recipe_laws()
    ensures { RecipeLaws }
{}

/// The columns of a state determine its quadruples, and give its weights by counting ones.
pub fn state_laws()
    ensures { StateLaws }
{}

/// The functions made by an opening end with the one that is 1 exactly at its index.
pub fn opening_laws()
    ensures { OpeningLaws }
{}

/// What a record holds after a call was held before, was made by the call's plan, or is constant.
pub fn plan_laws()
    ensures { PlanLaws }
{}

/// The space that calls need, in worked examples.
pub fn plan_examples()
    ensures { PlanExamples }
{}
