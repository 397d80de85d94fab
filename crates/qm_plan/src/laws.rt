//! Laws of plans.

ghost use Rattle.std.specs.Prelude.{◌≡◌, Ok, Err};
ghost use Rattle.qm_json.specs.Cleanness.{IsClean};
ghost use Rattle.qm_json.specs.declared.value.Json.{Json};
ghost use Rattle.qm_plan.specs.Applying.{Outcome, applied_of};
ghost use Rattle.qm_plan.specs.Cleanness.{IsCleanFacts, IsCleanFault, IsCleanOutcome, IsCleanPlan, IsCleanRecipe, IsCleanStore};
ghost use Rattle.qm_plan.specs.Plans.{arguments_of, given_arguments, plan_of};
ghost use Rattle.qm_plan.specs.Stores.{Contents};
ghost use Rattle.qm_plan.specs.declared.TheConstants.{MOST_COUNT};
ghost use Rattle.qm_plan.specs.declared.applied.ApplyFault.{ApplyFault};
ghost use Rattle.qm_plan.specs.declared.calls.Call.{Call};
ghost use Rattle.qm_plan.specs.declared.facts.Facts.{Facts};
ghost use Rattle.qm_plan.specs.declared.recipes.Plan.{Plan};
ghost use Rattle.qm_plan.specs.declared.recipes.Recipe.{Recipe};

/// The greatest count of a tally is 2^63-1.
pub fn limits_are_these()
    ensures { MOST_COUNT ≡ 9223372036854775807 }
{}

/// The plan of a clean recipe is clean, with clean arguments and for a clean request.
pub fn a_clean_recipe_gives_clean_plans()
    ensures arguments { (recipe : Recipe) (arguments : Json) →
        IsCleanRecipe recipe → IsClean arguments → IsCleanPlan (plan_of recipe arguments) }
    ensures request { (recipe : Recipe) (call : Call) → IsCleanRecipe recipe →
        IsClean call.request → IsCleanPlan (plan_of recipe (arguments_of (given_arguments call))) }
{}

/// A clean plan makes clean values, ids and events of a clean store and clean facts, and leaves a
/// clean store; the text of its failure is UTF-8.
pub fn a_clean_plan_gives_clean_values()
    ensures ok { (facts : Facts) (plan : Plan) (store : Contents) (outcome : Outcome) →
        IsCleanFacts facts → IsCleanPlan plan → IsCleanStore store →
        applied_of facts plan store ≡ Ok outcome → IsCleanOutcome outcome }
    ensures err { (facts : Facts) (plan : Plan) (store : Contents) (fault : ApplyFault) →
        IsCleanFacts facts → IsCleanPlan plan → IsCleanStore store →
        applied_of facts plan store ≡ Err fault → IsCleanFault fault }
{}
