use qm_base::GrowingList;
use qm_plan::{CellList, Names, PeriodList, Recipe};

/// Recipes by the number of the command.
pub type RecipeList = GrowingList<Recipe>;

/// What the commands of a schema do, and how its events are throttled.
#[derive(Drop)]
pub struct Binding {
    /// What each command does, by its number.
    pub recipes: RecipeList,
    /// How each event is throttled, by its number.
    pub periods: PeriodList,
    /// The cells that recipes name, with their first values.
    pub cells: CellList,
    /// The tallies that recipes name, which are 0 at first.
    pub tallies: Names,
}
