ghost use Rattle.std.specs.Prelude.{◌≡◌, ◌↔◌, ℕ, [], ◌∷◌, codes, Some, None, IsTrue, option_map};
ghost use Rattle.qm_bind.specs.Recipes.{empty_object};
ghost use Rattle.qm_bind.specs.Standing.{acting, act_named, answer_named, answering, standing_recipe, verb_named};

use crate::standing::{acts, answer, verb};
use qm_json::Json;
use qm_plan::{Act, Recipe, Template, Verb, Waiting};

/// Whether it is the empty object.
fn is_nothing(template: &Template) -> bool
    ensures { IsTrue result ↔ (template.now ≡ empty_object) }
{
    match template {
        Template::Const(Json::Obj(members)) => members.len() == 0,
        _ => false,
    }
}

/// Whether it is the argument `id`.
fn is_id(template: &Template) -> bool
    ensures { IsTrue result ↔ (template.now ≡ Template.Arg (codes "id")) }
{
    match template {
        Template::Arg(name) => name.as_slice() == b"id".as_slice(),
        _ => false,
    }
}

fn is_verb(name: &[u8], asked: Verb) -> bool
    ensures { IsTrue result ↔ (verb_named name.now ≡ Some asked) }
{
    match verb(name) {
        Some(verb) => verb == asked,
        None => false,
    }
}

fn is_not_waiting(waiting: Waiting) -> bool
    ensures { IsTrue result ↔ (waiting ≡ Waiting.No) }
{
    match waiting {
        Waiting::No => true,
        _ => false,
    }
}

/// Whether it is the act of the command of the name.
fn is_act(name: &[u8], act: &Act) -> bool
    ensures { IsTrue result ↔ (act_named name.now ≡ Some act.now) }
{
    if name == b"qmp_capabilities".as_slice() {
        return match act {
            Act::Negotiate => true,
            _ => false,
        };
    }
    if name == b"quit".as_slice() {
        return match act {
            Act::Quit => true,
            _ => false,
        };
    }
    match act {
        Act::OnJob { verb, id } => is_verb(name, *verb) && is_id(id),
        _ => false,
    }
}

/// Whether it is what the query of the name returns.
fn is_answer(name: &[u8], ret: &Template) -> bool
    ensures { IsTrue result ↔ (answer_named name.now ≡ Some ret.now) }
{
    match (answer(name), ret) {
        (Some(Template::Version), Template::Version) => true,
        (Some(Template::Commands), Template::Commands) => true,
        (Some(Template::Introspection), Template::Introspection) => true,
        (Some(Template::Jobs), Template::Jobs) => true,
        _ => false,
    }
}

fn is_only_act(name: &[u8], acts: &[Act]) -> bool
    ensures { IsTrue result ↔ ((act : Act) × (act_named name.now ≡ Some act) × (acts.now ≡ act ∷ [])) }
{
    match acts {
        [act] => is_act(name, act),
        _ => false,
    }
}

fn is_acting(name: &[u8], recipe: &Recipe) -> bool
    ensures { IsTrue result ↔ (option_map acting (act_named name.now) ≡ Some recipe.now) }
{
    is_only_act(name, recipe.acts.as_slice())
        && is_nothing(&recipe.ret)
        && is_not_waiting(recipe.waiting)
}

fn is_answering(name: &[u8], recipe: &Recipe) -> bool
    ensures { IsTrue result ↔ (option_map answering (answer_named name.now) ≡ Some recipe.now) }
{
    recipe.acts.len() == 0 && is_answer(name, &recipe.ret) && is_not_waiting(recipe.waiting)
}

/// Whether it is the recipe of the command of the name, which stands before each schema.
pub fn is_standing_recipe(name: &[u8], recipe: &Recipe) -> bool
    ensures { IsTrue result ↔ (standing_recipe name.now ≡ Some recipe.now) }
{
    if acts(name) {
        is_acting(name, recipe)
    } else {
        is_answering(name, recipe)
    }
}
