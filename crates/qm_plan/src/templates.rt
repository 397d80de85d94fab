use qm_base::Text;
use qm_json::Json;
use sqlite_items::Items;

/// What a value is made of. This project's own rule.
#[cycle(template)]
#[derive(Drop)]
pub enum Template {
    /// This value.
    Const(Json),
    /// The argument of the name; a plan has none of these.
    Arg(Text),
    /// All arguments; a plan has none of these.
    Args,
    /// The value of the cell of the name.
    Cell(Text),
    /// The count of the tally of the name.
    Tally(Text),
    /// An object.
    Object(Items<TemplateMember>),
    /// An array.
    Array(Items<Template>),
    /// What `query-version` returns.
    Version,
    /// What `query-commands` returns.
    Commands,
    /// What `query-qmp-schema` returns.
    Introspection,
    /// What `query-jobs` returns.
    Jobs,
}

/// A member of an object: its name, as UTF-8, and what its value is made of.
#[cycle(template)]
#[derive(Drop)]
pub struct TemplateMember {
    /// The name.
    pub name: Text,
    /// What the value is made of.
    pub template: Template,
}
