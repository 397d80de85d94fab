ghost use Rattle.std.specs.Prelude.{◌≡◌, map};
ghost use Rattle.std.specs.List.{list_any};
ghost use Rattle.std.specs.Str.{bytes_eq};
ghost use Rattle.qm_base.specs.Names.{is_named};
ghost use Rattle.qm_json.specs.Cleanness.{are_distinct};
ghost use Rattle.qm_plan.specs.Stores.{names_of};
ghost use Rattle.qm_bind.specs.Faults.{member_names};
ghost use Rattle.qm_bind.specs.Walks.{template_names};

use qm_base::Text;
use qm_json::{Member, has_member};
use qm_plan::{Cell, TemplateMember};

fn is_of_cell(cells: &[Cell], name: &[u8]) -> bool
    ensures { result ≡ list_any (λ (c : Cell). bytes_eq name.now c.name) cells.now }
{
    cells.iter().any(|cell| name == cell.name.as_slice())
}

/// Whether a cell has the name.
pub fn has_cell(cells: &[Cell], name: &[u8]) -> bool
    ensures { result ≡ is_named (names_of cells.now) name.now }
{
    is_of_cell(cells, name)
}

/// Whether one of the texts is the name.
pub fn has_text(texts: &[Text], name: &[u8]) -> bool
    ensures { result ≡ is_named texts.now name.now }
{
    texts.iter().any(|text| name == text.as_slice())
}

fn is_text(texts: &[Text], name: &[u8]) -> bool
    ensures { result ≡ list_any (λ text. bytes_eq text name.now) texts.now }
{
    texts.iter().any(|text| text.as_slice() == name)
}

fn is_one_cell(cells: &[Cell], name: &[u8]) -> bool
    ensures { result ≡ list_any (λ (c : Cell). bytes_eq c.name name.now) cells.now }
{
    cells.iter().any(|cell| cell.name.as_slice() == name)
}

fn is_cell(cells: &[Cell], name: &[u8]) -> bool
    ensures { result ≡ list_any (λ other. bytes_eq other name.now) (names_of cells.now) }
{
    is_one_cell(cells, name)
}

fn is_one_template(members: &[TemplateMember], name: &[u8]) -> bool
    ensures { result ≡ list_any (λ (m : TemplateMember). bytes_eq m.name name.now) members.now }
{
    members.iter().any(|member| member.name.as_slice() == name)
}

fn is_template(members: &[TemplateMember], name: &[u8]) -> bool
    ensures { result ≡ list_any (λ other. bytes_eq other name.now) (template_names members.now) }
{
    is_one_template(members, name)
}

fn is_member(members: &[Member], name: &[u8]) -> bool
    ensures { result ≡ list_any (λ other. bytes_eq other name.now) (member_names members.now) }
{
    has_member(members, name)
}

/// Whether no two members have one name.
pub fn distinct_members(members: &[Member]) -> bool
    ensures { result ≡ are_distinct (member_names members.now) }
{
    for i in 0..members.len() {
        if is_member(&members[i + 1..], members[i].name.as_slice()) {
            return false;
        }
    }
    true
}

/// Whether no two members have one name.
pub fn distinct_templates(members: &[TemplateMember]) -> bool
    ensures { result ≡ are_distinct (template_names members.now) }
{
    for i in 0..members.len() {
        if is_template(&members[i + 1..], members[i].name.as_slice()) {
            return false;
        }
    }
    true
}

/// Whether no two cells have one name.
pub fn distinct_cells(cells: &[Cell]) -> bool
    ensures { result ≡ are_distinct (names_of cells.now) }
{
    for i in 0..cells.len() {
        if is_cell(&cells[i + 1..], cells[i].name.as_slice()) {
            return false;
        }
    }
    true
}

/// Whether no two texts are equal.
pub fn distinct_texts(texts: &[Text]) -> bool
    ensures { result ≡ are_distinct texts.now }
{
    for i in 0..texts.len() {
        if is_text(&texts[i + 1..], texts[i].as_slice()) {
            return false;
        }
    }
    true
}
