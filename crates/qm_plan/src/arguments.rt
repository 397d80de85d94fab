ghost use Rattle.std.specs.Prelude.{◌≡◌};
ghost use Rattle.std.specs.List.{list_any};
ghost use Rattle.qm_json.specs.declared.value.Json.{out-Json};
ghost use Rattle.qm_plan.specs.Plans.{enables_oob, is_string, layer_items};

use qm_json::Json;

fn is_text(text: &[u8], value: &Json) -> bool
    ensures { result ≡ is_string text.now value.now }
{
    match value {
        Json::Str(bytes) => text == bytes.as_slice(),
        _ => false,
    }
}

fn is_any_text(text: &[u8], items: &[Json]) -> bool
    ensures { result ≡ list_any (is_string text.now) items.now }
{
    items.iter().any(|item| is_text(text, item))
}

fn holds_text(text: &[u8], value: &Json) -> bool
    ensures { result ≡ list_any (is_string text.now) (layer_items (out-Json value.now)) }
{
    match value {
        Json::Arr(items) => is_any_text(text, items.as_slice()),
        _ => false,
    }
}

/// Whether arguments enable execution out of band.
pub(crate) fn enabled_oob(arguments: &Json) -> bool
    ensures { result ≡ enables_oob arguments.now }
{
    match arguments.member(b"enable") {
        Some(value) => holds_text(b"oob", value),
        None => false,
    }
}
