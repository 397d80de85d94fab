ghost use Rattle.std.specs.Prelude.{◌≡◌, IfOk};
ghost use Rattle.qm_json.specs.Printing.{printed};

use qm_base::{GrowingList, NoMemory, Shared, Text};
use qm_json::Json;
use std::alloc::Global;

/// Lines in order, each without its CR LF.
pub type LineList = GrowingList<Shared<Text>>;

/// The line that a value is printed as.
pub(crate) fn line(alloc: Global, value: &Json) -> Result<Shared<Text>, NoMemory>
    ensures { IfOk result (λ line. line ≡ printed value.now) }
{
    let mut text = Text::new(alloc);
    value.write_text(&mut text)?;
    Shared::new(alloc, text)
}
