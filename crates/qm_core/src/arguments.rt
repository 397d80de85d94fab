//! The arguments of a request.

ghost use Rattle.std.specs.Prelude.{◌≡◌};
ghost use Rattle.std.specs.Option.{option_copied};
ghost use Rattle.qm_core.specs.Inputs.{arguments_in as arguments_in_input, arguments_of};

use crate::inputs::Input;
use qm_json::Json;

/// The arguments that a value gives, where it gives some.
pub(crate) fn arguments(value: &Json) -> Option<&Json>
    ensures { option_copied result ≡ arguments_of value.now }
{
    value.member(b"arguments")
}

/// The same of an input.
pub(crate) fn arguments_in(input: &Input) -> Option<&Json>
    ensures { option_copied result ≡ arguments_in_input input.now }
{
    match input {
        Input::Doc(value) => arguments(value.get()),
        Input::Bad(_) => None,
    }
}
