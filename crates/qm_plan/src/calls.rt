ghost use Rattle.std.specs.Prelude.{◌≡◌};
ghost use Rattle.std.specs.Option.{option_copied};
ghost use Rattle.qm_plan.specs.Plans.{given_arguments};

use qm_base::Shared;
use qm_json::Json;

/// A command that is called, and the request that calls it.
#[derive(Drop)]
pub struct Call {
    /// The command's number.
    pub command: u32,
    /// The request, an object.
    pub request: Shared<Json>,
}

impl Call {
    /// The arguments, where the request has some (QMP specification, "Issuing Commands").
    pub fn arguments(&self) -> Option<&Json>
        ensures { option_copied result ≡ given_arguments self.now }
    {
        self.request.get().member(b"arguments")
    }
}
