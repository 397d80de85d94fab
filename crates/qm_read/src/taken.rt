ghost use Rattle.std.specs.Prelude.{◌≡◌, IfOk, Ok};
ghost use Rattle.qm_read.specs.Inputs.{IsCleanInput, taken_of};

use crate::JsonFault;
use crate::reading::read;
use qm_base::NoMemory;
use qm_frame::FrameFault;
use qm_json::Json;
use std::alloc::Global;

/// What a frame of a stream of bytes is read as.
#[derive(Debug, Drop)]
pub enum Taken {
    /// The value that a message spells.
    Value(Json),
    /// The fault of bytes that are no message.
    BadFrame(FrameFault),
    /// The first fault of a message that spells no value. It is never `JsonFault::Memory`.
    BadText(JsonFault),
}

impl Taken {
    /// What a message is read as.
    pub fn of_message(alloc: Global, message: &[u8]) -> Result<Taken, NoMemory>
        ensures value { IfOk result (λ taken. taken ≡ taken_of (Ok message.now)) }
        ensures clean { IfOk result IsCleanInput }
    {
        match read(alloc, message) {
            Ok(value) => Ok(Taken::Value(value)),
            Err(JsonFault::Memory) => Err(NoMemory),
            Err(fault) => Ok(Taken::BadText(fault)),
        }
    }
}
