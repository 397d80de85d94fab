ghost use Rattle.std.specs.Prelude.{◌≡◌};
ghost use Rattle.qm_caps.specs.Lanes.{asks_out_of_band, lane_of};

use crate::mode::{Lane, Mode};
use qm_json::{Json, has_member};

fn asks_out_of_band(request: &Json) -> bool
    ensures { result ≡ asks_out_of_band request.now }
{
    match request {
        Json::Obj(members) => {
            let members = members.as_slice();
            has_member(members, b"exec-oob") && !has_member(members, b"execute")
        }
        _ => false,
    }
}

/// The lane of a request that is admitted in a mode: out of band exactly where the mode allows that
/// and the request is an object that has `exec-oob` and no `execute` (QMP specification, "Out-of-band
/// execution"). It takes no memory.
pub fn classify(request: &Json, mode: Mode) -> Lane
    ensures { result ≡ lane_of mode request.now }
{
    if mode.may_be_out_of_band() && asks_out_of_band(request) {
        Lane::Oob
    } else {
        Lane::InBand
    }
}
