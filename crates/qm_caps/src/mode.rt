ghost use Rattle.std.specs.Prelude.{◌≡◌};
ghost use Rattle.qm_caps.specs.Lanes.{is_in_band};
ghost use Rattle.qm_caps.specs.Modes.{bound_of, is_negotiating, may_be_out_of_band};

/// What a session has negotiated (QMP specification, "Capabilities Negotiation").
#[derive(Clone, Copy, Debug, PartialEq, Eq)]
pub enum Mode {
    /// Only `qmp_capabilities` is answered.
    Negotiating,
    /// Commands, in order.
    Command,
    /// Commands, of which some may run out of band.
    CommandOob,
}

/// How a request is run (QMP specification, "Out-of-band execution").
#[derive(Clone, Copy, Debug, PartialEq, Eq)]
pub enum Lane {
    /// In its turn.
    InBand,
    /// At once, before requests that wait.
    Oob,
}

/// How many in-band requests of a session may wait or run at a time: 8 with the out-of-band
/// capability, else 1. This project's own rule.
pub fn bound(mode: Mode) -> u32
    ensures { result ≡ bound_of mode }
{
    match mode {
        Mode::CommandOob => 8,
        Mode::Negotiating | Mode::Command => 1,
    }
}

impl Mode {
    /// Whether a request may ask to be run out of band.
    pub fn may_be_out_of_band(self) -> bool
        ensures { result ≡ may_be_out_of_band self }
    {
        matches!(self, Mode::CommandOob)
    }

    /// Whether only `qmp_capabilities` is answered.
    pub fn is_negotiating(self) -> bool
        ensures { result ≡ is_negotiating self }
    {
        matches!(self, Mode::Negotiating)
    }
}

impl Lane {
    /// Whether a request is run in its turn.
    pub fn is_in_band(self) -> bool
        ensures { result ≡ is_in_band self }
    {
        matches!(self, Lane::InBand)
    }
}
