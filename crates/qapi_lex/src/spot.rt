ghost use Rattle.std.specs.Prelude.{◌≡◌};
ghost use Rattle.qapi_lex.specs.Spots.{beginning, after_byte, after_bytes};

/// A place in a text: a line and a column, counted from 1 as far as 32 bits count.
#[derive(Clone, Copy, Drop)]
pub struct Spot {
    pub line: u32,
    pub column: u32,
}

impl Spot {
    /// The place of the first byte.
    pub fn first() -> Spot
        ensures { result ≡ beginning }
    {
        Spot { line: 1, column: 1 }
    }

    fn past(self, byte: u8) -> Spot
        ensures { result ≡ after_byte self byte }
    {
        if byte == b'\n' {
            Spot {
                line: self.line.saturating_add(1),
                column: 1,
            }
        } else {
            Spot {
                line: self.line,
                column: self.column.saturating_add(1),
            }
        }
    }

    /// The place after these bytes, of which the first stands here.
    pub fn past_all(self, bytes: &[u8]) -> Spot
        ensures { result ≡ after_bytes self bytes.now }
    {
        let mut spot = self;
        for byte in bytes {
            spot = spot.past(*byte);
        }
        spot
    }
}
