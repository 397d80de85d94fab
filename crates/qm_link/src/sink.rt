ghost use Rattle.std.specs.Prelude.{◌≡◌, ℕ, List, Option};
ghost use Rattle.qm_base.specs.Faults.{Puts, Counts};

/// The sink could not take a piece.
#[derive(Clone, Copy, Debug, PartialEq, Eq)]
pub struct SinkFailed;

/// What takes the output of a program. Its faults are counted.
pub trait Sink {
    /// The bytes that it holds, where it tells them.
    ghost contents: { Self → Option (List ℕ) };

    /// How many calls failed, as far as 64 bits count.
    ghost faults: { Self → ℕ };

    /// Appends the piece. It fails exactly where the count of faults rises; then a part of the
    /// piece was appended.
    fn put(&mut self, piece: &[u8]) -> Result<(), SinkFailed>
        ensures bytes { Puts (contents self.old) piece.now result (contents self.new) }
        ensures cause { Counts (faults self.old) (faults self.new) result };
}
