ghost use Rattle.std.specs.Prelude.{◌≡◌};
ghost use Rattle.qm_base.specs.Bytes;

/// Whether the byte is white space: space, tab, CR or LF (RFC 8259, section 2).
pub fn is_space(byte: u8) -> bool
    ensures { result ≡ Bytes.is_space byte }
{
    byte == b' ' || byte == b'\t' || byte == b'\r' || byte == b'\n'
}
