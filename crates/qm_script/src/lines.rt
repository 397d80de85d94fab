ghost use Rattle.std.specs.Prelude.{◌≡◌, ◌<◌, ◌∷◌, length, position, IfSome};
ghost use Rattle.qm_script.specs.Lines.{is_line_feed, lines_of};

fn line_feed_at(script: &[u8]) -> Option<usize>
    ensures place { result ≡ position is_line_feed script.now }
    ensures within { IfSome result (λ at. at < length script.now) }
{
    script.iter().position(|byte| *byte == b'\n')
}

/// The first line of a script that is not empty, without its LF, and what follows it.
pub fn first_line(script: &[u8]) -> (&[u8], &[u8])
    requires { 0 < length script.now }
    ensures lines { lines_of script.now ≡ result.0.now ∷ lines_of result.1.now }
    ensures shorter { length result.1.now < length script.now }
{
    match line_feed_at(script) {
        Some(at) => (&script[..at], &script[at + 1..]),
        None => (script, &[]),
    }
}
