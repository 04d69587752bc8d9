// Where a line ends (CommonMark 2.1).
ghost use Rattle.std.specs.Prelude.{◌≡◌, ◌≤◌, ◌-◌, ◌*◌, length, not};
ghost use Rattle.std.specs.List.{prefix_len};
ghost use Rattle.md_meaning.specs.Lines as lines;

/// How many bytes are before the first line ending.
pub fn line_len(text: &[u8]) -> usize
    ensures value { result ≡ prefix_len (λ b. not (lines.is_ending b)) text.now }
    ensures bound { result ≤ length text.now }
{
    text.iter()
        .take_while(|byte| **byte != b'\n' && **byte != b'\r')
        .count()
}
