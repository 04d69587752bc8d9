// Lines that may be heads of tables (GFM 4.10).
ghost use Rattle.std.specs.Prelude.{◌≡◌, not, ◌&&◌};
ghost use Rattle.md_meaning.specs.Table as table;

use crate::ahead::{after_optional, begins_with};
use crate::bytes::trim;

/// Whether a line may be a head: it is not just a pipe with spaces and tabs around it.
#[tactic(auto, unfolding(md_meaning::specs::Table::is_head))]
pub fn is_head(line: &[u8]) -> bool
    ensures { result ≡ table.is_head line.now }
{
    let text = trim(line);
    !(begins_with(b'|', text) && after_optional(b'|', text).is_empty())
}
