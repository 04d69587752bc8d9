// The lines of a text (CommonMark 2.1).
ghost use Rattle.std.specs.Prelude.{◌≡◌, ◌≤◌, ◌<◌, ◌+◌, ◌-◌, ◌*◌, ◌^◌, length, IfOk};
ghost use Rattle.md_meaning.specs.Lines as lines;
ghost use Rattle.md_meaning.specs.Preamble.{rests_at};
ghost use Rattle.reference_tree.specs.Rests.{rest_meanings, after_ending};

use crate::rest::Rest;
use md_engine::message::Message;
use md_scan::lines::line_len;
use md_scan::memory;
use std::alloc::Global;

/// What follows the line ending that comes first: LF, CR or CRLF.
fn following_ending(bytes: &[u8]) -> &[u8]
    ensures value { result.now ≡ after_ending bytes.now }
    ensures bound { length result.now ≤ length bytes.now - 1 }
{
    match bytes {
        [b'\r', b'\n', rest @ ..] | [_, rest @ ..] => rest,
        [] => bytes,
    }
}

/// The lines of a text without their endings, of which the first begins at this column. An empty rest after the last
/// ending is no line.
pub fn rests_of<'a>(alloc: Global, column: usize, text: &'a [u8]) -> Result<Vec<Rest<'a>>, Message>
    requires { column + 4 * length text.now ≤ 2 ^ 63 }
    ensures { IfOk result (λ v. rest_meanings v.items ≡ rests_at column (lines.lines_of text.now)) }
{
    let mut rests = Vec::new(alloc);
    let mut left = text;
    let mut begins = column;
    while !left.is_empty() {
        let (bytes, ending) = left.split_at(line_len(left));
        memory::push(
            &mut rests,
            Rest {
                column: begins,
                spaces: 0,
                bytes,
            },
        )?;
        left = following_ending(ending);
        begins = 0;
    }
    Ok(rests)
}
