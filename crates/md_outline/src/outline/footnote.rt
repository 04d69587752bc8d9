// What an outline shows of a container that begins: the line of its word, and after that of a footnote definition the
// line of its label, which is empty until its text fills it.

ghost use Rattle.std.specs.Prelude.{◌≡◌, ◌++◌, OnOk};
ghost use Rattle.std.specs.Str.{IsUtf8};
ghost use Rattle.md_meaning.specs.Outline.{entries_of};
ghost use Rattle.md_outline.specs.FootnoteState.{container_lines, label_recorded};

use crate::outline::lined::drop_end;
use crate::outline::lines::{next, push, text_of};
use md_engine::message::Message;
use md_meaning::outline::{OutlineLine, Word};

/// Adds a container as it begins.
pub fn push_container(lines: &mut Vec<OutlineLine>, depth: usize, word: Word) -> Result<(), Message>
    ensures { OnOk result
        (entries_of lines.new.items ≡ entries_of lines.old.items ++ container_lines depth word) }
{
    push(lines, depth, word, "")?;
    match word {
        Word::Footnote => push(lines, next(depth)?, Word::Label, ""),
        _ => Ok(()),
    }
}

/// Tells the last line, that of the label of a footnote definition, its text.
pub fn fill_label<'a>(
    lines: &mut Vec<OutlineLine<'a>>,
    depth: usize,
    text: &'a [u8],
) -> Result<(), Message>
    ensures { OnOk result (IsUtf8 text.now →
        entries_of lines.new.items ≡ label_recorded depth text.now (entries_of lines.old.items)) }
{
    drop_end(lines);
    push(lines, depth, Word::Label, text_of(text))
}
