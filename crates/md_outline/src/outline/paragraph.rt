// A text that is a block of its own, a paragraph: what an outline shows of it.

ghost use Rattle.std.specs.Prelude.{◌≡◌, ◌+◌, ◌++◌, OnOk};
ghost use Rattle.std.specs.Str.{IsUtf8};
ghost use Rattle.md_meaning.specs.Outline.{entries_of};
ghost use Rattle.md_outline.specs.ParagraphState.{begin_entries};
ghost use Rattle.md_outline.specs.TextLines.{full_entries, text_entries};

use crate::outline::lines::{next, push, push_full_lines, push_lines};
use md_engine::message::Message;
use md_meaning::outline::{OutlineLine, Word};

/// Adds the begin of the block, if it is not shown yet.
pub fn push_begin<'a>(
    lines: &mut Vec<OutlineLine<'a>>,
    depth: usize,
    is_shown: bool,
) -> Result<(), Message>
    ensures { OnOk result (entries_of lines.new.items ≡ entries_of lines.old.items ++ begin_entries depth is_shown) }
{
    if is_shown {
        Ok(())
    } else {
        push(lines, depth, Word::Paragraph, "")
    }
}

/// Adds what it ends with.
pub fn push_block<'a>(
    lines: &mut Vec<OutlineLine<'a>>,
    depth: usize,
    is_shown: bool,
    text: &'a [u8],
) -> Result<(), Message>
    ensures { OnOk result
        (IsUtf8 text.now →
        entries_of lines.new.items ≡
        entries_of lines.old.items ++ begin_entries depth is_shown ++ text_entries (depth + 1) text.now) }
{
    push_begin(lines, depth, is_shown)?;
    push_lines(lines, next(depth)?, Word::Line, text)
}

/// Adds what is in it before a prefix: nothing where another prefix ends there.
pub fn push_piece<'a>(
    lines: &mut Vec<OutlineLine<'a>>,
    depth: usize,
    is_shown: bool,
    text: &'a [u8],
) -> Result<(), Message>
    ensures { OnOk result
        (IsUtf8 text.now →
        entries_of lines.new.items ≡
        entries_of lines.old.items ++ begin_entries depth is_shown ++ full_entries (depth + 1) text.now) }
{
    if is_shown && text.is_empty() {
        return Ok(());
    }
    push_begin(lines, depth, is_shown)?;
    push_full_lines(lines, next(depth)?, Word::Line, text)?;
    Ok(())
}
