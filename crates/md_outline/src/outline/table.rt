// What an outline shows of the rows of a table: each cell begins with an empty line, which its text fills, and the line
// of the table counts the cells of its head.

ghost use Rattle.std.specs.Prelude.{◌≡◌, IfOk, OnOk};
ghost use Rattle.std.specs.Str.{IsUtf8};
ghost use Rattle.md_meaning.specs.Outline.{entries_of};
ghost use Rattle.md_outline.specs.LinedState.{with_head};
ghost use Rattle.md_outline.specs.TableState.{cell_recorded, counted_word, with_cell, with_delimiter, with_row};

use crate::outline::lined::drop_end;
use crate::outline::lines::{next, push, text_of, trimmed_text};
use md_engine::message::Message;
use md_meaning::outline::{OutlineLine, Word};

/// The word of a table that has one column more.
fn counted(word: Word) -> Result<Word, Message>
    ensures { IfOk result (λ w. w ≡ counted_word word) }
{
    match word {
        Word::Table(columns) => Ok(Word::Table(next(columns)?)),
        _ => Ok(word),
    }
}

/// Tells its line of one column more.
pub fn count_column(lines: &mut Vec<OutlineLine>, place: usize) -> Result<(), Message>
    ensures { OnOk result (entries_of lines.new.items ≡ with_head counted_word place (entries_of lines.old.items)) }
{
    if place < lines.len() {
        let word = counted(lines[place].word)?;
        lines[place].word = word;
    }
    Ok(())
}

/// Adds a row, which has no cell yet.
pub fn push_row(lines: &mut Vec<OutlineLine>, depth: usize) -> Result<(), Message>
    ensures { OnOk result (entries_of lines.new.items ≡ with_row depth (entries_of lines.old.items)) }
{
    push(lines, next(depth)?, Word::Row, "")
}

/// Adds a cell to the last row, which is empty yet.
pub fn push_cell(lines: &mut Vec<OutlineLine>, depth: usize) -> Result<(), Message>
    ensures { OnOk result (entries_of lines.new.items ≡ with_cell depth (entries_of lines.old.items)) }
{
    push(lines, next(next(depth)?)?, Word::Cell, "")
}

/// Tells the last cell its text.
pub fn fill_cell<'a>(
    lines: &mut Vec<OutlineLine<'a>>,
    depth: usize,
    text: &'a [u8],
) -> Result<(), Message>
    ensures { OnOk result (IsUtf8 text.now →
        entries_of lines.new.items ≡ cell_recorded depth text.now (entries_of lines.old.items)) }
{
    drop_end(lines);
    push(lines, next(next(depth)?)?, Word::Cell, text_of(text))
}

/// Adds the delimiter row: its line without outer spaces and tabs.
pub fn push_delimiter<'a>(
    lines: &mut Vec<OutlineLine<'a>>,
    depth: usize,
    text: &'a [u8],
) -> Result<(), Message>
    ensures { OnOk result (IsUtf8 text.now →
        entries_of lines.new.items ≡ with_delimiter depth text.now (entries_of lines.old.items)) }
{
    push(lines, next(depth)?, Word::Delimiter, trimmed_text(text))
}
