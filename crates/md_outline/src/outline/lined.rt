// What an outline knows of a leaf block of several lines that is open, and what it shows of it: indented code, fenced
// code, math, HTML, setext headings, definitions, tables and frontmatter. Its lines are shown as they come, and the
// line of its word is said later what its fences, its underline or its cells say.

ghost use Rattle.std.specs.Prelude.{◌≡◌, ◌+◌, ◌∷◌, [], ◌++◌, OnOk};
ghost use Rattle.std.specs.Str.{IsUtf8};
ghost use Rattle.md_meaning.specs.Outline.{entries_of, entry, entry_with};
ghost use Rattle.md_meaning.specs.declared.outline.Word.TheVariants as word;
ghost use Rattle.md_events.specs.Events.Spelled as spelled;
ghost use Rattle.md_outline.specs.LinedState.{begin_lines, closed_word, filled_line, form_of, has_own_lines};
ghost use Rattle.md_outline.specs.LinedState.{is_heading, marked_word, spaces_of, with_head, without_end};

use crate::outline::lines::{next, push, text_of};
use md_engine::event::Point;
use md_engine::message::Message;
use md_meaning::outline::{OutlineLine, Word};

/// How the lines of a leaf block come.
#[derive(Clone, Copy)]
pub enum Form {
    /// Each by itself, after a line ending.
    Lines,
    /// The same, without the virtual spaces before it: frontmatter.
    Texts,
    /// As those of its text: a heading.
    Heading,
    /// As those of its parts: a definition.
    Definition,
    /// As its rows and their cells: a table.
    Table,
}

/// A leaf block of several lines that is open.
#[derive(Clone, Copy)]
pub struct Lined {
    /// The line of the outline that has its word.
    pub place: usize,
    /// Whether it has said its markers, so that a further fence closes it, or its label, or its delimiter row.
    pub is_fenced: bool,
    pub form: Form,
}

impl Form {
    /// Whether it is that of a heading.
    pub fn is_heading(self) -> bool
        ensures { result ≡ is_heading self }
    {
        matches!(self, Form::Heading)
    }

    /// Whether a line ending opens a line.
    pub fn has_own_lines(self) -> bool
        ensures { result ≡ has_own_lines self }
    {
        matches!(self, Form::Lines | Form::Texts)
    }

    /// The virtual spaces that a line is shown with, of those before it.
    pub fn spaces(self, spaces: usize) -> usize
        ensures { result ≡ spaces_of self spaces }
    {
        match self {
            Form::Texts => 0,
            _ => spaces,
        }
    }
}

/// How the lines of a leaf block come that this word shows.
pub fn form_of(word: Word) -> Form
    ensures { result ≡ form_of word }
{
    match word {
        Word::Heading(_) => Form::Heading,
        Word::Definition => Form::Definition,
        Word::Table(_) => Form::Table,
        Word::Frontmatter(_) => Form::Texts,
        _ => Form::Lines,
    }
}

/// The depth of a setext heading, by the marker of its underline: `=` or `-`.
fn underline_depth(marker: u8) -> u8
    ensures { result ≡ spelled.underline_depth marker }
{
    if marker == b'=' { 1 } else { 2 }
}

/// The virtual spaces of a text that begins at a point: what is left of a tab that is cut.
pub fn spaces_at(point: Point) -> usize
    ensures { result ≡ spelled.columns_left point }
{
    if point.vs == 0 {
        0
    } else {
        4 - point.column.saturating_sub(1) % 4
    }
}

/// The word of a leaf block whose first fence or whose underline has this marker.
fn marked(word: Word, marker: u8) -> Word
    ensures { result ≡ marked_word marker word }
{
    match word {
        Word::Fence { closed, .. } => Word::Fence { marker, closed },
        Word::Heading(_) => Word::Heading(underline_depth(marker)),
        Word::Frontmatter(_) => Word::Frontmatter(marker),
        _ => word,
    }
}

/// The word of a leaf block that is closed.
fn closed(word: Word) -> Word
    ensures { result ≡ closed_word word }
{
    match word {
        Word::Fence { marker, .. } => Word::Fence {
            marker,
            closed: true,
        },
        Word::Math { .. } => Word::Math { closed: true },
        _ => word,
    }
}

/// Adds a leaf block as it begins: indented code and HTML with their first line, and a definition with that of its
/// label, which are empty yet.
pub fn push_begun<'a>(
    lines: &mut Vec<OutlineLine<'a>>,
    depth: usize,
    word: Word,
) -> Result<(), Message>
    ensures { OnOk result (entries_of lines.new.items ≡ entries_of lines.old.items ++ begin_lines depth word) }
{
    push(lines, depth, word, "")?;
    match word {
        Word::Code | Word::Html => push(lines, next(depth)?, Word::Line, ""),
        Word::Definition => push(lines, next(depth)?, Word::Label, ""),
        _ => Ok(()),
    }
}

/// Tells it the marker of its first fence, or of its underline.
pub fn mark_head(lines: &mut Vec<OutlineLine>, place: usize, marker: u8)
    ensures { entries_of lines.new.items ≡ with_head (marked_word marker) place (entries_of lines.old.items) }
{
    if place < lines.len() {
        lines[place].word = marked(lines[place].word, marker);
    }
}

/// Takes its last line away.
pub fn drop_end(lines: &mut Vec<OutlineLine>)
    ensures { entries_of lines.new.items ≡ without_end (entries_of lines.old.items) }
{
    lines.truncate(lines.len().saturating_sub(1));
}

/// Closes it: its last line, on which the fence is, is none.
pub fn close_head(lines: &mut Vec<OutlineLine>, place: usize)
    ensures { entries_of lines.new.items ≡ with_head closed_word place (without_end (entries_of lines.old.items)) }
{
    drop_end(lines);
    if place < lines.len() {
        lines[place].word = closed(lines[place].word);
    }
}

/// Adds what its first fence says.
pub fn push_part<'a>(
    lines: &mut Vec<OutlineLine<'a>>,
    depth: usize,
    word: Word,
    text: &'a [u8],
) -> Result<(), Message>
    ensures { OnOk result (IsUtf8 text.now →
        entries_of lines.new.items ≡ entries_of lines.old.items ++ entry_with (depth + 1) word text.now ∷ []) }
{
    push(lines, next(depth)?, word, text_of(text))
}

/// Adds a line of it, which is empty yet.
pub fn push_line(lines: &mut Vec<OutlineLine>, depth: usize) -> Result<(), Message>
    ensures { OnOk result
        (entries_of lines.new.items ≡ entries_of lines.old.items ++ entry (depth + 1) word.Line ∷ []) }
{
    push(lines, next(depth)?, Word::Line, "")
}

/// Tells its last line the text that it has.
pub fn fill_line<'a>(
    lines: &mut Vec<OutlineLine<'a>>,
    depth: usize,
    spaces: usize,
    text: &'a [u8],
) -> Result<(), Message>
    ensures { OnOk result (IsUtf8 text.now →
        entries_of lines.new.items ≡
        without_end (entries_of lines.old.items) ++ filled_line (depth + 1) spaces text.now ∷ []) }
{
    drop_end(lines);
    let line = OutlineLine {
        depth: next(depth)?,
        word: Word::Line,
        spaces,
        text: text_of(text),
    };
    match lines.push(line) {
        Ok(()) => Ok(()),
        Err(_) => Err(Message),
    }
}
