// What an outline shows of the parts of a definition: each begins with an empty line, which its text fills.

ghost use Rattle.std.specs.Prelude.{◌≡◌, ◌+◌, OnOk};
ghost use Rattle.std.specs.Str.{IsUtf8};
ghost use Rattle.md_meaning.specs.Outline.{entries_of};
ghost use Rattle.md_outline.specs.DefinitionState.{destination_recorded, part_ended, part_of, part_parted};

use crate::outline::lined::{Form, drop_end};
use crate::outline::lines::{
    next, push, push_first_full, push_first_lines, push_full_lines, push_lines, text_of,
};
use md_engine::message::Message;
use md_meaning::outline::{OutlineLine, Word};

/// The word that shows the lines of the part that is read, if a definition is open: its label, and after that its
/// title.
pub fn part_of(form: Form, is_recorded: bool) -> Option<Word>
    ensures { result ≡ part_of form is_recorded }
{
    match form {
        Form::Definition => Some(if is_recorded {
            Word::Title
        } else {
            Word::Label
        }),
        _ => None,
    }
}

/// Adds what the text of a part ends with: all of it, or what is left after a prefix.
pub fn push_part_end<'a>(
    lines: &mut Vec<OutlineLine<'a>>,
    depth: usize,
    word: Word,
    is_parted: bool,
    text: &'a [u8],
) -> Result<(), Message>
    ensures { OnOk result (IsUtf8 text.now →
        entries_of lines.new.items ≡ part_ended word is_parted (depth + 1) text.now (entries_of lines.old.items)) }
{
    if is_parted {
        push_lines(lines, next(depth)?, word, text)
    } else {
        drop_end(lines);
        push_first_lines(lines, next(depth)?, word, text)
    }
}

/// Adds what is in the text of a part before a prefix.
pub fn push_part_piece<'a>(
    lines: &mut Vec<OutlineLine<'a>>,
    depth: usize,
    word: Word,
    is_parted: bool,
    text: &'a [u8],
) -> Result<(), Message>
    ensures { OnOk result (IsUtf8 text.now →
        entries_of lines.new.items ≡ part_parted word is_parted (depth + 1) text.now (entries_of lines.old.items)) }
{
    if is_parted {
        push_full_lines(lines, next(depth)?, word, text)?;
        Ok(())
    } else {
        drop_end(lines);
        push_first_full(lines, next(depth)?, word, text)
    }
}

/// Tells the line of a destination its text.
pub fn fill_destination<'a>(
    lines: &mut Vec<OutlineLine<'a>>,
    depth: usize,
    text: &'a [u8],
) -> Result<(), Message>
    ensures { OnOk result (IsUtf8 text.now →
        entries_of lines.new.items ≡ destination_recorded (depth + 1) text.now (entries_of lines.old.items)) }
{
    drop_end(lines);
    push(lines, next(depth)?, Word::Destination, text_of(text))
}
