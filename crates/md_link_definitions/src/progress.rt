// How far the definitions at the front of a text have come (CommonMark 4.7), line by line. An underline asks whether
// anything is left after them; so this is kept of an open text, and no line of it is read again.

ghost use Rattle.std.specs.Prelude.{◌≡◌};
ghost use Rattle.md_link_definitions.specs.Progress as progress;

use crate::plain_destination::is_plain_destination;
use md_engine::tokenizer::{HeldLeaf, Progress};
use md_scan::ahead::{after_optional, begins_with};
use md_scan::bytes::{is_blank, is_parted, trim_start};
use md_scan::definition::{Enclosed, destination_at, title_closer, up_to_mark};

/// How many bytes a label may have.
const LABEL_LEN: usize = 999;

/// After a line in a title, or what is on it after the opening mark.
fn in_title(opener: u8, closer: u8, line: &[u8]) -> Progress
    ensures { result ≡ progress.in_title opener closer line.now }
{
    match up_to_mark(opener, closer, line) {
        Enclosed::Closed(_, rest) if is_blank(rest) => Progress::Fresh,
        Enclosed::Open => Progress::InTitle(opener, closer),
        Enclosed::Closed(..) | Enclosed::Broken => Progress::Left,
    }
}

/// After a line where a title is next.
fn title_on(line: &[u8]) -> Progress
    ensures { result ≡ progress.title_on line.now }
{
    let Some((opener, rest)) = line.split_first() else {
        return Progress::Left;
    };
    match title_closer(*opener) {
        Some(closer) => in_title(*opener, closer, rest),
        None => Progress::Left,
    }
}

/// After a line, by what follows the destination on it.
fn after_destination(rest: &[u8]) -> Progress
    ensures { result ≡ progress.after_destination rest.now }
{
    if is_blank(rest) {
        Progress::Untitled
    } else if is_parted(rest) {
        title_on(trim_start(rest))
    } else {
        Progress::Left
    }
}

/// After a line where a destination is next. Most lines are one.
fn destination_on(line: &[u8]) -> Progress
    ensures { result ≡ progress.destination_on line.now }
{
    if is_plain_destination(line) {
        return Progress::Untitled;
    }
    match destination_at(line) {
        Some(destination) => after_destination(destination.rest),
        None => Progress::Left,
    }
}

/// After a line, by what follows the `:` on it.
fn following_colon(rest: &[u8]) -> Progress
    ensures { result ≡ progress.following_colon rest.now }
{
    if is_blank(rest) {
        Progress::BeforeDestination
    } else {
        destination_on(trim_start(rest))
    }
}

/// After a line, by what follows the `]` on it.
fn after_label(rest: &[u8]) -> Progress
    ensures { result ≡ progress.after_label rest.now }
{
    if begins_with(b':', rest) {
        following_colon(after_optional(b':', rest))
    } else {
        Progress::Left
    }
}

/// Whether this text of a label, or what was before it, is more than spaces and tabs.
fn is_filled(filled: bool, text: &[u8]) -> bool
    ensures { result ≡ progress.is_filled filled text.now }
{
    filled || !is_blank(text)
}

/// Whether a label may have so many bytes and then this text.
fn has_room(size: usize, text: &[u8]) -> bool
    ensures { result ≡ progress.has_room size text.now }
{
    text.len() <= LABEL_LEN && size <= LABEL_LEN - text.len()
}

/// After a line in a label, or what is on it after the `[`.
fn label_from(size: usize, filled: bool, line: &[u8]) -> Progress
    ensures { result ≡ progress.label_from size filled line.now }
{
    match up_to_mark(b'[', b']', line) {
        Enclosed::Closed(text, rest) if is_filled(filled, text) && has_room(size, text) => {
            after_label(rest)
        }
        Enclosed::Open if has_room(size, line) => {
            Progress::InLabel(size + line.len(), is_filled(filled, line))
        }
        Enclosed::Closed(..) | Enclosed::Open | Enclosed::Broken => Progress::Left,
    }
}

/// After a line where a definition is next.
fn begin(line: &[u8]) -> Progress
    ensures { result ≡ progress.begin line.now }
{
    if begins_with(b'[', line) {
        label_from(0, false, after_optional(b'[', line))
    } else {
        Progress::Left
    }
}

/// Whether the mark of a title is next.
fn begins_title(line: &[u8]) -> bool
    ensures { result ≡ progress.begins_title line.now }
{
    match line {
        [first, ..] => title_closer(*first).is_some(),
        [] => false,
    }
}

/// After one more line, which is given without leading spaces and tabs.
///
/// ```markdown
///   | [a]:
/// > | b
///     ^
///   | "c
///   | d"
/// ```
#[inline(never)]
#[tactic(auto, unfolding(crate::specs::Progress::step))]
pub fn step(at: Progress, line: &[u8]) -> Progress
    ensures { result ≡ progress.step at line.now }
{
    match at {
        Progress::Fresh => begin(line),
        Progress::InLabel(size, filled) => label_from(size, filled, line),
        Progress::BeforeDestination => destination_on(line),
        Progress::Untitled if begins_title(line) => title_on(line),
        Progress::Untitled => begin(line),
        Progress::InTitle(opener, closer) => in_title(opener, closer, line),
        Progress::Left => Progress::Left,
    }
}

/// How far the definitions of an open text have come. Where none is open, one may begin.
pub fn progress_of(leaf: HeldLeaf) -> Progress
    ensures { result ≡ progress.progress_of leaf }
{
    match leaf {
        HeldLeaf::Text(text) | HeldLeaf::LazyText(text) => text.progress,
        _ => Progress::Fresh,
    }
}
