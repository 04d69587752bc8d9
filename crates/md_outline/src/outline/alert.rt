// How an outline meets a quote that a marker gives a kind: its line gets the kind. That is the last line as long as
// nothing in the quote is shown.

ghost use Rattle.std.specs.Prelude.{◌≡◌, None, Some, false};
ghost use Rattle.md_meaning.specs.Alert.{first_kind, has_marker, kinds, marker_of};
ghost use Rattle.md_meaning.specs.Outline.{entries_of};
ghost use Rattle.md_events.specs.Events.Spelled as spelled;
ghost use Rattle.md_outline.specs.AlertState.{alert_word, kind_given};

use crate::outline::lines::{first_of, part};
use md_meaning::alert::AlertKind;
use md_meaning::outline::{OutlineLine, Word};

/// The marker of a kind.
fn marker_of(kind: AlertKind) -> &'static [u8]
    ensures { result.now ≡ marker_of kind }
{
    match kind {
        AlertKind::Note => b"[!NOTE]",
        AlertKind::Tip => b"[!TIP]",
        AlertKind::Important => b"[!IMPORTANT]",
        AlertKind::Warning => b"[!WARNING]",
        AlertKind::Caution => b"[!CAUTION]",
    }
}

/// Whether bytes begin with the marker of a kind, ASCII case ignored.
fn has_marker(kind: AlertKind, bytes: &[u8]) -> bool
    ensures { result ≡ has_marker kind bytes.now }
{
    let marker = marker_of(kind);
    match bytes.get(..marker.len()) {
        Some(front) => marker.eq_ignore_ascii_case(front),
        None => false,
    }
}

/// The kind whose marker bytes begin with.
fn kind_of(bytes: &[u8]) -> Option<AlertKind>
    ensures { result ≡ first_kind (λ kind. has_marker kind bytes.now) kinds }
{
    if has_marker(AlertKind::Note, bytes) {
        Some(AlertKind::Note)
    } else if has_marker(AlertKind::Tip, bytes) {
        Some(AlertKind::Tip)
    } else if has_marker(AlertKind::Important, bytes) {
        Some(AlertKind::Important)
    } else if has_marker(AlertKind::Warning, bytes) {
        Some(AlertKind::Warning)
    } else if has_marker(AlertKind::Caution, bytes) {
        Some(AlertKind::Caution)
    } else {
        None
    }
}

/// Whether the marker of a kind may begin at an index. Most markers of quotes are `>`, of which no more is read.
#[inline(always)]
pub fn may_begin(bytes: &[u8], index: usize) -> bool
    ensures { result ≡ false → spelled.kind_at bytes.now index ≡ None }
{
    first_of(part(bytes, index, bytes.len())) == b'['
}

/// The kind whose marker begins at an index, if one does.
pub fn kind_at(bytes: &[u8], index: usize) -> Option<AlertKind>
    ensures { result ≡ spelled.kind_at bytes.now index }
{
    kind_of(part(bytes, index, bytes.len()))
}

/// The word of a quote with this kind. Any other word stays.
fn given(word: Word, kind: AlertKind) -> Word
    ensures { result ≡ alert_word (Some kind) word }
{
    match word {
        Word::Quote => Word::Alert(kind),
        _ => word,
    }
}

/// Gives the last line a kind, if it is that of a quote whose blocks have this depth.
pub fn give_kind(lines: &mut Vec<OutlineLine>, depth: usize, kind: AlertKind)
    ensures { entries_of lines.new.items ≡ kind_given (Some kind) depth (entries_of lines.old.items) }
{
    let Some(line) = lines.last_mut() else {
        return;
    };
    if depth.saturating_sub(line.depth) == 1 {
        line.word = given(line.word, kind);
    }
}
