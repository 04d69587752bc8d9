// What is kept of an open text from line to line: how far the definitions at its front have come, which an underline
// asks (CommonMark 4.7), and its last line as the head of a table, which a delimiter row asks (GFM 4.10).

ghost use Rattle.std.specs.Prelude.{◌≡◌, ◌^◌, ◌<◌, length};
ghost use Rattle.md_meaning.specs.Rest.{indent};
ghost use Rattle.md_link_definitions.specs.OpenText.{begun_rest, text_following};
ghost use Rattle.md_link_definitions.specs.Progress as stepped;

use crate::head::head_columns;
use crate::progress::{progress_of, step};
use md_engine::tokenizer::{HeldLeaf, OpenText, Progress};
use md_scan::ahead::{begins_white, begins_with};
use md_scan::bytes::trim_start;
use md_scan::columns::{tab_columns, white_columns};

/// The columns of whitespace before a line that begins at this column, from 0, perhaps within a tab.
fn indent(column: usize, cut: bool, line: &[u8]) -> usize
    requires { length line.now < 2 ^ 61 }
    ensures { result ≡ indent (begun_rest column cut line.now) }
{
    if cut {
        tab_columns(column) + white_columns(0, line)
    } else {
        white_columns(column % 4, line)
    }
}

/// How far the definitions of a text have come after one more line. Where something is left already, the line is not
/// looked at; most lines begin no definition.
#[inline(always)]
#[tactic(auto, unfolding(crate::specs::Progress::step))]
fn further(leaf: HeldLeaf, text: &[u8]) -> Progress
    ensures { result ≡ stepped.step (stepped.progress_of leaf) text.now }
{
    match progress_of(leaf) {
        Progress::Left => Progress::Left,
        Progress::Fresh if !begins_with(b'[', text) => Progress::Left,
        at => step(at, text),
    }
}

/// What is held of a text after one more line, which begins at this column, from 0, perhaps within a tab; the line
/// meets this leaf. Most lines begin with no whitespace.
pub fn text_following(leaf: HeldLeaf, column: usize, cut: bool, line: &[u8]) -> HeldLeaf
    requires { length line.now < 2 ^ 61 }
    ensures { result ≡ text_following leaf (begun_rest column cut line.now) }
{
    let (indent, text) = if cut || begins_white(line) {
        (indent(column, cut, line), trim_start(line))
    } else {
        (0, line)
    };
    HeldLeaf::Text(OpenText {
        progress: further(leaf, text),
        columns: head_columns(text),
        indent,
    })
}
