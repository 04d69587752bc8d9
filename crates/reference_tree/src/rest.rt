// The rest of a line: what no prefix has taken (CommonMark 2.2).

ghost use Rattle.std.specs.Prelude.{◌≡◌, ◌+◌, ◌*◌, ◌^◌, ◌≤◌, length};

use crate::tree::Line;
use md_engine::configuration::ParseOptions;
use md_scan::bytes::trim_start;
use md_scan::columns::{is_small, tab_columns, white_columns};

/// What no prefix of a line has taken.
#[derive(Clone, Copy)]
pub struct Rest<'a> {
    /// The column from 0 at which it begins.
    pub column: usize,
    /// The virtual spaces there: columns left of a cut tab.
    pub spaces: usize,
    /// The bytes after them.
    pub bytes: &'a [u8],
    // A tab is at most 4 columns.
    ghost fits: { column + spaces + 4 * length bytes.now ≤ 2 ^ 63 },
}

impl<'a> Rest<'a> {
    ghost use Rattle.md_meaning.specs.Rest as rest;
    ghost use Rattle.reference_tree.specs.Rests.{rest_meaning};
    ghost use Rattle.reference_tree.specs.Trees.{line_meaning};

    /// The columns of its leading spaces and tabs.
    pub fn indent(&self) -> usize
        ensures value { result ≡ rest.indent (rest_meaning self.now) }
        ensures bound { result ≤ 2 ^ 63 }
    {
        self.spaces + white_columns(self.column + self.spaces, self.bytes)
    }

    /// Whether its indent is at most 3 columns, or of any size where indented code is off.
    pub fn has_small_indent(&self, options: &ParseOptions) -> bool
        ensures { result ≡ rest.has_small_indent options.now (rest_meaning self.now) }
    {
        is_small(options, self.indent())
    }

    /// Without one column of whitespace, if there is one.
    fn without_column(&self) -> Rest<'a>
        ensures { rest_meaning result ≡ rest.without_column self.now.column self.now.spaces self.now.bytes.now }
    {
        if self.spaces > 0 {
            return Rest {
                column: self.column + 1,
                spaces: self.spaces - 1,
                bytes: self.bytes,
            };
        }
        match self.bytes {
            [b'\t', bytes @ ..] => Rest {
                column: self.column + 1,
                spaces: tab_columns(self.column) - 1,
                bytes,
            },
            [b' ', bytes @ ..] => Rest {
                column: self.column + 1,
                spaces: 0,
                bytes,
            },
            _ => *self,
        }
    }

    /// Without so many columns of whitespace, or as many as there are.
    pub fn lose(&self, columns: usize) -> Rest<'a>
        ensures { rest_meaning result ≡ rest.lose columns (rest_meaning self.now) }
    {
        let mut rest = *self;
        for step in 0..columns {
            let next = rest.without_column();
            if next.column == rest.column {
                break;
            }
            rest = next;
        }
        rest
    }

    /// Without all of its indent.
    pub fn after_indent(&self) -> Rest<'a>
        ensures { rest_meaning result ≡ rest.after_indent (rest_meaning self.now) }
    {
        self.lose(self.indent())
    }

    /// After so many bytes that are neither spaces nor tabs.
    pub fn following(&self, count: usize) -> Rest<'a>
        requires { count ≤ length self.now.bytes.now }
        ensures { rest_meaning result ≡ rest.following count (rest_meaning self.now) }
    {
        Rest {
            column: self.column + count,
            spaces: 0,
            bytes: self.bytes.split_at(count).1,
        }
    }

    /// As a line of code, HTML or math.
    pub fn line(&self) -> Line<'a>
        ensures { line_meaning result ≡ rest.line_of (rest_meaning self.now) }
    {
        Line {
            spaces: self.spaces,
            text: self.bytes,
        }
    }

    /// Its text, after its leading spaces and tabs.
    pub fn text(&self) -> &'a [u8]
        ensures { result.now ≡ rest.trim_start self.now.bytes.now }
    {
        trim_start(self.bytes)
    }
}
