// What a state takes that stays where it is, and what it counts of it.

ghost use Rattle.std.specs.Prelude.{◌≡◌, true};
ghost use Rattle.md_engine.specs.Staying.{counted, takes};

use crate::class::{Class, is_white};
use crate::tokenizer::{Scratch, Whitespace};

/// What a state takes, a byte or a column of a tab at once, to do nothing else but count it.
#[derive(Clone, Copy)]
pub enum Stay {
    /// The rest of a line.
    Line,
    /// A word.
    Word,
    /// Bytes that nothing gives a meaning.
    Plain,
    /// Spaces and columns of tabs, counted as whitespace up to its limit.
    White,
    /// This byte.
    Byte(u8),
    /// This byte, counted as `size` up to so many.
    UpTo(u8, usize),
    /// The marker, counted as `size`.
    Markers,
    /// The rest of a line, up to the marker.
    ToMarker,
}

impl Stay {
    /// Whether this is taken, after what was counted.
    #[inline(always)]
    pub fn takes(self, scratch: &Scratch, byte: u8) -> bool
        ensures { result ≡ takes self scratch.now byte }
    {
        match self {
            Stay::Line => byte != b'\n',
            Stay::Word => Class::Word.has(byte),
            Stay::Plain => Class::Plain.has(byte),
            Stay::White => is_white(byte) && scratch.whitespace.size < scratch.whitespace.max,
            Stay::Byte(one) => byte == one,
            Stay::UpTo(one, most) => byte == one && scratch.size < most,
            Stay::Markers => byte == scratch.marker && scratch.size < usize::MAX,
            Stay::ToMarker => byte != b'\n' && byte != scratch.marker,
        }
    }

    /// Counts what was taken.
    #[inline(always)]
    pub fn count(self, scratch: &mut Scratch, byte: u8)
        requires { takes self scratch.old byte ≡ true }
        ensures { scratch.new ≡ counted self scratch.old }
    {
        match self {
            Stay::Line | Stay::Word | Stay::Plain | Stay::Byte(_) | Stay::ToMarker => {}
            Stay::White => {
                let whitespace = scratch.whitespace;
                scratch.whitespace = Whitespace {
                    min: whitespace.min,
                    max: whitespace.max,
                    size: whitespace.size + 1,
                };
            }
            Stay::UpTo(_, _) | Stay::Markers => scratch.size += 1,
        }
    }
}
