// What a tokenizer sees at its point: one byte, or several at once.
//
// A state that stays takes byte after byte until it meets one that it does not take. The functions here see and take
// all of these at once. Each contract says that the tokenizer is then what it would be if the state had been called for
// each byte.
ghost use Rattle.std.specs.Prelude.{◌≡◌, ◌+◌, ◌^◌, ◌<◌, ◌≤◌, ◌⊎◌, true, false};
ghost use Rattle.md_engine.specs.Place.{stepped};
ghost use Rattle.md_engine.specs.Classes.{is_white};

use crate::class::{Class, is_white};
use crate::event::Point;
use crate::stay::Stay;
use crate::tokenizer::{Tokenizer, Whitespace, further, step};

/// The point after a space or after a column of a tab.
fn next_column(point: Point, byte: u8) -> Point
    requires white { is_white byte ≡ true }
    requires room { (point.index < 2 ^ 61) × (point.line < 2 ^ 62) × (point.column < 2 ^ 63 + 99) × (point.vs < 4) }
    ensures { result ≡ stepped byte false point }
{
    if byte == b' ' {
        further(point, 1)
    } else {
        step(point, b'\t', false)
    }
}

impl<'a> Tokenizer<'a> {
    ghost use Rattle.md_engine.specs.KnownRun.{EndsRun};
    ghost use Rattle.md_engine.specs.Staying.{SeesAll, SeesColumns, SeesSpan};
    ghost use Rattle.md_engine.specs.declared.stay.Stay.{Stay};
    ghost use Rattle.md_engine.specs.World.{world, looks};

    /// Sees what is at the point and returns false. Returns true, and changes nothing, where the text may not be read
    /// so far and has not ended.
    #[inline(always)]
    pub fn see_or_wait(&mut self, is_end: bool) -> bool
        ensures waits { result ≡ true →
            (is_end ≡ false) × ((world self.old).setting.limit ≤ (world self.old).point.index) }
        ensures same { result ≡ true → world self.new ≡ world self.old }
        ensures is_continued { result ≡ false →
            (is_end ≡ true) ⊎ ((world self.old).point.index < (world self.old).setting.limit) }
        ensures sees { result ≡ false →
            world self.new ≡ record (world self.old) { current = looks (world self.old) } }
    {
        if self.point.index < self.limit {
            self.current = self.look();
            return false;
        }
        if is_end {
            self.current = None;
        }
        !is_end
    }

    /// Sees and takes all bytes of a class from the point on, as far as the text may be read.
    fn see_span(&mut self, class: Class)
        ensures { SeesSpan class (world self.old) (world self.new) }
    {
        let index = self.point.index;
        if index >= self.limit || !class.has(self.bytes[index]) {
            return;
        }
        self.consume_all(class, self.limit);
        if self.point.index > index {
            self.current = Some(self.bytes[self.point.index - 1]);
        }
    }

    /// Sees and takes the rest of a word.
    pub fn see_word(&mut self)
        ensures { SeesAll Stay.Word (world self.old) (world self.new) }
    {
        self.see_span(Class::Word);
    }

    /// Sees and takes bytes that nothing gives a meaning.
    pub(crate) fn see_plain(&mut self)
        ensures { SeesAll Stay.Plain (world self.old) (world self.new) }
    {
        self.see_span(Class::Plain);
    }

    /// Sees and takes spaces and columns of tabs, at most `most`, and returns how many there were.
    fn see_columns(&mut self, most: usize) -> usize
        ensures { SeesColumns most (world self.old) result (world self.new) }
    {
        let mut count = 0;
        let mut point = self.point;
        let mut seen = self.current;
        while count < most && point.index < self.limit && is_white(self.bytes[point.index]) {
            let byte = self.bytes[point.index];
            seen = Some(if point.vs > 0 { b' ' } else { byte });
            point = next_column(point, byte);
            count += 1;
        }
        self.point = point;
        self.current = seen;
        count
    }

    /// Sees, takes and counts whitespace, up to its limit.
    pub fn see_white(&mut self)
        ensures { SeesAll Stay.White (world self.old) (world self.new) }
    {
        let Whitespace { max, size, .. } = self.scratch.whitespace;
        if size < max && self.point.index < self.limit && is_white(self.bytes[self.point.index]) {
            self.scratch.whitespace.size = size + self.see_columns(max - size);
        }
    }

    /// Sees and takes the rest of the line.
    pub fn see_line(&mut self)
        ensures { SeesAll Stay.Line (world self.old) (world self.new) }
    {
        self.see_span(Class::Text);
        while self.point.index < self.limit && self.bytes[self.point.index] == b'\t' {
            self.see_columns(usize::MAX);
            self.see_span(Class::Text);
        }
    }

    /// Sees, takes and counts byte after byte, as long as a state that stays takes it. This is one function for all
    /// states.
    #[inline(never)]
    pub(crate) fn see_each(&mut self, stay: Stay)
        ensures { SeesAll stay (world self.old) (world self.new) }
    {
        self.see_while(stay);
    }

    /// Sees, takes and counts byte after byte, as long as a state that stays takes it. It is compiled for the state
    /// that calls it.
    #[inline(always)]
    pub fn see_while(&mut self, stay: Stay)
        ensures { SeesAll stay (world self.old) (world self.new) }
    {
        while let Some(byte) = self.look() {
            if !stay.takes(&self.scratch, byte) {
                return;
            }
            self.consume();
            self.current = Some(byte);
            stay.count(&mut self.scratch, byte);
        }
    }

    /// The index where the run of a marker and whitespace that begins at the point ends: that of another byte, or as
    /// far as the text may be read. With a space for the marker the run is whitespace alone.
    pub fn spread_end(&mut self, marker: u8) -> usize
        ensures ends { EndsRun (world self.old).setting.bytes marker
            (world self.old).point.index (world self.old).setting.limit result }
        ensures same { world self.new ≡ world self.old }
    {
        let index = self.point.index;
        if marker == b' ' {
            self.white = self.white.found(self.bytes, marker, index, self.limit);
            self.white.end
        } else {
            self.marks = self.marks.found(self.bytes, marker, index, self.limit);
            self.marks.end
        }
    }
}
