// Runs of one marker and whitespace, and how far one is known to go.
//
// On a line with many markers each asks what is first after all of its kind and the whitespace between them, and each
// container what is first after the whitespace of its line. So how far such a run goes is kept, and no byte is gone
// over twice.

ghost use Rattle.std.specs.Prelude.{◌≡◌, ◌≤◌, ℕ, List, length};
ghost use Rattle.md_engine.specs.KnownRun.{EndsRun, IsKnownRun, is_of_run};

use crate::class::is_white;

/// All bytes from an index up to another are this marker, or whitespace.
#[derive(Clone, Copy)]
pub struct KnownRun {
    pub marker: u8,
    pub from: usize,
    pub end: usize,
}

/// Whether a run of this marker and whitespace continues with a byte.
fn spreads(marker: u8, byte: u8) -> bool
    ensures { result ≡ is_of_run marker byte }
{
    byte == marker || is_white(byte)
}

impl KnownRun {
    /// Before anything is known.
    pub const NONE: KnownRun = KnownRun {
        marker: 0,
        from: 1,
        end: 0,
    };

    /// What is known of the run of this marker from an index on: what is kept, or nothing yet.
    fn known(self, marker: u8, index: usize) -> KnownRun
        ensures marker { result.marker ≡ marker }
        ensures from { result.from ≤ index }
        ensures end { index ≤ result.end }
        ensures right { (bytes : List ℕ) → IsKnownRun bytes self → IsKnownRun bytes result }
    {
        if self.marker == marker && self.from <= index && index <= self.end {
            self
        } else {
            KnownRun {
                marker,
                from: index,
                end: index,
            }
        }
    }

    /// How far the run of this marker goes from an index on, as far as the text may be read: it is looked for after
    /// what is known of it.
    pub fn found(self, bytes: &[u8], marker: u8, index: usize, limit: usize) -> KnownRun
        requires kept { IsKnownRun bytes.now self }
        requires readable { limit ≤ length bytes.now }
        ensures right { IsKnownRun bytes.now result }
        ensures ends { EndsRun bytes.now marker index limit result.end }
    {
        let KnownRun { from, mut end, .. } = self.known(marker, index);
        while end < limit && spreads(marker, bytes[end]) {
            end += 1;
        }
        KnownRun { marker, from, end }
    }
}
