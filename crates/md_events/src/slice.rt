// Parts of the text, lent from it.

ghost use Rattle.std.specs.Prelude.{◌≡◌, ◌+◌, ◌-◌, ◌%◌, ◌<◌, ◌^◌, slice_range};
ghost use Rattle.md_events.specs.Lent.{columns_after, columns_in_front, lent, whole_from};

use md_engine::event::Point;

/// Where a part begins, and where it has ended.
#[derive(Clone, Copy)]
pub struct Position {
    pub start: Point,
    pub end: Point,
}

/// The text between two points.
#[derive(Clone, Copy)]
pub struct Slice<'a> {
    /// The virtual spaces before the bytes: columns of a tab that begins before the part.
    pub before: usize,
    pub bytes: &'a [u8],
    /// The virtual spaces after the bytes: columns of a tab that ends after the part.
    pub after: usize,
}

impl<'a> Slice<'a> {
    /// The text at a position; none if the text has no such position.
    pub fn from_position(bytes: &'a [u8], position: Position) -> Slice<'a>
        ensures before { result.before ≡ columns_in_front position }
        ensures bytes { result.bytes.now ≡ lent bytes.now (whole_from position.start) position.end.index }
        ensures after { result.after ≡ columns_after position }
    {
        let Position { start, end } = position;
        if start.vs > 0 && start.index == end.index {
            return Slice {
                before: end.vs.saturating_sub(start.vs),
                bytes: &[],
                after: 0,
            };
        }
        let first = if start.vs > 0 {
            start.index.saturating_add(1)
        } else {
            start.index
        };
        Slice {
            before: if start.vs > 0 {
                columns_left(start.column)
            } else {
                0
            },
            bytes: bytes.get(first..end.index).unwrap_or(&[]),
            after: end.vs,
        }
    }
}

/// The columns from this one, counted from 1, to the end of the tab that it lies in.
fn columns_left(column: usize) -> usize
    ensures { result ≡ 4 - (column + 3) % 4 }
{
    4 - (column % 4 + 3) % 4
}

/// The bytes from one index to another; none where the text has no such indices.
pub fn between(bytes: &[u8], from: usize, to: usize) -> &[u8]
    ensures { result.now ≡ slice_range bytes.now from to }
{
    let end = to.min(bytes.len());
    if from < end {
        &bytes[from..end]
    } else {
        &bytes[..0]
    }
}

/// The first byte that does not begin before a point.
#[inline(always)]
pub fn whole_from(point: Point) -> usize
    requires { point.index < 2 ^ 62 }
    ensures { result ≡ whole_from point }
{
    if point.vs > 0 {
        point.index + 1
    } else {
        point.index
    }
}
