// What has to be known of a block where it begins, and is further on in it: the depth of a heading, the number of an
// ordered list, the kind of an alert, and how the columns of a table are aligned. It is read from the events ahead, never
// further than through the block.

use md_engine::event::{Event, Kind, Name};
use md_events::slice::between;
use std::alloc::AllocError;
use std::str;

/// The bytes of the next part of this name, if there is one.
fn next_part<'a>(bytes: &'a [u8], ahead: &[Event], name: Name) -> &'a [u8] {
    let mut points = ahead.iter().filter(|event| event.name == name);
    match (points.next(), points.next()) {
        (Some(enter), Some(exit)) => between(bytes, enter.point.index, exit.point.index),
        _ => &[],
    }
}

/// The name of the tag of a heading of this depth.
fn heading(depth: usize) -> &'static str {
    match depth {
        1 => "h1",
        2 => "h2",
        3 => "h3",
        4 => "h4",
        5 => "h5",
        _ => "h6",
    }
}

/// The name of the tag of the ATX heading that begins here, by how many `#` open it (CommonMark 4.2).
pub(crate) fn atx_heading(bytes: &[u8], ahead: &[Event]) -> &'static str {
    heading(next_part(bytes, ahead, Name::HeadingAtxSequence).len())
}

/// The name of the tag of the setext heading that begins here, by its underline (CommonMark 4.3).
pub(crate) fn setext_heading(bytes: &[u8], ahead: &[Event]) -> &'static str {
    match next_part(bytes, ahead, Name::HeadingSetextUnderlineSequence) {
        [b'=', ..] => "h1",
        _ => "h2",
    }
}

/// The number of the ordered list that begins here: that of its first item (CommonMark 5.3).
pub(crate) fn list_start(bytes: &[u8], ahead: &[Event]) -> usize {
    let digits = next_part(bytes, ahead, Name::ListItemValue);
    str::from_utf8(digits).unwrap_or("").parse().unwrap_or(1)
}

/// A kind of alerts: the end of the class of its tag, and the title before its blocks.
#[derive(Clone, Copy)]
pub(crate) struct Alert {
    pub(crate) class: &'static str,
    pub(crate) title: &'static str,
}

/// The kinds, and the names in their markers.
const ALERTS: [Alert; 5] = [
    Alert {
        class: "note",
        title: "Note",
    },
    Alert {
        class: "tip",
        title: "Tip",
    },
    Alert {
        class: "important",
        title: "Important",
    },
    Alert {
        class: "warning",
        title: "Warning",
    },
    Alert {
        class: "caution",
        title: "Caution",
    },
];

/// The kind with this marker, as `[!note]` in any case.
fn alert_of(marker: &[u8]) -> Option<Alert> {
    let name = marker.get(2..marker.len().saturating_sub(1)).unwrap_or(&[]);
    for alert in ALERTS {
        if alert.class.as_bytes().eq_ignore_ascii_case(name) {
            return Some(alert);
        }
    }
    None
}

/// The kind of the quote that begins here, if it is an alert: the prefix of its first line has a second marker.
pub(crate) fn alert_at(bytes: &[u8], ahead: &[Event]) -> Option<Alert> {
    let mut start = 0;
    for event in ahead {
        if event.kind == Kind::Enter {
            start = event.point.index;
        } else if event.name == Name::BlockQuotePrefix {
            break;
        } else if event.name == Name::BlockQuoteMarker {
            let found = alert_of(between(bytes, start, event.point.index));
            if found.is_some() {
                return found;
            }
        }
    }
    None
}

/// What is around the filler of a delimiter.
#[derive(Clone, Copy)]
struct Delimiter {
    is_filled: bool,
    is_left: bool,
    is_right: bool,
}

impl Delimiter {
    const NONE: Delimiter = Delimiter {
        is_filled: false,
        is_left: false,
        is_right: false,
    };

    /// Notes a marker.
    fn mark(&mut self) {
        if self.is_filled {
            self.is_right = true;
        } else {
            self.is_left = true;
        }
    }

    /// The attribute of the cells of its column.
    fn attribute(self) -> &'static str {
        if self.is_left && self.is_right {
            " align=\"center\""
        } else if self.is_left {
            " align=\"left\""
        } else if self.is_right {
            " align=\"right\""
        } else {
            ""
        }
    }
}

/// The columns of the table that begins here, each as the attribute of its cells: by the markers before and after the
/// filler of its delimiter.
pub(crate) fn read_columns(
    columns: &mut Vec<&'static str>,
    ahead: &[Event],
) -> Result<(), AllocError> {
    columns.clear();
    let mut delimiter = Delimiter::NONE;
    for event in ahead {
        let is_enter = event.kind == Kind::Enter;
        match event.name {
            Name::GfmTableDelimiterCellValue if is_enter => delimiter = Delimiter::NONE,
            Name::GfmTableDelimiterCellValue => columns.push(delimiter.attribute())?,
            Name::GfmTableDelimiterFiller => delimiter.is_filled = true,
            Name::GfmTableDelimiterMarker if is_enter => delimiter.mark(),
            Name::GfmTableHead if !is_enter => break,
            _ => {}
        }
    }
    Ok(())
}
