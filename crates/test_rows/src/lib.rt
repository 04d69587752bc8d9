// Rows that a body of the parser is tried on: texts with the outlines that they must give; `runner` does so.
//
// The rows of a module are one text, so that a check takes them as data. Rows are apart by an empty line. A row is:
//
//     SECTION | SET | NEEDED
//     "TEXT"
//     OUTLINE
//
// SECTION is where the standard says it. SET is `commonmark`, `gfm`, `all` or `alerts`, as for the program, or
// `exactly` and the names of the constructs that are on, if any. NEEDED, which may be left out, names the constructs
// that the row is about, or says `nothing`: the others of the set may be off and the outline stays the same. Without it
// all constructs of the set are needed. The text and the outline are written with the escapes of Rust's strings.
// OUTLINE is what the program prints, without the empty line before the labels; where it has no labels, the two lines
// `definitions 0` and `footnotes 0` are left out.
//
// A row of events (`events`) has in the place of NEEDED nothing, or `references` where the text parts are read by that
// layer, and then a line for each part: its name, after two spaces for each part that it is in, and of a piece its
// bytes between quotes. A piece that ends within a tab has after them how many of its columns it takes; the rest of the
// tab is the next piece's. Pieces lie side by side from the first byte to the last, so each event's point follows.
#![tactic(auto)]

pub mod alert_blocks;
pub mod alerts;
pub mod breaks;
pub mod case;
pub mod code;
pub mod constructs;
pub mod definition_parts;
pub mod definitions;
pub mod event_case;
pub mod events;
pub mod fences;
pub mod headings;
pub mod html;
pub mod html_tags;
pub mod items;
pub mod lines;
pub mod lists;
pub mod quotes;
pub mod runner;
pub mod table_parts;
pub mod tables;
pub mod tabs;
pub mod underlines;
pub mod wraps;

/// The rows of all modules.
pub fn all() -> [&'static str; 19] {
    [
        lines::rows(),
        breaks::rows(),
        headings::rows(),
        underlines::rows(),
        code::rows(),
        fences::rows(),
        html::rows(),
        html_tags::rows(),
        definitions::rows(),
        definition_parts::rows(),
        quotes::rows(),
        alerts::rows(),
        alert_blocks::rows(),
        items::rows(),
        lists::rows(),
        tables::rows(),
        table_parts::rows(),
        constructs::rows(),
        tabs::rows(),
    ]
}
