// What turns a text into an outline: the part in which the programs that print one differ. The bench also takes its
// events.
ghost use Rattle.std.specs.Prelude.{◌≡◌, ◌≤◌, List, ℕ, length, IfOk};
ghost use Rattle.md_engine.specs.declared.configuration.ParseOptions.{ParseOptions};
ghost use Rattle.md_program.specs.Listing.{Listing, listing_of};
ghost use Rattle.md_program.specs.Sets.{IsWithoutMdx};

use md_engine::configuration::ParseOptions;
use md_engine::event::Event;
use md_engine::message::Message;
use md_meaning::outline::OutlineLine;
use std::alloc::Global;

/// The most bytes that a text may have.
pub const MOST: usize = usize::MAX / 8;

/// An outline, and the labels of the text in their normal form, in source order, repeats kept.
#[derive(Drop)]
pub struct Outlined<'a> {
    /// The lines of the outline, from the first to the last.
    pub lines: Vec<OutlineLine<'a>>,
    /// The labels of the link reference definitions (CommonMark 4.7).
    pub definitions: Vec<String>,
    /// The labels of the footnote definitions.
    pub footnotes: Vec<String>,
}

/// A way to make an outline of a text.
pub trait Body {
    // The options that it takes.
    ghost accepts: { ParseOptions → Type 0 };

    // What it may answer to a text and options.
    ghost outlines: { List ℕ → ParseOptions → Listing → Type 0 };

    // What represents options.
    ghost built: { ParseOptions → ParseOptions };

    /// The options that represent `options`: a body that lacks a construct turns it off.
    fn built(options: ParseOptions) -> ParseOptions
        requires { IsWithoutMdx options }
        ensures value { result ≡ built options }
        ensures accepted { accepts result };

    /// The outline of `text`.
    ///
    /// It refuses only for want of memory, and then hands out nothing.
    fn outlined<'a>(
        alloc: Global,
        text: &'a str,
        options: &'a ParseOptions,
    ) -> Result<Outlined<'a>, Message>
        requires size { length text.now ≤ MOST }
        requires accepted { accepts options.now }
        ensures { IfOk result (λ outlined. outlines text.now options.now (listing_of outlined)) };

    /// The events of `text`, or none of a body that makes an outline without them.
    ///
    /// It refuses only for want of memory, and then hands out nothing.
    fn events(
        alloc: Global,
        text: &str,
        options: &ParseOptions,
    ) -> Result<Option<Vec<Event>>, Message>
        requires size { length text.now ≤ MOST }
        requires accepted { accepts options.now };
}
