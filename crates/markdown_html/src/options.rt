// What the HTML is asked for.

/// A line ending.
#[derive(Clone, Copy, Debug, PartialEq, Eq)]
pub enum LineEnding {
    LineFeed,
    CarriageReturn,
    CarriageReturnLineFeed,
}

impl LineEnding {
    pub(crate) fn text(self) -> &'static str {
        match self {
            LineEnding::LineFeed => "\n",
            LineEnding::CarriageReturn => "\r",
            LineEnding::CarriageReturnLineFeed => "\r\n",
        }
    }
}

/// What the HTML is asked for. The names are those of the ported crate.
#[derive(Clone, Copy, Debug, PartialEq, Eq)]
pub struct HtmlOptions<'a> {
    /// Whether raw HTML is written as it is. Else it is escaped, so that no text brings a script into the page.
    pub allow_dangerous_html: bool,
    /// Whether a link may have any protocol. Else one that is not `http`, `https`, `irc`, `ircs`, `mailto` or `xmpp`,
    /// and of an image one that is not `http` or `https`, leaves an empty address.
    pub allow_dangerous_protocol: bool,
    /// The ending of lines that the text does not have, where it has no line ending. Else these have the first ending of
    /// the text.
    pub default_line_ending: LineEnding,
    /// The heading of the section of footnotes.
    pub gfm_footnote_label: &'a str,
    /// The name of its tag.
    pub gfm_footnote_label_tag_name: &'a str,
    /// The attributes of its tag, written as they are.
    pub gfm_footnote_label_attributes: &'a str,
    /// What a link back to a call is called.
    pub gfm_footnote_back_label: &'a str,
    /// What each `id` of a footnote and of a call begins with.
    pub gfm_footnote_clobber_prefix: &'a str,
}

impl<'a> HtmlOptions<'a> {
    /// Nothing dangerous is allowed, lines end with a line feed, and footnotes are as on GitHub.
    pub const SAFE: HtmlOptions<'static> = HtmlOptions {
        allow_dangerous_html: false,
        allow_dangerous_protocol: false,
        default_line_ending: LineEnding::LineFeed,
        gfm_footnote_label: "Footnotes",
        gfm_footnote_label_tag_name: "h2",
        gfm_footnote_label_attributes: "class=\"sr-only\"",
        gfm_footnote_back_label: "Back to content",
        gfm_footnote_clobber_prefix: "user-content-",
    };

    /// The same, with raw HTML and all protocols: for texts that are trusted.
    pub const DANGEROUS: HtmlOptions<'static> = HtmlOptions {
        allow_dangerous_html: true,
        allow_dangerous_protocol: true,
        ..HtmlOptions::SAFE
    };
}
