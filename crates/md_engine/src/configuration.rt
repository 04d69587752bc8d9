// What a parse may be asked for.

/// Which constructs are on.
///
/// A construct that is off accepts no line.
#[derive(Clone, Copy, Debug, PartialEq, Eq)]
pub struct Constructs {
    /// Alerts, as on GitHub: block quotes that have the marker of a kind, as `[!NOTE]`, alone on their first line.
    pub alerts: bool,
    /// Block quotes (CommonMark 5.1).
    pub block_quote: bool,
    /// Fenced code (CommonMark 4.5).
    pub code_fenced: bool,
    /// Indented code (CommonMark 4.4). Where it is off, an indent of any size is a small one.
    pub code_indented: bool,
    /// Link reference definitions (CommonMark 4.7).
    pub definition: bool,
    /// Frontmatter at the start of the text.
    pub frontmatter: bool,
    /// Footnote definitions, as on GitHub.
    pub gfm_footnote_definition: bool,
    /// Tables (GFM 4.10).
    pub gfm_table: bool,
    /// ATX headings (CommonMark 4.2).
    pub heading_atx: bool,
    /// Setext headings (CommonMark 4.3).
    pub heading_setext: bool,
    /// HTML blocks (CommonMark 4.6).
    pub html_flow: bool,
    /// List items (CommonMark 5.2).
    pub list_item: bool,
    /// Math blocks between `$$`.
    pub math_flow: bool,
    /// Thematic breaks (CommonMark 4.1).
    pub thematic_break: bool,
    /// ESM of MDX: not supported, so false.
    pub mdx_esm: bool,
    /// Expression blocks of MDX: not supported, so false.
    pub mdx_expression_flow: bool,
    /// Expressions in the text of MDX: not supported, so false.
    pub mdx_expression_text: bool,
    /// JSX blocks of MDX: not supported, so false.
    pub mdx_jsx_flow: bool,
    /// JSX in the text of MDX: not supported, so false.
    pub mdx_jsx_text: bool,
}

impl Constructs {
    /// No construct.
    pub const NONE: Constructs = Constructs {
        alerts: false,
        block_quote: false,
        code_fenced: false,
        code_indented: false,
        definition: false,
        frontmatter: false,
        gfm_footnote_definition: false,
        gfm_table: false,
        heading_atx: false,
        heading_setext: false,
        html_flow: false,
        list_item: false,
        math_flow: false,
        thematic_break: false,
        mdx_esm: false,
        mdx_expression_flow: false,
        mdx_expression_text: false,
        mdx_jsx_flow: false,
        mdx_jsx_text: false,
    };

    /// The constructs of CommonMark.
    pub const COMMONMARK: Constructs = Constructs {
        alerts: false,
        block_quote: true,
        code_fenced: true,
        code_indented: true,
        definition: true,
        frontmatter: false,
        gfm_footnote_definition: false,
        gfm_table: false,
        heading_atx: true,
        heading_setext: true,
        html_flow: true,
        list_item: true,
        math_flow: false,
        thematic_break: true,
        mdx_esm: false,
        mdx_expression_flow: false,
        mdx_expression_text: false,
        mdx_jsx_flow: false,
        mdx_jsx_text: false,
    };

    /// CommonMark with the footnote definitions and tables of GitHub.
    pub const GFM: Constructs = Constructs {
        gfm_footnote_definition: true,
        gfm_table: true,
        ..Constructs::COMMONMARK
    };

    /// Every construct but alerts and those of MDX: those of `GFM`, frontmatter and math.
    pub const ALL: Constructs = Constructs {
        frontmatter: true,
        math_flow: true,
        ..Constructs::GFM
    };

    /// Every construct but those of MDX: those of `ALL`, and alerts.
    pub const ALERTS: Constructs = Constructs {
        alerts: true,
        ..Constructs::ALL
    };
}

/// Those of CommonMark.
impl Default for Constructs {
    ghost use Rattle.std.specs.Prelude.{◌≡◌};
    ghost use Rattle.md_engine.specs.declared.configuration.TheConstants.Constructs.{COMMONMARK};

    ghost is_default = { λ constructs. constructs ≡ COMMONMARK };

    fn default() -> Constructs {
        Constructs::COMMONMARK
    }
}

/// What a parse is asked for.
#[derive(Clone, Copy, Debug, PartialEq, Eq)]
pub struct ParseOptions {
    pub constructs: Constructs,
}

impl ParseOptions {
    /// No construct.
    pub const NONE: ParseOptions = ParseOptions {
        constructs: Constructs::NONE,
    };

    /// CommonMark, without any extension.
    pub const COMMONMARK: ParseOptions = ParseOptions {
        constructs: Constructs::COMMONMARK,
    };

    /// CommonMark with footnote definitions and tables.
    pub const GFM: ParseOptions = ParseOptions {
        constructs: Constructs::GFM,
    };

    /// Every construct but alerts and those of MDX.
    pub const ALL: ParseOptions = ParseOptions {
        constructs: Constructs::ALL,
    };

    /// Every construct but those of MDX.
    pub const ALERTS: ParseOptions = ParseOptions {
        constructs: Constructs::ALERTS,
    };
}

/// CommonMark, without any extension.
impl Default for ParseOptions {
    ghost use Rattle.std.specs.Prelude.{◌≡◌};
    ghost use Rattle.md_engine.specs.declared.configuration.TheConstants.ParseOptions.{COMMONMARK};

    ghost is_default = { λ options. options ≡ COMMONMARK };

    fn default() -> ParseOptions {
        ParseOptions::COMMONMARK
    }
}
