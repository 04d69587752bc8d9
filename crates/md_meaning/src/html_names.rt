// The names of HTML by which its first and its sixth kind begin (CommonMark 4.6), compared without a copy.
ghost use Rattle.std.specs.Prelude.{◌≡◌};
ghost use Rattle.std.specs.Str.{str_eq_ignore_ascii_case};
ghost use Rattle.md_meaning.specs.Html as h;

const RAW_NAMES: [&str; 4] = ["pre", "script", "style", "textarea"];

const BASIC_NAMES: [&str; 62] = [
    "address",
    "article",
    "aside",
    "base",
    "basefont",
    "blockquote",
    "body",
    "caption",
    "center",
    "col",
    "colgroup",
    "dd",
    "details",
    "dialog",
    "dir",
    "div",
    "dl",
    "dt",
    "fieldset",
    "figcaption",
    "figure",
    "footer",
    "form",
    "frame",
    "frameset",
    "h1",
    "h2",
    "h3",
    "h4",
    "h5",
    "h6",
    "head",
    "header",
    "hr",
    "html",
    "iframe",
    "legend",
    "li",
    "link",
    "main",
    "menu",
    "menuitem",
    "nav",
    "noframes",
    "ol",
    "optgroup",
    "option",
    "p",
    "param",
    "search",
    "section",
    "summary",
    "table",
    "tbody",
    "td",
    "tfoot",
    "th",
    "thead",
    "title",
    "tr",
    "track",
    "ul",
];

/// Whether the two are equal, ASCII case ignored.
pub fn is_name(known: &str, name: &[u8]) -> bool
    ensures { result ≡ str_eq_ignore_ascii_case known.now name.now }
{
    known.as_bytes().eq_ignore_ascii_case(name)
}

/// Whether this is a name of the first kind, in any ASCII case.
pub fn is_raw_name(name: &[u8]) -> bool
    ensures { result ≡ h.is_raw_name name.now }
{
    RAW_NAMES.iter().any(|known| is_name(known, name))
}

/// Whether this is a name of the sixth kind, in any ASCII case.
pub fn is_basic_name(name: &[u8]) -> bool
    ensures { result ≡ h.is_basic_name name.now }
{
    BASIC_NAMES.iter().any(|known| is_name(known, name))
}
