// The constructs by the names of their flags, fragments of all, what the outline shows of each, and rows on those that
// have no module of their own: footnote definitions, frontmatter, and all constructs at once. So one file has all that
// is tried of such a construct.

use md_engine::configuration::Constructs;
use md_meaning::outline::Word;

/// The names of the constructs of `Constructs::ALERTS`.
pub const NAMES: [&str; 14] = [
    "alerts",
    "block_quote",
    "code_fenced",
    "code_indented",
    "definition",
    "frontmatter",
    "gfm_footnote_definition",
    "gfm_table",
    "heading_atx",
    "heading_setext",
    "html_flow",
    "list_item",
    "math_flow",
    "thematic_break",
];

/// Fragments of all constructs; the last four begin lines with a byte whose first leaf refuses them.
pub const FRAGMENTS: [&str; 46] = [
    "a", " ", "  ", "    ", "\t", "\n", "\r", "\n\n", "\u{feff}", "\\", "> ", ">", "- ", "-\n",
    "1. ", "10) ", "[^a]: ", "[^b]:\n", "# ", " #\n", "=\n", "---\n", "---", "+++\n", "***\n",
    "```\n", "~~~ a\n", "$$\n", "<div>\n", "<a>\n", "<!--", "-->\n", "[a]: ", "[b]: c\n",
    "\"t\"\n", "'", "|", "a|b\n", "-|-\n", ":-\n", "[!NOTE]", "[!tip]\n", "#a|b\n", "$a\n", "_a|",
    "<a |",
];

/// Switches the construct of this name on or off. A name that is none changes nothing and answers `false`.
pub fn switch(constructs: &mut Constructs, name: &str, on: bool) -> bool {
    match name {
        "alerts" => constructs.alerts = on,
        "block_quote" => constructs.block_quote = on,
        "code_fenced" => constructs.code_fenced = on,
        "code_indented" => constructs.code_indented = on,
        "definition" => constructs.definition = on,
        "frontmatter" => constructs.frontmatter = on,
        "gfm_footnote_definition" => constructs.gfm_footnote_definition = on,
        "gfm_table" => constructs.gfm_table = on,
        "heading_atx" => constructs.heading_atx = on,
        "heading_setext" => constructs.heading_setext = on,
        "html_flow" => constructs.html_flow = on,
        "list_item" => constructs.list_item = on,
        "math_flow" => constructs.math_flow = on,
        "thematic_break" => constructs.thematic_break = on,
        _ => return false,
    }
    true
}

/// The constructs whose names are in a text, parted by spaces.
pub fn named(names: &str) -> Option<Constructs> {
    let mut constructs = Constructs::NONE;
    for name in names.split(' ') {
        if !name.is_empty() && !switch(&mut constructs, name, true) {
            return None;
        }
    }
    Some(constructs)
}

/// The constructs that are on in both.
pub fn both(a: &Constructs, b: &Constructs) -> Constructs {
    Constructs {
        alerts: a.alerts & b.alerts,
        block_quote: a.block_quote & b.block_quote,
        code_fenced: a.code_fenced & b.code_fenced,
        code_indented: a.code_indented & b.code_indented,
        definition: a.definition & b.definition,
        frontmatter: a.frontmatter & b.frontmatter,
        gfm_footnote_definition: a.gfm_footnote_definition & b.gfm_footnote_definition,
        gfm_table: a.gfm_table & b.gfm_table,
        heading_atx: a.heading_atx & b.heading_atx,
        heading_setext: a.heading_setext & b.heading_setext,
        html_flow: a.html_flow & b.html_flow,
        list_item: a.list_item & b.list_item,
        math_flow: a.math_flow & b.math_flow,
        thematic_break: a.thematic_break & b.thematic_break,
        ..Constructs::NONE
    }
}

/// The construct without which nothing makes a word, or no name. Headings of depth 1 and 2 are of two constructs, which
/// their events show apart.
fn construct_of(word: Word) -> &'static str {
    match word {
        Word::Frontmatter(_) => "frontmatter",
        Word::Heading(depth) if depth > 2 => "heading_atx",
        Word::Break => "thematic_break",
        Word::Code => "code_indented",
        Word::Fence { .. } => "code_fenced",
        Word::Math { .. } => "math_flow",
        Word::Html => "html_flow",
        Word::Definition => "definition",
        Word::Table(_) => "gfm_table",
        Word::Quote => "block_quote",
        Word::Alert(_) => "alerts",
        Word::List(_) => "list_item",
        Word::Footnote => "gfm_footnote_definition",
        _ => "",
    }
}

/// Whether nothing makes a word without the construct of this name: an alert is a quote, too.
pub fn is_of(word: Word, name: &str) -> bool {
    let own = construct_of(word);
    own == name || own == "alerts" && name == "block_quote"
}

/// Rows on footnote definitions and frontmatter, and on all constructs at once.
pub fn rows() -> &'static str {
    r#"own choice: footnotes as on GitHub | gfm | gfm_footnote_definition
"[^a]: b"
footnote
  label | a
  paragraph
    | b
definitions 0
footnotes 1
= a

own choice: a construct that is off accepts no line | commonmark | definition
"[^a]: b"
definition
  label | ^a
  destination | b
definitions 1
= ^a
footnotes 0

own choice: footnotes as on GitHub | gfm | gfm_footnote_definition
"   [^a]:b"
footnote
  label | a
  paragraph
    | b
definitions 0
footnotes 1
= a

own choice: footnotes as on GitHub | gfm | code_indented
"    [^a]: b"
code
  | [^a]: b

own choice: footnotes as on GitHub | gfm | definition
"[^]: b"
definition
  label | ^
  destination | b
definitions 1
= ^
footnotes 0

own choice: footnotes as on GitHub | gfm | gfm_footnote_definition
"[^a]: "
footnote
  label | a
definitions 0
footnotes 1
= a

own choice: footnotes as on GitHub | gfm | gfm_footnote_definition
"[^a]:\n    b"
footnote
  label | a
  paragraph
    | b
definitions 0
footnotes 1
= a

own choice: footnotes as on GitHub | gfm | gfm_footnote_definition
"[^a]:\nb"
footnote
  label | a
paragraph
  | b
definitions 0
footnotes 1
= a

own choice: footnotes as on GitHub | gfm | nothing
"[^a] : b"
paragraph
  | [^a] : b

own choice: footnotes as on GitHub | gfm | gfm_footnote_definition
"[^a]: b\nc"
footnote
  label | a
  paragraph
    | b
    | c
definitions 0
footnotes 1
= a

own choice: footnotes as on GitHub | gfm | gfm_footnote_definition
"[^a]: b\n    c"
footnote
  label | a
  paragraph
    | b
    | c
definitions 0
footnotes 1
= a

own choice: footnotes as on GitHub | gfm | gfm_footnote_definition
"[^a]: b\n\n   c"
footnote
  label | a
  paragraph
    | b
paragraph
  | c
definitions 0
footnotes 1
= a

own choice: footnotes as on GitHub | gfm | gfm_footnote_definition
"[^a]: b\n\n\tc"
footnote
  label | a
  paragraph
    | b
  paragraph
    | c
definitions 0
footnotes 1
= a

own choice: footnotes as on GitHub | gfm | gfm_footnote_definition
"[^a]: b\n\n    c\nd"
footnote
  label | a
  paragraph
    | b
  paragraph
    | c
    | d
definitions 0
footnotes 1
= a

own choice: footnotes as on GitHub | gfm | gfm_footnote_definition
"[^a]:     b"
footnote
  label | a
  paragraph
    | b
definitions 0
footnotes 1
= a

own choice: footnotes as on GitHub | gfm | gfm_footnote_definition
"a\n[^B]: c"
paragraph
  | a
footnote
  label | B
  paragraph
    | c
definitions 0
footnotes 1
= b

own choice: footnotes as on GitHub | gfm | definition
"[^a b]: c"
definition
  label | ^a b
  destination | c
definitions 1
= ^a b
footnotes 0

own choice: footnotes as on GitHub | gfm | definition
"[^a\tb]: c"
definition
  label | ^a\tb
  destination | c
definitions 1
= ^a b
footnotes 0

own choice: footnotes as on GitHub | gfm | gfm_footnote_definition list_item
"[^a]: - b\n    - c"
footnote
  label | a
  list -
    item
      paragraph
        | b
    item
      paragraph
        | c
definitions 0
footnotes 1
= a

own choice: footnotes as on GitHub | gfm | gfm_footnote_definition
"[^a\\]]: b"
footnote
  label | a\\]
  paragraph
    | b
definitions 0
footnotes 1
= a\\]

own choice: footnotes as on GitHub | gfm | gfm_footnote_definition
"[^\\\\]: b"
footnote
  label | \\\\
  paragraph
    | b
definitions 0
footnotes 1
= \\\\

own choice: footnotes as on GitHub | gfm | gfm_footnote_definition
"[^\\[a]: b\n\n     \n      c"
footnote
  label | \\[a
  paragraph
    | b
  paragraph
    | c
definitions 0
footnotes 1
= \\[a

own choice: footnotes as on GitHub | gfm | gfm_footnote_definition list_item
"- [^a]: b\n\n\t  c"
list -
  item
    footnote
      label | a
      paragraph
        | b
      paragraph
        | c
definitions 0
footnotes 1
= a

own choice: footnotes as on GitHub | gfm | gfm_footnote_definition block_quote
">\t[^a]:\tb\n>\n>\t c"
quote
  footnote
    label | a
    paragraph
      | b
  paragraph
    | c
definitions 0
footnotes 1
= a

own choice: footnotes as on GitHub | gfm | gfm_footnote_definition code_fenced
"[^a]: ~~~\n    b\n  ~~~"
footnote
  label | a
  fence ~ open
    | b
fence ~ open
definitions 0
footnotes 1
= a

own choice: footnotes as on GitHub | gfm | nothing
"[^a[b]: c\n\n[^a\\]: d"
paragraph
  | [^a[b]: c
paragraph
  | [^a\\]: d

own choice: footnotes as on GitHub | gfm | gfm_footnote_definition block_quote
"> [^a]: b\n>\n>     c"
quote
  footnote
    label | a
    paragraph
      | b
    paragraph
      | c
definitions 0
footnotes 1
= a

own choice: footnotes as on GitHub | gfm | gfm_footnote_definition code_indented
"[^a]: b\n\n        c"
footnote
  label | a
  paragraph
    | b
  code
    | c
definitions 0
footnotes 1
= a

own choice: footnotes as on GitHub | gfm | gfm_footnote_definition
"[^a]: [^b]: c"
footnote
  label | a
  footnote
    label | b
    paragraph
      | c
definitions 0
footnotes 2
= a
= b

own choice: footnotes as on GitHub | gfm | gfm_footnote_definition
"[^a]: x\n[^a]: y\n\n[^a]"
footnote
  label | a
  paragraph
    | x
footnote
  label | a
  paragraph
    | y
paragraph
  | [^a]
definitions 0
footnotes 2
= a
= a

own choice: frontmatter | all | frontmatter
"---\nx: 1\n---"
frontmatter -
  | x: 1

own choice: frontmatter | all | thematic_break
"---\nx: 1"
break
paragraph
  | x: 1

own choice: frontmatter | all | frontmatter
"---\na\n---\nb"
frontmatter -
  | a
paragraph
  | b

own choice: frontmatter | all | frontmatter
"--- \t\na\n---\t\nb"
frontmatter -
  | a
paragraph
  | b

own choice: frontmatter | all | thematic_break
"---\na\n--- b"
break
paragraph
  | a
  | --- b

own choice: frontmatter | all | thematic_break
"---\na\n+++"
break
paragraph
  | a
  | +++

own choice: frontmatter | all | thematic_break heading_setext
"\n---\na\n---"
break
heading 2
  | a

own choice: frontmatter | all | frontmatter thematic_break
"---\n---\n---"
frontmatter -
break

own choice: frontmatter | all | frontmatter
"+++\n\n+++ \na"
frontmatter +
  |\u{20}
paragraph
  | a

own choice: frontmatter | all | frontmatter heading_atx
"\u{feff}---\n---"
frontmatter -

own choice: frontmatter | all | frontmatter
"---\n+++\n---"
frontmatter -
  | +++

own choice: frontmatter | all | thematic_break
" ---\n---"
break
break

own choice: frontmatter | all | thematic_break heading_setext
"----\na\n----"
break
heading 2
  | a

own choice: frontmatter | all | frontmatter
"---\n   ---\n----\n---"
frontmatter -
  |    ---
  | ----

own choice: frontmatter | all | frontmatter
"---\r\n a\r---\n"
frontmatter -
  |  a

own choice: frontmatter | all | frontmatter
"---\n\n\n---"
frontmatter -
  |\u{20}
  |\u{20}

own choice: frontmatter | all | frontmatter
"+++\n[a]: b\n> c\n+++"
frontmatter +
  | [a]: b
  | > c

own choice: frontmatter | all | heading_setext
"--\na\n--"
heading 2
  | --
  | a

own choice: frontmatter; a line after it has no column of a mark | all | frontmatter heading_atx code_indented
"\u{feff}+++\n+++\n\ta"
frontmatter +
code
  | a

own choice: a construct that is off accepts no line | commonmark | thematic_break heading_setext
"---\na\n---"
break
heading 2
  | a

CommonMark 5.1, GFM 4.10: all at once | gfm | block_quote definition list_item gfm_table heading_atx heading_setext gfm_footnote_definition
"> [a\n> b]: c\n\n- x | y\n  --|--\n  1 | 2\n\n# h\n\ni\n=\n\n[^f]: g"
quote
  definition
    label | a
    label | b
    destination | c
list -
  item
    table 2
      row
        cell | x
        cell | y
      delimiter | --|--
      row
        cell | 1
        cell | 2
heading 1
  | h
heading 1
  | i
footnote
  label | f
  paragraph
    | g
definitions 1
= a b
footnotes 1
= f

own choice: frontmatter | all | frontmatter
"+++ \na: b\n\n\n+++\t\nc"
frontmatter +
  | a: b
  |\u{20}
  |\u{20}
paragraph
  | c

own choice: frontmatter | all | frontmatter
"---\n\ta \n---"
frontmatter -
  | \ta\u{20}

own choice: footnotes as on GitHub | gfm | gfm_footnote_definition
"[^a]: b\n\n    c"
footnote
  label | a
  paragraph
    | b
  paragraph
    | c
definitions 0
footnotes 1
= a

own choice: labels of footnotes in their order, in normal form, with repeats | gfm | block_quote definition gfm_footnote_definition list_item
"[^A]: x\n[^\u{df}]:\n\n[b]: c\n\n> - [^a]: z"
footnote
  label | A
  paragraph
    | x
footnote
  label | \u{df}
definition
  label | b
  destination | c
quote
  list -
    item
      footnote
        label | a
        paragraph
          | z
definitions 1
= b
footnotes 3
= a
= ss
= a

own choice: the label of the outer footnote comes first | gfm | block_quote gfm_footnote_definition
"[^c]:\n\n    [^d]: x\n\n[^b]: > [^a]: y"
footnote
  label | c
  footnote
    label | d
    paragraph
      | x
footnote
  label | b
  quote
    footnote
      label | a
      paragraph
        | y
definitions 0
footnotes 4
= c
= d
= b
= a

own choice: footnotes as on GitHub | gfm | gfm_footnote_definition
"[^x]: \u{feff}a"
footnote
  label | x
  paragraph
    | \u{feff}a
definitions 0
footnotes 1
= x

own choice: footnotes as on GitHub | gfm | gfm_footnote_definition
"[^x]: \n    \n    a"
footnote
  label | x
  paragraph
    | a
definitions 0
footnotes 1
= x

own choice: footnotes as on GitHub | gfm | gfm_footnote_definition list_item
"+ [^a]: b"
list +
  item
    footnote
      label | a
      paragraph
        | b
definitions 0
footnotes 1
= a

own choice: footnotes as on GitHub | gfm | gfm_footnote_definition
"[^x]: [^a]: b"
footnote
  label | x
  footnote
    label | a
    paragraph
      | b
definitions 0
footnotes 2
= x
= a
"#
}
