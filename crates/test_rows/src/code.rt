// Rows on indented code (CommonMark 4.4).

/// Rows on indented code (CommonMark 4.4).
pub fn rows() -> &'static str {
    r##"CommonMark 4.4 | commonmark | code_indented
"    a\n      b"
code
  | a
  |   b

CommonMark 4.4 | commonmark | code_indented
"    a\n      \n    b\n    \n"
code
  | a
  |  \u{20}
  | b

CommonMark 4.4 | commonmark | list_item
"  - a\n\n    b"
list -
  item
    paragraph
      | a
    paragraph
      | b

CommonMark 4.4 | commonmark | list_item
"1.  a\n\n    - b"
list .
  item
    paragraph
      | a
    list -
      item
        paragraph
          | b

CommonMark 4.4 | commonmark | code_indented
"    <a/>\n    *b*\n\n    - c"
code
  | <a/>
  | *b*
  |\u{20}
  | - c

CommonMark 4.4 | commonmark | code_indented
"    a\n\n    b\n  \n \n  \n    c"
code
  | a
  |\u{20}
  | b
  |\u{20}
  |\u{20}
  |\u{20}
  | c

CommonMark 4.4 | commonmark | code_indented
"    a\n      \n      b"
code
  | a
  |  \u{20}
  |   b

CommonMark 4.4 | commonmark | code_indented
"a\n    b"
paragraph
  | a
  | b

CommonMark 4.4 | commonmark | code_indented
"    a\n   b"
code
  | a
paragraph
  | b

CommonMark 4.4 | commonmark | code_indented heading_atx heading_setext thematic_break
"# a\n    b\nc\n------\n    d\n----"
heading 1
  | a
code
  | b
heading 2
  | c
code
  | d
break

CommonMark 4.4 | commonmark | code_indented
"        a\n    b"
code
  |     a
  | b

CommonMark 4.4 | commonmark | code_indented
"\n    \n    a\n    \n"
code
  | a

CommonMark 4.4 | commonmark | code_indented
"    a  "
code
  | a \u{20}

CommonMark 4.4 | commonmark | code_indented
"\ta\n\n\tb"
code
  | a
  |\u{20}
  | b

CommonMark 4.4 | commonmark | code_indented list_item
"- a\n\n      b"
list -
  item
    paragraph
      | a
    code
      | b

CommonMark 4.4 | commonmark | block_quote code_indented
">     a\n>\n>     b"
quote
  code
    | a
    |\u{20}
    | b

CommonMark 4.4 | commonmark | block_quote code_indented
">     a\n\n>     b"
quote
  code
    | a
quote
  code
    | b

CommonMark 4.4 | commonmark | block_quote code_indented
"a\n>     b\n>     c"
paragraph
  | a
quote
  code
    | b
    | c

CommonMark 4.4 | commonmark | block_quote code_indented
">\t  a\n>\t\tb\n>    \tc"
quote
  code
    | a
    |   b
    |   c

CommonMark 4.4 | commonmark | block_quote code_indented
">     a\n>\t\t\n>     \t\n>     b"
quote
  code
    | a
    |  \u{20}
    | \t
    | b

CommonMark 4.4 | commonmark | list_item code_indented
"-\t\ta\n\t  b\n\t\tc"
list -
  item
    code
      |   a
      | b
      |   c

CommonMark 4.4 | commonmark | block_quote list_item code_indented
"> -     a\n>\n>       b\n>        c"
quote
  list -
    item
      code
        | a
        |\u{20}
        | b
        |  c

CommonMark 4.4 | commonmark | list_item code_indented
"- a\n\n      b\n \n         \n      c"
list -
  item
    paragraph
      | a
    code
      | b
      |\u{20}
      |   \u{20}
      | c

CommonMark 4.4 | commonmark | code_indented
"    a\n     "
code
  | a

CommonMark 4.4 | commonmark | code_indented
"    a\n     \n\t\t\nb\n\n      "
code
  | a
paragraph
  | b

CommonMark 4.4 | commonmark | block_quote list_item code_indented
">      \n-      \n      "
quote
list -
  item

CommonMark 4.4 | commonmark | block_quote code_indented
">     a\n>      \n     b"
quote
  code
    | a
code
  |  b

CommonMark 4.4 | commonmark | block_quote code_indented
">     a\n> >     b\n>     c"
quote
  code
    | a
  quote
    code
      | b
  code
    | c

CommonMark 4.4 | commonmark | list_item code_indented
"-     a\n-     b\n     c"
list -
  item
    code
      | a
  item
    code
      | b
    paragraph
      | c

CommonMark 4.4 | commonmark | list_item code_indented
"-     a\n b"
list -
  item
    code
      | a
paragraph
  | b

CommonMark 4.4 | commonmark | block_quote list_item code_indented
"    a\n>\n    b\n- c"
code
  | a
quote
code
  | b
list -
  item
    paragraph
      | c

CommonMark 4.4 | commonmark | block_quote list_item
"> - a\n>       b\n      c"
quote
  list -
    item
      paragraph
        | a
        | b
        | c

CommonMark 4.4 | commonmark | block_quote code_indented
"> a\n>\n    b"
quote
  paragraph
    | a
code
  | b

CommonMark 5.2 | commonmark | list_item code_indented
"-\n\n      a"
list -
  item
code
  |   a

CommonMark 4.4 | commonmark | code_indented
"    a\r\n\r\n    b\r     \r    c\r\n"
code
  | a
  |\u{20}
  | b
  | \u{20}
  | c

CommonMark 4.4 | commonmark | code_indented
"    a\r\n      \r\r\nb"
code
  | a
paragraph
  | b

CommonMark 4.4 | commonmark | list_item
"- a\n\nb\n    c"
list -
  item
    paragraph
      | a
paragraph
  | b
  | c

CommonMark 4.4, own choice: without indented code any indent is small | exactly block_quote
"     > a\n    >b"
quote
  paragraph
    | a
    | b

CommonMark 4.4, own choice: without indented code any indent is small | exactly code_fenced
"     ```\n   a\n      b"
fence ` open
  | a
  |  b

own choice: a construct that is off accepts no line | gfm | nothing
"$$\na\n$$"
paragraph
  | $$
  | a
  | $$

CommonMark 4.4 | commonmark | code_indented
"    a"
code
  | a

CommonMark 4.4 | commonmark | code_indented
"    a\n      \n\n\tb\nc"
code
  | a
  |  \u{20}
  |\u{20}
  | b
paragraph
  | c

CommonMark 4.4 and 5.1 | commonmark | block_quote code_indented
">     a\n>     b"
quote
  code
    | a
    | b
"##
}
