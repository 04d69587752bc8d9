// Rows on lines, tabs, blank lines and the byte order mark (CommonMark 2 and 4.9).

/// Rows on lines, tabs, blank lines and the byte order mark (CommonMark 2 and 4.9).
pub fn rows() -> &'static str {
    r##"CommonMark 2.1 | commonmark | nothing
""

CommonMark 2.1 | commonmark | nothing
"\n"

CommonMark 2.1 | commonmark | nothing
"\r\n"

CommonMark 2.1 | commonmark | nothing
"a\nb"
paragraph
  | a
  | b

CommonMark 2.1 | commonmark | nothing
"a\rb"
paragraph
  | a
  | b

CommonMark 2.1 | commonmark | nothing
"a\r\nb"
paragraph
  | a
  | b

CommonMark 2.1 | commonmark | nothing
"a\n\rb"
paragraph
  | a
paragraph
  | b

CommonMark 2.1 | commonmark | nothing
"a\r\n\rb"
paragraph
  | a
paragraph
  | b

CommonMark 2.1 | commonmark | nothing
"a\r\r\nb"
paragraph
  | a
paragraph
  | b

CommonMark 2.1, own choice: the last ending opens no line | commonmark | nothing
"a\n"
paragraph
  | a

CommonMark 2.1, own choice: the last ending opens no line | commonmark | nothing
"a\r"
paragraph
  | a

CommonMark 2.1 | commonmark | nothing
"a\n \t \nb"
paragraph
  | a
paragraph
  | b

CommonMark 2.1, only spaces and tabs make a blank line | commonmark | nothing
"a\n\u{a0}\nb"
paragraph
  | a
  | \u{a0}
  | b

CommonMark 2.1, only spaces and tabs make a blank line | commonmark | nothing
"\u{c}"
paragraph
  | \u{c}

CommonMark 2.1, no other character ends a line | commonmark | nothing
"a\u{2028}b\u{85}c\u{b}d"
paragraph
  | a\u{2028}b\u{85}c\u{b}d

CommonMark 2.2 | commonmark | code_indented
"\ta\tb"
code
  | a\tb

CommonMark 2.2 | commonmark | code_indented
"  \ta"
code
  | a

CommonMark 2.2 | commonmark | code_indented
"   \ta"
code
  | a

CommonMark 2.2 | commonmark | code_indented
"    \ta"
code
  | \ta

CommonMark 2.2 | commonmark | code_indented
"    a\n\tb\n  \t  c"
code
  | a
  | b
  |   c

CommonMark 2.2 | commonmark | nothing
"a\n\tb"
paragraph
  | a
  | b

CommonMark 2.2 | commonmark | list_item
"  - a\n\n\tb"
list -
  item
    paragraph
      | a
    paragraph
      | b

CommonMark 2.2 | commonmark | list_item code_indented
"- a\n\n\t\tb"
list -
  item
    paragraph
      | a
    code
      |   b

CommonMark 2.2 | commonmark | block_quote
">\ta"
quote
  paragraph
    | a

CommonMark 2.2 | commonmark | block_quote code_indented
">\t\ta"
quote
  code
    |   a

CommonMark 2.2 | commonmark | block_quote
">\t> a"
quote
  quote
    paragraph
      | a

CommonMark 2.2 | commonmark | code_indented
" \t> a"
code
  | > a

CommonMark 2.2 | commonmark | list_item code_indented
"-\t\ta"
list -
  item
    code
      |   a

CommonMark 2.2 | commonmark | list_item
"1.\ta\n\n\tb"
list .
  item
    paragraph
      | a
    paragraph
      | b

CommonMark 2.2 | commonmark | list_item
" - a\n   - b\n\t - c"
list -
  item
    paragraph
      | a
    list -
      item
        paragraph
          | b
        list -
          item
            paragraph
              | c

CommonMark 2.2 | commonmark | block_quote code_fenced
">  ~~~\n>\ta"
quote
  fence ~ open
    |  a

CommonMark 2.2 | commonmark | heading_atx
"#\ta"
heading 1
  | a

CommonMark 2.2 | commonmark | thematic_break
"*\t*\t*\t"
break

CommonMark 2.3, own choice: texts stand as written | commonmark | nothing
"a\0b\n\0"
paragraph
  | a\0b
  | \0

CommonMark 4.9 | commonmark | heading_atx
"  \n\na\n \t\n\n# b\n\n  "
paragraph
  | a
heading 1
  | b

own choice: a byte order mark is taken off | commonmark | heading_atx
"\u{feff}# a"
heading 1
  | a

own choice: a byte order mark is taken off | commonmark | heading_atx
"\u{feff}"

own choice: a byte order mark is taken off | commonmark | heading_atx
"\u{feff}\n# a"
heading 1
  | a

own choice: only the first byte order mark is taken off | commonmark | heading_atx
"\u{feff}\u{feff}"
paragraph
  | \u{feff}

own choice: only the first byte order mark is taken off | commonmark | heading_atx
"\u{feff}\u{feff}# a"
paragraph
  | \u{feff}# a

own choice: a byte order mark is at the start of the text | commonmark | nothing
"a\n\u{feff}"
paragraph
  | a
  | \u{feff}

own choice: a byte order mark is at the start of the text | commonmark | nothing
" \u{feff}"
paragraph
  | \u{feff}

own choice: other characters that begin with the same byte are text | commonmark | nothing
"\u{ff01}a"
paragraph
  | \u{ff01}a

own choice: other characters that begin with the same byte are text | commonmark | nothing
"\u{ff01}\u{fefe}\n\u{ff23}"
paragraph
  | \u{ff01}\u{fefe}
  | \u{ff23}

own choice: a byte order mark is taken off | commonmark | heading_atx
"\u{feff}\u{e9}b\n# \u{e9} #"
paragraph
  | \u{e9}b
heading 1
  | \u{e9}

own choice: each byte of a mark is a column | commonmark | heading_atx
"\u{feff}\ta"
paragraph
  | a

own choice: each byte of a mark is a column | commonmark | code_indented heading_atx
"\u{feff}    a\n\tb"
code
  | a
  | b

own choice: each byte of a character is a column | commonmark | list_item
"- \u{e9}\tb"
list -
  item
    paragraph
      | \u{e9}\tb

own choice: a byte order mark in front is no text | commonmark | nothing
"\u{feff}a"
paragraph
  | a

CommonMark 2.3: a zero byte is text; its replacement is a matter of output | commonmark | nothing
"\0"
paragraph
  | \0

CommonMark 2.1 | commonmark | nothing
"a\r\nb\rc\nd "
paragraph
  | a
  | b
  | c
  | d\u{20}

CommonMark 4.9 | commonmark | nothing
"  \n\t\n"

CommonMark 2.1: only spaces and tabs are blank | commonmark | nothing
"\u{e9}\n\u{a0}"
paragraph
  | \u{e9}
  | \u{a0}
"##
}
