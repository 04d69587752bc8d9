// Rows on block quotes (CommonMark 5.1).

/// Rows on block quotes (CommonMark 5.1).
pub fn rows() -> &'static str {
    r#"CommonMark 5.1 | commonmark | block_quote
">"
quote

CommonMark 5.1 | commonmark | block_quote
">     "
quote

CommonMark 5.1 | commonmark | block_quote
">\n>  \n> "
quote

CommonMark 5.1 | commonmark | block_quote
">\n> a\n>  "
quote
  paragraph
    | a

CommonMark 5.1 | commonmark | block_quote
">\n> a"
quote
  paragraph
    | a

CommonMark 5.1 | commonmark | block_quote heading_atx
"> # a\n> b\n> c"
quote
  heading 1
    | a
  paragraph
    | b
    | c

CommonMark 5.1 | commonmark | block_quote heading_atx
"># a\n>b\n> c"
quote
  heading 1
    | a
  paragraph
    | b
    | c

CommonMark 5.1 | commonmark | block_quote heading_atx
"   > # a\n   > b\n > c"
quote
  heading 1
    | a
  paragraph
    | b
    | c

CommonMark 5.1 | commonmark | block_quote
" > a\n  > b\n   > c"
quote
  paragraph
    | a
    | b
    | c

CommonMark 5.1 | commonmark | code_indented
"    > a\n    > b"
code
  | > a
  | > b

CommonMark 5.1 | commonmark | block_quote
"> a\nb"
quote
  paragraph
    | a
    | b

CommonMark 5.1 | commonmark | block_quote
">a\nb\n>c"
quote
  paragraph
    | a
    | b
    | c

CommonMark 5.1 | commonmark | block_quote heading_atx
"> # a\nb"
quote
  heading 1
    | a
paragraph
  | b

CommonMark 5.1 | commonmark | block_quote heading_atx
"> # a\n>\n> b"
quote
  heading 1
    | a
  paragraph
    | b

CommonMark 5.1 | commonmark | block_quote heading_atx
"> a\n> # b\nc"
quote
  paragraph
    | a
  heading 1
    | b
paragraph
  | c

CommonMark 5.1 | commonmark | block_quote heading_atx
"> a\n# b"
quote
  paragraph
    | a
heading 1
  | b

CommonMark 5.1 | commonmark | block_quote thematic_break
"> a\n***"
quote
  paragraph
    | a
break

CommonMark 5.1 | commonmark | block_quote code_fenced
"> a\n```\n> b"
quote
  paragraph
    | a
fence ` open
  | > b

CommonMark 5.1 | commonmark | block_quote html_flow
"> a\n<div>\n> b"
quote
  paragraph
    | a
html
  | <div>
  | > b

CommonMark 5.1 | commonmark | block_quote
"> a\n    b"
quote
  paragraph
    | a
    | b

CommonMark 5.1 | commonmark | block_quote code_indented
"> a\n    - b"
quote
  paragraph
    | a
    | - b

CommonMark 5.1 | commonmark | block_quote code_indented
">     a\n    b"
quote
  code
    | a
code
  | b

CommonMark 5.1 | commonmark | block_quote list_item
"> - a\n- b"
quote
  list -
    item
      paragraph
        | a
list -
  item
    paragraph
      | b

CommonMark 5.1 | commonmark | block_quote list_item
"> a\n1. b"
quote
  paragraph
    | a
list .
  item
    paragraph
      | b

CommonMark 5.1 | commonmark | block_quote list_item
"> a\n2. b"
quote
  paragraph
    | a
list .
  item
    paragraph
      | b

CommonMark 5.1 | commonmark | block_quote list_item
"> a\n-"
quote
  paragraph
    | a
list -
  item

CommonMark 5.1 | commonmark | block_quote
"> a\n\nb"
quote
  paragraph
    | a
paragraph
  | b

CommonMark 5.1 | commonmark | block_quote
"> a\n\n> b"
quote
  paragraph
    | a
quote
  paragraph
    | b

CommonMark 5.1 | commonmark | block_quote
">a\n>\n>b"
quote
  paragraph
    | a
  paragraph
    | b

CommonMark 5.1 | commonmark | block_quote
"> a\n>\nb"
quote
  paragraph
    | a
paragraph
  | b

CommonMark 5.1 | commonmark | block_quote
"a\n> b"
paragraph
  | a
quote
  paragraph
    | b

CommonMark 5.1 | commonmark | block_quote thematic_break
"> a\n***\n> b"
quote
  paragraph
    | a
break
quote
  paragraph
    | b

CommonMark 5.1 | commonmark | block_quote
"> > > a\nb"
quote
  quote
    quote
      paragraph
        | a
        | b

CommonMark 5.1 | commonmark | block_quote
">>> a\n> b\n>>c"
quote
  quote
    quote
      paragraph
        | a
        | b
        | c

CommonMark 5.1 | commonmark | block_quote
"> > a\n> b"
quote
  quote
    paragraph
      | a
      | b

CommonMark 5.1 | commonmark | block_quote
"> > a\nb\n> c"
quote
  quote
    paragraph
      | a
      | b
      | c

CommonMark 5.1 | commonmark | block_quote
">> a\n>\n> b"
quote
  quote
    paragraph
      | a
  paragraph
    | b

CommonMark 5.1 | commonmark | block_quote
"> a\n>> b"
quote
  paragraph
    | a
  quote
    paragraph
      | b

CommonMark 5.1 | commonmark | block_quote code_indented
">     a\n\n>    b"
quote
  code
    | a
quote
  paragraph
    | b

CommonMark 5.1 | commonmark | block_quote
"> a\r> b\rc"
quote
  paragraph
    | a
    | b
    | c

CommonMark 5.1 | commonmark | block_quote list_item thematic_break
">>>\n***\n+\n-"
quote
  quote
    quote
break
list +
  item
list -
  item

CommonMark 5.1 | commonmark | block_quote
">\t> a"
quote
  quote
    paragraph
      | a

CommonMark 5.1 | commonmark | block_quote
"> \ta"
quote
  paragraph
    | a

CommonMark 2.2 and 5.1 | exactly block_quote
">\ta\n>\t\tb"
quote
  paragraph
    | a
    | b

CommonMark 5.1; own choice: a byte order mark in front is no text | commonmark | block_quote
"\u{feff}> a\r\n> b\rc"
quote
  paragraph
    | a
    | b
    | c

CommonMark 5.1 | commonmark | block_quote
"a\n> b\n\n> c"
paragraph
  | a
quote
  paragraph
    | b
quote
  paragraph
    | c

CommonMark 5.1 | commonmark | block_quote thematic_break
"> a\n >\tb\n> > c\r> > d\n*** "
quote
  paragraph
    | a
    | b
  quote
    paragraph
      | c
      | d
break

own choice: a construct that is off accepts no line | exactly
"***\n\n# a\n> b"
paragraph
  | ***
paragraph
  | # a
  | > b

own choice: a byte order mark elsewhere is text | commonmark | block_quote
"> \u{feff}a"
quote
  paragraph
    | \u{feff}a
"#
}
