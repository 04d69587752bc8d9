// Rows on list items (CommonMark 5.2).

/// Rows on list items (CommonMark 5.2).
pub fn rows() -> &'static str {
    r#"CommonMark 5.2 | commonmark | list_item code_indented block_quote
"1.  a\n    b\n\n        c\n\n    > d"
list .
  item
    paragraph
      | a
      | b
    code
      | c
    quote
      paragraph
        | d

CommonMark 5.2 | commonmark | list_item
"- a\n\n b"
list -
  item
    paragraph
      | a
paragraph
  | b

CommonMark 5.2 | commonmark | list_item
"- a\n\n  b"
list -
  item
    paragraph
      | a
    paragraph
      | b

CommonMark 5.2 | commonmark | list_item code_indented
" -    a\n\n     b"
list -
  item
    paragraph
      | a
code
  |  b

CommonMark 5.2 | commonmark | list_item
" -    a\n\n      b"
list -
  item
    paragraph
      | a
    paragraph
      | b

CommonMark 5.2 | commonmark | block_quote list_item
"   > > 1.  a\n>>\n>>     b"
quote
  quote
    list .
      item
        paragraph
          | a
        paragraph
          | b

CommonMark 5.2 | commonmark | block_quote list_item
">>- a\n>>\n  >  > b"
quote
  quote
    list -
      item
        paragraph
          | a
    paragraph
      | b

CommonMark 5.2 | commonmark | nothing
"-a\n\n2.b"
paragraph
  | -a
paragraph
  | 2.b

CommonMark 5.2 | commonmark | list_item
"- a\n\n\n  b"
list -
  item
    paragraph
      | a
    paragraph
      | b

CommonMark 5.2 | commonmark | list_item code_fenced
"1.  a\n\n    ```\n    b\n    ```\n\n    c"
list .
  item
    paragraph
      | a
    fence `
      | b
    paragraph
      | c

CommonMark 5.2 | commonmark | list_item code_indented
"- a\n\n      b\n\n\n      c"
list -
  item
    paragraph
      | a
    code
      | b
      |\u{20}
      |\u{20}
      | c

CommonMark 5.2 | commonmark | list_item
"123456789. a"
list .
  item
    paragraph
      | a

CommonMark 5.2 | commonmark | nothing
"1234567890. a"
paragraph
  | 1234567890. a

CommonMark 5.2 | commonmark | list_item
"0. a\n\n003) b"
list .
  item
    paragraph
      | a
list )
  item
    paragraph
      | b

CommonMark 5.2 | commonmark | nothing
"-1. a\n\n1 . b\n\n1: c\n\n. d\n\n) e"
paragraph
  | -1. a
paragraph
  | 1 . b
paragraph
  | 1: c
paragraph
  | . d
paragraph
  | ) e

CommonMark 5.2, own choice: digits are those of ASCII | commonmark | nothing
"\u{661}. a"
paragraph
  | \u{661}. a

CommonMark 5.2 | commonmark | list_item code_indented
"  10.  a\n\n           b"
list .
  item
    paragraph
      | a
    code
      | b

CommonMark 5.2 | commonmark | list_item code_indented
"-     a"
list -
  item
    code
      | a

CommonMark 5.2 | commonmark | list_item code_indented
"1.     a\n\n   b\n\n       c"
list .
  item
    code
      | a
    paragraph
      | b
    code
      | c

CommonMark 5.2 | commonmark | list_item code_indented
"1.      a"
list .
  item
    code
      |  a

CommonMark 5.2 | commonmark | list_item
"-    a\n\n  b"
list -
  item
    paragraph
      | a
paragraph
  | b

CommonMark 5.2 | commonmark | list_item
"-  a\n\n   b"
list -
  item
    paragraph
      | a
    paragraph
      | b

CommonMark 5.2, own choice: five columns after the marker without indented code | exactly list_item
"-     a\n\n  b"
list -
  item
    paragraph
      | a
    paragraph
      | b

CommonMark 5.2 | commonmark | list_item
"-\ta\n\n  b"
list -
  item
    paragraph
      | a
paragraph
  | b

CommonMark 5.2 | commonmark | list_item code_fenced code_indented
"-\n  a\n-\n  ```\n  b\n  ```\n-\n      c"
list -
  item
    paragraph
      | a
  item
    fence `
      | b
  item
    code
      | c

CommonMark 5.2 | commonmark | list_item
"-   \n  a"
list -
  item
    paragraph
      | a

CommonMark 5.2 | commonmark | list_item
"-\n\n  a"
list -
  item
paragraph
  | a

CommonMark 5.2 | commonmark | list_item
"+ \n  \n  a"
list +
  item
paragraph
  | a

CommonMark 5.2 | commonmark | list_item
"-\n a"
list -
  item
paragraph
  | a

CommonMark 5.2 | commonmark | list_item
"- a\n-\n- b"
list -
  item
    paragraph
      | a
  item
  item
    paragraph
      | b

CommonMark 5.2 | commonmark | list_item
"- a\n-   \n- b"
list -
  item
    paragraph
      | a
  item
  item
    paragraph
      | b

CommonMark 5.2 | commonmark | list_item
"1. a\n2.\n3. b"
list .
  item
    paragraph
      | a
  item
  item
    paragraph
      | b

CommonMark 5.2 | commonmark | list_item
"*"
list *
  item

CommonMark 5.2 | commonmark | nothing
"a\n*\n\nb\n1."
paragraph
  | a
  | *
paragraph
  | b
  | 1.

CommonMark 5.2 | commonmark | list_item
"+ + +"
list +
  item
    list +
      item
        list +
          item

CommonMark 5.2 | exactly list_item
"* * *"
list *
  item
    list *
      item
        list *
          item

CommonMark 5.2 | commonmark | list_item code_indented
" 1.  a\n     b\n\n         c"
list .
  item
    paragraph
      | a
      | b
    code
      | c

CommonMark 5.2 | commonmark | code_indented
"    1.  a"
code
  | 1.  a

CommonMark 5.2 | commonmark | list_item
"  1.  a\nb"
list .
  item
    paragraph
      | a
      | b

CommonMark 5.2 | commonmark | block_quote list_item
"> 1. > a\nb"
quote
  list .
    item
      quote
        paragraph
          | a
          | b

CommonMark 5.2 | commonmark | block_quote list_item
"> 1. > a\n> b"
quote
  list .
    item
      quote
        paragraph
          | a
          | b

CommonMark 5.2 | commonmark | list_item
"- a\n  - b\n    - c"
list -
  item
    paragraph
      | a
    list -
      item
        paragraph
          | b
        list -
          item
            paragraph
              | c

CommonMark 5.2 | commonmark | list_item
"- a\n - b\n  - c\n   - d"
list -
  item
    paragraph
      | a
  item
    paragraph
      | b
  item
    paragraph
      | c
  item
    paragraph
      | d

CommonMark 5.2 | commonmark | list_item
"10) a\n    - b"
list )
  item
    paragraph
      | a
    list -
      item
        paragraph
          | b

CommonMark 5.2 | commonmark | list_item
"10) a\n   - b"
list )
  item
    paragraph
      | a
list -
  item
    paragraph
      | b

CommonMark 5.2 | commonmark | list_item
"1. - 2. a"
list .
  item
    list -
      item
        list .
          item
            paragraph
              | a

CommonMark 5.2 | commonmark | list_item heading_atx heading_setext
"- # a\n- b\n  ---\n  c"
list -
  item
    heading 1
      | a
  item
    heading 2
      | b
    paragraph
      | c

CommonMark 5.2 | commonmark | list_item
"- a\n\tb"
list -
  item
    paragraph
      | a
      | b

CommonMark 5.2 | commonmark | list_item
"- a\n  - b\nc"
list -
  item
    paragraph
      | a
    list -
      item
        paragraph
          | b
          | c

CommonMark 5.2 | commonmark | list_item
"- a\nb\n\nc"
list -
  item
    paragraph
      | a
      | b
paragraph
  | c

CommonMark 5.2 | commonmark | list_item
"+  a\n  \n  b"
list +
  item
    paragraph
      | a
paragraph
  | b

CommonMark 5.2 | commonmark | list_item heading_atx
"- a\n# b"
list -
  item
    paragraph
      | a
heading 1
  | b

CommonMark 5.2 | commonmark | nothing
"a\n2. b"
paragraph
  | a
  | 2. b

own choice: a byte order mark elsewhere is text | commonmark | list_item
"+ \u{feff}a"
list +
  item
    paragraph
      | \u{feff}a
"#
}
