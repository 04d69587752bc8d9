// Rows on lists (CommonMark 5.3).

/// Rows on lists (CommonMark 5.3).
pub fn rows() -> &'static str {
    r#"CommonMark 5.3 | commonmark | list_item
"- a\n- b\n+ c"
list -
  item
    paragraph
      | a
  item
    paragraph
      | b
list +
  item
    paragraph
      | c

CommonMark 5.3 | commonmark | list_item
"- a\n+ b"
list -
  item
    paragraph
      | a
list +
  item
    paragraph
      | b

CommonMark 5.3 | commonmark | list_item
"1. a\n7. b\n3) c"
list .
  item
    paragraph
      | a
  item
    paragraph
      | b
list )
  item
    paragraph
      | c

CommonMark 5.3 | commonmark | list_item
"a\n- b\n- c"
paragraph
  | a
list -
  item
    paragraph
      | b
  item
    paragraph
      | c

CommonMark 5.3 | commonmark | nothing
"a\n14. b\n2. c\n0) d"
paragraph
  | a
  | 14. b
  | 2. c
  | 0) d

CommonMark 5.3 | commonmark | list_item
"a\n1. b\n\nc\n1) d"
paragraph
  | a
list .
  item
    paragraph
      | b
paragraph
  | c
list )
  item
    paragraph
      | d

CommonMark 5.3, own choice: only the single digit 1 interrupts | commonmark | nothing
"a\n01. b"
paragraph
  | a
  | 01. b

CommonMark 5.3 | commonmark | nothing
"a\n*"
paragraph
  | a
  | *

CommonMark 5.3 | commonmark | list_item
"- a\n- b\n\n\n- c"
list -
  item
    paragraph
      | a
  item
    paragraph
      | b
  item
    paragraph
      | c

CommonMark 5.3 | commonmark | list_item
"- a\n  - b\n    - c\n\n\n      d"
list -
  item
    paragraph
      | a
    list -
      item
        paragraph
          | b
        list -
          item
            paragraph
              | c
            paragraph
              | d

CommonMark 5.3 | commonmark | list_item html_flow
"- a\n- b\n\n<!-- -->\n\n- c"
list -
  item
    paragraph
      | a
  item
    paragraph
      | b
html
  | <!-- -->
list -
  item
    paragraph
      | c

CommonMark 5.3 | commonmark | list_item html_flow code_indented
"-   a\n\n    b\n\n-   c\n\n<!-- -->\n\n    d"
list -
  item
    paragraph
      | a
    paragraph
      | b
  item
    paragraph
      | c
html
  | <!-- -->
code
  | d

CommonMark 5.3 | commonmark | list_item block_quote
"- a\n> b\n- c"
list -
  item
    paragraph
      | a
quote
  paragraph
    | b
list -
  item
    paragraph
      | c

CommonMark 5.3 | commonmark | list_item code_indented
"- a\n - b\n  - c\n   - d\n    - e"
list -
  item
    paragraph
      | a
  item
    paragraph
      | b
  item
    paragraph
      | c
  item
    paragraph
      | d
      | - e

CommonMark 5.3 | commonmark | list_item code_indented
"1. a\n\n  2. b\n\n    3. c"
list .
  item
    paragraph
      | a
  item
    paragraph
      | b
code
  | 3. c

CommonMark 5.3 | commonmark | list_item
"* a\n*\n\n* c"
list *
  item
    paragraph
      | a
  item
  item
    paragraph
      | c

CommonMark 5.3 | commonmark | list_item definition
"- a\n- b\n\n  [c]: d\n- e"
list -
  item
    paragraph
      | a
  item
    paragraph
      | b
    definition
      label | c
      destination | d
  item
    paragraph
      | e
definitions 1
= c
footnotes 0

CommonMark 5.3 | commonmark | list_item code_fenced
"- a\n- ```\n  b\n\n\n  ```\n- c"
list -
  item
    paragraph
      | a
  item
    fence `
      | b
      |\u{20}
      |\u{20}
  item
    paragraph
      | c

CommonMark 5.3 | commonmark | list_item
"- a\n  - b\n\n    c\n- d"
list -
  item
    paragraph
      | a
    list -
      item
        paragraph
          | b
        paragraph
          | c
  item
    paragraph
      | d

CommonMark 5.3 | commonmark | list_item block_quote
"* a\n  > b\n  >\n* c"
list *
  item
    paragraph
      | a
    quote
      paragraph
        | b
  item
    paragraph
      | c

CommonMark 5.3 | commonmark | list_item block_quote code_fenced
"- a\n  > b\n  ```\n  c\n  ```\n- d"
list -
  item
    paragraph
      | a
    quote
      paragraph
        | b
    fence `
      | c
  item
    paragraph
      | d

CommonMark 5.3 | commonmark | list_item
"* a\n  * b\n\n  c"
list *
  item
    paragraph
      | a
    list *
      item
        paragraph
          | b
    paragraph
      | c

CommonMark 5.3 | commonmark | list_item
"- a\n  - b\n  - c\n\n- d\n  - e"
list -
  item
    paragraph
      | a
    list -
      item
        paragraph
          | b
      item
        paragraph
          | c
  item
    paragraph
      | d
    list -
      item
        paragraph
          | e

CommonMark 5.3 | commonmark | list_item
"- a\n- b\n\n- c"
list -
  item
    paragraph
      | a
  item
    paragraph
      | b
  item
    paragraph
      | c

CommonMark 5.2 | commonmark | list_item
"-"
list -
  item

CommonMark 5.3 | commonmark | list_item
"-\n-\n"
list -
  item
  item

CommonMark 5.3 | commonmark | list_item
"-\n+"
list -
  item
list +
  item

CommonMark 5.2 | commonmark | list_item
"1)"
list )
  item

CommonMark 5.3 | commonmark | list_item
"- b\n\na\n- c"
list -
  item
    paragraph
      | b
paragraph
  | a
list -
  item
    paragraph
      | c

CommonMark 5.1 and 5.3 | commonmark | block_quote list_item
"-\n>\n-"
list -
  item
quote
list -
  item

CommonMark 5.3 | commonmark | list_item
"- -\n-"
list -
  item
    list -
      item
  item

CommonMark 5.3 | commonmark | list_item
"- a\n- b"
list -
  item
    paragraph
      | a
  item
    paragraph
      | b

CommonMark 5.2 | commonmark | list_item
"1) a"
list )
  item
    paragraph
      | a

CommonMark 5.3 | commonmark | list_item
"* - a\n* b"
list *
  item
    list -
      item
        paragraph
          | a
  item
    paragraph
      | b

CommonMark 5.1 and 5.2 | commonmark | block_quote list_item
"> - a\n- > b"
quote
  list -
    item
      paragraph
        | a
list -
  item
    quote
      paragraph
        | b
"#
}
