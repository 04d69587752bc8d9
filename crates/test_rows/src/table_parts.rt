// More rows on tables (GFM 4.10): white space, pairs, what is no head or delimiter row, and containers.

/// More rows on tables (GFM 4.10): white space, pairs, what is no head or delimiter row, and containers.
pub fn rows() -> &'static str {
    r##"GFM 4.10 | gfm | gfm_table
"a|b\r\n-|-\r\nc|d\r"
table 2
  row
    cell | a
    cell | b
  delimiter | -|-
  row
    cell | c
    cell | d

GFM 4.10, own choice: without indented code any indent is small | exactly gfm_table
"     a\n\t:-\n          b"
table 1
  row
    cell | a
  delimiter | :-
  row
    cell | b

GFM 4.10, own choice: a single pipe is no head | gfm | nothing
"  |\t\n|-|"
paragraph
  | |\t
  | |-|

GFM 4.10, own choice: a single pipe is no head | gfm | gfm_table
"| |\n|-|\n\n||\n:-"
table 1
  row
    cell |\u{20}
  delimiter | |-|
table 1
  row
    cell |\u{20}
  delimiter | :-

GFM 4.10, own choice: white space is spaces and tabs | gfm | gfm_table
"é|\u{a0}\n-|-\n\u{c}\n\u{b}|"
table 2
  row
    cell | é
    cell | \u{a0}
  delimiter | -|-
  row
    cell | \u{c}
  row
    cell | \u{b}

GFM 4.10 | gfm | gfm_table
"a|\t\n:-\nb | \n| c |\t"
table 1
  row
    cell | a
  delimiter | :-
  row
    cell | b
  row
    cell | c

GFM 4.10 | gfm | gfm_table
"a\\|\n:-\n\\\\|b\n\\\\\\|c\n\\d\\"
table 1
  row
    cell | a\\|
  delimiter | :-
  row
    cell | \\\\
    cell | b
  row
    cell | \\\\\\|c
  row
    cell | \\d\\

GFM 4.10 | gfm | nothing
"a\n\n:-\n\nb\n\\-|"
paragraph
  | a
paragraph
  | :-
paragraph
  | b
  | \\-|

GFM 4.10 | gfm | heading_atx
"# a\n:-"
heading 1
  | a
paragraph
  | :-

GFM 4.10 | gfm | code_indented
"a\n\t:-"
paragraph
  | a
  | :-

GFM 4.10 | gfm | gfm_table
"a|b\n-|-|-\n-|-|-\n-:"
paragraph
  | a|b
table 3
  row
    cell | -
    cell | -
    cell | -
  delimiter | -|-|-
  row
    cell | -:

GFM 4.10 | gfm | gfm_table
"a\n:-\nb\n\nc\n:-\n:-"
table 1
  row
    cell | a
  delimiter | :-
  row
    cell | b
table 1
  row
    cell | c
  delimiter | :-
  row
    cell | :-

GFM 4.10 | gfm | gfm_table block_quote
">\ta|b\n>\t:-|-\n>\tc\td|"
quote
  table 2
    row
      cell | a
      cell | b
    delimiter | :-|-
    row
      cell | c\td

GFM 4.10 | gfm | gfm_table block_quote
"a\n:-\n>"
table 1
  row
    cell | a
  delimiter | :-
quote

GFM 4.10 | gfm | block_quote
"> a\n:-\n:-|"
quote
  paragraph
    | a
    | :-
    | :-|

GFM 4.10 | gfm | gfm_table block_quote
"> a\n:-\n> :-"
quote
  paragraph
    | a
  table 1
    row
      cell | :-
    delimiter | :-

GFM 4.10 | gfm | block_quote
"> a\n\n:-"
quote
  paragraph
    | a
paragraph
  | :-

GFM 4.10 | gfm | gfm_table list_item
"- a\n  :-\nb"
list -
  item
    table 1
      row
        cell | a
      delimiter | :-
paragraph
  | b

GFM 4.10 | gfm | gfm_table list_item
"-\n  a|b\n  -|-\n\n  c|d\n  -|-"
list -
  item
    table 2
      row
        cell | a
        cell | b
      delimiter | -|-
    table 2
      row
        cell | c
        cell | d
      delimiter | -|-

GFM 4.10 | gfm | gfm_table block_quote list_item
"> - a|b\n>   -|-\n> c"
quote
  list -
    item
      table 2
        row
          cell | a
          cell | b
        delimiter | -|-
  paragraph
    | c

GFM 4.10 | gfm | gfm_table block_quote definition
"> [a]: b\n> c\n> :-"
quote
  definition
    label | a
    destination | b
  table 1
    row
      cell | c
    delimiter | :-
definitions 1
= a
footnotes 0

GFM 4.10 | gfm | gfm_table definition
"[a]: b\nc\nd|e\n-|-\n[f]: g"
definition
  label | a
  destination | b
paragraph
  | c
table 2
  row
    cell | d
    cell | e
  delimiter | -|-
  row
    cell | [f]: g
definitions 1
= a
footnotes 0

GFM 4.10, own choice: math | all | gfm_table math_flow
"a\n:-\n$$\nb"
table 1
  row
    cell | a
  delimiter | :-
math open
  | b

own choice: footnotes as on GitHub | gfm | gfm_table gfm_footnote_definition
"a\n:-\n[^b]: c|d\n    -|-"
table 1
  row
    cell | a
  delimiter | :-
footnote
  label | b
  table 2
    row
      cell | c
      cell | d
    delimiter | -|-
definitions 0
footnotes 1
= b
"##
}
