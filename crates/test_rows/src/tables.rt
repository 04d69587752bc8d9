// Rows on tables (GFM 4.10).

/// Rows on tables (GFM 4.10).
pub fn rows() -> &'static str {
    r##"GFM 4.10 | gfm | gfm_table
"| a | b |\n| - | - |\n| c | d |"
table 2
  row
    cell | a
    cell | b
  delimiter | | - | - |
  row
    cell | c
    cell | d

GFM 4.10 | gfm | gfm_table
"| ab | defghi |\n:-: | -----------:\nbar | baz"
table 2
  row
    cell | ab
    cell | defghi
  delimiter | :-: | -----------:
  row
    cell | bar
    cell | baz

GFM 4.10 | gfm | gfm_table
"| a |\n| - |\n| b `\\|` c |\n| d **\\|** e |"
table 1
  row
    cell | a
  delimiter | | - |
  row
    cell | b `\\|` c
  row
    cell | d **\\|** e

GFM 4.10 | gfm | gfm_table block_quote
"| a | b |\n| - | - |\n| c | d |\n> e"
table 2
  row
    cell | a
    cell | b
  delimiter | | - | - |
  row
    cell | c
    cell | d
quote
  paragraph
    | e

GFM 4.10 | gfm | gfm_table
"| a | b |\n| - | - |\n| c | d |\ne\n\nf"
table 2
  row
    cell | a
    cell | b
  delimiter | | - | - |
  row
    cell | c
    cell | d
  row
    cell | e
paragraph
  | f

GFM 4.10 | gfm | nothing
"| a | b |\n| - |\n| c |"
paragraph
  | | a | b |
  | | - |
  | | c |

GFM 4.10 | gfm | gfm_table
"| a | b |\n| - | - |\n| c |\n| d | e | f |"
table 2
  row
    cell | a
    cell | b
  delimiter | | - | - |
  row
    cell | c
  row
    cell | d
    cell | e
    cell | f

GFM 4.10 | gfm | gfm_table
"| a | b |\n| - | - |"
table 2
  row
    cell | a
    cell | b
  delimiter | | - | - |

GFM 4.10 | gfm | gfm_table
"i | b\n--|--"
table 2
  row
    cell | i
    cell | b
  delimiter | --|--

GFM 4.10 | gfm | gfm_table
"a\n:-:"
table 1
  row
    cell | a
  delimiter | :-:

GFM 4.10 | gfm | gfm_table
"a\n|-|"
table 1
  row
    cell | a
  delimiter | |-|

GFM 4.10 | gfm | gfm_table
"a\n:-\n\nb\n-:\n\nc\n-|"
table 1
  row
    cell | a
  delimiter | :-
table 1
  row
    cell | b
  delimiter | -:
table 1
  row
    cell | c
  delimiter | -|

GFM 4.10 | gfm | nothing
"a\n::\n\nb\n:\n\nc\n: -\n\nd\n:-:-\n\ne\n:-a"
paragraph
  | a
  | ::
paragraph
  | b
  | :
paragraph
  | c
  | : -
paragraph
  | d
  | :-:-
paragraph
  | e
  | :-a

GFM 4.10 | gfm | nothing
"a\n||\n\nb | c\n-||-"
paragraph
  | a
  | ||
paragraph
  | b | c
  | -||-

GFM 4.10 | gfm | heading_setext
"a\n-"
heading 2
  | a

GFM 4.10, own choice: a single pipe is no head | gfm | nothing
"|\n|-|"
paragraph
  | |
  | |-|

GFM 4.10, own choice: whitespace may follow the last pipe | gfm | gfm_table
"a\n-| "
table 1
  row
    cell | a
  delimiter | -|

GFM 4.10 | gfm | gfm_table
"  a | b\n   :- | -\t\n c | d\t"
table 2
  row
    cell | a
    cell | b
  delimiter | :- | -
  row
    cell | c
    cell | d

GFM 4.10 | gfm | code_indented
"a | b\n    :-|-"
paragraph
  | a | b
  | :-|-

GFM 4.10 | gfm | code_indented
"    a | b\n:-|-"
code
  | a | b
paragraph
  | :-|-

GFM 4.10 | gfm | code_indented
"a\n    b | c\n:-|-"
paragraph
  | a
  | b | c
  | :-|-

GFM 4.10 | gfm | gfm_table
"a\n   b | c\n:-|-"
paragraph
  | a
table 2
  row
    cell | b
    cell | c
  delimiter | :-|-

GFM 4.10 | gfm | gfm_table
"a\nb | c\n-|-\nd"
paragraph
  | a
table 2
  row
    cell | b
    cell | c
  delimiter | -|-
  row
    cell | d

GFM 4.10 | gfm | gfm_table
"a\\|b\n:-:"
table 1
  row
    cell | a\\|b
  delimiter | :-:

GFM 4.10 | gfm | gfm_table
"a\\\\|b\n-|-"
table 2
  row
    cell | a\\\\
    cell | b
  delimiter | -|-

GFM 4.10 | gfm | gfm_table
"\\|a\n:-:\nb\\|"
table 1
  row
    cell | \\|a
  delimiter | :-:
  row
    cell | b\\|

GFM 4.10 | gfm | gfm_table
"a | b\n-|-\n|"
table 2
  row
    cell | a
    cell | b
  delimiter | -|-
  row
    cell |\u{20}

GFM 4.10 | gfm | gfm_table
"a\n:-\n||\n|||\n\\|"
table 1
  row
    cell | a
  delimiter | :-
  row
    cell |\u{20}
  row
    cell |\u{20}
    cell |\u{20}
  row
    cell | \\|

GFM 4.10 | gfm | gfm_table
"a || b\n-|-|-"
table 3
  row
    cell | a
    cell |\u{20}
    cell | b
  delimiter | -|-|-

GFM 4.10 | gfm | gfm_table
"|a|b\n-|-|\nc|d|"
table 2
  row
    cell | a
    cell | b
  delimiter | -|-|
  row
    cell | c
    cell | d

GFM 4.10 | gfm | gfm_table code_indented
"a | b\n-|-\n    c"
table 2
  row
    cell | a
    cell | b
  delimiter | -|-
code
  | c

GFM 4.10 | gfm | nothing
"| a\n-- | --"
paragraph
  | | a
  | -- | --

GFM 4.10 | gfm | list_item
"a | b\n- | -"
paragraph
  | a | b
list -
  item
    paragraph
      | | -

GFM 4.10 | gfm | gfm_table heading_atx
"a | b\n-|-\n# c"
table 2
  row
    cell | a
    cell | b
  delimiter | -|-
heading 1
  | c

GFM 4.10 | gfm | gfm_table thematic_break
"a | b\n-|-\n---"
table 2
  row
    cell | a
    cell | b
  delimiter | -|-
break

GFM 4.10 | gfm | gfm_table code_fenced
"a | b\n-|-\n```\nc | d"
table 2
  row
    cell | a
    cell | b
  delimiter | -|-
fence ` open
  | c | d

GFM 4.10 | gfm | gfm_table html_flow
"a | b\n-|-\n<x>"
table 2
  row
    cell | a
    cell | b
  delimiter | -|-
html
  | <x>

GFM 4.10 | gfm | gfm_table list_item
"a | b\n-|-\n- c"
table 2
  row
    cell | a
    cell | b
  delimiter | -|-
list -
  item
    paragraph
      | c

GFM 4.10 | gfm | gfm_table list_item
"a|b\n-|-\n2. c"
table 2
  row
    cell | a
    cell | b
  delimiter | -|-
list .
  item
    paragraph
      | c

GFM 4.10 | gfm | gfm_table list_item
"a\n:-\n*"
table 1
  row
    cell | a
  delimiter | :-
list *
  item

GFM 4.10 | gfm | gfm_table
"a | b\n-|-\n=\n--\n[c]: d"
table 2
  row
    cell | a
    cell | b
  delimiter | -|-
  row
    cell | =
  row
    cell | --
  row
    cell | [c]: d

GFM 4.10 | gfm | gfm_table
"a | b\n-|-\n   c | d\n-|-"
table 2
  row
    cell | a
    cell | b
  delimiter | -|-
  row
    cell | c
    cell | d
  row
    cell | -
    cell | -

GFM 4.10 | gfm | gfm_table
"| a |\n|-|\n| b |\n\n| c |"
table 1
  row
    cell | a
  delimiter | |-|
  row
    cell | b
paragraph
  | | c |

GFM 4.10 | gfm | gfm_table
"a\n-|-\n-|-"
paragraph
  | a
table 2
  row
    cell | -
    cell | -
  delimiter | -|-

GFM 4.10 | gfm | gfm_table block_quote
"> a | b\n> -|-\n> c | d"
quote
  table 2
    row
      cell | a
      cell | b
    delimiter | -|-
    row
      cell | c
      cell | d

GFM 4.10 | gfm | gfm_table block_quote
"> a | b\n> -|-\nc"
quote
  table 2
    row
      cell | a
      cell | b
    delimiter | -|-
paragraph
  | c

GFM 4.10 | gfm | gfm_table block_quote
"> a | b\n> --|--\nc | d\n--|--"
quote
  table 2
    row
      cell | a
      cell | b
    delimiter | --|--
table 2
  row
    cell | c
    cell | d
  delimiter | --|--

GFM 4.10 | gfm | block_quote
"> a | b\n--|--"
quote
  paragraph
    | a | b
    | --|--

GFM 4.10 | gfm | gfm_table block_quote
"> a\nb | c\n> --|--"
quote
  paragraph
    | a
  table 2
    row
      cell | b
      cell | c
    delimiter | --|--

GFM 4.10 | gfm | block_quote html_flow
"> a |\n<x>"
quote
  paragraph
    | a |
html
  | <x>

GFM 4.10, own choice: the indent of a lazy head | gfm | block_quote code_indented
"> a\n    b\n> :-"
quote
  paragraph
    | a
    | b
    | :-

GFM 4.10, own choice: the indent of a lazy head | gfm | gfm_table block_quote
"> a\n   b\n> :-"
quote
  paragraph
    | a
  table 1
    row
      cell | b
    delimiter | :-

GFM 4.10 | gfm | gfm_table list_item
"- a | b\n  -|-\n  c"
list -
  item
    table 2
      row
        cell | a
        cell | b
      delimiter | -|-
      row
        cell | c

GFM 4.10, own choice: the last line is the head, whatever it is to a definition | gfm | gfm_table
"[a]:b\n:-"
table 1
  row
    cell | [a]:b
  delimiter | :-

GFM 4.10, own choice: the last line is the head, whatever it is to a definition | gfm | gfm_table
"[a]:\nb\n:-"
paragraph
  | [a]:
table 1
  row
    cell | b
  delimiter | :-

GFM 4.10, own choice: the last line is the head, whatever it is to a definition | gfm | gfm_table definition
"[a]: b\n'c'\n:-"
definition
  label | a
  destination | b
table 1
  row
    cell | 'c'
  delimiter | :-
definitions 1
= a
footnotes 0

GFM 4.10, own choice: the last line is the head, whatever it is to a definition | gfm | gfm_table definition
"[a]: b\n'c\nd'\n:-"
definition
  label | a
  destination | b
paragraph
  | 'c
table 1
  row
    cell | d'
  delimiter | :-
definitions 1
= a
footnotes 0

GFM 4.10 | gfm | gfm_table definition
"[a]:b\nc\n:-"
definition
  label | a
  destination | b
table 1
  row
    cell | c
  delimiter | :-
definitions 1
= a
footnotes 0

GFM 4.10: a head may begin with any byte | gfm | gfm_table
"#a | b\n--|--"
table 2
  row
    cell | #a
    cell | b
  delimiter | --|--

GFM 4.10: a head may begin with any byte | gfm | gfm_table
"$a | b\n--|--"
table 2
  row
    cell | $a
    cell | b
  delimiter | --|--

GFM 4.10: a head may begin with any byte | gfm | gfm_table
"~a | b\n--|--"
table 2
  row
    cell | ~a
    cell | b
  delimiter | --|--

GFM 4.10: a head may begin with any byte | gfm | gfm_table
"*a | b\n--|--"
table 2
  row
    cell | *a
    cell | b
  delimiter | --|--

GFM 4.10: a head may begin with any byte | gfm | gfm_table
"_a | b\n--|--"
table 2
  row
    cell | _a
    cell | b
  delimiter | --|--

GFM 4.10: a head may begin with any byte | gfm | gfm_table
"=a | b\n--|--"
table 2
  row
    cell | =a
    cell | b
  delimiter | --|--

GFM 4.10: a head may begin with any byte | gfm | gfm_table
"<a | b\n--|--"
table 2
  row
    cell | <a
    cell | b
  delimiter | --|--

GFM 4.10: a row where the first leaf of its byte refuses the line | gfm | gfm_table
"a\n:-\n#b"
table 1
  row
    cell | a
  delimiter | :-
  row
    cell | #b

GFM 4.10: a row where the first leaf of its byte refuses the line | gfm | gfm_table
"a\n:-\n$$b$"
table 1
  row
    cell | a
  delimiter | :-
  row
    cell | $$b$

GFM 4.10: a row where the first leaf of its byte refuses the line | gfm | gfm_table
"a\n:-\n```b`"
table 1
  row
    cell | a
  delimiter | :-
  row
    cell | ```b`

GFM 4.10: a row where the first leaf of its byte refuses the line | gfm | gfm_table
"a\n:-\n~~b"
table 1
  row
    cell | a
  delimiter | :-
  row
    cell | ~~b

GFM 4.10: a row where the first leaf of its byte refuses the line | gfm | gfm_table
"a\n:-\n**b"
table 1
  row
    cell | a
  delimiter | :-
  row
    cell | **b

GFM 4.10: a row where the first leaf of its byte refuses the line | gfm | gfm_table
"a\n:-\n__b"
table 1
  row
    cell | a
  delimiter | :-
  row
    cell | __b

GFM 4.10: a row where the first leaf of its byte refuses the line | gfm | gfm_table
"a\n:-\n--b"
table 1
  row
    cell | a
  delimiter | :-
  row
    cell | --b

GFM 4.10: a row where the first leaf of its byte refuses the line | gfm | gfm_table
"a\n:-\n="
table 1
  row
    cell | a
  delimiter | :-
  row
    cell | =

GFM 4.10: a row where the first leaf of its byte refuses the line | gfm | gfm_table
"a\n:-\n==b"
table 1
  row
    cell | a
  delimiter | :-
  row
    cell | ==b

GFM 4.10: a row where the first leaf of its byte refuses the line | gfm | gfm_table
"a\n:-\n<"
table 1
  row
    cell | a
  delimiter | :-
  row
    cell | <

GFM 4.10: a row where the first leaf of its byte refuses the line | gfm | gfm_table
"a\n:-\n#bc"
table 1
  row
    cell | a
  delimiter | :-
  row
    cell | #bc

GFM 4.10: no underline and no break, but a delimiter row | gfm | gfm_table
"a\n-:"
table 1
  row
    cell | a
  delimiter | -:

CommonMark 4.8: none of the leaves of the row of its byte, so text | gfm | nothing
"#a\n$b\n``c\n~d\n**e\n_f\n-g\n=h\n<"
paragraph
  | #a
  | $b
  | ``c
  | ~d
  | **e
  | _f
  | -g
  | =h
  | <

own choice: a construct that is off accepts no line | commonmark | nothing
"a | b\n-|-"
paragraph
  | a | b
  | -|-

GFM 4.10 | gfm | code_indented
"a\n    b\n:-"
paragraph
  | a
  | b
  | :-
"##
}
