// Rows on fenced code and math (CommonMark 4.5).

/// Rows on fenced code and math (CommonMark 4.5).
pub fn rows() -> &'static str {
    r##"CommonMark 4.5 | commonmark | code_fenced
"```\n<\n >\n```"
fence `
  | <
  |  >

CommonMark 4.5 | commonmark | code_fenced
"~~~\n<\n >\n~~~"
fence ~
  | <
  |  >

CommonMark 4.5, own choice: without indented code any indent is small | exactly code_fenced
"```\na\n     ```"
fence `
  | a

CommonMark 4.5 | commonmark | nothing
"``\na\n``"
paragraph
  | ``
  | a
  | ``

CommonMark 4.5 | commonmark | code_fenced
"```\na\n~~~\n```"
fence `
  | a
  | ~~~

CommonMark 4.5 | commonmark | code_fenced
"~~~\na\n```\n~~~"
fence ~
  | a
  | ```

CommonMark 4.5 | commonmark | code_fenced
"````\na\n```\n``````"
fence `
  | a
  | ```

CommonMark 4.5 | commonmark | code_fenced
"~~~~\na\n~~~\n~~~~"
fence ~
  | a
  | ~~~

CommonMark 4.5 | commonmark | code_fenced
"```"
fence ` open

CommonMark 4.5 | commonmark | code_fenced
"```\na\n"
fence ` open
  | a

CommonMark 4.5 | commonmark | code_fenced
"`````\n\n```\na"
fence ` open
  |\u{20}
  | ```
  | a

CommonMark 4.5 | commonmark | code_fenced
"```\n\n"
fence ` open
  |\u{20}

CommonMark 4.5 | commonmark | block_quote code_fenced
"> ```\n> a\n"
quote
  fence ` open
    | a

CommonMark 4.5 | commonmark | block_quote code_fenced
"> ```\n> \n"
quote
  fence ` open
    |\u{20}

CommonMark 4.5 | commonmark | block_quote code_fenced
"> ```\nb"
quote
  fence ` open
paragraph
  | b

CommonMark 4.5 | commonmark | block_quote code_fenced
"> ```\n> a\n\nb"
quote
  fence ` open
    | a
paragraph
  | b

CommonMark 4.5 | commonmark | block_quote code_fenced
"> ```\n\nb"
quote
  fence ` open
paragraph
  | b

CommonMark 4.5 | commonmark | list_item code_fenced
"- ```\n\nb"
list -
  item
    fence ` open
      |\u{20}
paragraph
  | b

CommonMark 4.5 | commonmark | code_fenced
"```\n\n  \n```"
fence `
  |\u{20}
  |  \u{20}

CommonMark 4.5 | commonmark | code_fenced
"```\n```"
fence `

CommonMark 4.5 | commonmark | code_fenced
" ```\n a\na\n```"
fence `
  | a
  | a

CommonMark 4.5 | commonmark | code_fenced
"  ```\na\n  a\na\n  ```"
fence `
  | a
  | a
  | a

CommonMark 4.5 | commonmark | code_fenced
"   ```\n   a\n    a\n  a\n   ```"
fence `
  | a
  |  a
  | a

CommonMark 4.5 | commonmark | code_fenced
"  ```\n   a\n ```"
fence `
  |  a

CommonMark 4.5 | commonmark | code_indented
"    ```\n    a\n    ```"
code
  | ```
  | a
  | ```

CommonMark 4.5 | commonmark | code_fenced
"   ```\na\n  ```"
fence `
  | a

CommonMark 4.5 | commonmark | code_fenced code_indented
"```\na\n    ```"
fence ` open
  | a
  |     ```

CommonMark 4.5 | commonmark | nothing
"``` ```\na"
paragraph
  | ``` ```
  | a

CommonMark 4.5 | commonmark | nothing
"``` a`b"
paragraph
  | ``` a`b

CommonMark 4.5 | commonmark | code_fenced
"~~~~~~\na\n~~~ ~~"
fence ~ open
  | a
  | ~~~ ~~

CommonMark 4.5 | commonmark | code_fenced
"a\n```\nb\n```\nc"
paragraph
  | a
fence `
  | b
paragraph
  | c

CommonMark 4.5 | commonmark | code_fenced heading_atx heading_setext
"a\n---\n~~~\nb\n~~~\n# c"
heading 2
  | a
fence ~
  | b
heading 1
  | c

CommonMark 4.5 | commonmark | code_fenced
"```ruby\ndef a\n```"
fence `
  info | ruby
  | def a

CommonMark 4.5 | commonmark | code_fenced
"~~~css\n* { color: tomato }\n~~~"
fence ~
  info | css
  | * { color: tomato }

CommonMark 4.5 | commonmark | code_fenced
"~~~~    ruby b=3 $%@#$\na\n~~~~~~~"
fence ~
  info | ruby
  meta | b=3 $%@#$
  | a

CommonMark 4.5 | commonmark | code_fenced
"~~~ a  b ~ \n~~~~"
fence ~
  info | a
  meta | b ~\u{20}

CommonMark 4.5 | commonmark | code_fenced
"````;\n````"
fence `
  info | ;

CommonMark 4.5 | commonmark | code_fenced
"~~~ aa ``` ~~~\na\n~~~"
fence ~
  info | aa
  meta | ``` ~~~
  | a

CommonMark 4.5 | commonmark | code_fenced
"~~~a~\n"
fence ~ open
  info | a~

CommonMark 4.5 | commonmark | code_fenced
"```\n``` aa\n```"
fence `
  | ``` aa

CommonMark 4.5 | commonmark | code_fenced
"```a\t b \nc"
fence ` open
  info | a
  meta | b\u{20}
  | c

CommonMark 4.5 | commonmark | code_fenced
"``` \ta \t\n"
fence ` open
  info | a

CommonMark 4.5 | commonmark | code_fenced
"``` \t\na"
fence ` open
  | a

CommonMark 4.5 | commonmark | code_fenced
"```\na\n```\t \nb"
fence `
  | a
paragraph
  | b

CommonMark 4.5 | commonmark | code_fenced
"```\r\na\r\n```\r\n"
fence `
  | a

CommonMark 4.5 | commonmark | code_fenced list_item
"- ```\n  a\n  ```"
list -
  item
    fence `
      | a

CommonMark 4.5 | commonmark | code_fenced list_item
"- ```\n a"
list -
  item
    fence ` open
paragraph
  | a

CommonMark 4.5 | commonmark | list_item code_fenced
"- ```\n  > a\n- b"
list -
  item
    fence ` open
      | > a
  item
    paragraph
      | b

CommonMark 4.5 | commonmark | block_quote code_fenced
"> ```\na\n```"
quote
  fence ` open
paragraph
  | a
fence ` open

CommonMark 4.5 | commonmark | block_quote list_item code_fenced
"> - ```\n"
quote
  list -
    item
      fence ` open

CommonMark 2.2 and 4.5 | commonmark | code_fenced
" ```\n\ta"
fence ` open
  |    a

CommonMark 2.2 and 4.5 | commonmark | block_quote code_fenced
"> ```\n>\ta"
quote
  fence ` open
    |   a

CommonMark 2.1 and 4.5 | commonmark | code_fenced
"~~~\ra\r~~~\rb"
fence ~
  | a
paragraph
  | b

CommonMark 4.5 | commonmark | code_fenced list_item
"-\n  ```\n  a"
list -
  item
    fence ` open
      | a

CommonMark 4.5 | commonmark | block_quote code_fenced list_item
"> - ~~~\n>   a\n>\n>   b\n> c"
quote
  list -
    item
      fence ~ open
        | a
        |\u{20}
        | b
  paragraph
    | c

own choice: math between dollars | all | math_flow
"$$"
math open

own choice: math between dollars | all | math_flow
"$$\na\n$$"
math
  | a

own choice: math between dollars | all | math_flow
"$$$\na\n$$\n$$$$ "
math
  | a
  | $$

own choice: math between dollars | all | math_flow
"$$\n$$ a\n```\n$$"
math
  | $$ a
  | ```

own choice: math between dollars | all | math_flow
"$$a b\n$\n$$$"
math
  meta | a b
  | $

own choice: math between dollars | all | math_flow
"  $$ \ta \n   b\nc"
math open
  meta | a\u{20}
  |  b
  | c

own choice: math between dollars | all | math_flow
"a\n$$\nb\n$$\nc"
paragraph
  | a
math
  | b
paragraph
  | c

own choice: math between dollars | all | nothing
"$\na\n$"
paragraph
  | $
  | a
  | $

own choice: math between dollars | all | nothing
"$$ a$b"
paragraph
  | $$ a$b

CommonMark 4.5 | commonmark | code_fenced
"~~~\n"
fence ~ open

CommonMark 4.5 | commonmark | code_fenced
"~~~\n~~~"
fence ~

CommonMark 4.5 | commonmark | code_fenced
"```\na\n````"
fence `
  | a

CommonMark 4.5 | commonmark | code_fenced
"```\n\n\n```\nb"
fence `
  |\u{20}
  |\u{20}
paragraph
  | b

CommonMark 4.5 | commonmark | code_fenced
"``` a b c\nd"
fence ` open
  info | a
  meta | b c
  | d

CommonMark 4.5 | commonmark | code_fenced
"~~~a \n~~~ "
fence ~
  info | a

CommonMark 4.5 and 5.1 | commonmark | block_quote code_fenced
"> ```\n> a\nb"
quote
  fence ` open
    | a
paragraph
  | b

own choice: math between dollars | all | math_flow
"$$ a b\nc\n$$"
math
  meta | a b
  | c
"##
}
