// Texts, and what they are as a quote, as an item and as a footnote definition, in four lines each.

/// Texts, and what they are as a quote, as an item and as a footnote definition, in four lines each.
pub fn rows() -> &'static str {
    r#"""
""
""
""

"\n"
"> \n"
"+ \n"
"[^x]: \n"

"a\n\nb"
"> a\n> \n> b"
"+ a\n  \n  b"
"[^x]: a\n    \n    b"

"a\n\n"
"> a\n> \n"
"+ a\n  \n"
"[^x]: a\n    \n"

"a\r\nb\r"
"> a\r\n> b\r"
"+ a\r\n  b\r"
"[^x]: a\r\n    b\r"

"a\n\rb"
"> a\n> \r> b"
"+ a\n  \r  b"
"[^x]: a\n    \r    b"

"\ta"
"> \ta"
"+ \ta"
"[^x]: \ta"

" a\n\nb"
">  a\n> \n> b"
"+  a\n  \n  b"
"[^x]:  a\n    \n    b"

"\n\na"
"> \n> \n> a"
"+ \n  \n  a"
"[^x]: \n    \n    a"

"a"
"> a"
"+ a"
"[^x]: a"

"[!NOTE]\na"
"> [!NOTE]\n> a"
"+ [!NOTE]\n  a"
"[^x]: [!NOTE]\n    a"

"\r\r\n\n\r"
"> \r> \r\n> \n> \r"
"+ \r  \r\n  \n  \r"
"[^x]: \r    \r\n    \n    \r"

"\u{feff}\u{e9}\n\0"
"> \u{feff}\u{e9}\n> \0"
"+ \u{feff}\u{e9}\n  \0"
"[^x]: \u{feff}\u{e9}\n    \0"

"\u{2028}\n\ta"
"> \u{2028}\n> \ta"
"+ \u{2028}\n  \ta"
"[^x]: \u{2028}\n    \ta"
"#
}
