// The shortcut references of a text part (CommonMark 6.3), as tokens.
//
// A reference is a label between brackets that a definition of the document has, wherever that definition is:
//
//     reference ::= '[' label ']'
//     label     ::= 1*( '\' byte | byte but '[', ']' and '\' )
//
// A label is not blank and has at most 999 bytes, and it may go over the lines of a text part. It is compared in its
// normal form: so `[a B]` refers to `[A  b]: /c`. Everything else is text, brackets without a definition too.
//
// Parts: `Link` around a reference, `LabelMarker` over each bracket, `LabelText` around the label, `Data` over text.
#![tactic(auto)]

pub mod found;
mod label;
pub mod tokens;
