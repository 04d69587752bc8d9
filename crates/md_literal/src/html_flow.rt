// HTML (CommonMark 4.6), a line at a time.
//
//     html_flow   ::= small_indent begin *text *( eol *text )
//     begin       ::= raw | comment | instruction | declaration | cdata | basic | complete
//     raw         ::= '<' raw_name ( end_of_line | space_or_tab | '>' )
//     comment     ::= '<!--'
//     instruction ::= '<?'
//     declaration ::= '<!' letter
//     cdata       ::= '<![CDATA['
//     basic       ::= '<' [ '/' ] basic_name ( end_of_line | space_or_tab | '>' | '/>' )
//     complete    ::= ( opening_tag | closing_tag ) *space_or_tab end_of_line
//     opening_tag ::= '<' tag_name *attribute *space_or_tab [ '/' ] '>'
//     closing_tag ::= '</' tag_name *space_or_tab '>'
//     tag_name    ::= letter *( letter | digit | '-' )
//     attribute   ::= 1*space_or_tab name [ *space_or_tab '=' *space_or_tab value ]
//     name        ::= ( letter | '_' | ':' ) *( letter | digit | '_' | '.' | ':' | '-' )
//     value       ::= '"' *any '"' | "'" *any "'" | 1*value_byte
//
// The first five kinds end with the line that holds their end (`</pre>` or one of the like, `-->`, `?>`, `>`, `]]>`),
// which may be the first, the other two before a blank line. The last kind never begins against open text, unless the
// line is lazy.
//
// A block is read one line at a time: `start` is the first state of its first line, `continuation_start` that of each
// further line. What is kept between them is `HeldLeaf::Html`. Each line is an `HtmlFlow` of its own, a further one
// linked to the line before, around one `HtmlFlowData` over all of its rest, its indent inside; an empty line has none.
// A resolver makes one block of them.

ghost use Rattle.std.specs.Prelude.{◌≡◌, ◌≢◌, ◌<◌, IfSome, false, length};
ghost use Rattle.md_literal.specs.HtmlRule.{HtmlMeans, IsHtmlState, IsSureHtmlState};
ghost use Rattle.md_engine.specs.World.{looks, world};
ghost use Rattle.md_engine.specs.declared.state.Name.{Name as StateName};
ghost use Rattle.md_engine.specs.declared.state.State.{State};
ghost use Rattle.md_engine.specs.declared.state.html_flow.State.{State as HtmlState};
ghost use Rattle.md_literal.specs.Html.{HtmlNeeds, basic_name_code};
ghost use Rattle.md_literal.specs.Html.{complete_name_code, name_move, stop_move};
ghost use Rattle.md_literal.specs.Html.{continuation_start_non_lazy_transition};
ghost use Rattle.md_literal.specs.Html.{html_transition, is_html};
ghost use Rattle.md_literal.specs.Html.{is_open_text, may_begin, moved};
ghost use Rattle.md_events.specs.Spaces.{ends_line, is_current};
ghost use Rattle.md_events.specs.Look.{may_with};
ghost use Rattle.md_events.specs.Stays.{TakesEach};
ghost use Rattle.md_events.specs.Transition.{IsAt};

mod parts;
mod tag;

use crate::html_flow::parts::{
    begin_after, begin_here, cdata_byte, cleared, end_data, ends_in_front, is_open_text, marked,
    name_here, refuse, sees_letter, sees_tag_byte, shut, stop_of,
};
pub use crate::html_flow::tag::{
    complete_after, complete_attribute_name, complete_attribute_name_after,
    complete_attribute_name_before, complete_attribute_value_before,
    complete_attribute_value_quoted, complete_attribute_value_quoted_after,
    complete_attribute_value_unquoted, complete_closing_tag_after, complete_end,
};
use md_engine::event::Name;
use md_engine::or_error;
use md_engine::state::html_flow::State as HtmlState;
use md_engine::state::{Name as StateName, State};
use md_engine::stay::Stay;
use md_engine::tokenizer::{HeldLeaf, HtmlKind, Scratch, Tokenizer};
use md_events::space_or_tab::{is_space_or_tab, small_indent};
use md_leaves::further::FURTHER;
use md_meaning::html_names::{is_basic_name, is_raw_name};

/// Whether HTML is open.
pub fn is_html(leaf: HeldLeaf) -> bool
    ensures { result ≡ is_html leaf }
{
    matches!(leaf, HeldLeaf::Html { .. })
}

/// Whether HTML may begin here, by what is first after whitespace: `<`, if that is known.
pub fn may_begin(first: Option<u8>) -> bool
    ensures { result ≡ may_with may_begin first }
{
    matches!(first, None | Some(b'<'))
}

/// Before the first line, and its indent.
///
/// ```markdown
/// > |  <x />
///     ^
/// ```
#[inline(always)]
#[tactic(auto, using(crate::proofs::HtmlMeaning::html_rule))]
pub fn start(tokenizer: &mut Tokenizer) -> State
    requires { IsAt HtmlNeeds (StateName.HtmlFlow HtmlState.Start) (world tokenizer.old) }
    ensures { IsHtmlState HtmlState.Start (world tokenizer.old) result tokenizer.new }
{
    if !tokenizer.options.constructs.html_flow {
        return State::Nok;
    }
    or_error!(tokenizer.enter(Name::HtmlFlow));
    or_error!(tokenizer.enter(Name::HtmlFlowData));
    State::Retry(StateName::HtmlFlow(HtmlState::Indent))
}

/// In the indent, of which the columns are counted.
///
/// ```markdown
/// > |  <x />
///     ^
/// ```
#[tactic(auto, using(crate::proofs::HtmlMeaning::html_rule))]
pub fn indent(tokenizer: &mut Tokenizer) -> State
    requires { IsAt HtmlNeeds (StateName.HtmlFlow HtmlState.Indent) (world tokenizer.old) }
    ensures { IsSureHtmlState HtmlState.Indent (world tokenizer.old) result tokenizer.new }
{
    if is_space_or_tab(tokenizer.current) && tokenizer.scratch.size < small_indent(tokenizer) {
        tokenizer.consume();
        tokenizer.scratch.size += 1;
        State::Next(StateName::HtmlFlow(HtmlState::Indent))
    } else {
        tokenizer.scratch = cleared(tokenizer.scratch);
        State::Retry(StateName::HtmlFlow(HtmlState::Before))
    }
}

/// After the indent, at `<`.
///
/// ```markdown
/// > | <x />
///     ^
/// ```
#[tactic(auto, using(crate::proofs::HtmlMeaning::html_rule))]
pub fn before(tokenizer: &mut Tokenizer) -> State
    requires { IsAt HtmlNeeds (StateName.HtmlFlow HtmlState.Before) (world tokenizer.old) }
    ensures { IsSureHtmlState HtmlState.Before (world tokenizer.old) result tokenizer.new }
{
    if tokenizer.current == Some(b'<') {
        tokenizer.consume();
        State::Next(StateName::HtmlFlow(HtmlState::Open))
    } else {
        refuse(tokenizer)
    }
}

/// After `<`.
///
/// ```markdown
/// > | <x />
///      ^
/// > | <!doctype>
///      ^
/// > | <!--x-->
///      ^
/// ```
#[inline(always)]
#[tactic(auto, using(crate::proofs::HtmlMeaning::html_rule))]
pub fn open(tokenizer: &mut Tokenizer) -> State
    requires { IsAt HtmlNeeds (StateName.HtmlFlow HtmlState.Open) (world tokenizer.old) }
    ensures { IsSureHtmlState HtmlState.Open (world tokenizer.old) result tokenizer.new }
{
    match tokenizer.current {
        Some(b'!') => {
            tokenizer.consume();
            State::Next(StateName::HtmlFlow(HtmlState::DeclarationOpen))
        }
        Some(b'/') => {
            tokenizer.consume();
            State::Next(StateName::HtmlFlow(HtmlState::TagCloseStart))
        }
        Some(b'?') => begin_after(
            tokenizer,
            HtmlKind::Instruction,
            HtmlState::ContinuationDeclarationInside,
        ),
        current if sees_letter(current) => {
            tokenizer.scratch = Scratch {
                start: tokenizer.point.index,
                ..cleared(tokenizer.scratch)
            };
            State::Retry(StateName::HtmlFlow(HtmlState::TagName))
        }
        _ => refuse(tokenizer),
    }
}

/// After `<!`.
///
/// ```markdown
/// > | <!doctype>
///       ^
/// > | <!--x-->
///       ^
/// ```
#[inline(always)]
#[tactic(auto, using(crate::proofs::HtmlMeaning::html_rule))]
pub fn declaration_open(tokenizer: &mut Tokenizer) -> State
    requires { IsAt HtmlNeeds (StateName.HtmlFlow HtmlState.DeclarationOpen) (world tokenizer.old) }
    ensures { IsSureHtmlState HtmlState.DeclarationOpen (world tokenizer.old) result tokenizer.new }
{
    match tokenizer.current {
        Some(b'-') => {
            tokenizer.consume();
            State::Next(StateName::HtmlFlow(HtmlState::CommentOpenInside))
        }
        Some(b'[') => {
            tokenizer.consume();
            tokenizer.scratch = cleared(tokenizer.scratch);
            State::Next(StateName::HtmlFlow(HtmlState::CdataOpenInside))
        }
        current if sees_letter(current) => begin_after(
            tokenizer,
            HtmlKind::Declaration,
            HtmlState::Continuation,
        ),
        _ => refuse(tokenizer),
    }
}

/// After `<!-`.
///
/// ```markdown
/// > | <!--x-->
///        ^
/// ```
#[tactic(auto, using(crate::proofs::HtmlMeaning::html_rule))]
pub fn comment_open_inside(tokenizer: &mut Tokenizer) -> State
    requires { IsAt HtmlNeeds (StateName.HtmlFlow HtmlState.CommentOpenInside) (world tokenizer.old) }
    ensures { IsSureHtmlState HtmlState.CommentOpenInside (world tokenizer.old) result tokenizer.new }
{
    if tokenizer.current == Some(b'-') {
        begin_after(
            tokenizer,
            HtmlKind::Comment,
            HtmlState::ContinuationDeclarationInside,
        )
    } else {
        refuse(tokenizer)
    }
}

/// After `<![`, and some of `CDATA[`.
///
/// ```markdown
/// > | <![CDATA[x]]>
///        ^^^^^^
/// ```
#[tactic(auto, using(crate::proofs::HtmlMeaning::html_rule))]
pub fn cdata_open_inside(tokenizer: &mut Tokenizer) -> State
    requires { IsAt HtmlNeeds (StateName.HtmlFlow HtmlState.CdataOpenInside) (world tokenizer.old) }
    ensures { IsSureHtmlState HtmlState.CdataOpenInside (world tokenizer.old) result tokenizer.new }
{
    if tokenizer.current != Some(cdata_byte(tokenizer.scratch.size)) {
        refuse(tokenizer)
    } else if tokenizer.scratch.size < 5 {
        tokenizer.consume();
        tokenizer.scratch.size += 1;
        State::Next(StateName::HtmlFlow(HtmlState::CdataOpenInside))
    } else {
        begin_after(tokenizer, HtmlKind::Cdata, HtmlState::Continuation)
    }
}

/// After `</`, at a tag name.
///
/// ```markdown
/// > | </x>
///       ^
/// ```
#[tactic(auto, using(crate::proofs::HtmlMeaning::html_rule))]
pub fn tag_close_start(tokenizer: &mut Tokenizer) -> State
    requires { IsAt HtmlNeeds (StateName.HtmlFlow HtmlState.TagCloseStart) (world tokenizer.old) }
    ensures { IsSureHtmlState HtmlState.TagCloseStart (world tokenizer.old) result tokenizer.new }
{
    if sees_letter(tokenizer.current) {
        tokenizer.scratch = Scratch {
            start: tokenizer.point.index,
            seen: true,
            ..cleared(tokenizer.scratch)
        };
        State::Retry(StateName::HtmlFlow(HtmlState::TagName))
    } else {
        refuse(tokenizer)
    }
}

/// After a name of the sixth kind.
fn basic_name(tokenizer: &mut Tokenizer) -> State
    requires { (world tokenizer.old).current ≡ looks (world tokenizer.old) }
    ensures to { result ≡
        (moved (world tokenizer.old)
        (basic_name_code (world tokenizer.old).scratch (is_current 47 (world tokenizer.old).current))).to }
    ensures world { world tokenizer.new ≡
        (moved (world tokenizer.old)
        (basic_name_code (world tokenizer.old).scratch (is_current 47 (world tokenizer.old).current))).world }
{
    if tokenizer.current == Some(b'/') {
        tokenizer.consume();
        tokenizer.scratch = cleared(tokenizer.scratch);
        State::Next(StateName::HtmlFlow(HtmlState::BasicSelfClosing))
    } else {
        begin_here(tokenizer, HtmlKind::Basic, HtmlState::ContinuationClose)
    }
}

/// After a name of no other kind.
fn complete_name(tokenizer: &mut Tokenizer) -> State
    ensures to { result ≡
        (moved (world tokenizer.old)
        (complete_name_code (world tokenizer.old).scratch (world tokenizer.old).scratch.seen
        (is_open_text (world tokenizer.old).flags.leaf))).to }
    ensures world { world tokenizer.new ≡
        (moved (world tokenizer.old)
        (complete_name_code (world tokenizer.old).scratch (world tokenizer.old).scratch.seen
        (is_open_text (world tokenizer.old).flags.leaf))).world }
{
    if is_open_text(tokenizer.flags.leaf) {
        return refuse(tokenizer);
    }
    let closing = tokenizer.scratch.seen;
    tokenizer.scratch = cleared(tokenizer.scratch);
    if closing {
        State::Retry(StateName::HtmlFlow(HtmlState::CompleteClosingTagAfter))
    } else {
        State::Retry(StateName::HtmlFlow(HtmlState::CompleteAttributeNameBefore))
    }
}

/// After a whole name, of which the kind shows how to continue.
#[inline(always)]
fn name_ended(tokenizer: &mut Tokenizer) -> State
    requires { (world tokenizer.old).current ≡ looks (world tokenizer.old) }
    ensures to { result ≡ (moved (world tokenizer.old) (name_move (world tokenizer.old))).to }
    ensures world { world tokenizer.new ≡ (moved (world tokenizer.old) (name_move (world tokenizer.old))).world }
{
    let slash = tokenizer.current == Some(b'/');
    if !tokenizer.scratch.seen && !slash && is_raw_name(name_here(tokenizer)) {
        begin_here(tokenizer, HtmlKind::Raw, HtmlState::Continuation)
    } else if is_basic_name(name_here(tokenizer)) {
        basic_name(tokenizer)
    } else {
        complete_name(tokenizer)
    }
}

/// In a tag name.
///
/// ```markdown
/// > | <ab>
///      ^^
/// > | </ab>
///       ^^
/// ```
#[inline(always)]
#[tactic(auto, using(crate::proofs::HtmlMeaning::html_rule))]
pub fn tag_name(tokenizer: &mut Tokenizer) -> State
    requires { IsAt HtmlNeeds (StateName.HtmlFlow HtmlState.TagName) (world tokenizer.old) }
    ensures { IsSureHtmlState HtmlState.TagName (world tokenizer.old) result tokenizer.new }
{
    if sees_tag_byte(tokenizer.current) {
        tokenizer.consume();
        return State::Next(StateName::HtmlFlow(HtmlState::TagName));
    }
    match tokenizer.current {
        None | Some(b'\t' | b'\n' | b' ' | b'/' | b'>') => name_ended(tokenizer),
        Some(_) => refuse(tokenizer),
    }
}

/// After the slash of a tag of the sixth kind.
///
/// ```markdown
/// > | <div/>
///          ^
/// ```
#[tactic(auto, using(crate::proofs::HtmlMeaning::html_rule))]
pub fn basic_self_closing(tokenizer: &mut Tokenizer) -> State
    requires { IsAt HtmlNeeds (StateName.HtmlFlow HtmlState.BasicSelfClosing) (world tokenizer.old) }
    ensures { IsSureHtmlState HtmlState.BasicSelfClosing (world tokenizer.old) result tokenizer.new }
{
    if tokenizer.current == Some(b'>') {
        tokenizer.consume();
        tokenizer.flags.leaf = HeldLeaf::Html {
            kind: HtmlKind::Basic,
        };
        tokenizer.scratch = cleared(tokenizer.scratch);
        State::Next(StateName::HtmlFlow(HtmlState::ContinuationClose))
    } else {
        refuse(tokenizer)
    }
}

/// At the byte with which an end may begin, which is the marker.
#[inline(always)]
fn at_stop(tokenizer: &mut Tokenizer) -> State
    requires { (world tokenizer.old).point.index < length (world tokenizer.old).setting.bytes }
    ensures to { result ≡ (moved (world tokenizer.old) (stop_move (world tokenizer.old).scratch)).to }
    ensures world { world tokenizer.new ≡
        (moved (world tokenizer.old) (stop_move (world tokenizer.old).scratch)).world }
{
    let state = match tokenizer.scratch.marker {
        b'<' => HtmlState::ContinuationRawTagOpen,
        b'-' => HtmlState::ContinuationCommentInside,
        b'?' => HtmlState::ContinuationDeclarationInside,
        b']' => HtmlState::ContinuationCdataInside,
        _ => return shut(tokenizer),
    };
    tokenizer.consume();
    State::Next(StateName::HtmlFlow(state))
}

/// In a line of the first five kinds, whose end may be on it.
///
/// ```markdown
/// > | <!--xxx-->
///         ^^^
/// ```
#[inline(always)]
#[tactic(auto, using(crate::proofs::HtmlMeaning::html_rule))]
pub fn continuation(tokenizer: &mut Tokenizer) -> State
    requires { IsAt HtmlNeeds (StateName.HtmlFlow HtmlState.Continuation) (world tokenizer.old) }
    ensures { IsHtmlState HtmlState.Continuation (world tokenizer.old) result tokenizer.new }
{
    match tokenizer.current {
        None | Some(b'\n') => end_data(tokenizer),
        Some(byte) => {
            if byte == tokenizer.scratch.marker {
                at_stop(tokenizer)
            } else {
                tokenizer.consume();
                State::Next(StateName::HtmlFlow(HtmlState::Continuation))
            }
        }
    }
}

/// Before a further line, which continues the block of the line before.
///
/// ```markdown
///   | <x>
/// > | asd
///     ^
/// ```
#[inline(always)]
#[tactic(auto, using(crate::proofs::HtmlMeaning::html_rule))]
pub fn continuation_start(tokenizer: &mut Tokenizer) -> State
    requires { IsAt HtmlNeeds (StateName.HtmlFlow HtmlState.ContinuationStart) (world tokenizer.old) }
    ensures { IsHtmlState HtmlState.ContinuationStart (world tokenizer.old) result tokenizer.new }
{
    or_error!(tokenizer.enter_link(Name::HtmlFlow, FURTHER));
    if ends_in_front(tokenizer.flags.leaf) {
        or_error!(tokenizer.enter(Name::HtmlFlowData));
        State::Retry(StateName::HtmlFlow(HtmlState::BlankLineBefore))
    } else {
        State::Retry(StateName::HtmlFlow(HtmlState::ContinuationBefore))
    }
}

/// Before a further line of the first five kinds that is not lazy. The ending before it was taken by flow, so that
/// nothing is left to do here, and the line continues with `continuation_before`.
///
/// ```markdown
///   | <!--
/// > | asd
///     ^
/// ```
#[tactic(auto, using(crate::proofs::HtmlMeaning::html_rule))]
pub fn continuation_start_non_lazy(_tokenizer: &mut Tokenizer) -> State
    requires { IsAt HtmlNeeds (StateName.HtmlFlow HtmlState.ContinuationStartNonLazy) (world _tokenizer.old) }
    ensures to { result ≡ (continuation_start_non_lazy_transition (world _tokenizer.old)).to }
    ensures world { world _tokenizer.new ≡ (continuation_start_non_lazy_transition (world _tokenizer.old)).world }
    ensures rule { HtmlMeans HtmlState.ContinuationStartNonLazy (world _tokenizer.old) result (world _tokenizer.new) }
{
    State::Retry(StateName::HtmlFlow(HtmlState::ContinuationBefore))
}

/// Before a further line of the first five kinds; an empty one has no data.
///
/// ```markdown
///   | <!--
/// > | asd
///     ^
/// ```
#[tactic(auto, using(crate::proofs::HtmlMeaning::html_rule))]
pub fn continuation_before(tokenizer: &mut Tokenizer) -> State
    requires { IsAt HtmlNeeds (StateName.HtmlFlow HtmlState.ContinuationBefore) (world tokenizer.old) }
    ensures { IsHtmlState HtmlState.ContinuationBefore (world tokenizer.old) result tokenizer.new }
{
    match tokenizer.current {
        None | Some(b'\n') => State::Retry(StateName::HtmlFlow(HtmlState::ContinuationAfter)),
        Some(_) => {
            or_error!(tokenizer.enter(Name::HtmlFlowData));
            tokenizer.scratch = marked(stop_of(tokenizer.flags.leaf), tokenizer.scratch);
            State::Retry(StateName::HtmlFlow(HtmlState::Continuation))
        }
    }
}

/// In a comment, after one `-`.
///
/// ```markdown
/// > | <!--xxx-->
///             ^
/// ```
#[tactic(auto, using(crate::proofs::HtmlMeaning::html_rule))]
pub fn continuation_comment_inside(tokenizer: &mut Tokenizer) -> State
    requires { IsAt HtmlNeeds (StateName.HtmlFlow HtmlState.ContinuationCommentInside) (world tokenizer.old) }
    ensures { IsSureHtmlState HtmlState.ContinuationCommentInside (world tokenizer.old) result tokenizer.new }
{
    if tokenizer.current == Some(b'-') {
        tokenizer.consume();
        State::Next(StateName::HtmlFlow(HtmlState::ContinuationDeclarationInside))
    } else {
        State::Retry(StateName::HtmlFlow(HtmlState::Continuation))
    }
}

/// In the first kind, after `<`.
///
/// ```markdown
/// > | <script>x</script>
///               ^
/// ```
#[tactic(auto, using(crate::proofs::HtmlMeaning::html_rule))]
pub fn continuation_raw_tag_open(tokenizer: &mut Tokenizer) -> State
    requires { IsAt HtmlNeeds (StateName.HtmlFlow HtmlState.ContinuationRawTagOpen) (world tokenizer.old) }
    ensures { IsSureHtmlState HtmlState.ContinuationRawTagOpen (world tokenizer.old) result tokenizer.new }
{
    if tokenizer.current == Some(b'/') {
        tokenizer.consume();
        tokenizer.scratch.start = tokenizer.point.index;
        State::Next(StateName::HtmlFlow(HtmlState::ContinuationRawEndTag))
    } else {
        State::Retry(StateName::HtmlFlow(HtmlState::Continuation))
    }
}

/// In the first kind, after `</`, in a name.
///
/// ```markdown
/// > | <script>x</script>
///                ^^^^^^
/// ```
#[tactic(auto, using(crate::proofs::HtmlMeaning::html_rule))]
pub fn continuation_raw_end_tag(tokenizer: &mut Tokenizer) -> State
    requires { IsAt HtmlNeeds (StateName.HtmlFlow HtmlState.ContinuationRawEndTag) (world tokenizer.old) }
    ensures { IsSureHtmlState HtmlState.ContinuationRawEndTag (world tokenizer.old) result tokenizer.new }
{
    if sees_letter(tokenizer.current) {
        tokenizer.consume();
        State::Next(StateName::HtmlFlow(HtmlState::ContinuationRawEndTag))
    } else if tokenizer.current == Some(b'>') && is_raw_name(name_here(tokenizer)) {
        shut(tokenizer)
    } else {
        tokenizer.scratch = marked(tokenizer.scratch.marker, tokenizer.scratch);
        State::Retry(StateName::HtmlFlow(HtmlState::Continuation))
    }
}

/// In CDATA, after one `]`.
///
/// ```markdown
/// > | <![CDATA[x]]>
///                ^
/// ```
#[tactic(auto, using(crate::proofs::HtmlMeaning::html_rule))]
pub fn continuation_cdata_inside(tokenizer: &mut Tokenizer) -> State
    requires { IsAt HtmlNeeds (StateName.HtmlFlow HtmlState.ContinuationCdataInside) (world tokenizer.old) }
    ensures { IsSureHtmlState HtmlState.ContinuationCdataInside (world tokenizer.old) result tokenizer.new }
{
    if tokenizer.current == Some(b']') {
        tokenizer.consume();
        State::Next(StateName::HtmlFlow(HtmlState::ContinuationDeclarationInside))
    } else {
        State::Retry(StateName::HtmlFlow(HtmlState::Continuation))
    }
}

/// After all of an end but its `>`: more of the byte with which it begins may follow.
///
/// ```markdown
/// > | <!--xxx-->
///              ^
/// > | <?x?>
///         ^
/// ```
#[tactic(auto, using(crate::proofs::HtmlMeaning::html_rule))]
pub fn continuation_declaration_inside(tokenizer: &mut Tokenizer) -> State
    requires { IsAt HtmlNeeds (StateName.HtmlFlow HtmlState.ContinuationDeclarationInside) (world tokenizer.old) }
    ensures { IsSureHtmlState HtmlState.ContinuationDeclarationInside (world tokenizer.old) result tokenizer.new }
{
    if tokenizer.current == Some(b'>') {
        shut(tokenizer)
    } else if tokenizer.current == Some(tokenizer.scratch.marker) {
        tokenizer.consume();
        State::Next(StateName::HtmlFlow(HtmlState::ContinuationDeclarationInside))
    } else {
        State::Retry(StateName::HtmlFlow(HtmlState::Continuation))
    }
}

/// After an end, or in a line of the last two kinds: the rest of the line.
///
/// ```markdown
/// > | <!doctype> x
///               ^^
/// ```
#[tactic(auto, using(crate::proofs::HtmlMeaning::html_rule))]
pub fn continuation_close(tokenizer: &mut Tokenizer) -> State
    requires { IsAt HtmlNeeds (StateName.HtmlFlow HtmlState.ContinuationClose) (world tokenizer.old) }
    ensures state { IsHtmlState HtmlState.ContinuationClose (world tokenizer.old) result tokenizer.new }
    ensures in_line { ends_line (world tokenizer.old).current ≡ false → result ≢ State.Error }
{
    match tokenizer.current {
        None | Some(b'\n') => end_data(tokenizer),
        Some(_) => {
            tokenizer.consume();
            State::Next(StateName::HtmlFlow(HtmlState::ContinuationClose))
        }
    }
}

/// At the end of a line.
///
/// ```markdown
/// > | <!doctype>
///               ^
/// ```
#[tactic(auto, using(crate::proofs::HtmlMeaning::html_rule))]
pub fn continuation_after(tokenizer: &mut Tokenizer) -> State
    requires { IsAt HtmlNeeds (StateName.HtmlFlow HtmlState.ContinuationAfter) (world tokenizer.old) }
    ensures { IsHtmlState HtmlState.ContinuationAfter (world tokenizer.old) result tokenizer.new }
{
    or_error!(tokenizer.exit(Name::HtmlFlow));
    tokenizer.scratch = cleared(tokenizer.scratch);
    State::Ok
}

/// In a further line of the last two kinds that may be blank, and then is none.
///
/// ```markdown
///   | <x>
/// > |  asd
///     ^
/// ```
#[tactic(auto, using(crate::proofs::HtmlMeaning::html_rule))]
pub fn blank_line_before(tokenizer: &mut Tokenizer) -> State
    requires { IsAt HtmlNeeds (StateName.HtmlFlow HtmlState.BlankLineBefore) (world tokenizer.old) }
    ensures { IsSureHtmlState HtmlState.BlankLineBefore (world tokenizer.old) result tokenizer.new }
{
    match tokenizer.current {
        None | Some(b'\n') => refuse(tokenizer),
        Some(b'\t' | b' ') => {
            tokenizer.consume();
            State::Next(StateName::HtmlFlow(HtmlState::BlankLineBefore))
        }
        Some(_) => State::Retry(StateName::HtmlFlow(HtmlState::ContinuationClose)),
    }
}

/// What a state of HTML only takes.
pub fn takes_at_once(state: HtmlState) -> Option<Stay>
    ensures { IfSome result (λ stay. TakesEach stay (StateName.HtmlFlow state) (html_transition state)) }
{
    match state {
        HtmlState::CompleteAttributeValueQuoted | HtmlState::Continuation => Some(Stay::ToMarker),
        HtmlState::ContinuationClose => Some(Stay::Line),
        _ => None,
    }
}

/// Calls a state of HTML.
#[inline(always)]
#[tactic(auto, using(crate::proofs::HtmlMeaning::html_rule))]
pub fn call(tokenizer: &mut Tokenizer, state: HtmlState) -> State
    requires { IsAt HtmlNeeds (StateName.HtmlFlow state) (world tokenizer.old) }
    ensures { IsHtmlState state (world tokenizer.old) result tokenizer.new }
{
    match state {
        HtmlState::Start => start(tokenizer),
        HtmlState::Indent => indent(tokenizer),
        HtmlState::Before => before(tokenizer),
        HtmlState::Open => open(tokenizer),
        HtmlState::DeclarationOpen => declaration_open(tokenizer),
        HtmlState::CommentOpenInside => comment_open_inside(tokenizer),
        HtmlState::CdataOpenInside => cdata_open_inside(tokenizer),
        HtmlState::TagCloseStart => tag_close_start(tokenizer),
        HtmlState::TagName => tag_name(tokenizer),
        HtmlState::BasicSelfClosing => basic_self_closing(tokenizer),
        HtmlState::CompleteClosingTagAfter => complete_closing_tag_after(tokenizer),
        HtmlState::CompleteAttributeNameBefore => complete_attribute_name_before(tokenizer),
        HtmlState::CompleteAttributeName => complete_attribute_name(tokenizer),
        HtmlState::CompleteAttributeNameAfter => complete_attribute_name_after(tokenizer),
        HtmlState::CompleteAttributeValueBefore => complete_attribute_value_before(tokenizer),
        HtmlState::CompleteAttributeValueQuoted => complete_attribute_value_quoted(tokenizer),
        HtmlState::CompleteAttributeValueUnquoted => complete_attribute_value_unquoted(tokenizer),
        HtmlState::CompleteAttributeValueQuotedAfter => complete_attribute_value_quoted_after(
            tokenizer,
        ),
        HtmlState::CompleteEnd => complete_end(tokenizer),
        HtmlState::CompleteAfter => complete_after(tokenizer),
        HtmlState::Continuation => continuation(tokenizer),
        HtmlState::ContinuationStart => continuation_start(tokenizer),
        HtmlState::ContinuationStartNonLazy => continuation_start_non_lazy(tokenizer),
        HtmlState::ContinuationBefore => continuation_before(tokenizer),
        HtmlState::ContinuationCommentInside => continuation_comment_inside(tokenizer),
        HtmlState::ContinuationRawTagOpen => continuation_raw_tag_open(tokenizer),
        HtmlState::ContinuationRawEndTag => continuation_raw_end_tag(tokenizer),
        HtmlState::ContinuationCdataInside => continuation_cdata_inside(tokenizer),
        HtmlState::ContinuationDeclarationInside => continuation_declaration_inside(tokenizer),
        HtmlState::ContinuationClose => continuation_close(tokenizer),
        HtmlState::ContinuationAfter => continuation_after(tokenizer),
        HtmlState::BlankLineBefore => blank_line_before(tokenizer),
    }
}
