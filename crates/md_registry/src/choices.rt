// The constructs that are built: the one place of the code that lists them.
//
//     container ::= block_quote | list_item | gfm_footnote_definition
//     leaf      ::= code_indented | raw_flow | html_flow | heading_atx | heading_setext
//                 | thematic_break | gfm_table
//
// What flow itself is made of (blank lines, content, whitespace) is in its own table.

ghost use Rattle.std.specs.Prelude.{◌≡◌, ◌≢◌, [], IfSome, None, OnOk, Some, false, is_err, true};
ghost use Rattle.md_engine.specs.Full.{Grown, IsFull, IsFullList, OnError};
ghost use Rattle.md_engine.specs.Scheme.{valid};
ghost use Rattle.md_containers.specs.PlainBullet.{IsPlainBullet};
ghost use Rattle.md_engine.specs.declared.tokenizer.container.name.ContainerKind.{ContainerKind};
ghost use Rattle.std.specs.Option.{is_some, option_map};
ghost use Rattle.md_engine.specs.World.{World, container_of, looks, world};
ghost use Rattle.md_engine.specs.declared.state.Name.{Name as StateName};
ghost use Rattle.md_engine.specs.declared.state.State.{State};
ghost use Rattle.md_engine.specs.declared.state.flow.State.{State as FlowState};
ghost use Rattle.md_registry.specs.LineFlags.{asking};
ghost use Rattle.md_registry.specs.Resolving.{joins_lines};
ghost use Rattle.proof_leaf_laws.specs.Headed.{heads_read};
ghost use Rattle.md_registry.specs.Registry.{bars_containers, is_common};
ghost use Rattle.md_registry.specs.Registry.{construct_transition, continues_with, asked_first, leaf};
ghost use Rattle.md_registry.specs.States.{flow_table_scheme, flow_transition};
ghost use Rattle.md_registry.specs.AtOnce.{HasPrefix, all_asked, content_alone, opens_none, prefix_taken};
ghost use Rattle.md_registry.specs.Flow.{leaf_end, row_transition, trial_code};
ghost use Rattle.md_registry.specs.Registry.{may_continue, may_open, next_opener, opener_front, openers};
ghost use Rattle.proof_frame.specs.LeafName.{LeafName};
ghost use Rattle.md_registry.specs.Registry.{front_of, next_of, opens_with, row, trials, tried_at};
ghost use Rattle.md_meaning.specs.Rest.{is_white};
ghost use Rattle.proof_literal_laws.specs.Leaf.CodeIndented.{is_code};
ghost use Rattle.md_events.specs.Look.{looks_after, may_with};
ghost use Rattle.md_events.specs.Spaces.{sees_white};
ghost use Rattle.md_events.specs.Stays.{TakesEach};

use md_containers::{block_quote, gfm_footnote_definition, list_item, plain_item};
use md_engine::class::is_white;
use md_engine::configuration::ParseOptions;
use md_engine::message::Message;
use md_engine::state::block_quote::State as QuoteState;
use md_engine::state::code_indented::State as CodeState;
use md_engine::state::document::State as DocumentState;
use md_engine::state::flow::State as FlowState;
use md_engine::state::gfm_footnote_definition::State as FootnoteState;
use md_engine::state::gfm_table::State as TableState;
use md_engine::state::heading_atx::State as HeadingState;
use md_engine::state::heading_setext::State as SetextState;
use md_engine::state::html_flow::State as HtmlState;
use md_engine::state::list_item::State as ItemState;
use md_engine::state::raw_flow::State as RawState;
use md_engine::state::thematic_break::State as BreakState;
use md_engine::state::{Name as StateName, State};
use md_engine::stay::Stay;
use md_engine::tokenizer::{Container, ContainerKind, HeldLeaf, Tokenizer};
use md_events::space_or_tab::look_after_white;
use md_leaves::{heading_atx, heading_setext, thematic_break};
use md_literal::{code_indented, html_flow, raw_flow};
use md_tables::{gfm_table, heads};

/// The state of the document before the first container that may open.
#[inline(always)]
pub fn first_opener() -> DocumentState
    ensures { result ≡ opener_front openers }
{
    DocumentState::ContainerNewBefore
}

/// The one before the next, where one of this kind does not open; after the last no container is left to try.
#[inline(always)]
pub fn next_opener(kind: ContainerKind) -> DocumentState
    ensures { result ≡ next_opener kind }
{
    match kind {
        ContainerKind::BlockQuote => DocumentState::ContainerNewBeforeNotBlockQuote,
        ContainerKind::ListItem => DocumentState::ContainerNewBeforeNotList,
        ContainerKind::GfmFootnoteDefinition => DocumentState::ContainersAfter,
    }
}

/// The last one: where none opens, it is the one that was asked last.
#[inline(always)]
pub fn last_opener() -> ContainerKind
    ensures { (w : World) → all_asked openers w ≡ asking (container_of result) w }
{
    ContainerKind::GfmFootnoteDefinition
}

/// Whether no container may open where this is, which is no whitespace and does not end the line.
#[inline(always)]
pub fn opens_none(current: Option<u8>) -> bool
    ensures { result ≡ opens_none current }
{
    match current {
        None => false,
        Some(byte) => {
            !(is_white(byte)
                || byte == b'\n'
                || block_quote::may_begin(current)
                || list_item::may_begin(current)
                || gfm_footnote_definition::may_begin(current))
        }
    }
}

/// The first leaf of the row of a byte: its first state, the state of flow after its line, and the one before the next
/// leaf of the row.
#[derive(Clone, Copy)]
pub struct FirstLeaf {
    pub start: StateName,
    pub end: FlowState,
    pub next: FlowState,
}

/// The row of a byte that is neither whitespace nor an ending, which comes first on the rest of a line.
///
/// | First byte          | Leaves, in order                                       |
/// |---------------------|--------------------------------------------------------|
/// | `#`                 | `heading_atx`, `gfm_table`, content                    |
/// | `$`, backtick, `~`  | `raw_flow`, `gfm_table`, content                       |
/// | `*`, `_`            | `thematic_break`, `gfm_table`, content                 |
/// | `-`                 | `heading_setext`, `thematic_break`, `gfm_table`, content |
/// | `=`                 | `heading_setext`, `gfm_table`, content                 |
/// | `<`                 | `html_flow`, `gfm_table`, content                      |
/// | any other           | `gfm_table`, content                                   |
#[inline(always)]
#[tactic(auto, unfolding(crate::specs::Registry::row))]
pub fn row(byte: u8) -> FirstLeaf
    ensures { (w : World) →
        row_transition (row byte) w ≡
        trial_code result.start (StateName.Flow result.end) (StateName.Flow result.next) w true }
{
    if byte == b'#' {
        FirstLeaf {
            start: StateName::HeadingAtx(HeadingState::Start),
            end: FlowState::LeafAfter,
            next: FlowState::BeforeGfmTable,
        }
    } else if byte == b'$' || byte == b'`' || byte == b'~' {
        FirstLeaf {
            start: StateName::RawFlow(RawState::Start),
            end: FlowState::After,
            next: FlowState::BeforeGfmTable,
        }
    } else if byte == b'*' || byte == b'_' {
        FirstLeaf {
            start: StateName::ThematicBreak(BreakState::Start),
            end: FlowState::LeafAfter,
            next: FlowState::BeforeGfmTable,
        }
    } else if byte == b'-' {
        FirstLeaf {
            start: StateName::HeadingSetext(SetextState::Start),
            end: FlowState::After,
            next: FlowState::BeforeThematicBreak,
        }
    } else if byte == b'=' {
        FirstLeaf {
            start: StateName::HeadingSetext(SetextState::Start),
            end: FlowState::After,
            next: FlowState::BeforeGfmTable,
        }
    } else if byte == b'<' {
        FirstLeaf {
            start: StateName::HtmlFlow(HtmlState::Start),
            end: FlowState::After,
            next: FlowState::BeforeGfmTable,
        }
    } else {
        FirstLeaf {
            start: StateName::GfmTable(TableState::Start),
            end: FlowState::After,
            next: FlowState::BeforeContent,
        }
    }
}

/// Whether the row of a byte has no leaf but the table.
#[inline(always)]
fn is_common(byte: u8) -> bool
    ensures { result ≡ is_common byte }
{
    !(byte == b'#'
        || byte == b'$'
        || byte == b'`'
        || byte == b'~'
        || byte == b'*'
        || byte == b'_'
        || byte == b'-'
        || byte == b'='
        || byte == b'<')
}

/// Whether one look shows that the rest of a line is content, where the line meets this leaf.
#[inline(always)]
pub fn content_alone(leaf: HeldLeaf, current: Option<u8>) -> bool
    ensures { result ≡ content_alone leaf current }
{
    match current {
        None => false,
        Some(byte) => {
            !(is_white(byte) || byte == b'\n')
                && is_common(byte)
                && !gfm_table::may_begin(leaf, current)
        }
    }
}

/// The state of flow before the first leaf that is tried.
#[inline(always)]
pub fn first_trial() -> FlowState
    ensures { result ≡ front_of trials }
{
    FlowState::BeforeCodeIndented
}

/// The first state of the leaf that is tried at a state of flow, if one is.
#[inline(always)]
pub fn leaf_start(state: FlowState) -> Option<StateName>
    ensures { result ≡ option_map (λ l. (leaf l).start) (tried_at state) }
{
    match state {
        FlowState::BeforeCodeIndented => Some(StateName::CodeIndented(CodeState::Start)),
        FlowState::BeforeRaw => Some(StateName::RawFlow(RawState::Start)),
        FlowState::BeforeHtml => Some(StateName::HtmlFlow(HtmlState::Start)),
        FlowState::BeforeHeadingAtx => Some(StateName::HeadingAtx(HeadingState::Start)),
        FlowState::BeforeHeadingSetext => Some(StateName::HeadingSetext(SetextState::Start)),
        FlowState::BeforeThematicBreak => Some(StateName::ThematicBreak(BreakState::Start)),
        FlowState::BeforeGfmTable => Some(StateName::GfmTable(TableState::Start)),
        _ => None,
    }
}

/// The state of flow after the line of that leaf.
#[inline(always)]
pub fn leaf_end(state: FlowState) -> FlowState
    ensures { (l : LeafName) → tried_at state ≡ Some l → result ≡ leaf_end (leaf l).ends }
{
    match state {
        FlowState::BeforeHeadingAtx | FlowState::BeforeThematicBreak => FlowState::LeafAfter,
        _ => FlowState::After,
    }
}

/// The state before the next leaf, which is tried where that one refuses the line.
#[inline(always)]
pub fn next_leaf(state: FlowState) -> FlowState
    ensures { (l : LeafName) → tried_at state ≡ Some l → result ≡ next_of l }
{
    match state {
        FlowState::BeforeCodeIndented => FlowState::BeforeRaw,
        FlowState::BeforeRaw => FlowState::BeforeHtml,
        FlowState::BeforeHtml => FlowState::BeforeHeadingAtx,
        FlowState::BeforeHeadingAtx => FlowState::BeforeHeadingSetext,
        FlowState::BeforeHeadingSetext => FlowState::BeforeThematicBreak,
        FlowState::BeforeThematicBreak => FlowState::BeforeGfmTable,
        _ => FlowState::BeforeContent,
    }
}

/// Whether that leaf may begin here, by what is first after whitespace, and by whether such is in front.
#[inline(always)]
pub fn leaf_may_begin(tokenizer: &mut Tokenizer, state: FlowState) -> bool
    ensures may { (l : LeafName) → tried_at state ≡ Some l →
        result ≡
        may_with
        ((leaf l).may_begin (world tokenizer.old).flags.leaf (sees_white (world tokenizer.old).current))
        (looks_after (world tokenizer.old)) }
    ensures same { world tokenizer.new ≡ world tokenizer.old }
{
    match state {
        FlowState::BeforeCodeIndented => may_be_indented(tokenizer),
        FlowState::BeforeRaw => raw_flow::may_begin(look_after_white(tokenizer)),
        FlowState::BeforeHtml => html_flow::may_begin(look_after_white(tokenizer)),
        FlowState::BeforeHeadingAtx => heading_atx::may_begin(look_after_white(tokenizer)),
        FlowState::BeforeHeadingSetext => heading_setext::may_begin(look_after_white(tokenizer)),
        FlowState::BeforeThematicBreak => thematic_break::may_begin(look_after_white(tokenizer)),
        FlowState::BeforeGfmTable => {
            let leaf = tokenizer.flags.leaf;
            gfm_table::may_begin(leaf, look_after_white(tokenizer))
        }
        _ => true,
    }
}

/// Whether whitespace is here, or what is here is not known yet.
#[inline(always)]
fn may_be_white(current: Option<u8>) -> bool
    ensures { result ≡ may_with is_white current }
{
    match current {
        None => true,
        Some(byte) => is_white(byte),
    }
}

/// Whether indented code may begin here: whitespace alone shows, whatever is after it.
#[inline(always)]
pub fn may_be_indented(tokenizer: &Tokenizer) -> bool
    ensures { result ≡
        may_with
        ((leaf LeafName.CodeIndented).may_begin (world tokenizer.now).flags.leaf
        (sees_white (world tokenizer.now).current))
        (looks_after (world tokenizer.now)) }
{
    may_be_white(tokenizer.current)
}

/// Whether indented code is open.
#[inline(always)]
fn is_code(held: HeldLeaf) -> bool
    ensures { result ≡ is_code held }
{
    matches!(held, HeldLeaf::Code)
}

/// The first state of a further line of the leaf that is asked first whether a line continues it.
#[inline(always)]
pub fn inside_start(held: HeldLeaf) -> Option<StateName>
    ensures { result ≡ option_map (λ l. (leaf l).start) (asked_first held) }
{
    if raw_flow::is_open(held) {
        Some(StateName::RawFlow(RawState::AtNonLazyBreak))
    } else if html_flow::is_html(held) {
        Some(StateName::HtmlFlow(HtmlState::ContinuationStart))
    } else if is_code(held) {
        Some(StateName::CodeIndented(CodeState::FurtherStart))
    } else {
        None
    }
}

/// Whether there is such a leaf.
#[inline(always)]
pub fn continues_inside(leaf: HeldLeaf) -> bool
    ensures { result ≡ is_some (asked_first leaf) }
{
    inside_start(leaf).is_some()
}

/// Whether no container opens in this leaf, where all containers continued.
#[inline(always)]
#[tactic(auto, unfolding(crate::specs::Registry::bars_containers))]
pub fn bars_containers(leaf: HeldLeaf) -> bool
    ensures { result ≡ bars_containers leaf }
{
    raw_flow::is_open(leaf) || html_flow::is_html(leaf)
}

/// The state of a container where it may open.
#[inline(always)]
pub fn opens_with(kind: ContainerKind) -> StateName
    ensures { result ≡ opens_with kind }
{
    match kind {
        ContainerKind::BlockQuote => StateName::BlockQuote(QuoteState::Start),
        ContainerKind::ListItem => StateName::ListItem(ItemState::Start),
        ContainerKind::GfmFootnoteDefinition => {
            StateName::GfmFootnoteDefinition(FootnoteState::Start)
        }
    }
}

/// Whether a container may open here, by what is first after whitespace, where its kind looks at that.
#[inline(always)]
pub fn may_open(tokenizer: &mut Tokenizer, kind: ContainerKind) -> bool
    ensures may { result ≡ may_with (may_open kind) (looks_after (world tokenizer.old)) }
    ensures same { world tokenizer.new ≡ world tokenizer.old }
{
    match kind {
        ContainerKind::BlockQuote => block_quote::may_begin(look_after_white(tokenizer)),
        ContainerKind::ListItem => list_item::may_begin(look_after_white(tokenizer)),
        ContainerKind::GfmFootnoteDefinition => {
            gfm_footnote_definition::may_begin(look_after_white(tokenizer))
        }
    }
}

/// Whether the prefix of a container on a further line may begin here, by what is first after whitespace, where its
/// kind looks at that.
#[inline(always)]
pub fn may_continue(tokenizer: &mut Tokenizer, kind: ContainerKind) -> bool
    ensures may { result ≡ may_with (may_continue kind) (looks_after (world tokenizer.old)) }
    ensures same { world tokenizer.new ≡ world tokenizer.old }
{
    match kind {
        ContainerKind::BlockQuote => block_quote::may_begin(look_after_white(tokenizer)),
        ContainerKind::ListItem | ContainerKind::GfmFootnoteDefinition => true,
    }
}

/// Whether the prefix of a container on a further line is here, so that it can be taken at once.
pub fn has_plain_prefix(container: Container, tokenizer: &mut Tokenizer) -> bool
    ensures has { result ≡ true → HasPrefix container container.kind (world tokenizer.old) }
    ensures same { world tokenizer.new ≡ world tokenizer.old }
{
    match container.kind {
        ContainerKind::BlockQuote => block_quote::is_plain_prefix(tokenizer),
        ContainerKind::ListItem | ContainerKind::GfmFootnoteDefinition => {
            plain_item::is_plain_indent(tokenizer, container)
        }
    }
}

/// Takes that of the one that is asked, as its states do, and sees what follows it.
#[inline(always)]
pub fn take_plain_prefix(tokenizer: &mut Tokenizer) -> Result<(), Message>
    requires { HasPrefix (world tokenizer.old).flags.asked (world tokenizer.old).flags.asked.kind
        (world tokenizer.old) }
    ensures world { OnOk result
        (world tokenizer.new ≡
        prefix_taken (world tokenizer.old).flags.asked (world tokenizer.old).flags.asked.kind
        (world tokenizer.old)) }
    ensures full { is_err result ≡ true → IsFullList Grown.Events tokenizer.new }
{
    match tokenizer.flags.asked.kind {
        ContainerKind::BlockQuote => block_quote::take_plain_prefix(tokenizer),
        ContainerKind::ListItem | ContainerKind::GfmFootnoteDefinition => {
            plain_item::take_plain_indent(tokenizer)
        }
    }
}

/// Whether a container opens here with a first prefix that can be taken at once.
#[inline(always)]
pub fn opens_plainly(tokenizer: &Tokenizer) -> bool
    ensures { result ≡ true → IsPlainBullet (world tokenizer.now) }
{
    plain_item::is_plain_bullet(tokenizer)
}

/// The kind of that container.
#[inline(always)]
pub fn plain_opener() -> ContainerKind
    ensures { result ≡ ContainerKind.ListItem }
{
    ContainerKind::ListItem
}

/// The state before the prefix of a container on a further line. That of a footnote definition is an indent, as an
/// item's.
pub fn continues_with(kind: ContainerKind) -> StateName
    ensures { result ≡ continues_with kind }
{
    match kind {
        ContainerKind::BlockQuote => StateName::BlockQuote(QuoteState::ContStart),
        ContainerKind::ListItem | ContainerKind::GfmFootnoteDefinition => {
            StateName::ListItem(ItemState::ContStart)
        }
    }
}

/// Whether a leaf of several lines may be on, so that its lines are joined.
#[inline(always)]
#[tactic(auto, unfolding(crate::specs::Resolving::joins_lines))]
pub fn joins_lines(options: &ParseOptions) -> bool
    ensures { result ≡ joins_lines options.now }
{
    options.constructs.code_fenced
        || options.constructs.math_flow
        || options.constructs.code_indented
        || options.constructs.html_flow
        || options.constructs.gfm_table
}

/// Reads lines of text again that are heads of tables, before content is read.
///
/// An `Err` says that memory ran out.
pub fn read_heads(tokenizer: &mut Tokenizer) -> Result<(), Message>
    requires { (world tokenizer.old).frames ≡ [] }
    ensures { OnOk result
        (world tokenizer.new ≡
        record (world tokenizer.old) {
          events =
              heads_read (world tokenizer.old).setting.options (world tokenizer.old).setting.bytes
              (world tokenizer.old).events;
        }) }
{
    if tokenizer.options.constructs.gfm_table {
        heads::resolve(tokenizer)?;
    }
    Ok(())
}

/// Calls a state of a construct.
#[inline(always)]
pub fn call(tokenizer: &mut Tokenizer, name: StateName) -> State
    requires current { (world tokenizer.old).current ≡ looks (world tokenizer.old) }
    requires valid { valid flow_table_scheme (world tokenizer.old) (State.Next name) }
    ensures to { result ≢ State.Error →
        result ≡
        (construct_transition name
        (world tokenizer.old)).to }
    ensures world { result ≢ State.Error →
        world tokenizer.new ≡
        (construct_transition name
        (world tokenizer.old)).world }
    ensures full { OnError result (IsFull tokenizer.new) }
{
    match name {
        StateName::BlockQuote(state) => block_quote::call(tokenizer, state),
        StateName::CodeIndented(state) => code_indented::call(tokenizer, state),
        StateName::GfmFootnoteDefinition(state) => gfm_footnote_definition::call(tokenizer, state),
        StateName::GfmTable(state) => gfm_table::call(tokenizer, state),
        StateName::HeadingAtx(state) => heading_atx::call(tokenizer, state),
        StateName::HeadingSetext(state) => heading_setext::call(tokenizer, state),
        StateName::HtmlFlow(state) => html_flow::call(tokenizer, state),
        StateName::ListItem(state) => list_item::call(tokenizer, state),
        StateName::RawFlow(state) => raw_flow::call(tokenizer, state),
        StateName::ThematicBreak(state) => thematic_break::call(tokenizer, state),
        _ => State::Nok,
    }
}

/// What a state of a construct only takes and counts.
pub fn takes_at_once(name: StateName) -> Option<Stay>
    ensures { IfSome result (λ stay. TakesEach stay name (flow_transition name)) }
{
    match name {
        StateName::CodeIndented(state) => code_indented::takes_at_once(state),
        StateName::GfmTable(state) => gfm_table::takes_at_once(state),
        StateName::HeadingAtx(state) => heading_atx::takes_at_once(state),
        StateName::HeadingSetext(state) => heading_setext::takes_at_once(state),
        StateName::HtmlFlow(state) => html_flow::takes_at_once(state),
        StateName::ListItem(state) => list_item::takes_at_once(state),
        StateName::RawFlow(state) => raw_flow::takes_at_once(state),
        StateName::ThematicBreak(state) => thematic_break::takes_at_once(state),
        _ => None,
    }
}
