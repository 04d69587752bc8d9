// The document: what is before its lines, and the containers of each.
//
//     document ::= [ byte_order_mark ] [ frontmatter line_ending ] line *( line_ending line )
//     line     ::= *prefix *container flow
//
// Its table takes the mark and the frontmatter, if they are there. The lines that follow are read by the table of flow,
// which has the states of containers too. On each line the containers that are open are asked from the outermost in
// whether they continue, then others may open, and flow reads the rest of the line. Only then is it known whether the
// line continues the open paragraph, so that all containers stay open although not all continued (CommonMark 5.1,
// "laziness"). Else those that did not continue end: their ends are put where the line before ended, before its ending.
// Where nothing is left of a line no container is asked, and none opens: what is held of each shows whether it
// continues there.

ghost use Rattle.std.specs.Prelude.{◌≡◌, ◌≢◌, ◌<◌, length, true};
ghost use Rattle.md_engine.specs.Full.{IsFull, OnError};
ghost use Rattle.md_engine.specs.Scheme.{valid};
ghost use Rattle.md_engine.specs.World.{looks, world};
ghost use Rattle.md_engine.specs.declared.state.Name.{Name as StateName};
ghost use Rattle.md_engine.specs.declared.state.State.{State};
ghost use Rattle.md_engine.specs.declared.state.document.State.{State as DocumentState};
ghost use Rattle.md_registry.specs.Flow.{following_all};
ghost use Rattle.md_registry.specs.Flow.{new_before_transition};
ghost use Rattle.proof_frame.specs.EndingName.{ending_name};
ghost use Rattle.md_registry.specs.LineFlags.{asking, begun_line, ended_on, next_container, kept_containers};
ghost use Rattle.md_registry.specs.Registry.{bars_containers};
ghost use Rattle.md_engine.specs.declared.resolve.name.Name.{Name as ResolveName};
ghost use Rattle.proof_frame.specs.HeldLeaf.{lazy_of, takes_lazy};
ghost use Rattle.md_registry.specs.Document.{none_opens_transition};
ghost use Rattle.md_registry.specs.Document.{document_table_scheme, document_transition};
ghost use Rattle.md_events.specs.Transition.{IsAt, NeedsNothing, taken};
ghost use Rattle.md_registry.specs.Flow.{opener_transition};
ghost use Rattle.md_registry.specs.FlowRule.{DocumentMeans, IsContainersState, IsDocumentState};
ghost use Rattle.md_registry.specs.FlowRule.{IsSureDocumentState};
ghost use Rattle.md_registry.specs.Registry.{opener_at};
ghost use Rattle.md_flow.specs.Calls.{AskedLine, OpenLine};

use crate::resolve;
use md_containers::frontmatter;
use md_engine::event::{Name, Point};
use md_engine::message::Message;
use md_engine::or_error;
use md_engine::resolve::Name as ResolveName;
use md_engine::state::bom::State as BomState;
use md_engine::state::document::State as DocumentState;
use md_engine::state::flow::State as FlowState;
use md_engine::state::frontmatter::State as FrontState;
use md_engine::state::{Name as StateName, State};
use md_engine::stay::Stay;
use md_engine::subtokenize::Subresult;
use md_engine::table::Table;
use md_engine::tokenizer::{Container, ContainerKind, Flags, HeldLeaf, Tokenizer};
use md_events::parts::add_part;
use md_events::space_or_tab;
use md_leaves::blank_line::ends_line;
use md_leaves::partial_bom;
use md_registry::choices;

/// At the start of the text: before a byte order mark, if there is one.
///
/// ```markdown
/// > | a
///     ^
/// ```
#[tactic(auto, using(md_registry::proofs::FlowSteps::document_rule))]
pub fn start(tokenizer: &mut Tokenizer) -> State
    requires { IsAt NeedsNothing (StateName.Document DocumentState.Start) (world tokenizer.old) }
    ensures { IsDocumentState DocumentState.Start (world tokenizer.old) result tokenizer.new }
{
    or_error!(tokenizer.attempt(
        State::Next(StateName::Document(DocumentState::BeforeFrontmatter)),
        State::Next(StateName::Document(DocumentState::BeforeFrontmatter))
    ));
    State::Retry(StateName::Bom(BomState::Start))
}

/// After the mark: before frontmatter, if there is some. The lines of the text begin after it.
///
/// ```markdown
/// > | ---
///     ^
///   | a: b
///   | ---
/// ```
#[tactic(auto, using(md_registry::proofs::FlowSteps::document_rule))]
pub fn before_frontmatter(tokenizer: &mut Tokenizer) -> State
    requires { IsAt NeedsNothing (StateName.Document DocumentState.BeforeFrontmatter) (world tokenizer.old) }
    ensures { IsDocumentState DocumentState.BeforeFrontmatter (world tokenizer.old) result tokenizer.new }
{
    or_error!(tokenizer.attempt(State::Ok, State::Ok));
    State::Retry(StateName::Frontmatter(FrontState::Start))
}

/// The outermost container that was not asked yet whether it continues.
pub fn next_container(tokenizer: &Tokenizer) -> Option<Container>
    ensures { result ≡ next_container (world tokenizer.now).flags }
{
    tokenizer.containers.get(tokenizer.flags.continued).copied()
}

/// A container is asked whether it continues, or tried, where the tokenizer is.
pub fn ask(tokenizer: &mut Tokenizer, container: Container)
    ensures { world tokenizer.new ≡ asking container (world tokenizer.old) }
{
    tokenizer.flags.asked = container;
    tokenizer.flags.asked_column = tokenizer.point.column;
}

/// Where the line ends no container is asked: those continue that take nothing of it.
#[inline(always)]
fn pass_over(tokenizer: &mut Tokenizer)
    ensures { world tokenizer.new ≡ record (world tokenizer.old) { flags = ended_on (world tokenizer.old).flags } }
{
    let continued = tokenizer.flags.continued;
    if continued < tokenizer.containers.len() {
        tokenizer.flags.continued = tokenizer.over_end(continued);
    }
}

/// The state where all containers continued: none is tried where a leaf is open in which none opens.
#[inline(always)]
fn following_all(tokenizer: &Tokenizer) -> DocumentState
    ensures { result ≡ following_all (bars_containers (world tokenizer.now).flags.leaf) }
{
    if choices::bars_containers(tokenizer.flags.leaf) {
        DocumentState::ContainersAfter
    } else {
        choices::first_opener()
    }
}

/// At the begin of a line, or after the prefix of a container that continued: before the next one that is open.
///
/// ```markdown
///   | > a
/// > | > b
///     ^
/// ```
#[inline(always)]
#[tactic(auto, using(md_registry::proofs::FlowSteps::document_rule), unfolding(md_events::specs::Look::looks_after))]
pub fn container_existing_before(tokenizer: &mut Tokenizer) -> State
    requires { IsAt NeedsNothing (StateName.Document DocumentState.ContainerExistingBefore) (world tokenizer.old) }
    ensures { IsDocumentState DocumentState.ContainerExistingBefore (world tokenizer.old) result tokenizer.new }
{
    if ends_line(tokenizer.current) {
        pass_over(tokenizer);
        return State::Retry(StateName::Document(DocumentState::ContainersAfter));
    }
    match next_container(tokenizer) {
        None => State::Retry(StateName::Document(following_all(tokenizer))),
        Some(container) => {
            ask(tokenizer, container);
            if !choices::may_continue(tokenizer, container.kind) {
                return State::Retry(StateName::Document(choices::first_opener()));
            }
            or_error!(tokenizer.attempt(
                State::Next(StateName::Document(DocumentState::ContainerExistingAfter)),
                State::Next(StateName::Document(choices::first_opener()))
            ));
            State::Retry(choices::continues_with(container.kind))
        }
    }
}

/// After the prefix of a container that continued.
///
/// ```markdown
///   | > a
/// > | > b
///       ^
/// ```
#[tactic(auto, using(md_registry::proofs::FlowSteps::document_rule))]
pub fn container_existing_after(tokenizer: &mut Tokenizer) -> State
    requires { IsAt NeedsNothing (StateName.Document DocumentState.ContainerExistingAfter) (world tokenizer.old) }
    ensures { IsSureDocumentState DocumentState.ContainerExistingAfter (world tokenizer.old) result tokenizer.new }
{
    let Flags {
        asked,
        continued,
        ..
    } = tokenizer.flags;
    if continued < tokenizer.containers.len() {
        tokenizer.set_container(continued, asked);
        tokenizer.flags.continued = continued + 1;
    }
    State::Retry(StateName::Document(DocumentState::ContainerExistingBefore))
}

/// Before a block quote that may open.
///
/// ```markdown
/// > | > a
///     ^
/// ```
#[inline(always)]
#[tactic(auto, using(md_registry::proofs::FlowSteps::document_rule))]
pub fn container_new_before(tokenizer: &mut Tokenizer) -> State
    requires { IsAt NeedsNothing (StateName.Document DocumentState.ContainerNewBefore) (world tokenizer.old) }
    ensures { IsDocumentState DocumentState.ContainerNewBefore (world tokenizer.old) result tokenizer.new }
{
    try_new(tokenizer, ContainerKind::BlockQuote)
}

/// Before a list item that may open.
///
/// ```markdown
/// > | * a
///     ^
/// ```
#[inline(always)]
#[tactic(auto, using(md_registry::proofs::FlowSteps::document_rule))]
pub fn container_new_before_not_block_quote(tokenizer: &mut Tokenizer) -> State
    requires { IsAt NeedsNothing (StateName.Document DocumentState.ContainerNewBeforeNotBlockQuote)
        (world tokenizer.old) }
    ensures { IsDocumentState DocumentState.ContainerNewBeforeNotBlockQuote (world tokenizer.old) result tokenizer.new }
{
    try_new(tokenizer, ContainerKind::ListItem)
}

/// Before a footnote definition that may open.
///
/// ```markdown
/// > | [^a]: b
///     ^
/// ```
#[inline(always)]
#[tactic(auto, using(md_registry::proofs::FlowSteps::document_rule))]
pub fn container_new_before_not_list(tokenizer: &mut Tokenizer) -> State
    requires { IsAt NeedsNothing (StateName.Document DocumentState.ContainerNewBeforeNotList) (world tokenizer.old) }
    ensures { IsDocumentState DocumentState.ContainerNewBeforeNotList (world tokenizer.old) result tokenizer.new }
{
    try_new(tokenizer, ContainerKind::GfmFootnoteDefinition)
}

/// After all containers that may open, where none does: all containers of the line are known.
///
/// ```markdown
/// > | a
///     ^
/// ```
#[tactic(auto, using(md_registry::proofs::FlowSteps::document_rule))]
pub fn container_new_before_not_footnote_definition(_tokenizer: &mut Tokenizer) -> State
    requires { IsAt NeedsNothing (StateName.Document DocumentState.ContainerNewBeforeNotFootnoteDefinition)
        (world _tokenizer.old) }
    ensures to { result ≡ (none_opens_transition (world _tokenizer.old)).to }
    ensures world { world _tokenizer.new ≡ (none_opens_transition (world _tokenizer.old)).world }
    ensures rule { DocumentMeans DocumentState.ContainerNewBeforeNotFootnoteDefinition (world _tokenizer.old) result
        (world _tokenizer.new) }
{
    State::Retry(StateName::Document(DocumentState::ContainersAfter))
}

/// Calls the state of the document before a container that may open; those of containers that are not built refuse.
#[inline(always)]
pub fn before_opener(tokenizer: &mut Tokenizer, state: DocumentState) -> State
    requires { IsAt NeedsNothing (StateName.Document state) (world tokenizer.old) }
    ensures to { result ≢ State.Error → result ≡ (opener_transition (opener_at state) (world tokenizer.old)).to }
    ensures world { result ≢ State.Error →
        world tokenizer.new ≡ (opener_transition (opener_at state) (world tokenizer.old)).world }
    ensures full { OnError result (IsFull tokenizer.new) }
{
    match state {
        DocumentState::ContainerNewBefore => container_new_before(tokenizer),
        DocumentState::ContainerNewBeforeNotBlockQuote => {
            container_new_before_not_block_quote(tokenizer)
        }
        DocumentState::ContainerNewBeforeNotList => container_new_before_not_list(tokenizer),
        _ => State::Nok,
    }
}

/// Before a container of a kind that may open: where it does not, the next kind is tried.
#[inline(always)]
#[tactic(auto, unfolding(md_events::specs::Look::looks_after))]
pub(crate) fn try_new(tokenizer: &mut Tokenizer, kind: ContainerKind) -> State
    ensures to { result ≢ State.Error → result ≡ (new_before_transition kind (world tokenizer.old)).to }
    ensures world { result ≢ State.Error →
        world tokenizer.new ≡ (new_before_transition kind (world tokenizer.old)).world }
    ensures full { OnError result (IsFull tokenizer.new) }
{
    ask(tokenizer, Container::new(kind));
    if !choices::may_open(tokenizer, kind) {
        return State::Retry(StateName::Document(choices::next_opener(kind)));
    }
    or_error!(tokenizer.attempt(
        State::Next(StateName::Document(DocumentState::ContainerNewAfter)),
        State::Next(StateName::Document(choices::next_opener(kind)))
    ));
    State::Retry(choices::opens_with(kind))
}

/// After the first prefix of a container that opens: those that did not continue end before it.
///
/// ```markdown
/// > | > a
///       ^
/// ```
#[tactic(auto, using(md_registry::proofs::FlowSteps::document_rule))]
pub fn container_new_after(tokenizer: &mut Tokenizer) -> State
    requires { IsAt NeedsNothing (StateName.Document DocumentState.ContainerNewAfter) (world tokenizer.old) }
    ensures { IsContainersState DocumentState.ContainerNewAfter (world tokenizer.old) result tokenizer.new }
{
    let Flags {
        asked,
        continued,
        line_end,
        ..
    } = tokenizer.flags;
    or_error!(tokenizer.close(continued, line_end));
    or_error!(tokenizer.open(asked));
    tokenizer.flags.continued = tokenizer.containers.len();
    tokenizer.flags.leaf = HeldLeaf::None;
    State::Retry(StateName::Document(choices::first_opener()))
}

/// After all containers of a line.
///
/// ```markdown
/// > | > a
///       ^
/// ```
#[inline(always)]
#[tactic(auto, using(md_registry::proofs::FlowSteps::document_rule, crate::proofs::LineRule::Calls::open_line))]
pub fn containers_after(tokenizer: &mut Tokenizer) -> State
    requires { IsAt NeedsNothing (StateName.Document DocumentState.ContainersAfter) (world tokenizer.old) }
    ensures state { IsSureDocumentState DocumentState.ContainersAfter (world tokenizer.old) result tokenizer.new }
    ensures line { OpenLine (world tokenizer.old) result (world tokenizer.new) }
{
    begin_line(tokenizer);
    if choices::continues_inside(tokenizer.flags.leaf) {
        State::Retry(StateName::Document(DocumentState::FlowInside))
    } else {
        State::Retry(StateName::Flow(FlowState::Start))
    }
}

/// After all containers of a line, where a leaf is open that is asked first whether the line continues it. It may do so
/// over a line on which nothing is, no prefix either, whose ending is that of a blank line.
///
/// ```markdown
///   | ~~~
/// > | a
///     ^
/// ```
#[tactic(auto, using(md_registry::proofs::FlowSteps::document_rule, crate::proofs::LineRule::Calls::asked_line))]
pub fn flow_inside(tokenizer: &mut Tokenizer) -> State
    requires { IsAt NeedsNothing (StateName.Document DocumentState.FlowInside) (world tokenizer.old) }
    ensures state { IsDocumentState DocumentState.FlowInside (world tokenizer.old) result tokenizer.new }
    ensures line { result ≢ State.Error → AskedLine (world tokenizer.old) result (world tokenizer.new) }
{
    match choices::inside_start(tokenizer.flags.leaf) {
        None => State::Retry(StateName::Flow(FlowState::Start)),
        Some(start) => {
            tokenizer.flags.blank = ends_line(tokenizer.current) && tokenizer.point.column == 1;
            or_error!(tokenizer.attempt(
                State::Next(StateName::Flow(FlowState::After)),
                State::Next(StateName::Flow(FlowState::Start))
            ));
            State::Retry(start)
        }
    }
}

/// Keeps the leaf that is open after the containers of a line, and what the line meets of it.
#[inline(always)]
pub fn begin_line(tokenizer: &mut Tokenizer)
    ensures { world tokenizer.new ≡ record (world tokenizer.old) { flags = begun_line (world tokenizer.old).flags } }
{
    let all = !(tokenizer.flags.continued < tokenizer.containers.len());
    tokenizer.flags.leaf_before = tokenizer.flags.leaf;
    if !all {
        tokenizer.flags.leaf = lazy_of(tokenizer.flags.leaf);
    }
}

/// A leaf as a lazy line meets it.
#[inline(always)]
fn lazy_of(leaf: HeldLeaf) -> HeldLeaf
    ensures { result ≡ lazy_of leaf }
{
    match leaf {
        HeldLeaf::Text(at) | HeldLeaf::LazyText(at) => HeldLeaf::LazyText(at),
        _ => HeldLeaf::None,
    }
}

/// Whether a line that starts no other leaf continues this one, although not all containers continued (CommonMark 5.1,
/// "laziness").
#[inline(always)]
fn takes_lazy(leaf: HeldLeaf) -> bool
    ensures { result ≡ takes_lazy leaf }
{
    match leaf {
        HeldLeaf::Text(_) | HeldLeaf::LazyText(_) => true,
        _ => false,
    }
}

/// How many containers are still open after a line: all of them if it continues the open text, else those that
/// continued.
#[inline(always)]
fn kept_containers(tokenizer: &Tokenizer) -> usize
    ensures { result ≡ kept_containers (world tokenizer.now).flags }
{
    if takes_lazy(tokenizer.flags.leaf_before) && takes_lazy(tokenizer.flags.leaf) {
        tokenizer.containers.len()
    } else {
        tokenizer.flags.continued
    }
}

/// What the ending of a line is called.
#[inline(always)]
fn ending_name(blank: bool) -> Name
    ensures { result ≡ ending_name blank }
{
    if blank {
        Name::BlankLineEnding
    } else {
        Name::LineEnding
    }
}

/// Takes the line ending at the point. Most are LF, and no line begins after a prefix that is known.
#[inline(always)]
fn take_ending(tokenizer: &mut Tokenizer)
    requires { (world tokenizer.old).point.index < length (world tokenizer.old).setting.bytes }
    ensures { world tokenizer.new ≡ taken (world tokenizer.old) }
{
    let Point { line, index, .. } = tokenizer.point;
    if tokenizer.bytes[index] != b'\n' || !tokenizer.skips.is_empty() {
        tokenizer.consume();
        return;
    }
    tokenizer.point = Point {
        line: line + 1,
        column: 1,
        index: index + 1,
        vs: 0,
    };
}

/// After the leaf of a line, at its ending or the end of the text: containers end that did not continue, unless the
/// line continues the open paragraph; at the end of the text all do.
///
/// ```markdown
/// > | > a
///        ^
/// ```
#[inline(always)]
#[tactic(auto, using(md_registry::proofs::FlowSteps::document_rule))]
pub fn flow_end(tokenizer: &mut Tokenizer) -> State
    requires { IsAt NeedsNothing (StateName.Document DocumentState.FlowEnd) (world tokenizer.old) }
    ensures { IsContainersState DocumentState.FlowEnd (world tokenizer.old) result tokenizer.new }
{
    let keep = kept_containers(tokenizer);
    let line_end = tokenizer.flags.line_end;
    or_error!(tokenizer.close(keep, line_end));
    let len = tokenizer.events.len();
    match tokenizer.current {
        None => {
            or_error!(tokenizer.close(0, len));
            State::Ok
        }
        Some(b'\n') => {
            let name = ending_name(tokenizer.flags.blank);
            let point = tokenizer.point;
            take_ending(tokenizer);
            let following = tokenizer.point;
            or_error!(add_part(tokenizer, name, None, point, following));
            tokenizer.flags.blank = false;
            tokenizer.flags.continued = 0;
            tokenizer.flags.line_end = len;
            State::Next(StateName::Document(DocumentState::ContainerExistingBefore))
        }
        _ => State::Nok,
    }
}

/// Calls a state of the document: before its lines, or between the containers of a line.
#[inline(always)]
#[tactic(auto, using(md_registry::proofs::FlowSteps::document_rule))]
pub fn call(tokenizer: &mut Tokenizer, state: DocumentState) -> State
    requires { IsAt NeedsNothing (StateName.Document state) (world tokenizer.old) }
    ensures { IsContainersState state (world tokenizer.old) result tokenizer.new }
{
    match state {
        DocumentState::Start => start(tokenizer),
        DocumentState::BeforeFrontmatter => before_frontmatter(tokenizer),
        DocumentState::ContainerExistingBefore => container_existing_before(tokenizer),
        DocumentState::ContainerExistingAfter => container_existing_after(tokenizer),
        DocumentState::ContainerNewAfter => container_new_after(tokenizer),
        DocumentState::ContainersAfter => containers_after(tokenizer),
        DocumentState::FlowInside => flow_inside(tokenizer),
        DocumentState::FlowEnd => flow_end(tokenizer),
        DocumentState::ContainerNewBeforeNotFootnoteDefinition => {
            container_new_before_not_footnote_definition(tokenizer)
        }
        _ => before_opener(tokenizer, state),
    }
}

/// Calls a state of the table.
fn call_state(tokenizer: &mut Tokenizer, name: StateName) -> State
    requires current { (world tokenizer.old).current ≡ looks (world tokenizer.old) }
    requires valid { valid document_table_scheme (world tokenizer.old) (State.Next name) }
    ensures to { result ≢ State.Error → result ≡ (document_transition name (world tokenizer.old)).to }
    ensures world { result ≢ State.Error →
        world tokenizer.new ≡ (document_transition name (world tokenizer.old)).world }
{
    match name {
        StateName::Bom(state) => partial_bom::call(tokenizer, state),
        StateName::Frontmatter(state) => frontmatter::call(tokenizer, state),
        StateName::SpaceOrTab(state) => space_or_tab::call(tokenizer, state),
        StateName::Document(state) => call(tokenizer, state),
        _ => State::Nok,
    }
}

/// The states of the document.
pub struct DocumentTable;

impl Table for DocumentTable {
    ghost use Rattle.proof_frame.specs.HeldLeaf.{lazy_of, takes_lazy};
    ghost use Rattle.md_registry.specs.Document.{DocumentStep};
    ghost use Rattle.md_registry.specs.Resolving.{resolved_as};

    ghost step = { DocumentStep };

    ghost scheme = { document_table_scheme };

    ghost resolves = { resolved_as };

    fn call(tokenizer: &mut Tokenizer, name: StateName) -> State {
        call_state(tokenizer, name)
    }

    fn takes_at_once(name: StateName) -> Option<Stay> {
        match name {
            StateName::Frontmatter(state) => frontmatter::takes_at_once(state),
            _ => None,
        }
    }

    fn resolve(tokenizer: &mut Tokenizer, name: ResolveName) -> Result<Option<Subresult>, Message> {
        resolve::call(tokenizer, name)
    }
}
