// The step of one line: what is open after it (CommonMark, appendix).

ghost use Rattle.std.specs.Prelude.{◌≡◌, ◌<◌, length, take, drop, is_some, IfOk};
ghost use Rattle.md_meaning.specs.Tree.{End};
ghost use Rattle.md_meaning.specs.State as state;
ghost use Rattle.md_meaning.specs.Leaves.{Text, is_continued, starts, table_at};
ghost use Rattle.md_meaning.specs.Step as definition;
ghost use Rattle.reference_tree.specs.Rests.{rest_meaning};
ghost use Rattle.reference_tree.specs.Held.{blocks_meaning};
ghost use Rattle.reference_tree.specs.States.{kept_meanings, leaf_meaning, spot_meaning, result_meaning, taken_meaning};
ghost use Rattle.reference_tree.specs.States.{path_meaning, within};
ghost use Rattle.reference_tree.specs.Stops.{more_text, spot_at, stopped_in};

use crate::blocks::{Blocks, push_block};
use crate::close::{close_to, shut};
use crate::containers::{continues, opens};
use crate::leaves::{Transition, is_continued, is_found, starts};
use crate::paragraph::{
    head_cells, underline_depth, underlined, with_line, with_paragraph, with_table,
};
use crate::rest::Rest;
use crate::state::{
    Frame, Innermost, Leaf, LeafResult, ParagraphContext, ParagraphLine, Path, Taken,
};
use md_engine::configuration::ParseOptions;
use md_engine::message::Message;
use md_scan::bytes::is_blank;
use md_scan::memory;
use std::alloc::Global;

/// What a leaf became, after these blocks.
fn became<'a>(here: Blocks<'a>, became: LeafResult<'a>) -> Result<Innermost<'a>, Message>
    ensures { IfOk result (λ s. spot_meaning s ≡
        definition.became (blocks_meaning here.entry) (result_meaning became.entry)) }
{
    match became {
        LeafResult::Opened(leaf) => Ok(Innermost { here, leaf }),
        LeafResult::Finished(block) => {
            let mut here = here;
            push_block(&mut here, block)?;
            Ok(Innermost {
                here,
                leaf: Leaf::None,
            })
        }
    }
}

/// A rest where no leaf is open: a blank one does nothing, and what starts no other leaf is a paragraph.
#[tactic(auto, unfolding(md_meaning::specs::Step::fresh_line))]
fn fresh_line<'a>(
    alloc: Global,
    options: &ParseOptions,
    here: Blocks<'a>,
    rest: &Rest<'a>,
) -> Result<Innermost<'a>, Message>
    ensures { IfOk result
        (λ s. spot_meaning s ≡ definition.fresh_line options.now (blocks_meaning here.entry) (rest_meaning rest.now)) }
{
    if is_blank(rest.bytes) {
        return Ok(Innermost {
            here,
            leaf: Leaf::None,
        });
    }
    match starts(alloc, options, ParagraphContext::NoText, rest)? {
        Some(started) => became(here, started),
        None => with_line(here, Vec::new(alloc), rest),
    }
}

/// A rest that is a delimiter row for the last line of a paragraph, or one more line of it.
fn table_or_text<'a>(
    alloc: Global,
    options: &ParseOptions,
    here: Blocks<'a>,
    lines: Vec<ParagraphLine<'a>>,
    rest: &Rest<'a>,
) -> Result<Innermost<'a>, Message>
    ensures { IfOk result
        (λ s.
        spot_meaning s ≡
        definition.row_or_text (blocks_meaning here.entry) (kept_meanings lines.entry.items) (rest_meaning rest.now)
        (table_at options.now (blocks_meaning here.entry) (kept_meanings lines.entry.items) (rest_meaning rest.now))) }
{
    let Some((head, earlier)) = lines.split_last() else {
        return with_line(here, lines, rest);
    };
    match head_cells(alloc, options, head, rest)? {
        Some(cells) => with_table(alloc, options, here, earlier, cells, rest),
        None => with_line(here, lines, rest),
    }
}

/// A rest that is no underline, where a paragraph is open: another leaf, a delimiter row or a line of the paragraph.
fn text_or_leaf<'a>(
    alloc: Global,
    options: &ParseOptions,
    here: Blocks<'a>,
    lines: Vec<ParagraphLine<'a>>,
    rest: &Rest<'a>,
) -> Result<Innermost<'a>, Message>
    ensures { IfOk result
        (λ s.
        spot_meaning s ≡
        definition.text_by options.now (blocks_meaning here.entry) (kept_meanings lines.entry.items)
        (rest_meaning rest.now) (starts options.now Text (rest_meaning rest.now))) }
{
    match starts(alloc, options, ParagraphContext::Text, rest)? {
        Some(started) => {
            let here = with_paragraph(alloc, options, here, lines)?;
            became(here, started)
        }
        None => table_or_text(alloc, options, here, lines, rest),
    }
}

/// A rest where a paragraph is open: a blank one closes it. Otherwise it is an underline, another leaf, a delimiter row
/// or a line of the paragraph.
#[tactic(auto, unfolding(md_meaning::specs::Step::text_line))]
fn text_line<'a>(
    alloc: Global,
    options: &ParseOptions,
    here: Blocks<'a>,
    lines: Vec<ParagraphLine<'a>>,
    rest: &Rest<'a>,
) -> Result<Innermost<'a>, Message>
    ensures { IfOk result
        (λ s.
        spot_meaning s ≡
        definition.text_line options.now (blocks_meaning here.entry) (kept_meanings lines.entry.items)
        (rest_meaning rest.now)) }
{
    if is_blank(rest.bytes) {
        let here = with_paragraph(alloc, options, here, lines)?;
        return Ok(Innermost {
            here,
            leaf: Leaf::None,
        });
    }
    if let Some(depth) = underline_depth(options, rest) {
        return underlined(alloc, options, here, lines, rest, depth);
    }
    text_or_leaf(alloc, options, here, lines, rest)
}

/// A rest where a leaf is open that is no paragraph.
fn held_line<'a>(
    alloc: Global,
    options: &ParseOptions,
    here: Blocks<'a>,
    leaf: Leaf<'a>,
    rest: &Rest<'a>,
) -> Result<Innermost<'a>, Message>
    ensures { IfOk result
        (λ s.
        spot_meaning s ≡
        definition.on_or_fresh options.now
        (spot_at (blocks_meaning here.entry) (leaf_meaning leaf.entry))
        (rest_meaning rest.now) (is_continued options.now (leaf_meaning leaf.entry) (rest_meaning rest.now))) }
{
    match is_continued(alloc, options, leaf, rest)? {
        Transition::On(proceeded) => became(here, proceeded),
        Transition::Ends(leaf) => {
            let here = shut(alloc, options, Innermost { here, leaf })?;
            fresh_line(alloc, options, here, rest)
        }
    }
}

/// A rest in the innermost container, where all containers continued and none opened.
fn leaf_line<'a>(
    alloc: Global,
    options: &ParseOptions,
    spot: Innermost<'a>,
    rest: &Rest<'a>,
) -> Result<Innermost<'a>, Message>
    ensures { IfOk result
        (λ s. spot_meaning s ≡ definition.leaf_line options.now (spot_meaning spot.entry) (rest_meaning rest.now)) }
{
    let Innermost { here, leaf } = spot;
    match leaf {
        Leaf::None => fresh_line(alloc, options, here, rest),
        Leaf::Paragraph(lines) => text_line(alloc, options, here, lines, rest),
        leaf => held_line(alloc, options, here, leaf, rest),
    }
}

/// Containers open as often as they do, each in the one before: all that are open then, and the rest in the innermost.
fn open_all<'a>(
    alloc: Global,
    options: &ParseOptions,
    frames: Vec<Frame<'a>>,
    rest: Rest<'a>,
) -> Result<(Vec<Frame<'a>>, Rest<'a>), Message>
    ensures { IfOk result
        (λ r.
        within r.0.items (state.At (definition.fresh_line options.now End (rest_meaning r.1))) ≡
        within frames.entry.items
        (definition.opened options.now (length rest.entry.bytes.now) (rest_meaning rest.entry))) }
{
    let mut frames = frames;
    let mut left = rest;
    for count in 0..rest.bytes.len() {
        let Some(next) = opens(options, false, &left) else {
            return Ok((frames, left));
        };
        memory::push(
            &mut frames,
            Frame {
                before: Blocks::new(alloc),
                container: next.container,
            },
        )?;
        left = next.rest;
    }
    Ok((frames, left))
}

/// Opens a container after these blocks, then as many more as open, each in the one before, and then a leaf.
fn enter<'a>(
    alloc: Global,
    options: &ParseOptions,
    frames: Vec<Frame<'a>>,
    here: Blocks<'a>,
    taken: Taken<'a>,
) -> Result<Path<'a>, Message>
    ensures { IfOk result
        (λ p.
        path_meaning p ≡
        within frames.entry.items
        (definition.entered options.now (blocks_meaning here.entry) (taken_meaning taken.entry))) }
{
    let mut frames = frames;
    memory::push(
        &mut frames,
        Frame {
            before: here,
            container: taken.container,
        },
    )?;
    let (frames, rest) = open_all(alloc, options, frames, taken.rest)?;
    let spot = fresh_line(alloc, options, Blocks::new(alloc), &rest)?;
    Ok(Path { frames, spot })
}

/// All containers continued.
#[tactic(auto, unfolding(md_meaning::specs::Step::all_continued))]
fn all_continued<'a>(
    alloc: Global,
    options: &ParseOptions,
    path: Path<'a>,
    rest: &Rest<'a>,
) -> Result<Path<'a>, Message>
    ensures { IfOk result
        (λ p.
        path_meaning p ≡
        within path.entry.frames.items
        (definition.all_continued options.now (spot_meaning path.entry.spot) (rest_meaning rest.now))) }
{
    let Path { frames, spot } = path;
    let opened = match spot.leaf {
        Leaf::Fence(_, _) | Leaf::Html(_, _) => None,
        Leaf::Paragraph(_) => opens(options, true, rest),
        _ => opens(options, false, rest),
    };
    match opened {
        Some(taken) => {
            let here = shut(alloc, options, spot)?;
            enter(alloc, options, frames, here, taken)
        }
        None => {
            let spot = leaf_line(alloc, options, spot, rest)?;
            Ok(Path { frames, spot })
        }
    }
}

/// Whether an open paragraph takes this lazy line (CommonMark 5.1, "laziness").
fn takes_lazy<'a>(
    alloc: Global,
    options: &ParseOptions,
    leaf: &Leaf<'a>,
    rest: &Rest<'a>,
) -> Result<bool, Message>
    ensures { IfOk result
        (λ b. b ≡ is_some (definition.with_lazy options.now (leaf_meaning leaf.now) (rest_meaning rest.now))) }
{
    match leaf {
        Leaf::Paragraph(_) => {
            Ok(
                !is_blank(rest.bytes)
                    && !is_found(starts(alloc, options, ParagraphContext::LazyText, rest)?),
            )
        }
        _ => Ok(false),
    }
}

/// Closes all containers but so many of the outermost, and opens one after them.
fn enter_after<'a>(
    alloc: Global,
    options: &ParseOptions,
    path: Path<'a>,
    count: usize,
    taken: Taken<'a>,
) -> Result<Path<'a>, Message>
    ensures { IfOk result
        (λ p.
        path_meaning p ≡
        within (take count path.entry.frames.items)
        (definition.entered options.now
        (state.closed options.now
        (within (drop count path.entry.frames.items) (state.At (spot_meaning path.entry.spot))))
        (taken_meaning taken.entry))) }
{
    let (frames, here) = close_to(alloc, options, path, count)?;
    enter(alloc, options, frames, here, taken)
}

/// Closes all containers but so many of the outermost, and reads the line after them.
fn fresh_after<'a>(
    alloc: Global,
    options: &ParseOptions,
    path: Path<'a>,
    count: usize,
    rest: &Rest<'a>,
) -> Result<Path<'a>, Message>
    ensures { IfOk result
        (λ p.
        path_meaning p ≡
        within (take count path.entry.frames.items)
        (state.At
        (definition.fresh_line options.now
        (state.closed options.now
        (within (drop count path.entry.frames.items) (state.At (spot_meaning path.entry.spot))))
        (rest_meaning rest.now)))) }
{
    let (frames, here) = close_to(alloc, options, path, count)?;
    let spot = fresh_line(alloc, options, here, rest)?;
    Ok(Path { frames, spot })
}

/// A lazy line continues the open paragraph.
fn with_lazy<'a>(spot: Innermost<'a>, rest: &Rest<'a>) -> Result<Innermost<'a>, Message>
    ensures { IfOk result (λ s. spot_meaning s ≡ more_text (spot_meaning spot.entry) (rest_meaning rest.now)) }
{
    let Innermost { here, leaf } = spot;
    match leaf {
        Leaf::Paragraph(lines) => with_line(here, lines, rest),
        leaf => Ok(Innermost { here, leaf }),
    }
}

/// All containers stay open, and a lazy line continues the paragraph.
fn stay_open<'a>(path: Path<'a>, rest: &Rest<'a>) -> Result<Path<'a>, Message>
    ensures { IfOk result
        (λ p.
        path_meaning p ≡
        within path.entry.frames.items (state.At (more_text (spot_meaning path.entry.spot) (rest_meaning rest.now)))) }
{
    let Path { frames, spot } = path;
    let spot = with_lazy(spot, rest)?;
    Ok(Path { frames, spot })
}

/// The container after so many others does not continue.
fn stopped<'a>(
    alloc: Global,
    options: &ParseOptions,
    path: Path<'a>,
    count: usize,
    rest: &Rest<'a>,
) -> Result<Path<'a>, Message>
    requires { count < length path.frames.items }
    ensures { IfOk result
        (λ p.
        path_meaning p ≡
        within (take count path.entry.frames.items)
        (stopped_in options.now (drop count path.entry.frames.items) (state.At (spot_meaning path.entry.spot))
        (rest_meaning rest.now))) }
{
    if let Some(taken) = opens(options, false, rest) {
        return enter_after(alloc, options, path, count, taken);
    }
    if takes_lazy(alloc, options, &path.spot.leaf, rest)? {
        stay_open(path, rest)
    } else {
        fresh_after(alloc, options, path, count, rest)
    }
}

/// What is open after a line: each container is asked, from the outermost in, whether it continues.
pub fn step<'a>(
    alloc: Global,
    options: &ParseOptions,
    path: Path<'a>,
    rest: &Rest<'a>,
) -> Result<Path<'a>, Message>
    ensures { IfOk result
        (λ p. path_meaning p ≡ definition.step options.now (path_meaning path.entry) (rest_meaning rest.now)) }
{
    let mut path = path;
    let mut rest = *rest;
    for index in 0..path.frames.len() {
        let Some(taken) = continues(options, &path.frames[index].container, &rest) else {
            return stopped(alloc, options, path, index, &rest);
        };
        let frame = &mut path.frames[index];
        frame.container = taken.container;
        rest = taken.rest;
    }
    all_continued(alloc, options, path, &rest)
}
