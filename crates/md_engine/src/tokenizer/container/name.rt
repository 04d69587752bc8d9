// The kinds of containers: the names of their events, and what else the engine shows by the kind.

ghost use Rattle.std.specs.Prelude.{◌≡◌};
ghost use Rattle.md_engine.specs.ContainerName.{first_kind, kind_continues_over, name_of};

use crate::event::Name;

/// The kinds of containers.
#[derive(Clone, Copy)]
pub enum ContainerKind {
    BlockQuote,
    ListItem,
    GfmFootnoteDefinition,
}

/// The first of the kinds: of it is what no question is asked of yet.
#[inline(always)]
pub(crate) fn first_kind() -> ContainerKind
    ensures { result ≡ first_kind }
{
    ContainerKind::BlockQuote
}

/// Whether a container of a kind continues over an empty line, of which it takes nothing, by whether it started blank:
/// a list item does that did not (CommonMark 5.2), and a footnote definition always.
#[inline(always)]
pub(crate) fn kind_continues_over(kind: ContainerKind, starts_blank: bool) -> bool
    ensures { result ≡ kind_continues_over kind starts_blank }
{
    match kind {
        ContainerKind::BlockQuote => false,
        ContainerKind::ListItem => !starts_blank,
        ContainerKind::GfmFootnoteDefinition => true,
    }
}

/// The name of a container's events.
pub(crate) fn name_of(kind: ContainerKind) -> Name
    ensures { result ≡ name_of kind }
{
    match kind {
        ContainerKind::BlockQuote => Name::BlockQuote,
        ContainerKind::ListItem => Name::ListItem,
        ContainerKind::GfmFootnoteDefinition => Name::GfmFootnoteDefinition,
    }
}
