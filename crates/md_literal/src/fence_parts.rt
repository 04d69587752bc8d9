// Fenced code and math: the names of a block and of its parts, and what is held of an open one.

ghost use Rattle.std.specs.Prelude.{◌≡◌};
ghost use Rattle.md_meaning.specs.Leaves.{is_fence_marker, least_size};
ghost use Rattle.md_literal.specs.Fence.{block_name, chunk_name, cleared, fence_name, held_indent, held_marker};
ghost use Rattle.md_literal.specs.Fence.{held_size, is_refused, meta_name, sequence_name};

use md_engine::configuration::ParseOptions;
use md_engine::event::Name;
use md_engine::tokenizer::{HeldLeaf, Scratch};

/// Whether this marks a block that is on.
pub(crate) fn is_marker(options: &ParseOptions, byte: u8) -> bool
    ensures { result ≡ is_fence_marker options.now byte }
{
    if byte == b'$' {
        options.constructs.math_flow
    } else {
        options.constructs.code_fenced && (byte == b'`' || byte == b'~')
    }
}

/// So many markers an opening sequence has at least.
pub(crate) fn least_size(marker: u8) -> usize
    ensures { result ≡ least_size marker }
{
    if marker == b'$' { 2 } else { 3 }
}

/// Whether this may not be after an opening sequence: its marker, unless that is a tilde.
pub(crate) fn is_refused(marker: u8, byte: u8) -> bool
    ensures { result ≡ is_refused marker byte }
{
    byte == marker && marker != b'~'
}

/// The name of a block.
#[inline(always)]
pub fn block_name(marker: u8) -> Name
    ensures { result ≡ block_name marker }
{
    if marker == b'$' {
        Name::MathFlow
    } else {
        Name::CodeFenced
    }
}

/// That of its fences.
pub(crate) fn fence_name(marker: u8) -> Name
    ensures { result ≡ fence_name marker }
{
    if marker == b'$' {
        Name::MathFlowFence
    } else {
        Name::CodeFencedFence
    }
}

/// That of the sequences of its fences.
pub(crate) fn sequence_name(marker: u8) -> Name
    ensures { result ≡ sequence_name marker }
{
    if marker == b'$' {
        Name::MathFlowFenceSequence
    } else {
        Name::CodeFencedFenceSequence
    }
}

/// That of `meta`.
pub(crate) fn meta_name(marker: u8) -> Name
    ensures { result ≡ meta_name marker }
{
    if marker == b'$' {
        Name::MathFlowFenceMeta
    } else {
        Name::CodeFencedFenceMeta
    }
}

/// That of its lines.
#[inline(always)]
pub fn chunk_name(marker: u8) -> Name
    ensures { result ≡ chunk_name marker }
{
    if marker == b'$' {
        Name::MathFlowChunk
    } else {
        Name::CodeFlowChunk
    }
}

/// The marker of the open block.
#[inline(always)]
pub fn held_marker(leaf: HeldLeaf) -> u8
    ensures { result ≡ held_marker leaf }
{
    match leaf {
        HeldLeaf::Fence { marker, .. } => marker,
        _ => 0,
    }
}

/// How many markers the opening sequence of the open block has.
pub(crate) fn held_size(leaf: HeldLeaf) -> usize
    ensures { result ≡ held_size leaf }
{
    match leaf {
        HeldLeaf::Fence { size, .. } => size,
        _ => 0,
    }
}

/// How many columns are before the opening sequence of the open block.
#[inline(always)]
pub fn held_indent(leaf: HeldLeaf) -> usize
    ensures { result ≡ held_indent leaf }
{
    match leaf {
        HeldLeaf::Fence { indent, .. } => indent,
        _ => 0,
    }
}

/// Without a marker and what was counted.
pub(crate) fn cleared(scratch: Scratch) -> Scratch
    ensures { result ≡ cleared scratch }
{
    Scratch {
        marker: 0,
        size: 0,
        size_c: 0,
        ..scratch
    }
}
