// Content: its states, its table and its resolver. Of the first state of a line of text it is said what it does with
// the rest of a line.

ghost use Rattle.std.specs.Prelude.{◌≢◌};
ghost use Rattle.md_content.specs.ChunkRule.{IsChunkState};
ghost use Rattle.md_engine.specs.World.{world};
ghost use Rattle.md_engine.specs.declared.state.Name.{Name as StateName};
ghost use Rattle.md_engine.specs.declared.state.State.{State};
ghost use Rattle.md_engine.specs.declared.state.content.State.{State as ContentState};
ghost use Rattle.md_events.specs.Transition.{IsAt, NeedsNothing};
ghost use Rattle.markdown_blocks.specs.TextCalls.{ChunkLine};
ghost use Rattle.markdown_blocks.specs.TextMet.{LineMet};

use md_content::content;
pub use md_content::content::{
    ContentReader, ContentTable, are_lines, call, chunk_inside, definition_after,
    definition_before, is_followed, is_within_line, may_define_at, resolve, takes_at_once,
};
use md_engine::state::State;
use md_engine::tokenizer::Tokenizer;

/// Before a line of text. It takes the rest of any line, which is read later (`line`). Where the text may be read to its
/// end, as in a parse, the rest of a line is next (`met`).
///
/// ```markdown
/// > | a
///     ^
/// ```
pub fn chunk_start(tokenizer: &mut Tokenizer) -> State
    requires { IsAt NeedsNothing (StateName.Content ContentState.ChunkStart) (world tokenizer.old) }
    ensures state { IsChunkState ContentState.ChunkStart (world tokenizer.old) result tokenizer.new }
    ensures line { result ≢ State.Error → ChunkLine (world tokenizer.old) result (world tokenizer.new) }
    ensures met { LineMet (world tokenizer.old) }
{
    content::chunk_start(tokenizer)
}
