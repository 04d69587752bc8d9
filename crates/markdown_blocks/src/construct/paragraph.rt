// Paragraphs: their states. Of the first it is said what it does with the lines of a text.

ghost use Rattle.std.specs.Prelude.{◌≢◌};
ghost use Rattle.md_content.specs.ParagraphRule.{IsParagraphState};
ghost use Rattle.md_engine.specs.World.{world};
ghost use Rattle.md_engine.specs.declared.state.Name.{Name as StateName};
ghost use Rattle.md_engine.specs.declared.state.State.{State};
ghost use Rattle.md_engine.specs.declared.state.paragraph.State.{State as ParagraphState};
ghost use Rattle.md_events.specs.Transition.{IsAt, NeedsNothing};
ghost use Rattle.markdown_blocks.specs.TextCalls.{ParagraphLines};

use md_content::paragraph;
pub use md_content::paragraph::{begin, call, inside, line_start, takes_at_once};
use md_engine::state::State;
use md_engine::tokenizer::Tokenizer;

/// Before a paragraph. It takes all lines of the text that are left, with the events of a paragraph over them (`line`).
///
/// ```markdown
/// > | a
///     ^
///   | b
/// ```
pub fn start(tokenizer: &mut Tokenizer) -> State
    requires { IsAt NeedsNothing (StateName.Paragraph ParagraphState.Start) (world tokenizer.old) }
    ensures state { IsParagraphState ParagraphState.Start (world tokenizer.old) result tokenizer.new }
    ensures line { result ≢ State.Error → ParagraphLines (world tokenizer.old) result (world tokenizer.new) }
{
    paragraph::start(tokenizer)
}
