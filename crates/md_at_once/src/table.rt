// The table of the lines of a text: the states of the document, of flow, of content and of all constructs.

ghost use Rattle.md_engine.specs.declared.resolve.name.Name.{Name as ResolveName};
ghost use Rattle.md_registry.specs.States.{FlowStep, flow_table_scheme};
ghost use Rattle.md_engine.specs.declared.state.Name.{Name as StateName};
ghost use Rattle.md_engine.specs.declared.state.State.{State};

use crate::at_once;
use md_content::content;
use md_engine::message::Message;
use md_engine::resolve::Name as ResolveName;
use md_engine::state::{Name as StateName, State};
use md_engine::stay::Stay;
use md_engine::subtokenize::Subresult;
use md_engine::table::Table;
use md_engine::tokenizer::Tokenizer;
use md_events::space_or_tab;
use md_flow::resolve;
use md_leaves::blank_line;
use md_registry::choices;

/// The states of flow.
pub struct FlowTable;

impl Table for FlowTable {
    ghost use Rattle.md_registry.specs.Resolving.{resolved_as};

    ghost step = { FlowStep };

    ghost scheme = { flow_table_scheme };

    ghost resolves = { resolved_as };

    #[inline(always)]
    fn call(tokenizer: &mut Tokenizer, name: StateName) -> State {
        match name {
            StateName::BlankLine(state) => blank_line::call(tokenizer, state),
            StateName::Content(state) => content::call(tokenizer, state),
            StateName::Document(state) => at_once::call_document(tokenizer, state),
            StateName::Flow(state) => at_once::call_flow(tokenizer, state),
            StateName::SpaceOrTab(state) => at_once::call_white(tokenizer, state),
            _ => at_once::call_at_once(tokenizer, name),
        }
    }

    fn takes_at_once(name: StateName) -> Option<Stay> {
        match name {
            StateName::Content(state) => content::takes_at_once(state),
            StateName::SpaceOrTab(state) => space_or_tab::takes_at_once(state),
            _ => choices::takes_at_once(name),
        }
    }

    fn resolve(tokenizer: &mut Tokenizer, name: ResolveName) -> Result<Option<Subresult>, Message> {
        resolve::call(tokenizer, name)
    }
}
