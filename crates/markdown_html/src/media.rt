// Where the links and images lead that a text is in front of.
//
// Where a link leads is after its text. So where one begins that is in no other link, image or call, what it lists and
// what is in it is read ahead up to its end: each event of it once.

use crate::known::Known;
use crate::survey::{SurveyWalk, Target};
use crate::tags::is_of_media;
use crate::targets::targets;
use md_engine::event::Event;
use md_engine::message::Message;
use std::alloc::Global;

/// What is known of the outermost link, image or call that is open, or was last.
#[derive(Drop)]
pub(crate) struct MediaWalk {
    walk: SurveyWalk,
    /// Where it leads, and each link and image in it, in the order in which they begin.
    targets: Vec<Option<Target>>,
    /// How many of them have begun.
    begun: usize,
    /// How many are open.
    open: usize,
}

impl MediaWalk {
    pub(crate) fn new(alloc: Global) -> MediaWalk {
        MediaWalk {
            walk: SurveyWalk::new(alloc),
            targets: Vec::new(alloc),
            begun: 0,
            open: 0,
        }
    }

    /// Begins a link, image or call, with which these events begin, and says where it leads. So many bytes of definitions
    /// are `left` to be written.
    pub(crate) fn enter(
        &mut self,
        known: &Known,
        ahead: &[Event],
        left: &mut usize,
    ) -> Result<Option<Target>, Message> {
        if self.open == 0 {
            self.look(known, ahead, left)?;
        }
        self.open = self.open.saturating_add(1);
        let target = self.targets.get(self.begun).copied().unwrap_or(None);
        self.begun = self.begun.saturating_add(1);
        Ok(target)
    }

    /// Ends it.
    pub(crate) fn exit(&mut self) {
        self.open = self.open.saturating_sub(1);
    }

    /// Reads what is in the link, image or call with which these events begin.
    fn look(&mut self, known: &Known, ahead: &[Event], left: &mut usize) -> Result<(), Message> {
        let first = known.events.len().saturating_sub(ahead.len());
        self.walk.clear();
        for (at, event) in ahead.iter().enumerate() {
            if is_of_media(event.name) {
                self.walk.read(event, first.saturating_add(at))?;
                if self.walk.is_outside() {
                    break;
                }
            }
        }
        self.begun = 0;
        self.targets.clear();
        targets(known, &self.walk.found.media, left, &mut self.targets)
    }
}
