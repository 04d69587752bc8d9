// The containers that are open.

use crate::loose::LooseWalk;
use crate::writer::Writer;
use md_engine::event::Event;
use std::alloc::Global;

/// What is known of lists, quotes and footnotes.
#[derive(Drop)]
pub(crate) struct Lists {
    /// Whether the outermost list that is open or was last is loose, and each in it, in the order in which they begin;
    /// nothing where none is.
    walk: LooseWalk,
    /// How many of them have begun.
    begun: usize,
    /// How many lists are open.
    lists: usize,
    /// Of each list, quote and footnote that is open, whether it is a tight list.
    tight: Vec<bool>,
    /// Of each quote that is open, whether it is an alert.
    alerts: Vec<bool>,
}

impl Lists {
    pub(crate) fn new(alloc: Global) -> Lists {
        Lists {
            walk: LooseWalk::new(alloc),
            begun: 0,
            lists: 0,
            tight: Vec::new(alloc),
            alerts: Vec::new(alloc),
        }
    }

    /// Begins a list, with which these events begin.
    pub(crate) fn begin_list(&mut self, out: &mut Writer, ahead: &[Event]) {
        if self.lists == 0 {
            let looked = self.walk.look(ahead, self.alerts.len());
            out.refuse(looked.is_err());
            self.begun = 0;
        }
        self.lists = self.lists.saturating_add(1);
        let is_loose = self.walk.loose.get(self.begun).copied().unwrap_or(false);
        self.begun = self.begun.saturating_add(1);
        out.refuse(self.tight.push(!is_loose).is_err());
    }

    pub(crate) fn end_list(&mut self) {
        self.lists = self.lists.saturating_sub(1);
        self.end();
    }

    /// Begins a quote or a footnote.
    pub(crate) fn begin(&mut self, out: &mut Writer) {
        out.refuse(self.tight.push(false).is_err());
    }

    /// Ends a quote or a footnote.
    pub(crate) fn end(&mut self) {
        let _ended = self.tight.pop();
    }

    pub(crate) fn begin_quote(&mut self, out: &mut Writer, is_alert: bool) {
        self.begin(out);
        out.refuse(self.alerts.push(is_alert).is_err());
    }

    /// Ends a quote. Whether it was an alert.
    pub(crate) fn end_quote(&mut self) -> bool {
        self.end();
        self.alerts.pop().unwrap_or(false)
    }

    /// Whether a paragraph that begins or ends here is directly in an item of a tight list.
    pub(crate) fn is_tight(&self) -> bool {
        self.tight.last().copied().unwrap_or(false)
    }
}
