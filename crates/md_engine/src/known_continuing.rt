// Open containers that continue over an empty line, and up to which they are known to.
//
// Where a line ends, each open container continues by what is held of it. What was found of them is kept, so that on
// many blank lines in many containers none is asked again unless it has changed.

ghost use Rattle.std.specs.Prelude.{◌≡◌, ◌<◌, ◌≤◌, List, false, get_or, length, slice_set, take};
ghost use Rattle.md_engine.specs.KnownContinuing.{AreContinuing, EndsContinuing, IsKnownContinuing};
ghost use Rattle.md_engine.specs.KnownContinuing.{continues_over_empty};
ghost use Rattle.md_engine.specs.declared.tokenizer.container.Container.{Container};

use crate::tokenizer::container::Container;

/// All open containers from an index up to another continue over an empty line.
#[derive(Clone, Copy)]
pub struct KnownContinuing {
    pub from: usize,
    pub to: usize,
}

/// Up to which these continue over an empty line, from an index on and up to another at most.
fn asked(containers: &[Container], from: usize, until: usize) -> usize
    requires { (from ≤ until) × (until ≤ length containers.now) }
    ensures within { (from ≤ result) × (result ≤ until) }
    ensures each { AreContinuing containers.now from result }
    ensures ends { (d : Container) → result < until → continues_over_empty (get_or containers.now result d) ≡ false }
{
    let mut to = from;
    while to < until && containers[to].continues_over_empty() {
        to += 1;
    }
    to
}

impl KnownContinuing {
    /// Before anything is known.
    pub const NONE: KnownContinuing = KnownContinuing { from: 0, to: 0 };

    /// What is known from an index on: what is kept, also where those before it are found to continue up to there; or
    /// what is found of these.
    fn known(self, containers: &[Container], index: usize) -> KnownContinuing
        requires kept { IsKnownContinuing containers.now self }
        requires inside { index ≤ length containers.now }
        ensures around { (result.from ≤ index) × (index ≤ result.to) }
        ensures right { IsKnownContinuing containers.now result }
    {
        let KnownContinuing { from, to } = self;
        if from <= index && index <= to {
            return self;
        }
        if index > to || from > to {
            return KnownContinuing {
                from: index,
                to: index,
            };
        }
        let met = asked(containers, index, from);
        KnownContinuing {
            from: index,
            to: if met == from { to } else { met },
        }
    }

    /// Up to which the containers from an index on continue over an empty line: none is asked of which it is known.
    pub fn found(self, containers: &[Container], index: usize) -> KnownContinuing
        requires kept { IsKnownContinuing containers.now self }
        requires inside { index ≤ length containers.now }
        ensures right { IsKnownContinuing containers.now result }
        ensures ends { EndsContinuing containers.now index result.to }
    {
        let KnownContinuing { from, to } = self.known(containers, index);
        KnownContinuing {
            from,
            to: asked(containers, to, containers.len()),
        }
    }

    /// What stays known where the containers after the first `keep` end.
    pub fn cut(self, keep: usize) -> KnownContinuing
        ensures { (cs : List Container) → IsKnownContinuing cs self → IsKnownContinuing (take keep cs) result }
    {
        KnownContinuing {
            from: self.from,
            to: self.to.min(keep),
        }
    }

    /// What stays known where another container is held at an index.
    pub fn changed(self, index: usize, container: Container) -> KnownContinuing
        ensures { (cs : List Container) → IsKnownContinuing cs self →
            IsKnownContinuing (slice_set cs index container) result }
    {
        if index < self.from || container.continues_over_empty() {
            self
        } else {
            self.cut(index)
        }
    }
}
