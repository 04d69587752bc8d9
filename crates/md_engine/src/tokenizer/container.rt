// What is kept of a container that is open.

ghost use Rattle.std.specs.Prelude.{◌≡◌};
ghost use Rattle.md_engine.specs.KnownContinuing.{continues_over_empty};
ghost use Rattle.md_engine.specs.World.{container_of};

pub mod name;

pub use crate::tokenizer::container::name::ContainerKind;

/// A container that is open.
#[derive(Clone, Copy)]
pub struct Container {
    /// The columns that a further line of a list item has to lose (CommonMark 5.2), or of a footnote definition.
    pub width: usize,
    pub kind: ContainerKind,
    /// Whether the first line of a list item was blank after its marker, and no further one was read yet.
    pub starts_blank: bool,
}

impl Container {
    /// One of this kind, of which nothing is known yet.
    pub fn new(kind: ContainerKind) -> Container
        ensures { result ≡ container_of kind }
    {
        Container {
            width: 0,
            kind,
            starts_blank: false,
        }
    }

    /// Whether it continues over an empty line, of which it takes nothing.
    pub fn continues_over_empty(self) -> bool
        ensures { result ≡ continues_over_empty self }
    {
        name::kind_continues_over(self.kind, self.starts_blank)
    }
}
