// Which resolvers are wanted, by their names.

ghost use Rattle.std.specs.Prelude.{◌≡◌};
ghost use Rattle.md_order.specs.InOrder.{wanted_of};

use md_engine::resolve::Name;

/// Which of the four resolvers that run in one pass are wanted.
#[derive(Clone, Copy)]
pub struct Wanted {
    pub items: bool,
    pub atx: bool,
    pub setext: bool,
    pub tables: bool,
}

/// None of them.
const NONE: Wanted = Wanted {
    items: false,
    atx: false,
    setext: false,
    tables: false,
};

/// Those of these names.
pub fn wanted_of(names: &[Name]) -> Wanted
    ensures { result ≡ wanted_of names.now }
{
    let mut wanted = NONE;
    for name in names {
        match name {
            Name::ListItem => wanted.items = true,
            Name::HeadingAtx => wanted.atx = true,
            Name::HeadingSetext => wanted.setext = true,
            Name::GfmTable => wanted.tables = true,
            _ => {}
        }
    }
    wanted
}
