// The labels of a document, in a form in which they are looked up in few steps.
//
// `ParseState` lists the normal forms of labels in the order of the text. A layer that asks for each reference whether
// a definition has its label would go over that list again and again. `Labels` are made once a document, and a look-up
// takes time that grows with the logarithm of the number of labels.

ghost use Rattle.std.specs.Prelude.{◌≡◌, ℕ, IfOk, List, map, string_bytes};
ghost use Rattle.std.specs.BTreeMap.{get_by};
ghost use Rattle.std.specs.Cmp.Lexicographic.{slice_cmp};
ghost use Rattle.std.specs.Ordering.{nat_cmp};
ghost use Rattle.md_events.specs.FirstPlace.{first_place};

use md_engine::message::Message;
use md_engine::parse_state::ParseState;
use std::alloc::Global;
use std::collections::BTreeMap;

/// Normal forms in the order of the text, repeats kept, and where each of them is first.
#[derive(Drop)]
pub struct Forms<'a> {
    forms: &'a [String],
    places: BTreeMap<&'a str, usize>,
    ghost first: { (form : List ℕ) → get_by (λ k. slice_cmp nat_cmp form k.now) places ≡
        first_place (map string_bytes forms.now) form },
}

/// Where each normal form is first.
///
/// An `Err` says that memory ran out.
fn places_of<'a>(alloc: Global, forms: &'a [String]) -> Result<BTreeMap<&'a str, usize>, Message>
    ensures { IfOk result
        (λ places.
        (form : List ℕ) → get_by (λ k. slice_cmp nat_cmp form k.now) places ≡
        first_place (map string_bytes forms.now) form) }
{
    let mut places = BTreeMap::new(alloc);
    let mut at = forms.len();
    while at > 0 {
        at -= 1;
        if places.insert(forms[at].as_str(), at).is_err() {
            return Err(Message);
        }
    }
    Ok(places)
}

impl<'a> Forms<'a> {
    /// Makes these normal forms ready to be looked up.
    ///
    /// An `Err` says that memory ran out.
    fn new(alloc: Global, forms: &'a [String]) -> Result<Forms<'a>, Message>
        ensures { IfOk result (λ made. made.forms.now ≡ forms.now) }
    {
        let places = places_of(alloc, forms)?;
        Ok(Forms { forms, places })
    }

    /// Where this normal form is first, if it is listed.
    fn place(&self, form: &str) -> Option<usize>
        ensures { result ≡ first_place (map string_bytes self.now.forms.now) form.now }
    {
        self.places.get(form).copied()
    }
}

/// The labels of the definitions and of the footnote definitions of a document.
#[derive(Drop)]
pub struct Labels<'a> {
    definitions: Forms<'a>,
    footnotes: Forms<'a>,
}

impl<'a> Labels<'a> {
    /// The labels of a document.
    ///
    /// An `Err` says that memory ran out.
    pub fn new(
        alloc: Global,
        definitions: &'a [String],
        footnotes: &'a [String],
    ) -> Result<Labels<'a>, Message>
        ensures definitions { IfOk result (λ labels. labels.definitions.forms.now ≡ definitions.now) }
        ensures footnotes { IfOk result (λ labels. labels.footnotes.forms.now ≡ footnotes.now) }
    {
        let definitions = Forms::new(alloc, definitions)?;
        let footnotes = Forms::new(alloc, footnotes)?;
        Ok(Labels {
            definitions,
            footnotes,
        })
    }

    /// The index in `ParseState::definitions` of the first label with this normal form, which is the one that counts
    /// (CommonMark 4.7); none if no definition has it.
    pub fn definition(&self, form: &str) -> Option<usize>
        ensures { result ≡ first_place (map string_bytes self.now.definitions.forms.now) form.now }
    {
        self.definitions.place(form)
    }

    /// The index in `ParseState::gfm_footnote_definitions` of the first label with this normal form; none if no
    /// footnote definition has it.
    pub fn footnote_definition(&self, form: &str) -> Option<usize>
        ensures { result ≡ first_place (map string_bytes self.now.footnotes.forms.now) form.now }
    {
        self.footnotes.place(form)
    }
}
