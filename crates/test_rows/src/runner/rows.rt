// Tries a body on rows.
ghost use Rattle.md_program.specs.Sets.{IsWithoutMdx};

use crate::case::{Case, CaseError};
use crate::runner::report::Report;
use md_engine::configuration::{Constructs, ParseOptions};
use md_program::body::{Body, MOST};
use md_program::print::print;
use std::alloc::Global;

/// The options with these constructs, without those of MDX.
pub fn options_of(constructs: &Constructs) -> ParseOptions
    ensures { IsWithoutMdx result }
{
    ParseOptions {
        constructs: Constructs {
            mdx_esm: false,
            mdx_expression_flow: false,
            mdx_expression_text: false,
            mdx_jsx_flow: false,
            mdx_jsx_text: false,
            ..*constructs
        },
    }
}

/// What the program prints for a text with a body. A text beyond the size is refused as no row.
pub fn printed<B: Body>(
    alloc: Global,
    text: &str,
    constructs: &Constructs,
) -> Result<String, CaseError> {
    if text.len() > MOST {
        return Err(CaseError::Form);
    }
    let options = B::built(options_of(constructs));
    match B::outlined(alloc, text, &options) {
        Ok(outlined) => print(alloc, &outlined).or(Err(CaseError::Memory)),
        Err(_) => Err(CaseError::Memory),
    }
}

/// The constructs of these that a body has.
pub fn built_of<B: Body>(constructs: &Constructs) -> Constructs {
    B::built(options_of(constructs)).constructs
}

/// Tries a body on a table of rows, of which it takes those whose constructs it has.
pub fn try_rows<B: Body>(alloc: Global, rows: &str, report: &mut Report) -> Result<(), CaseError> {
    let built = built_of::<B>(&Constructs::ALERTS);
    for row in rows.split("\n\n") {
        let case = Case::read(alloc, row)?;
        if case.holds_with(&built) {
            let text = case.text.as_str();
            let got = printed::<B>(alloc, text, &case.constructs)?;
            report.add(case.section, text, case.output.as_str(), got.as_str())?;
        }
    }
    Ok(())
}
