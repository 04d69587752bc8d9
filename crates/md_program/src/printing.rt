// What a program prints of a text: the part that differs from program to program.
ghost use Rattle.std.specs.Prelude.{◌≡◌, ◌≤◌, List, ℕ, length, IfOk};
ghost use Rattle.md_engine.specs.declared.configuration.ParseOptions.{ParseOptions};
ghost use Rattle.md_program.specs.Printed.{PrintsOutline};
ghost use Rattle.md_program.specs.Sets.{IsWithoutMdx};

use crate::body::{Body, MOST};
use crate::print::print;
use md_engine::configuration::ParseOptions;
use md_engine::message::Message;
use std::alloc::Global;
use std::marker::PhantomData;

/// A way to print something of a text.
pub trait Printing {
    // What may be printed of a text under the options that are asked for.
    ghost prints: { List ℕ → ParseOptions → List ℕ → Type 0 };

    /// All that is printed of `text`.
    ///
    /// It refuses only for want of memory, and then hands out nothing.
    fn output(alloc: Global, text: &str, options: ParseOptions) -> Result<Vec<u8>, Message>
        requires size { length text.now ≤ MOST }
        requires without_mdx { IsWithoutMdx options }
        ensures { IfOk result (λ output. prints text.now options output.items) };
}

/// The bytes of a text, in a list of their own.
pub fn bytes_of(alloc: Global, text: &str) -> Result<Vec<u8>, Message>
    ensures { IfOk result (λ bytes. bytes.items ≡ text.now) }
{
    match Vec::from_slice(alloc, text.as_bytes()) {
        Ok(bytes) => Ok(bytes),
        Err(_) => Err(Message),
    }
}

/// Prints the outlines that a body makes.
pub struct OutlineOf<B> {
    body: PhantomData<B>,
}

impl<B: Body> Printing for OutlineOf<B> {
    ghost prints = { PrintsOutline B.outlines B.built };

    fn output(alloc: Global, text: &str, options: ParseOptions) -> Result<Vec<u8>, Message> {
        let options = B::built(options);
        let outlined = B::outlined(alloc, text, &options)?;
        let text = print(alloc, &outlined)?;
        bytes_of(alloc, &text)
    }
}
