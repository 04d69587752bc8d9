// The plain program on containers in one another.

use md_engine::configuration::ParseOptions;
use md_engine::message::Message;
use reference_tree::meaning::tree;
use reference_tree::outline_lines::outline;
use std::alloc::Global;

/// How many lines the outline of so many quotes in one another has.
fn lines_of_quotes(alloc: Global, levels: usize) -> Result<usize, Message> {
    let mut text = String::new(alloc);
    for _ in 0..levels {
        if text.push('>').is_err() {
            return Err(Message);
        }
    }
    if text.len() > usize::MAX / 8 {
        return Err(Message);
    }
    let tree = tree(alloc, text.as_str(), &ParseOptions::COMMONMARK)?;
    Ok(outline(alloc, &tree)?.len())
}

// Containers in one another take no stack.
#[test]
fn containers_have_no_limit(rt: HostRuntime) {
    assert!(rt; lines_of_quotes(rt.alloc(), 100_000) == Ok(100_000));
}
