//! A text, read and printed.
use crate::fault::TextFault;
use crate::heading::head;
use mm_lexer::lex;
use mm_parse::parse;
use mm_print::print;
use mm_tree::Side;
use std::alloc::Global;

/// The text of the tree that the text is read as. A text of more than 16 MiB is too long.
pub fn printed_again(alloc: Global, text: &str) -> Result<String, TextFault> {
    if text.len() > 16_777_216 {
        return Err(TextFault::TooLong);
    }
    let head = head(alloc, text)?;
    let tokens = lex(alloc, text)?;
    let tree = parse(alloc, text, &tokens, Side::Output)?;
    Ok(print(alloc, &tree, &head)?)
}
