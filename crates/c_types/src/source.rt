//! Sources.

use c_lexer::Tokens;
use c_syntax::Unit;

/// A unit, and the tokens of which it is.
#[derive(Drop)]
pub struct Source<'a> {
    pub unit: Unit,
    pub tokens: Tokens<'a>,
}
