//! The first tokens of specifiers, and so of names of types, of initialisers and of statements.

ghost use Rattle.std.specs.Prelude.{◌≡◌};
ghost use Rattle.c_tree.specs.View.{expr_of, spec_word_of, init_of, init_list_of, stmt_of};
ghost use Rattle.c_tree.specs.Lists.{some_expr_from};
ghost use Rattle.c_tree.specs.Unit.{spec_words_from};
ghost use Rattle.c_tree.specs.Firsts.{qual_token, word_token, first_word, list_start, init_start, start_or, attrs_or, stmt_start};

use crate::ends::first;
use c_syntax::{Attr, Expr, Init, InitList, Qual, SpecWord, Stmt};
use qual_base::{Numbered, TokenId};

/// The token of a qualifier.
pub fn token_of_qual(qual: &Qual) -> TokenId
    ensures { result ≡ qual_token qual.now }
{
    match qual {
        Qual::Word(word) => word.token,
        Qual::Element { token } | Qual::Index { token } => *token,
    }
}

/// The first token of a word of specifiers. Constant time.
pub fn first_of_word(word: &SpecWord) -> TokenId
    ensures { result ≡ word_token (spec_word_of word.now) }
{
    match word {
        SpecWord::Storage(word) | SpecWord::Type(word) => word.token,
        SpecWord::Thread { token } | SpecWord::Inline { token } | SpecWord::Noreturn { token } =>
            *token,
        SpecWord::Qual(qual) => token_of_qual(qual),
        SpecWord::Struct(it) => it.keyword.token,
        SpecWord::Enum(it) => it.keyword,
        SpecWord::TypedefName(name) => name.token,
        SpecWord::Attr(attr) | SpecWord::Align(attr) => attr.keyword,
        SpecWord::Typeof { keyword, .. } => *keyword,
        SpecWord::TypeofType { keyword, .. } => keyword.token,
        SpecWord::Auto { token } => *token,
    }
}

/// The first token of specifiers, and of a type name that begins with them. Token 0 where there is no word, as in no well
/// formed unit. Constant time.
pub fn first_of_specs(words: &[SpecWord]) -> TokenId
    ensures { result ≡ first_word (spec_words_from words.now) }
{
    match words.split_first() {
        Some((word, _)) => first_of_word(word),
        None => TokenId::new(0),
    }
}

/// The opening brace of an initialiser.
fn start_of(list: &InitList) -> TokenId
    ensures { result ≡ list_start (init_list_of list.now) }
{
    list.open
}

/// The first token of an initialiser. Linear as `first` is.
pub fn first_of_init(init: &Init) -> TokenId
    ensures { result ≡ init_start (init_of init.now) }
{
    match init {
        Init::Value(value) => first(value),
        Init::InitList(list) => start_of(list),
    }
}

/// The first token of a value that may be left out before a token.
fn first_or(value: &Option<Box<Expr>>, token: TokenId) -> TokenId
    ensures { result ≡ start_or (some_expr_from value.now) token }
{
    match value {
        Some(value) => first(value),
        None => token,
    }
}

/// The first token of attributes before a token.
fn attr_or(attrs: &[Attr], token: TokenId) -> TokenId
    ensures { result ≡ attrs_or attrs.now token }
{
    match attrs {
        [first, ..] => first.keyword,
        [] => token,
    }
}

/// The first token of a statement. Linear as `first` is.
pub fn first_of_stmt(statement: &Stmt) -> TokenId
    ensures { result ≡ stmt_start (stmt_of statement.now) }
{
    match statement {
        Stmt::Block(block) => block.open,
        Stmt::ExprStmt { value, semi } => first_or(value, *semi),
        Stmt::AttrStmt { attrs, semi } => attr_or(attrs.as_slice(), *semi),
        Stmt::Label { name, .. } => name.token,
        Stmt::Case { keyword, .. }
        | Stmt::Default { keyword, .. }
        | Stmt::If { keyword, .. }
        | Stmt::Switch { keyword, .. }
        | Stmt::While { keyword, .. }
        | Stmt::Do { keyword, .. }
        | Stmt::For { keyword, .. }
        | Stmt::Goto { keyword, .. }
        | Stmt::Continue { keyword, .. }
        | Stmt::Break { keyword, .. }
        | Stmt::Return { keyword, .. }
        | Stmt::Asm { keyword, .. }
        | Stmt::CaseRange { keyword, .. }
        | Stmt::GotoValue { keyword, .. } => *keyword,
    }
}
