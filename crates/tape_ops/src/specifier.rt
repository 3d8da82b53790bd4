//! Specifiers, with the bodies of structs, unions and enums (C99, 6.7 and 6.7.2).

use c_words::Keyword;
use qual_base::{NameId, TokenId};

/// What a tag is of: tags are told apart by this and by their names.
#[derive(Clone, Copy, PartialEq, Eq, Debug)]
pub enum TagKind {
    Struct,
    Union,
    Enum,
}

/// A word of specifiers, a part of a body, or an end. The words of specifiers come together at their `SpecsEnd`.
#[derive(Clone, Copy, PartialEq, Eq, Debug)]
pub enum SpecOp {
    /// A qualifier, of the next of `SpecsEnd`, `Pointer`, `Array` and `Function`: there of the ellipsis.
    Word {
        token: TokenId,
    },
    /// `typedef`, `extern`, `static`, `auto` or `register`.
    Storage {
        keyword: Keyword,
    },
    /// `void`. Specifiers without a `Void`, `Typedef` or tag, and without a body, are of a basic type.
    Void,
    Typedef {
        token: TokenId,
        name: NameId,
    },
    /// A tag without a body: the visible one, or a new one in the innermost scope.
    TagUse {
        kind: TagKind,
        token: TokenId,
        name: NameId,
    },
    /// A tag without a body that is a declaration by itself: one of the innermost scope (C99, 6.7.2.3).
    TagAlone {
        kind: TagKind,
        token: TokenId,
        name: NameId,
    },
    /// The body of a tag begins, which is one of the innermost scope.
    TagBody {
        kind: TagKind,
        token: TokenId,
        name: NameId,
    },
    /// A body without a tag begins; `token` is `struct`, `union` or `enum`.
    Untagged {
        kind: TagKind,
        token: TokenId,
    },
    /// The innermost body ends, and is the type of the specifiers that it is a word of.
    BodyEnd,
    /// An enumerator, behind its value.
    Enumerator {
        token: TokenId,
        name: NameId,
    },
    /// A member without a declarator, of a struct or union without a tag, whose `struct` or `union` is `token`.
    UnnamedMember {
        token: TokenId,
    },
    /// A type by what stands in parentheses begins, by an expression or by the name of a type: the specifiers wait until its end.
    PartBegin,
    /// A type by an expression ends, at its `)`, which is `token`: by what is known here it has the type of the expression since the
    /// innermost `PartBegin`, whose value is on the stack, without annotation words.
    TypeofEnd {
        token: TokenId,
    },
    /// A type by the name of a type ends, which is on the stack, and is dropped.
    TypeEnd,
    /// The specifiers are whole: declarators are made of their type until the `DeclarationEnd`, `Param` or `TypeName` that
    /// lets it go.
    SpecsEnd,
}
