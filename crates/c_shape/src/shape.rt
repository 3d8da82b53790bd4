//! An expression as a walk sees it: one form for all operators between two operands, with references to its parts.

ghost use Rattle.std.specs.Prelude.{◌≡◌};
ghost use Rattle.c_tree.specs.Tree.{operation, binary};
ghost use Rattle.c_tree.specs.View.{expr_of};
ghost use Rattle.c_shape.specs.Shapes.{shaped};

use c_syntax::{
    Assoc, BlockItem, Declr, Desig, Expr, Identifier, InitItem, SpecWord, TypeName, Word,
};
use c_words::Punct;
use qual_base::{NameId, TokenId};

/// What stands between two operands.
#[derive(Clone, Copy)]
pub enum Between<'a> {
    Comma,
    /// `=` or a compound assignment.
    Assign(Punct),
    /// `?` with the middle, if there is one, and `:`.
    Cond {
        middle: &'a Option<Box<Expr>>,
        colon: TokenId,
    },
    /// A binary operator, from `||` to `%`.
    Binary(Punct),
}

/// The name of a type.
#[derive(Clone, Copy)]
pub struct TypeShape<'a> {
    pub words: &'a Vec<SpecWord>,
    pub declr: &'a Option<Box<Declr>>,
}

/// The forms of expressions, each with references to its parts.
#[derive(Clone, Copy)]
pub enum Shape<'a> {
    /// Two operands with an operator between them.
    Operation {
        left: &'a Box<Expr>,
        between: Between<'a>,
        token: TokenId,
        right: &'a Box<Expr>,
    },
    Cast {
        open: TokenId,
        type_name: TypeShape<'a>,
        close: TokenId,
        operand: &'a Box<Expr>,
    },
    Prefix {
        token: TokenId,
        sign: Punct,
        operand: &'a Box<Expr>,
    },
    Sizeof {
        keyword: Word,
        operand: &'a Box<Expr>,
    },
    SizeofType {
        keyword: Word,
        open: TokenId,
        type_name: TypeShape<'a>,
        close: TokenId,
    },
    Ext {
        keyword: TokenId,
        operand: &'a Box<Expr>,
    },
    Index {
        base: &'a Box<Expr>,
        open: TokenId,
        index: &'a Box<Expr>,
        close: TokenId,
    },
    Call {
        callee: &'a Box<Expr>,
        open: TokenId,
        arguments: &'a Vec<Expr>,
        close: TokenId,
    },
    Dot {
        base: &'a Box<Expr>,
        token: TokenId,
        member: Identifier,
    },
    Arrow {
        base: &'a Box<Expr>,
        token: TokenId,
        member: Identifier,
    },
    Post {
        operand: &'a Box<Expr>,
        token: TokenId,
        sign: Punct,
    },
    /// A compound literal, with the braces of its list.
    Compound {
        open: TokenId,
        type_name: TypeShape<'a>,
        close: TokenId,
        open_brace: TokenId,
        items: &'a Vec<InitItem>,
        comma: Option<TokenId>,
        close_brace: TokenId,
    },
    NameUse {
        token: TokenId,
        name: NameId,
    },
    NumberUse {
        token: TokenId,
    },
    CharUse {
        token: TokenId,
    },
    TextUse {
        texts: &'a Vec<TokenId>,
    },
    Paren {
        open: TokenId,
        inner: &'a Box<Expr>,
        close: TokenId,
    },
    /// A statement expression, with the braces of its block.
    StmtExpr {
        open: TokenId,
        open_brace: TokenId,
        items: &'a Vec<BlockItem>,
        close_brace: TokenId,
        close: TokenId,
    },
    VaArg {
        keyword: TokenId,
        open: TokenId,
        list: &'a Box<Expr>,
        comma: TokenId,
        type_name: TypeShape<'a>,
        close: TokenId,
    },
    VaStart {
        keyword: TokenId,
        open: TokenId,
        list: &'a Box<Expr>,
        comma: TokenId,
        last: &'a Box<Expr>,
        close: TokenId,
    },
    VaCopy {
        keyword: TokenId,
        open: TokenId,
        target: &'a Box<Expr>,
        comma: TokenId,
        source: &'a Box<Expr>,
        close: TokenId,
    },
    Offset {
        keyword: TokenId,
        open: TokenId,
        type_name: TypeShape<'a>,
        comma: TokenId,
        member: Identifier,
        steps: &'a Vec<Desig>,
        close: TokenId,
    },
    Part {
        keyword: TokenId,
        operand: &'a Box<Expr>,
    },
    LabelUse {
        token: TokenId,
        label: Identifier,
    },
    Compat {
        keyword: TokenId,
        open: TokenId,
        left: TypeShape<'a>,
        comma: TokenId,
        right: TypeShape<'a>,
        close: TokenId,
    },
    Choose {
        keyword: TokenId,
        open: TokenId,
        condition: &'a Box<Expr>,
        comma: TokenId,
        first: &'a Box<Expr>,
        second_comma: TokenId,
        second: &'a Box<Expr>,
        close: TokenId,
    },
    Generic {
        keyword: TokenId,
        open: TokenId,
        control: &'a Box<Expr>,
        associations: &'a Vec<Assoc>,
        close: TokenId,
    },
}

/// Two operands with a binary operator between them.
fn binary_shape<'a>(
    left: &'a Box<Expr>,
    sign: Punct,
    token: TokenId,
    right: &'a Box<Expr>,
) -> Shape<'a>
    ensures { shaped result ≡ operation (expr_of left.now.value) (binary sign) token
        (expr_of right.now.value) }
{
    let between = Between::Binary(sign);
    Shape::Operation {
        left,
        between,
        token,
        right,
    }
}

/// A type's name as a walk sees it.
fn type_shape(type_name: &TypeName) -> TypeShape<'_>
    ensures words { result.words.now ≡ type_name.now.specs.words }
    ensures declr { result.declr.now ≡ type_name.now.declr }
{
    TypeShape {
        words: &type_name.specs.words,
        declr: &type_name.declr,
    }
}

/// The form of an expression. Constant time.
pub fn shape_of(e: &Expr) -> Shape<'_>
    ensures { shaped result ≡ expr_of e.now }
{
    match e {
        Expr::Comma { left, token, right } => Shape::Operation {
            left,
            between: Between::Comma,
            token: *token,
            right,
        },
        Expr::Assign {
            left,
            token,
            sign,
            right,
        } => Shape::Operation {
            left,
            between: Between::Assign(*sign),
            token: *token,
            right,
        },
        Expr::Cond {
            condition,
            question,
            middle,
            colon,
            otherwise,
        } => Shape::Operation {
            left: condition,
            between: Between::Cond {
                middle,
                colon: *colon,
            },
            token: *question,
            right: otherwise,
        },
        Expr::Or { left, token, right } => binary_shape(left, Punct::BarBar, *token, right),
        Expr::And { left, token, right } => binary_shape(
            left,
            Punct::AmpersandAmpersand,
            *token,
            right,
        ),
        Expr::BitOr { left, token, right } => binary_shape(left, Punct::Bar, *token, right),
        Expr::BitXor { left, token, right } => binary_shape(left, Punct::Caret, *token, right),
        Expr::BitAnd { left, token, right } => binary_shape(left, Punct::Ampersand, *token, right),
        Expr::Equal { left, token, right } => binary_shape(left, Punct::EqualEqual, *token, right),
        Expr::NotEqual { left, token, right } => binary_shape(
            left,
            Punct::BangEqual,
            *token,
            right,
        ),
        Expr::Less { left, token, right } => binary_shape(left, Punct::Less, *token, right),
        Expr::Greater { left, token, right } => binary_shape(left, Punct::Greater, *token, right),
        Expr::LessEqual { left, token, right } => binary_shape(
            left,
            Punct::LessEqual,
            *token,
            right,
        ),
        Expr::GreaterEqual { left, token, right } => binary_shape(
            left,
            Punct::GreaterEqual,
            *token,
            right,
        ),
        Expr::ShiftLeft { left, token, right } => binary_shape(
            left,
            Punct::ShiftLeft,
            *token,
            right,
        ),
        Expr::ShiftRight { left, token, right } => binary_shape(
            left,
            Punct::ShiftRight,
            *token,
            right,
        ),
        Expr::Plus { left, token, right } => binary_shape(left, Punct::Plus, *token, right),
        Expr::Minus { left, token, right } => binary_shape(left, Punct::Minus, *token, right),
        Expr::Times { left, token, right } => binary_shape(left, Punct::Star, *token, right),
        Expr::Divide { left, token, right } => binary_shape(left, Punct::Slash, *token, right),
        Expr::Remainder { left, token, right } => binary_shape(left, Punct::Percent, *token, right),
        Expr::Cast {
            open,
            type_name,
            close,
            operand,
        } => Shape::Cast {
            open: *open,
            type_name: type_shape(type_name),
            close: *close,
            operand,
        },
        Expr::Prefix {
            token,
            sign,
            operand,
        } => Shape::Prefix {
            token: *token,
            sign: *sign,
            operand,
        },
        Expr::Sizeof { keyword, operand } => Shape::Sizeof {
            keyword: *keyword,
            operand,
        },
        Expr::SizeofType {
            keyword,
            open,
            type_name,
            close,
        } => Shape::SizeofType {
            keyword: *keyword,
            open: *open,
            type_name: type_shape(type_name),
            close: *close,
        },
        Expr::Ext { keyword, operand } => Shape::Ext {
            keyword: *keyword,
            operand,
        },
        Expr::Index {
            base,
            open,
            index,
            close,
        } => Shape::Index {
            base,
            open: *open,
            index,
            close: *close,
        },
        Expr::Call {
            callee,
            open,
            arguments,
            close,
        } => Shape::Call {
            callee,
            open: *open,
            arguments,
            close: *close,
        },
        Expr::Dot {
            base,
            token,
            member,
        } => Shape::Dot {
            base,
            token: *token,
            member: *member,
        },
        Expr::Arrow {
            base,
            token,
            member,
        } => Shape::Arrow {
            base,
            token: *token,
            member: *member,
        },
        Expr::Post {
            operand,
            token,
            sign,
        } => Shape::Post {
            operand,
            token: *token,
            sign: *sign,
        },
        Expr::Compound {
            open,
            type_name,
            close,
            list,
        } => Shape::Compound {
            open: *open,
            type_name: type_shape(type_name),
            close: *close,
            open_brace: list.open,
            items: &list.items,
            comma: list.comma,
            close_brace: list.close,
        },
        Expr::NameUse { token, name } => Shape::NameUse {
            token: *token,
            name: *name,
        },
        Expr::NumberUse { token } => Shape::NumberUse { token: *token },
        Expr::CharUse { token } => Shape::CharUse { token: *token },
        Expr::TextUse { texts } => Shape::TextUse { texts },
        Expr::Paren { open, inner, close } => Shape::Paren {
            open: *open,
            inner,
            close: *close,
        },
        Expr::StmtExpr { open, block, close } => Shape::StmtExpr {
            open: *open,
            open_brace: block.open,
            items: &block.items,
            close_brace: block.close,
            close: *close,
        },
        Expr::VaArg {
            keyword,
            open,
            list,
            comma,
            type_name,
            close,
        } => Shape::VaArg {
            keyword: *keyword,
            open: *open,
            list,
            comma: *comma,
            type_name: type_shape(type_name),
            close: *close,
        },
        Expr::VaStart {
            keyword,
            open,
            list,
            comma,
            last,
            close,
        } => Shape::VaStart {
            keyword: *keyword,
            open: *open,
            list,
            comma: *comma,
            last,
            close: *close,
        },
        Expr::VaCopy {
            keyword,
            open,
            target,
            comma,
            source,
            close,
        } => Shape::VaCopy {
            keyword: *keyword,
            open: *open,
            target,
            comma: *comma,
            source,
            close: *close,
        },
        Expr::Offset {
            keyword,
            open,
            type_name,
            comma,
            member,
            steps,
            close,
        } => Shape::Offset {
            keyword: *keyword,
            open: *open,
            type_name: type_shape(type_name),
            comma: *comma,
            member: *member,
            steps,
            close: *close,
        },
        Expr::Part { keyword, operand } => Shape::Part {
            keyword: *keyword,
            operand,
        },
        Expr::LabelUse { token, label } => Shape::LabelUse {
            token: *token,
            label: *label,
        },
        Expr::Compat {
            keyword,
            open,
            left,
            comma,
            right,
            close,
        } => Shape::Compat {
            keyword: *keyword,
            open: *open,
            left: type_shape(left),
            comma: *comma,
            right: type_shape(right),
            close: *close,
        },
        Expr::Choose {
            keyword,
            open,
            condition,
            comma,
            first,
            second_comma,
            second,
            close,
        } => Shape::Choose {
            keyword: *keyword,
            open: *open,
            condition,
            comma: *comma,
            first,
            second_comma: *second_comma,
            second,
            close: *close,
        },
        Expr::Generic {
            keyword,
            open,
            control,
            associations,
            close,
        } => Shape::Generic {
            keyword: *keyword,
            open: *open,
            control,
            associations,
            close: *close,
        },
    }
}
