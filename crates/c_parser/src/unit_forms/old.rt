//! Functions in the form of before C89: identifiers in parentheses, and their declarations before the body (C99, 6.9.1).

ghost use Rattle.std.specs.Prelude.{◌≡◌, not};
ghost use Rattle.c_reading.specs.Items as units;
ghost use Rattle.c_reading.specs.Knot.{knot};
ghost use Rattle.c_reading.specs.Reading.{repeated};
ghost use Rattle.c_tree.specs.WellFormed.{lists_identifiers};
ghost use Rattle.c_tree.specs.View.{declr_of};
ghost use Rattle.reader_base.specs.Looping.{IsLoop, Turns};
ghost use Rattle.reader_base.specs.Lent.{Lends, sized_specs};
ghost use Rattle.c_reading.specs.Tokens as tokens;
ghost use Rattle.decl_forms.specs.Listed.{ReadsDeclaration};
ghost use Rattle.c_parser.specs.UnitForms.Old.{ReadsDeclarations, known_declarations, old_turn};
ghost use Rattle.c_parser.specs.UnitForms.Listed.{ReadsItem};

use c_nodes::{PresentDeclr, SizedDeclaration, SizedSpecs};
use c_reading::{Role, turns_take_tokens};
use c_syntax::{Declaration, Declr, Item};
use decl_forms::declaration_behind;
use decl_nodes::{old_function_item, push_declaration};
use qual_base::TokenId;
use reader_base::{
    Answer, Ask, Cursor, ReadError, attrs, extensions, is_open_brace, kind_at, specs_here,
};
use stmt_forms::block_body;
use typedef_scope::Kind;

/// Whether a list of identifiers is the form directly around the name, parentheses aside. Linear in the height.
pub(crate) fn lists_identifiers(declr: &Declr) -> bool
    ensures { result ≡ lists_identifiers (declr_of declr.now) }
{
    let mut part = declr;
    loop {
        match part {
            Declr::Identifiers { .. } => return true,
            Declr::Pointer { inner, .. }
            | Declr::DeclParen { inner, .. }
            | Declr::Array { inner, .. }
            | Declr::Params { inner, .. } => part = inner,
            Declr::DeclName { .. }
            | Declr::BaseName { .. }
            | Declr::AbsPointer { .. }
            | Declr::AbsParen { .. }
            | Declr::AbsArray { .. }
            | Declr::AbsParams { .. } => return false,
        }
    }
}

/// `Declaration = ext* Specs [InitDeclr (, Attr* InitDeclr)*] ;`, behind a list of identifiers.
#[tactic(auto, unfolding(c_reading::specs::Items::old_declaration, c_reading::specs::Reading::and_then))]
fn old_declaration<'a, F>(
    lent: &F,
    room: u16,
    cursor: &mut Cursor<'a>,
    depth: u32,
) -> Result<SizedDeclaration, ReadError>
where
    F: Fn(Ask, &mut Cursor<'a>) -> Result<Answer, ReadError>,
    requires { Lends F.Fn lent.now depth }
    ensures { ReadsDeclaration cursor.old cursor.new result
        (units.old_declaration (knot depth) room) }
{
    let exts = extensions(room, cursor)?;
    let words = specs_here(lent, Role::Declaring, room, cursor, depth)?;
    declaration_behind(lent, exts, words, room, cursor, depth)
}

/// Each declaration takes a token.
fn old_step(room: u16, depth: u32)
    ensures { IsLoop (old_turn depth room) }
{
    turns_take_tokens(depth);
}

/// A declaration more, where no body begins.
#[tactic(auto, unfolding(c_reading::specs::Reading::and_then), using(crate::proofs::UnitForms::Pushed::one_declaration_mapped))]
fn turn<'a, F>(
    lent: &F,
    known: &mut Vec<Declaration>,
    room: u16,
    cursor: &mut Cursor<'a>,
    depth: u32,
) -> Result<bool, ReadError>
where
    F: Fn(Ask, &mut Cursor<'a>) -> Result<Answer, ReadError>,
    requires { Lends F.Fn lent.now depth }
    ensures { Turns (known_declarations known.old.items) (known_declarations known.new.items)
        cursor.old cursor.new result (old_turn depth room) }
{
    if is_open_brace(kind_at(cursor.rest)) {
        return Ok(false);
    }
    let next = old_declaration(lent, room, cursor, depth)?;
    push_declaration(known, next)?;
    Ok(true)
}

/// The declarations before the body.
#[tactic(auto, unfolding(c_reading::specs::Reading::repeated))]
fn declarations<'a, F>(
    lent: &F,
    room: u16,
    cursor: &mut Cursor<'a>,
    depth: u32,
) -> Result<Vec<Declaration>, ReadError>
where
    F: Fn(Ask, &mut Cursor<'a>) -> Result<Answer, ReadError>,
    requires { Lends F.Fn lent.now depth }
    ensures { ReadsDeclarations cursor.old cursor.new result
        (repeated (λ kind. not (tokens.is_open_brace kind)) (units.old_declaration (knot depth) room)) }
{
    old_step(room, depth);
    let mut known = Vec::new(cursor.alloc);
    while turn(lent, &mut known, room, cursor, depth)? {}
    Ok(known)
}

/// `Attr* Declaration* Block`, behind a declarator with a list of identifiers, whose name is held until the last declaration ends.
#[tactic(auto, unfolding(c_reading::specs::Items::old_function_with, c_reading::specs::Reading::and_then))]
pub(crate) fn old_function<'a, F>(
    lent: &F,
    exts: Vec<TokenId>,
    words: SizedSpecs,
    declr: PresentDeclr,
    room: u16,
    cursor: &mut Cursor<'a>,
    depth: u32,
) -> Result<Item, ReadError>
where
    F: Fn(Ask, &mut Cursor<'a>) -> Result<Answer, ReadError>,
    requires { Lends F.Fn lent.now depth }
    ensures { ReadsItem cursor.old cursor.new result
        (units.old_function_with (knot depth) exts.items
        (sized_specs words) (declr_of declr.declr.value) room) }
{
    let attrs = attrs(room, cursor)?;
    let inside = room.saturating_sub(1);
    cursor.scopes.enter()?;
    let found = declarations(lent, inside, cursor, depth)?;
    let parameters = cursor.scopes.close();
    cursor.scopes.release(Kind::Value)?;
    cursor.scopes.reopen(parameters)?;
    let body = block_body(lent, inside, cursor, depth)?;
    cursor.scopes.leave();
    Ok(old_function_item(exts, words, declr, attrs, found, body))
}
