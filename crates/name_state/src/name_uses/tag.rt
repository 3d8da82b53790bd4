//! Tags, and bodies that begin (C99, 6.7.2.3).

ghost use Rattle.std.specs.Prelude.{◌≡◌, ℕ, None, Some, IfOk, if◌then◌else◌, length};
ghost use Rattle.type_table.specs.Types.{CType};
ghost use Rattle.name_rules.specs.Scopes.{tag_in, tag_through, innermost};
ghost use Rattle.name_rules.specs.Declaring.{new_tag, tag_used, tag_known, begun_body, tag_begun, untagged_begun};
ghost use Rattle.name_tables.specs.UnitSpelling.Spelled.{spelling_of};
ghost use Rattle.name_state.specs.UnitNames.Shown.{names_of};

use crate::unit_names::Names;
use name_tables::name_records::Rule;
use name_tables::name_scopes::Place;
use name_tables::unit_spelling::Spelling;
use qual_base::{NameId, NoMemory, StructId, TokenId};
use tape_ops::TagKind;

/// A body that begins: of which type it is, and to whom its members belong.
#[derive(Clone, Copy, PartialEq, Eq, Debug, Drop)]
pub struct Begun {
    pub number: StructId,
    pub members_of: StructId,
}

/// What a tag stands for, in the innermost scope alone or in all. Takes constant time a scope that is open.
fn found(names: &Names, is_alone: bool, kind: TagKind, key: NameId) -> Option<StructId>
    ensures { (t : ℕ → CType) → result
        ≡
        (if is_alone then tag_in
        (innermost (names_of t names.now).scopes).tags kind key else tag_through
        (names_of t names.now).scopes kind key) }
{
    if is_alone {
        names.tag_here(kind, key)
    } else {
        names.tag(kind, key)
    }
}

/// A new struct, union or enum of a tag. Constant time but for growth.
fn new_tag(
    names: &mut Names,
    spelling: &Spelling,
    kind: TagKind,
    token: TokenId,
    tag: NameId,
) -> Result<StructId, NoMemory>
    ensures number { IfOk result
        (λ n. (t : ℕ → CType) → n ≡ length (names_of t names.old).aggregates) }
    ensures names { IfOk result
        (λ n. (t : ℕ → CType) → names_of t names.new
        ≡ new_tag (spelling_of spelling.now) kind token tag (names_of t names.old)) }
{
    let at = spelling.place(token);
    let number = names.push_aggregate(kind, &at)?;
    names.bind_tag(kind, spelling.key(tag), number)?;
    Ok(number)
}

/// What a tag without a body means: the visible one, or where it is a declaration alone one of the innermost scope, or else a new
/// one. Takes constant time a scope that is open, but for growth.
pub fn use_tag(
    names: &mut Names,
    spelling: &Spelling,
    is_alone: bool,
    kind: TagKind,
    token: TokenId,
    tag: NameId,
) -> Result<StructId, NoMemory>
    ensures { IfOk result
        (λ n. (t : ℕ → CType)
        → tag_used (spelling_of spelling.now) is_alone kind token tag (names_of t names.old)
        ≡ record { number = n; names = names_of t names.new }) }
{
    let known = found(names, is_alone, kind, spelling.key(tag));
    match known {
        Some(number) => Ok(number),
        None => {
            let number = new_tag(names, spelling, kind, token, tag)?;
            Ok(number)
        }
    }
}

/// What a body at file scope makes known of its tag. Constant time.
fn know_tag(names: &mut Names, tag: &Option<NameId>, number: StructId)
    ensures { (t : ℕ → CType) → names_of t names.new
        ≡ tag_known tag.now number (names_of t names.old) }
{
    if let Some(tag) = tag {
        if names.is_at_file() {
            names.set_key(number, false, *tag);
        }
    }
}

/// The body of a struct, union or enum begins, with its tag, and whose its members are. Constant time but for growth.
fn begin_body(
    names: &mut Names,
    kind: TagKind,
    tag: &Option<NameId>,
    at: &Place,
    number: StructId,
) -> Result<StructId, NoMemory>
    ensures { IfOk result
        (λ m. (t : ℕ → CType)
        → begun_body at.now kind tag.now
        (record { number = number; names = names_of t names.old })
        ≡ record { number = number; members_of = m; names = names_of t names.new }) }
{
    if names.has_body(number) {
        let members_of = names.push_aggregate(kind, at)?;
        names.open_body(members_of);
        names.blame(true, at, Rule::DefinedTwice)?;
        Ok(members_of)
    } else {
        names.open_body(number);
        know_tag(names, tag, number);
        Ok(number)
    }
}

/// The body of a tag begins, in the innermost scope. Constant time but for growth.
pub fn begin_tag(
    names: &mut Names,
    spelling: &Spelling,
    kind: TagKind,
    token: TokenId,
    tag: NameId,
) -> Result<Begun, NoMemory>
    ensures { IfOk result
        (λ b. (t : ℕ → CType)
        → tag_begun (spelling_of spelling.now) kind token tag (names_of t names.old)
        ≡ record { number = b.number; members_of = b.members_of; names = names_of t names.new }) }
{
    let at = spelling.place(token);
    let number = use_tag(names, spelling, true, kind, token, tag)?;
    let members_of = begin_body(names, kind, &Some(spelling.key(tag)), &at, number)?;
    Ok(Begun { number, members_of })
}

/// A body without a tag begins; its keyword is at this place. Constant time but for growth.
pub fn begin_untagged(names: &mut Names, kind: TagKind, at: &Place) -> Result<Begun, NoMemory>
    ensures { IfOk result (λ b. (t : ℕ → CType) → untagged_begun at.now kind (names_of t names.old)
        ≡ record { number = b.number; members_of = b.members_of; names = names_of t names.new }) }
{
    let number = names.push_aggregate(kind, at)?;
    let members_of = begin_body(names, kind, &None, at, number)?;
    Ok(Begun { number, members_of })
}
