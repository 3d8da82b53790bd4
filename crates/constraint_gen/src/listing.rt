//! The variables that a report lists.

ghost use Rattle.std.specs.Prelude.{◌≡◌, ◌+◌, ◌≤◌, ◌++◌, [], map, slice_get, IfOk, IfSome, OnOk, if◌then◌else◌};
ghost use Rattle.std.specs.List.{Contains};
ghost use Rattle.flow_graph.specs.System.{most_variables};
ghost use Rattle.type_table.specs.Types.{size};
ghost use Rattle.row_rules.specs.Sites.{variables_among};
ghost use Rattle.unit_starts.specs.PositionLaws.Positions.{positions_of};
ghost use Rattle.unit_starts.specs.Views.{start_in};
ghost use Rattle.unit_shapes.specs.Views.{names_in};
ghost use Rattle.constraint_gen.specs.Listing as rules;
ghost use Rattle.constraint_gen.specs.Marking.{NumbersDiffer};
ghost use Rattle.constraint_gen.specs.Listing.{is_listed, listed_at, numbers, listed_from};

use c_lexer::Tokens;
use c_types::Program;
use c_words::TokenKind;
use name_tables::name_scopes::Place;
use qual_base::{NoMemory, Numbered, TokenId, UnitNo, VarId};
use std::alloc::Global;
use unit_starts::Start;
use unit_starts::position_laws::positions_are_counted;

fn is_name(kind: TokenKind) -> bool
    ensures { result ≡ rules.is_name kind }
{
    match kind {
        TokenKind::Name(_) => true,
        TokenKind::Index
        | TokenKind::Keyword(_)
        | TokenKind::Number
        | TokenKind::Char
        | TokenKind::Text
        | TokenKind::Punct(_)
        | TokenKind::Qual(_, _)
        | TokenKind::End => false,
    }
}

/// Whether a token is there and is a name. Constant time.
fn is_name_token(tokens: &Tokens, token: TokenId) -> bool
    ensures { result ≡ rules.is_name_token (slice_get tokens.now.tokens token) }
{
    if token.number() >= tokens.len() {
        return false;
    }
    is_name(tokens.kind(token))
}

/// The unit of a number, where units are in the order of their numbers and none is left out. Constant time.
fn unit_in_order<'a, 'b>(units: &'a [Tokens<'b>], unit: UnitNo) -> Option<&'a Tokens<'b>>
    ensures one { IfSome result (λ it. Contains units.now it.now) }
    ensures unit { IfSome result (λ it. it.now.unit ≡ unit) }
{
    let first = units.first()?;
    let index = unit.number().checked_sub(first.unit().number())?;
    let tokens = units.get(index as usize)?;
    if tokens.unit().number() == unit.number() {
        Some(tokens)
    } else {
        None
    }
}

/// Whether the token at a place is a name, by going through all units. Linear in their number.
fn is_name_in_some(units: &[Tokens], at: &Place) -> bool
    ensures { result ≡ rules.is_name_at units.now at.now }
{
    let (unit, token) = *at;
    for tokens in units {
        if tokens.unit().number() == unit.number() {
            return is_name_token(tokens, token);
        }
    }
    false
}

/// Whether the token at a place is a name. Constant time where the units are in the order of their numbers and none is left out, and
/// linear in their number otherwise.
#[tactic(auto, using(crate::proofs::Units::named_by_one))]
fn is_name_at(units: &[Tokens], at: &Place) -> bool
    ensures { NumbersDiffer units.now → result ≡ rules.is_name_at units.now at.now }
{
    match unit_in_order(units, at.0) {
        Some(tokens) => is_name_token(tokens, at.1),
        None => is_name_in_some(units, at),
    }
}

/// Whether a source, and not a prelude, declares a name at a place. Constant time where the units are in the order of their numbers.
fn is_listed(units: &[Tokens], program: &Program, at: &Place) -> bool
    ensures { NumbersDiffer units.now → result ≡ is_listed units.now
        (names_in program.now.rows program.now.names) at.now }
{
    at.0.number() != 0 && is_name_at(units, at) && program.found_names().declared_at(at).is_some()
}

/// Adds so many numbers, from one on. Linear in them.
#[tactic(auto, using(crate::proofs::Numbering::numbers_next, crate::proofs::Numbering::numbers_end))]
fn add_numbers(found: &mut Vec<VarId>, from: u32, count: u32) -> Result<(), NoMemory>
    requires { from + count ≤ most_variables }
    ensures { OnOk result (found.new.items ≡ found.old.items ++ numbers count from) }
{
    for number in from..from + count {
        found.push(VarId::new(number))?;
    }
    Ok(())
}

/// Adds the variables of a skeleton where it begins at a declared name, and answers the number behind it. Linear in them.
fn add_start(
    found: &mut Vec<VarId>,
    units: &[Tokens],
    program: &Program,
    start: &Start,
    from: u32,
) -> Result<u32, NoMemory>
    requires { from + size (start_in program.now.rows start.now).type ≤ most_variables }
    ensures found { OnOk result (NumbersDiffer units.now → found.new.items ≡ found.old.items
        ++ (if is_listed units.now
        (names_in program.now.rows program.now.names) start.now.at
        then numbers (size (start_in program.now.rows start.now).type) from else [])) }
    ensures next { IfOk result
        (λ next. next ≡ from + size (start_in program.now.rows start.now).type) }
{
    let count = start.size(program.types());
    if is_listed(units, program, &start.at) {
        add_numbers(found, from, count)?;
    }
    Ok(from + count)
}

/// The variables of the skeletons that begin where a source declares a name, ascending. Linear in the skeletons and in these
/// variables.
#[tactic(auto, using(crate::proofs::Numbering::listed_next, crate::proofs::Numbering::count_next))]
fn listed_starts(
    alloc: Global,
    units: &[Tokens],
    program: &Program,
    starts: &[Start],
) -> Result<Vec<VarId>, NoMemory>
    requires { variables_among (map (start_in program.now.rows) starts.now) ≤ most_variables }
    ensures { IfOk result (λ it. NumbersDiffer units.now → it.items ≡ listed_from (is_listed
        units.now (names_in program.now.rows program.now.names))
        0 (map (start_in program.now.rows) starts.now)) }
{
    let mut found = Vec::new(alloc);
    let mut from = 0u32;
    for start in starts {
        from = add_start(&mut found, units, program, start, from)?;
    }
    Ok(found)
}

/// The variables that stand where a source declares a name, ascending. Linear in the skeletons and in these variables.
#[tactic(auto, using(crate::proofs::Numbering::listed_is))]
pub(crate) fn listed(
    alloc: Global,
    units: &[Tokens],
    program: &Program,
    starts: &[Start],
) -> Result<Vec<VarId>, NoMemory>
    requires { variables_among (map (start_in program.now.rows) starts.now) ≤ most_variables }
    ensures { IfOk result (λ it. NumbersDiffer units.now → it.items ≡ listed_at (is_listed
        units.now (names_in program.now.rows program.now.names))
        0 (positions_of (map (start_in program.now.rows) starts.now))) }
{
    positions_are_counted();
    listed_starts(alloc, units, program, starts)
}
