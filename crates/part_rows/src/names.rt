//! The names of a tape, of unit 1, without annotations.
//!
//! Questions are `names`, how many are declared; `role:k` and `owner:k`, the role of declaration k and the token of the function
//! that it belongs to; `type:k:j`, whether it has the type of declaration j; `function:k:j`, its type as a function, where `=`
//! is a parameter with the type of declaration j; `use:k`, what the name in an expression that is number k means; `structs`,
//! how many structs there are; `members`, the names of the members of the first, each with the own member in which it lies;
//! and `faults`.

use crate::tapes::tape_of;
use crate::words::{Word, put, put_number, put_whether, word_of};
use c_names::resolve_names;
use name_state::name_types::Types;
use name_state::unit_names::Names;
use name_tables::name_records::{Declared, Role, Rule, Use};
use name_tables::unit_spelling::Spelling;
use qual_base::{NoMemory, Numbered, TypeId, UnitNo};
use std::alloc::Global;
use tape_ops::Op;
use type_table::Shape;
use unit_shapes::ImplicitTypes;

/// Names, and the types that theirs are among.
#[derive(Drop)]
struct Resolved {
    names: Names,
    types: Types,
}

/// The names of a tape.
fn resolve(alloc: Global, tape: &[Op]) -> Result<Resolved, NoMemory> {
    let mut types = Types::new(alloc)?;
    let implicit = ImplicitTypes::push(alloc, &mut types)?;
    let spelling = Spelling {
        wide: false,
        unit: UnitNo::new(1),
        annotates: Vec::new(alloc),
        is_naught: Vec::new(alloc),
        keys: Vec::new(alloc),
    };
    let names = resolve_names(alloc, &spelling, &mut types, &implicit, tape)?;
    Ok(Resolved { names, types })
}

/// The declaration of a number.
fn declaration(it: &Resolved, number: u32) -> Option<Declared> {
    it.names.declared().get(number as usize).copied()
}

/// Adds the role of a declaration.
fn put_role(alloc: Global, out: &mut String, role: Role) -> Result<(), NoMemory> {
    match role {
        Role::Typedef => put(out, "typedef"),
        Role::Object => put(out, "object"),
        Role::Function => put(out, "function"),
        Role::Parameter(number) => put(out, format!(in alloc; "parameter:{number}")?.as_str()),
        Role::Field(aggregate, number) => {
            let aggregate = aggregate.number();
            put(
                out,
                format!(in alloc; "field:{aggregate}:{number}")?.as_str(),
            )
        }
        Role::Enumerator => put(out, "enumerator"),
    }
}

/// Adds the answer to a question about a declaration alone.
fn put_declared(
    alloc: Global,
    out: &mut String,
    it: &Declared,
    question: &Word,
) -> Result<(), NoMemory> {
    match question.name {
        b"role" => put_role(alloc, out, it.role),
        _ => match it.owner {
            Some(owner) => put_number(alloc, out, owner.1.number()),
            None => put(out, "nobody"),
        },
    }
}

/// Adds the type of a function: of each parameter whether it is a type, and whether the result is a reference.
fn put_function(
    out: &mut String,
    types: &Types,
    function: TypeId,
    other: TypeId,
) -> Result<(), NoMemory> {
    let Shape::Fun {
        params,
        result: back,
        ellipsis,
    } = types.table().shape(function)
    else {
        return put(out, "no function");
    };
    put(out, "(")?;
    for param in params.as_slice() {
        out.push(if *param == other { '=' } else { '?' })?;
    }
    if *ellipsis {
        out.push_str("...")?;
    }
    out.push(')')?;
    match types.table().shape(*back) {
        Shape::Ref(_) => out.push('*')?,
        _ => out.push('?')?,
    }
    Ok(())
}

/// Adds the answer to a question about the types of two declarations.
fn put_types(out: &mut String, it: &Resolved, question: &Word) -> Result<(), NoMemory> {
    let Some(one) = declaration(it, question.first) else {
        return put(out, "none");
    };
    let Some(other) = declaration(it, question.second) else {
        return put(out, "none");
    };
    match question.name {
        b"type" => put_whether(out, one.ty == other.ty),
        _ => put_function(out, &it.types, one.ty, other.ty),
    }
}

/// Adds what a name in an expression means.
fn put_use(alloc: Global, out: &mut String, it: &Resolved, number: u32) -> Result<(), NoMemory> {
    match it.names.uses().get(number as usize) {
        Some(found) => match found.use_of {
            Use::Means(at) => {
                let token = at.1.number();
                put(out, format!(in alloc; "means:{token}")?.as_str())
            }
            Use::Called => put(out, "called"),
            Use::Missing => put(out, "missing"),
        },
        None => put(out, "none"),
    }
}

/// Adds the members of the first struct.
fn put_members(alloc: Global, out: &mut String, it: &Resolved) -> Result<(), NoMemory> {
    let Some(aggregate) = it.names.aggregates().first() else {
        return put(out, "none");
    };
    let Some(body) = &aggregate.body else {
        return put(out, "none");
    };
    for known in body.known() {
        let name = known.name.number();
        let own = known.own;
        put(out, format!(in alloc; "{name}:{own}")?.as_str())?;
    }
    Ok(())
}

/// A rule in a word.
fn rule_text(rule: Rule) -> &'static str {
    match rule {
        Rule::Undeclared => "undeclared",
        Rule::DefinedTwice => "defined_twice",
        Rule::TypeTooLarge => "type_too_large",
        Rule::NoType => "no_type",
    }
}

/// Adds the faults, each with its token.
fn put_faults(alloc: Global, out: &mut String, it: &Resolved) -> Result<(), NoMemory> {
    if it.names.faults().is_empty() {
        return put(out, "no_faults");
    }
    for fault in it.names.faults() {
        let rule = rule_text(fault.rule);
        let token = fault.at.1.number();
        put(out, format!(in alloc; "{rule}:{token}")?.as_str())?;
    }
    Ok(())
}

/// A length as an answer has it.
fn count(length: usize) -> u32 {
    u32::try_from(length).unwrap_or(u32::MAX)
}

/// Adds the answer to a question.
fn put_answer(
    alloc: Global,
    out: &mut String,
    it: &Resolved,
    question: &Word,
) -> Result<(), NoMemory> {
    match question.name {
        b"names" => put_number(alloc, out, count(it.names.declared().len())),
        b"structs" => put_number(alloc, out, count(it.names.aggregates().len())),
        b"use" => put_use(alloc, out, it, question.first),
        b"members" => put_members(alloc, out, it),
        b"faults" => put_faults(alloc, out, it),
        b"role" | b"owner" => match declaration(it, question.first) {
            Some(found) => put_declared(alloc, out, &found, question),
            None => put(out, "none"),
        },
        _ => put_types(out, it, question),
    }
}

/// The answers to questions about the names of a tape.
pub(crate) fn names_text(alloc: Global, words: &str, questions: &str) -> Result<String, NoMemory> {
    let mut out = String::new(alloc);
    let Some(tape) = tape_of(alloc, words)? else {
        put(&mut out, "no tape")?;
        return Ok(out);
    };
    let it = resolve(alloc, &tape)?;
    for question in questions.split_whitespace() {
        put_answer(alloc, &mut out, &it, &word_of(question))?;
    }
    Ok(out)
}
