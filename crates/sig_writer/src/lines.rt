//! The lines of a library.

ghost use Rattle.std.specs.Prelude.{◌≡◌, ◌++◌, None, Some, IfErr, IfOk, OnOk};
ghost use Rattle.std.specs.List.{flat_map};
ghost use Rattle.qual_types.specs.Rows.{skel_of};
ghost use Rattle.annotate.specs.Texts.{bytes_in, unit_in};
ghost use Rattle.annotate.specs.Scenes.{units_of, AreApart};
ghost use Rattle.sig_writer.specs.Signatures as rules;
ghost use Rattle.sig_writer.specs.Signatures.{Found, first_refusal, lines_of, nodes_of, refusal_of as refusal_found};
ghost use Rattle.sig_writer.specs.Saying.{some_says, AreKnown, AreSaid, IsKnownOf};
ghost use Rattle.sig_writer.specs.Typing.{words_by, AreTyped};
ghost use Rattle.sig_writer.specs.Library.{external_by, externals_by, line_by, some_fault, FaultOr};
ghost use Rattle.sig_writer.specs.Nodes.{AreInOrder};
ghost use Rattle.sig_writer.specs.Refusing.{refusal_at, AreAllWithin};

use crate::nodes::{nodes_at, root_at};
use crate::refusals::{Refusal, refusal_of};
use crate::says::{Known, Said, say};
use crate::types::{Typed, put_type};
use annotate::{UnitText, bytes_of, put, unit_at};
use name_tables::name_scopes::Place;
use qual_base::{NoMemory, Numbered, SkelId, VarId};
use qual_types::Look;
use std::alloc::Global;
use unit_starts::unit_skeletons::Skeletons;

/// The external functions of a library, each by where it was first declared, its units and its skeletons.
#[derive(Clone, Copy)]
pub struct Library<'a> {
    pub functions: &'a [Place],
    pub units: &'a [UnitText<'a>],
    pub skeletons: &'a Skeletons,
}

/// Why a library has no signatures: a function has none, by where it was first declared, or memory is wanting.
#[derive(Clone, Copy, PartialEq, Eq, Debug, Drop)]
pub enum SigFault {
    /// Something is to be said of the function where no word has a place.
    Unwritable(Place),
    /// Some node of the function has elements for which there is no word, or no pair of words.
    NoSign(Place),
    NoMemory,
}

impl From<NoMemory> for SigFault {
    ghost use Rattle.std.specs.Prelude.{◌≡◌};
    ghost use Rattle.sig_writer.specs.declared.lines.SigFault.TheVariants.{NoMemory as OutOfMemory};

    ghost from_gives = { λ _ fault. fault ≡ OutOfMemory };

    fn from(_error: NoMemory) -> SigFault {
        SigFault::NoMemory
    }
}

/// A refusal of the function that was first declared at a place.
fn fault_at(refusal: Refusal, at: &Place) -> SigFault
    ensures { some_fault result ≡ Some (refusal_at refusal at.now) }
{
    match refusal {
        Refusal::NoPlace => SigFault::Unwritable(*at),
        Refusal::NoWord => SigFault::NoSign(*at),
    }
}

/// The bytes of the name at a place; none where there is no such token.
fn name_at<'a>(units: &'a [UnitText<'a>], at: &Place) -> &'a [u8]
    ensures { AreApart (units_of units.now) →
        result.now ≡ bytes_in (unit_in (units_of units.now) at.now.0) at.now.1 }
{
    let (unit, token) = *at;
    match unit_at(units, unit) {
        Some(found) => bytes_of(&found, token),
        None => b"",
    }
}

/// Whether something is said at some node. Linear in them.
fn says_some(said: &Said) -> bool
    ensures { result ≡ some_says said.now said.now.vars }
{
    let nodes = said.nodes();
    for n in nodes.from..nodes.to {
        if said.says(VarId::new(n)) {
            return true;
        }
    }
    false
}

/// The text of what a skeleton at a declared name refers to, round the name.
fn put_declared(
    out: &mut Vec<u8>,
    typed: &Typed<'_>,
    at: SkelId,
    name: &[u8],
) -> Result<(), NoMemory>
    requires { AreTyped typed.now }
    ensures { OnOk result (out.new.items ≡ out.old.items
        ++ rules.declared_text (words_by typed.now) (skel_of typed.now.vars.now at) name.now) }
{
    match typed.vars.look(at) {
        Look::Ref(_, inside) => put_type(out, typed, inside, name),
        Look::Flat(_, _) => Ok(()),
        Look::Fun { .. } => Ok(()),
    }
}

/// The line of a function, where something is said at a node of it, and else nothing.
pub(crate) fn put_line(
    out: &mut Vec<u8>,
    typed: &Typed<'_>,
    at: SkelId,
    name: &[u8],
) -> Result<(), NoMemory>
    requires { AreTyped typed.now }
    ensures { OnOk result (out.new.items ≡ out.old.items ++ line_by
        (some_says typed.now.said.now typed.now.said.now.vars)
        (rules.declared_text (words_by typed.now) (skel_of typed.now.vars.now at) name.now)) }
{
    if !says_some(typed.said) {
        return Ok(());
    }
    put_declared(out, typed, at, name)?;
    put(out, b";\n")?;
    Ok(())
}

/// The line of a function whose nodes say this, or why there is none.
fn put_said(
    out: &mut Vec<u8>,
    library: &Library<'_>,
    known: &Known<'_>,
    said: &Said,
    at: &Place,
) -> Result<(), SigFault>
    requires units { AreApart (units_of library.now.units.now) }
    requires within { AreAllWithin known.now.lattice.now said.now }
    ensures line { OnOk result ((it : Found) →
        AreSaid it (nodes_of (external_by library.now at.now)) said.now →
        (refusal_found it known.now.lattice.now (external_by library.now at.now) ≡ None)
        × (out.new.items ≡ out.old.items
        ++ rules.line_of it known.now.lattice.now (external_by library.now at.now))) }
    ensures refused { IfErr result (λ fault. (it : Found) →
        AreSaid it (nodes_of (external_by library.now at.now)) said.now → FaultOr fault
        (refusal_found it known.now.lattice.now (external_by library.now at.now))) }
{
    let vars = library.skeletons.vars();
    vars.law();
    let root = root_at(library.skeletons, at);
    if let Some(refusal) = refusal_of(known.lattice, vars, said, root) {
        return Err(fault_at(refusal, at));
    }
    let typed = Typed {
        lattice: known.lattice,
        vars,
        said,
    };
    put_line(out, &typed, root, name_at(library.units, at))?;
    Ok(())
}

/// The line of the function that was first declared at a place, where it has one, or why it has no signature.
fn put_function(
    alloc: Global,
    out: &mut Vec<u8>,
    library: &Library<'_>,
    known: &Known<'_>,
    at: &Place,
) -> Result<(), SigFault>
    requires units { AreApart (units_of library.now.units.now) }
    requires skeletons { AreInOrder library.now.skeletons.now }
    requires known { AreKnown known.now }
    ensures line { OnOk result ((it : Found) →
        IsKnownOf known.now (nodes_of (external_by library.now at.now)) it →
        (refusal_found it known.now.lattice.now (external_by library.now at.now) ≡ None)
        × (out.new.items ≡ out.old.items
        ++ rules.line_of it known.now.lattice.now (external_by library.now at.now))) }
    ensures refused { IfErr result (λ fault. (it : Found) →
        IsKnownOf known.now (nodes_of (external_by library.now at.now)) it → FaultOr fault
        (refusal_found it known.now.lattice.now (external_by library.now at.now))) }
{
    let said = say(alloc, known, nodes_at(library.skeletons, at))?;
    put_said(out, library, known, &said, at)
}

/// The lines of the functions of a library, in the order of their first declarations, or why the first of them that has
/// no signature has none. Linear in the nodes of the functions, in the matched paths that begin at them, and in the text.
pub fn signatures(
    alloc: Global,
    library: &Library<'_>,
    known: &Known<'_>,
) -> Result<Vec<u8>, SigFault>
    requires units { AreApart (units_of library.now.units.now) }
    requires skeletons { AreInOrder library.now.skeletons.now }
    requires known { AreKnown known.now }
    ensures lines { IfOk result (λ text. (it : Found) →
        IsKnownOf known.now (flat_map nodes_of (externals_by library.now)) it →
        (first_refusal it known.now.lattice.now (externals_by library.now) ≡ None)
        × (text.items ≡ lines_of it known.now.lattice.now (externals_by library.now))) }
    ensures refused { IfErr result (λ fault. (it : Found) →
        IsKnownOf known.now (flat_map nodes_of (externals_by library.now)) it → FaultOr fault
        (first_refusal it known.now.lattice.now (externals_by library.now))) }
{
    let mut text = Vec::new(alloc);
    for at in library.functions {
        put_function(alloc, &mut text, library, known, at)?;
    }
    Ok(text)
}
