//! The signatures of a program as a library, and why it has none.

ghost use Rattle.std.specs.Prelude.{◌≡◌, ◌≢◌, ◌<◌, None, IfOk, IfSome, length, option_map};
ghost use Rattle.sig_writer.specs.declared.lines.SigFault.TheVariants.{NoMemory as OutOfMemory};
ghost use Rattle.lattice_core.specs.View.{orders_of};
ghost use Rattle.flow_graph.specs.System.{IsWellOwned};
ghost use Rattle.flow_graph.specs.Unfolding.{IsAccepted};
ghost use Rattle.annotate.specs.Solutions.{AllNamed};
ghost use Rattle.annotate.specs.Scenes.{unit_of, units_of, AreApart, Shows};
ghost use Rattle.annotate.specs.Texts.{place_in, place_text};
ghost use Rattle.sig_writer.specs.Library.{externals_by};
ghost use Rattle.sig_writer.specs.Nodes.{AreInOrder};
ghost use Rattle.sig_writer.specs.Parts.{AreOwnedApart};
ghost use Rattle.sig_writer.specs.Suits.{IsUnsuited, Suits};
ghost use Rattle.cqual_tool.specs.Statuses.{Says};
ghost use Rattle.cqual_tool.specs.Texts.{no_signature_at, no_signature_line};
ghost use Rattle.cqual_tool.specs.Programs.{Judging};
ghost use Rattle.cqual_tool.specs.Signing.{accepted_with, IsLibraryOf, SaysRefused, SaysShared};
ghost use Rattle.cqual_tool.specs.Outcome.{IsDecided, IsSigned};

use crate::answer::{Answer, no_signature, no_signature_at};
use crate::status::Status;
use annotate::{Scene, UnitText, put_spot, unit_at};
use flow_graph::FlowGraph;
use lattice_core::Lattices;
use name_tables::name_scopes::Place;
use qual_base::{EdgeId, LatticeNo, NoMemory, Numbered, TokenId, UnitNo};
use sig_writer::{Library, SigFault, Unsuited, signed, suits};
use std::alloc::Global;

/// FILE:LINE:COLUMN of a token of a unit; nothing where there is no such token.
fn place_in(alloc: Global, unit: &UnitText<'_>, token: TokenId) -> Result<Vec<u8>, NoMemory>
    ensures { IfOk result (λ place. place.items ≡ place_in (Some (unit_of unit.now)) token) }
{
    let mut place = Vec::new(alloc);
    if token.number() < unit.tokens.len() {
        let spot = unit.tokens.place_of(token);
        put_spot(&mut place, unit.file, unit.tokens.unit_bytes(), &spot)?;
    }
    Ok(place)
}

/// FILE:LINE:COLUMN of a token; nothing where it is not there.
fn place_of(
    alloc: Global,
    scene: &Scene<'_>,
    unit: UnitNo,
    token: TokenId,
) -> Result<Vec<u8>, NoMemory>
    ensures { IfOk result (λ place. (s : _) → Shows scene.now s →
        place.items ≡ place_text s unit token) }
{
    match unit_at(scene.units, unit) {
        Some(found) => place_in(alloc, &found, token),
        None => Ok(Vec::new(alloc)),
    }
}

/// The line of a library that has no signatures for what is at a token.
fn refused_at(
    alloc: Global,
    scene: &Scene<'_>,
    unit: UnitNo,
    token: TokenId,
    code: &[u8],
) -> Result<Answer, NoMemory>
    ensures line { IfOk result (λ answer. (s : _) → Shows scene.now s →
        Says Status.NoSignature (no_signature_at (place_text s unit token) code.now) answer) }
    ensures decided { IfOk result (λ answer. IsDecided answer.status) }
{
    let place = place_of(alloc, scene, unit, token)?;
    Ok(no_signature_at(alloc, &place, code)?)
}

/// The line of a library that has no signatures for a constraint.
fn shared(
    alloc: Global,
    scene: &Scene<'_>,
    graph: &FlowGraph,
    at: EdgeId,
) -> Result<Answer, NoMemory>
    requires { at < length graph.now.constraints }
    ensures line { IfOk result (λ answer. (s : _) → Shows scene.now s →
        SaysShared s graph.now at answer) }
    ensures decided { IfOk result (λ answer. IsDecided answer.status) }
{
    let span = graph.constraint(at).span;
    refused_at(alloc, scene, span.unit, span.from, b"U2")
}

/// The line of a library that does not suit.
fn unsuited(
    alloc: Global,
    scene: &Scene<'_>,
    graph: &FlowGraph,
    fault: Unsuited,
) -> Result<Answer, NoMemory>
    requires { IsUnsuited graph.now scene.now.lattices.now fault }
    ensures signed { IfOk result (λ answer. (it : Judging) → Shows scene.now it.scene →
        it.system ≡ graph.now → IsSigned it answer.status answer.text.items) }
    ensures decided { IfOk result (λ answer. IsDecided answer.status) }
{
    match fault {
        Unsuited::Lattice => Ok(no_signature(alloc, b"U1")?),
        Unsuited::Shared(at) => shared(alloc, scene, graph, at),
    }
}

/// The line of a function without a signature.
fn unsigned(alloc: Global, scene: &Scene<'_>, at: &Place, code: &[u8]) -> Result<Answer, NoMemory>
    ensures line { IfOk result (λ answer. (s : _) → Shows scene.now s →
        Says Status.NoSignature (no_signature_at (place_text s at.now.0 at.now.1) code.now) answer) }
    ensures decided { IfOk result (λ answer. IsDecided answer.status) }
{
    let (unit, token) = *at;
    refused_at(alloc, scene, unit, token, code)
}

/// The line of the first function without a signature.
fn refused(alloc: Global, scene: &Scene<'_>, fault: SigFault) -> Result<Answer, NoMemory>
    ensures line { IfOk result
        (λ answer. (s : _) → Shows scene.now s → SaysRefused s fault answer) }
    ensures decided { IfOk result (λ answer. IsDecided answer.status) }
    ensures reason { IfOk result (λ _. fault ≢ OutOfMemory) }
{
    match fault {
        SigFault::Unwritable(at) => unsigned(alloc, scene, &at, b"U3"),
        SigFault::NoSign(at) => unsigned(alloc, scene, &at, b"U4"),
        SigFault::NoMemory => Err(NoMemory),
    }
}

/// The answer with the lines of a library, where there are some.
fn written(found: Option<Vec<u8>>) -> Option<Answer>
    ensures { result ≡ option_map accepted_with found }
{
    match found {
        Some(text) => Some(Answer {
            status: Status::Accepted,
            text,
        }),
        None => None,
    }
}

/// The answer for a library that suits, over its one lattice; nothing where the library is not accepted.
fn signed_by(
    alloc: Global,
    scene: &Scene<'_>,
    graph: &FlowGraph,
    library: &Library<'_>,
) -> Result<Option<Answer>, NoMemory>
    requires suits { Suits graph.now scene.now.lattices.now }
    requires units { AreApart (units_of library.now.units.now) }
    requires skeletons { AreInOrder library.now.skeletons.now }
    requires apart { AreOwnedApart graph.now (externals_by library.now) }
    requires owned { IsWellOwned graph.now }
    requires named { AllNamed scene.now.lattices.now graph.now }
    ensures signed { IfOk result (λ found. IfSome found (λ answer. (it : Judging) →
        Shows scene.now it.scene → it.system ≡ graph.now → IsLibraryOf it library.now →
        IsSigned it answer.status answer.text.items)) }
    ensures decided { IfOk result (λ found. IfSome found (λ answer. IsDecided answer.status)) }
    ensures rejected { IfOk result (λ found. found ≡ None →
        IsAccepted graph.now (orders_of scene.now.lattices.now) → ⊥) }
{
    match signed(alloc, library, graph, scene.lattices.get(LatticeNo::new(0))) {
        Ok(found) => Ok(written(found)),
        Err(fault) => Ok(Some(refused(alloc, scene, fault)?)),
    }
}

/// The answer for a program whose signatures as a library are asked for: these, or why it has none; nothing where it suits and is not
/// accepted.
pub fn sign(
    alloc: Global,
    scene: &Scene<'_>,
    graph: &FlowGraph,
    library: &Library<'_>,
) -> Result<Option<Answer>, NoMemory>
    requires units { AreApart (units_of library.now.units.now) }
    requires skeletons { AreInOrder library.now.skeletons.now }
    requires apart { AreOwnedApart graph.now (externals_by library.now) }
    requires owned { IsWellOwned graph.now }
    requires named { AllNamed scene.now.lattices.now graph.now }
    ensures signed { IfOk result (λ found. IfSome found (λ answer. (it : Judging) →
        Shows scene.now it.scene → it.system ≡ graph.now → IsLibraryOf it library.now →
        IsSigned it answer.status answer.text.items)) }
    ensures decided { IfOk result (λ found. IfSome found (λ answer. IsDecided answer.status)) }
    ensures rejected { IfOk result (λ found. found ≡ None →
        Suits graph.now scene.now.lattices.now
        × (IsAccepted graph.now (orders_of scene.now.lattices.now) → ⊥)) }
{
    match suits(graph, scene.lattices) {
        Ok(()) => signed_by(alloc, scene, graph, library),
        Err(fault) => Ok(Some(unsuited(alloc, scene, graph, fault)?)),
    }
}
