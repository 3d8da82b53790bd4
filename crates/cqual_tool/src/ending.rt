//! What is asked of a program whose constraints are there: its report, its certificate, who reaches a name, its signatures as a
//! library, or what a saved report or certificate comes to.

ghost use Rattle.std.specs.Prelude.{◌≡◌, ◌<◌, ◌-◌, ◌^◌, ℕ, List, None, Some, IfOk, length};
ghost use Rattle.outside.specs.Readings.{stands};
ghost use Rattle.lattice_core.specs.View.{orders_of};
ghost use Rattle.index_words.specs.Marks.{IndexMark};
ghost use Rattle.c_types.specs.Sources.{UnitRead, lexed_of, sources_in};
ghost use Rattle.row_laws.specs.KeyLaws.Differing.{UnitsDiffer};
ghost use Rattle.constraint_gen.specs.Programs.{program_in};
ghost use Rattle.constraint_gen.specs.Generating.{IsGenerated};
ghost use Rattle.flow_graph.specs.System.{IsWellOwned};
ghost use Rattle.flow_graph.specs.Unfolding.{NamesElements};
ghost use Rattle.annotate.specs.Scenes.{Shows, units_of};
ghost use Rattle.annotate.specs.Solutions.{AllNamed};
ghost use Rattle.cqual_tool.specs.Statuses.{checked_status, status_of, verdict_status};
ghost use Rattle.cqual_tool.specs.Words.{FileNames, names_in as files_in, saved_in};
ghost use Rattle.cqual_tool.specs.Programs.{Judging, judging_of, texts_of};
ghost use Rattle.cqual_tool.specs.Answering.{EndAnswered};
ghost use Rattle.cqual_tool.specs.Outcome.{IsAlone, IsAnswered, IsCertified, IsChecked, IsDecided};
ghost use Rattle.cqual_tool.specs.Outcome.{IsOfSaved, IsReport, IsSigned, IsVerified};
ghost use Rattle.cqual_tool.specs.Preparing.{IsReady};
ghost use Rattle.cqual_tool.specs.Signing.{MaySign};

use crate::answer::{Answer, no_name};
use crate::preparing::{Ready, texts};
use crate::signing::sign;
use crate::status::Status;
use crate::taking::{Failure, SAVED_LIMIT, taken, too_large};
use crate::words::Named;
use annotate::{Judged, Scene, UnitText, judge_with};
use certificate_checks::{Verdict, judge_certificate, put_verdict};
use certificate_maker::certified;
use constraint_gen::Generated;
use cqual_words::Question;
use flow_graph::FlowGraph;
use flow_query::answer_who;
use lattice_core::Lattices;
use outside::Files;
use path_checker::report_checks::{Checked, judge_report, put_checked};
use qual_base::{NoMemory, Numbered, UnitNo};
use sig_writer::Library;
use std::alloc::Global;

/// What the answers for a program name, by the texts of its units.
fn scene_of<'a>(texts: &'a [UnitText<'a>], lattices: &'a Lattices, made: &'a Generated) -> Scene<'a>
    ensures lattices { result.lattices.now ≡ lattices.now }
    ensures shows { (named : FileNames) (units : List UnitRead) (marks : List IndexMark) →
        units_of texts.now ≡ texts_of named (lexed_of units) → UnitsDiffer (sources_in units) →
        IsGenerated units (program_in lattices.now marks units) made.now →
        Shows result (judging_of named lattices.now marks units).scene }
{
    Scene {
        units: texts,
        lattices,
        vars: made.skeletons.vars(),
        listed: &made.listed,
    }
}

/// The answer for a program that was judged.
fn reported(judged: Judged) -> Answer
    ensures text { result.text ≡ judged.text }
    ensures status { result.status ≡ status_of judged.accepted }
{
    let status = if judged.accepted {
        Status::Accepted
    } else {
        Status::Rejected
    };
    Answer {
        status,
        text: judged.text,
    }
}

/// The answer for constraints and what the reports name of them. Each lattice is solved once.
fn report(
    alloc: Global,
    scene: &Scene<'_>,
    graph: &FlowGraph,
    annotated: Option<UnitNo>,
) -> Result<Answer, NoMemory>
    requires named { AllNamed scene.now.lattices.now graph.now }
    requires owned { IsWellOwned graph.now }
    ensures report { IfOk result (λ answer. (it : Judging) → Shows scene.now it.scene →
        it.system ≡ graph.now →
        IsReport annotated it answer.status answer.text.items) }
    ensures decided { IfOk result (λ answer. IsDecided answer.status) }
{
    let judged = judge_with(alloc, scene, graph, annotated)?;
    Ok(reported(judged))
}

/// The report of a program, with the annotated source of a unit, if it is asked for.
fn inferred(
    alloc: Global,
    named: &Named<'_>,
    lattices: &Lattices,
    ready: &Ready<'_>,
    annotated: Option<UnitNo>,
) -> Result<Answer, NoMemory>
    requires named { AllNamed lattices.now ready.now.made.graph }
    requires owned { IsWellOwned ready.now.made.graph }
    ensures report { (units : List UnitRead) (marks : List IndexMark) →
        ready.now.tokens.items ≡ lexed_of units → UnitsDiffer (sources_in units) →
        IsGenerated units (program_in lattices.now marks units) ready.now.made →
        IfOk result (λ answer. IsReport annotated
        (judging_of (files_in named.now) lattices.now marks units)
        answer.status answer.text.items) }
    ensures decided { IfOk result (λ answer. IsDecided answer.status) }
{
    let units = texts(alloc, named, &ready.tokens)?;
    let scene = scene_of(&units, lattices, &ready.made);
    report(alloc, &scene, &ready.made.graph, annotated)
}

/// The certificate of a program, or its report where it is not accepted.
fn certificate(
    alloc: Global,
    named: &Named<'_>,
    lattices: &Lattices,
    ready: &Ready<'_>,
) -> Result<Answer, NoMemory>
    requires named { AllNamed lattices.now ready.now.made.graph }
    requires owned { IsWellOwned ready.now.made.graph }
    requires elements { NamesElements ready.now.made.graph (orders_of lattices.now) }
    ensures certified { (units : List UnitRead) (marks : List IndexMark) →
        IsReady (files_in named.now) lattices.now marks units ready.now →
        IfOk result (λ answer. IsCertified
        (judging_of (files_in named.now) lattices.now marks units)
        answer.status answer.text.items) }
    ensures decided { IfOk result (λ answer. IsDecided answer.status) }
{
    match certified(alloc, &ready.made.graph, lattices)? {
        Some(text) => Ok(Answer {
            status: Status::Accepted,
            text,
        }),
        None => inferred(alloc, named, lattices, ready, None),
    }
}

/// The answer for a name, over constraints and what the text names of them.
fn answered(
    alloc: Global,
    scene: &Scene<'_>,
    graph: &FlowGraph,
    name: &str,
) -> Result<Answer, NoMemory>
    requires owned { IsWellOwned graph.now }
    ensures answered { IfOk result (λ answer. (it : Judging) → Shows scene.now it.scene →
        it.system ≡ graph.now → IsAnswered it name.now answer.status answer.text.items) }
    ensures decided { IfOk result (λ answer. IsDecided answer.status) }
{
    match answer_who(alloc, scene, graph, name.as_bytes())? {
        Some(text) => Ok(Answer {
            status: Status::Answered,
            text,
        }),
        None => Ok(no_name(alloc, name.as_bytes())?),
    }
}

/// Who reaches the declared names of this spelling in a program.
fn who(
    alloc: Global,
    named: &Named<'_>,
    lattices: &Lattices,
    ready: &Ready<'_>,
    name: &str,
) -> Result<Answer, NoMemory>
    requires owned { IsWellOwned ready.now.made.graph }
    ensures answered { (units : List UnitRead) (marks : List IndexMark) →
        IsReady (files_in named.now) lattices.now marks units ready.now →
        IfOk result (λ answer. IsAnswered
        (judging_of (files_in named.now) lattices.now marks units) name.now
        answer.status answer.text.items) }
    ensures decided { IfOk result (λ answer. IsDecided answer.status) }
{
    let units = texts(alloc, named, &ready.tokens)?;
    let scene = scene_of(&units, lattices, &ready.made);
    answered(alloc, &scene, &ready.made.graph, name)
}

/// The signatures of a program as a library, or why it has none, or its report where it is not accepted.
fn signatures(
    alloc: Global,
    named: &Named<'_>,
    lattices: &Lattices,
    ready: &Ready<'_>,
) -> Result<Answer, NoMemory>
    requires named { AllNamed lattices.now ready.now.made.graph }
    requires owned { IsWellOwned ready.now.made.graph }
    requires signs { MaySign ready.now }
    ensures signed { (units : List UnitRead) (marks : List IndexMark) →
        IsReady (files_in named.now) lattices.now marks units ready.now →
        IfOk result (λ answer. IsSigned
        (judging_of (files_in named.now) lattices.now marks units)
        answer.status answer.text.items) }
    ensures decided { IfOk result (λ answer. IsDecided answer.status) }
{
    let units = texts(alloc, named, &ready.tokens)?;
    let scene = scene_of(&units, lattices, &ready.made);
    let library = Library {
        functions: &ready.functions,
        units: &units,
        skeletons: &ready.made.skeletons,
    };
    match sign(alloc, &scene, &ready.made.graph, &library)? {
        Some(answer) => Ok(answer),
        None => report(alloc, &scene, &ready.made.graph, None),
    }
}

/// The answer for a program, where no saved file is asked of: its report, its certificate, who reaches a name, or its signatures. The one
/// source is unit 1.
fn alone(
    alloc: Global,
    named: &Named<'_>,
    lattices: &Lattices,
    ready: &Ready<'_>,
) -> Result<Answer, NoMemory>
    requires none { saved_in (files_in named.now) ≡ None }
    requires named { AllNamed lattices.now ready.now.made.graph }
    requires owned { IsWellOwned ready.now.made.graph }
    requires elements { NamesElements ready.now.made.graph (orders_of lattices.now) }
    requires signs { MaySign ready.now }
    ensures alone { (units : List UnitRead) (marks : List IndexMark) →
        IsReady (files_in named.now) lattices.now marks units ready.now →
        IfOk result (λ answer. IsAlone (files_in named.now).asked
        (judging_of (files_in named.now) lattices.now marks units)
        answer.status answer.text.items) }
    ensures decided { IfOk result (λ answer. IsDecided answer.status) }
{
    match named.asked {
        Question::Annotate => inferred(alloc, named, lattices, ready, Some(UnitNo::new(1))),
        Question::Certify => certificate(alloc, named, lattices, ready),
        Question::Who(name) => who(alloc, named, lattices, ready, name),
        Question::Sign => signatures(alloc, named, lattices, ready),
        // (the last two are never asked here)
        Question::Infer | Question::Check(_) | Question::Verify(_) => {
            inferred(alloc, named, lattices, ready, None)
        }
    }
}

/// The status of what a report comes to.
fn status_for(checked: &Checked) -> Status
    ensures { result ≡ checked_status checked.now }
{
    match checked {
        Checked::Hold => Status::PathsHold,
        Checked::Bad { .. } => Status::PathBad,
    }
}

/// The answer for the text of a report.
fn checked(
    alloc: Global,
    lattices: &Lattices,
    graph: &FlowGraph,
    text: &[u8],
) -> Result<Answer, NoMemory>
    requires length { length text.now < 2 ^ 32 - 1 }
    requires owned { IsWellOwned graph.now }
    requires elements { NamesElements graph.now (orders_of lattices.now) }
    ensures checked { IfOk result (λ answer. (it : Judging) → it.scene.lattices ≡ lattices.now →
        it.system ≡ graph.now → IsChecked it text.now answer.status answer.text.items) }
    ensures decided { IfOk result (λ answer. IsDecided answer.status) }
{
    let found = judge_report(alloc, graph, lattices, text)?;
    let mut text = Vec::new(alloc);
    put_checked(&mut text, found)?;
    Ok(Answer {
        status: status_for(&found),
        text,
    })
}

/// The status of what a certificate comes to.
fn status_of(verdict: Verdict) -> Status
    ensures { result ≡ verdict_status verdict }
{
    match verdict {
        Verdict::Holds => Status::CertificateHolds,
        Verdict::Fails { .. } | Verdict::Unread { .. } => Status::CertificateBad,
    }
}

/// The answer for the text of a certificate.
fn verified(
    alloc: Global,
    lattices: &Lattices,
    graph: &FlowGraph,
    text: &[u8],
) -> Result<Answer, NoMemory>
    requires length { length text.now < 2 ^ 32 - 1 }
    requires elements { NamesElements graph.now (orders_of lattices.now) }
    ensures verified { IfOk result (λ answer. (it : Judging) → it.scene.lattices ≡ lattices.now →
        it.system ≡ graph.now → IsVerified it text.now answer.status answer.text.items) }
    ensures decided { IfOk result (λ answer. IsDecided answer.status) }
{
    let found = judge_certificate(alloc, graph, lattices, text)?;
    let mut text = Vec::new(alloc);
    put_verdict(&mut text, found)?;
    Ok(Answer {
        status: status_of(found),
        text,
    })
}

/// The answer for the text of the saved report or certificate that is asked of.
fn of_saved(
    alloc: Global,
    named: &Named<'_>,
    lattices: &Lattices,
    graph: &FlowGraph,
    text: &[u8],
) -> Result<Answer, NoMemory>
    requires some { (file : List ℕ) × (saved_in (files_in named.now) ≡ Some file) }
    requires length { length text.now < 2 ^ 32 - 1 }
    requires owned { IsWellOwned graph.now }
    requires elements { NamesElements graph.now (orders_of lattices.now) }
    ensures judged { IfOk result (λ answer. (it : Judging) → it.scene.lattices ≡ lattices.now →
        it.system ≡ graph.now →
        IsOfSaved (files_in named.now).asked it text.now answer.status answer.text.items) }
    ensures decided { IfOk result (λ answer. IsDecided answer.status) }
{
    match named.asked {
        Question::Verify(_) => verified(alloc, lattices, graph, text),
        // (the last five are never asked here)
        Question::Check(_)
        | Question::Infer
        | Question::Annotate
        | Question::Certify
        | Question::Who(_)
        | Question::Sign => checked(alloc, lattices, graph, text),
    }
}

/// The answer for a program: its report, its certificate, who reaches a name, its signatures, or what the report or certificate that is
/// named comes to.
pub fn end<F: Files>(
    alloc: Global,
    named: &Named<'_>,
    lattices: &Lattices,
    ready: &Ready<'_>,
    files: &mut F,
) -> Result<Answer, Failure>
    requires named { AllNamed lattices.now ready.now.made.graph }
    requires owned { IsWellOwned ready.now.made.graph }
    requires elements { NamesElements ready.now.made.graph (orders_of lattices.now) }
    requires signs { MaySign ready.now }
    ensures reads { (marks : List IndexMark) (units : List UnitRead) →
        IsReady (files_in named.now) lattices.now marks units ready.now → EndAnswered
        (stands (F.log files.old) (F.failed files.old) (F.contents files.old))
        (stands (F.log files.new) (F.failed files.new) (F.contents files.new)) (files_in named.now)
        (judging_of (files_in named.now) lattices.now marks units) result }
    ensures decided { IfOk result (λ answer. IsDecided answer.status) }
{
    match named.saved() {
        None => Ok(alone(alloc, named, lattices, ready)?),
        Some(file) => match taken(alloc, files, file, SAVED_LIMIT)? {
            Some(text) => Ok(of_saved(alloc, named, lattices, &ready.made.graph, &text)?),
            None => Ok(too_large(alloc, file)?),
        },
    }
}
