//! Reading the text of a report.

ghost use Rattle.std.specs.Prelude.{◌≡◌, ◌+◌, ◌-◌, ◌<◌, ◌^◌, ◌⊎◌, ◌∷◌, ◌++◌, [], false, None, Some};
ghost use Rattle.std.specs.Prelude.{length, map, IfOk, IfErr, OnOk, OnErr};
ghost use Rattle.path_checker.specs.Report.{next, is_unknown, may_end, shape_of, report_fault};
ghost use Rattle.path_checker.specs.Report.{proofs_in};
ghost use Rattle.path_checker.specs.Grammar.{IsReport, IsPlaced};
ghost use Rattle.path_checker.specs.Lines.{lines_of};

use crate::lines::{Line, line_kind, split_at_first};
use flow_graph::{PathProof, PathStep, SubPath};
use qual_base::{EdgeId, Numbered};
use std::alloc::Global;
use std::marker::Model;
use std::mem::replace;

/// The part of a report that a line stands in: behind which line that is no step.
#[derive(Clone, Copy, PartialEq, Eq, Debug)]
pub enum Section {
    Start,
    Opened,
    InError,
    InSub(u32),
    InPath,
}

/// The first line that is none of a report there, or that names no constraint, or want of memory.
#[derive(Clone, Copy, PartialEq, Eq, Debug)]
pub enum ReportFault {
    Grammar(u32),
    NoSuchConstraint(u32),
    NoMemory,
}

/// The part of a report that a line leads to, where it may stand in a part.
fn next(section: Section, line: Line) -> Option<Section>
    ensures { result ≡ next section line }
{
    match section {
        Section::Start => next_at_start(line),
        Section::Opened => next_opened(line),
        Section::InError => next_in_error(line),
        Section::InSub(number) => next_in_sub(number, line),
        Section::InPath => next_in_path(line),
    }
}

fn next_at_start(line: Line) -> Option<Section>
    ensures { result ≡ next Section.Start line }
{
    match line {
        Line::Rejected => Some(Section::Opened),
        _ => None,
    }
}

fn next_opened(line: Line) -> Option<Section>
    ensures { result ≡ next Section.Opened line }
{
    match line {
        Line::Error => Some(Section::InError),
        _ => None,
    }
}

fn next_in_error(line: Line) -> Option<Section>
    ensures { result ≡ next Section.InError line }
{
    match line {
        Line::Sub(1) => Some(Section::InSub(1)),
        Line::Path => Some(Section::InPath),
        _ => None,
    }
}

fn next_in_sub(number: u32, line: Line) -> Option<Section>
    ensures { result ≡ next (Section.InSub number) line }
{
    match line {
        Line::Sub(n) if n > 0 && n - 1 == number => Some(Section::InSub(n)),
        Line::Path => Some(Section::InPath),
        Line::Take(_) | Line::Through(_) => Some(Section::InSub(number)),
        _ => None,
    }
}

fn next_in_path(line: Line) -> Option<Section>
    ensures { result ≡ next Section.InPath line }
{
    match line {
        Line::Error => Some(Section::InError),
        Line::Take(_) | Line::Through(_) => Some(Section::InPath),
        _ => None,
    }
}

/// Whether a line is a step by the number of no constraint.
fn is_unknown(edges: u32, line: Line) -> bool
    ensures { result ≡ is_unknown edges line }
{
    match line {
        Line::Take(number) => number >= edges,
        _ => false,
    }
}

/// What was read of a report: whole proofs, the whole sub-paths of the next one, and the steps of its last part.
#[derive(Drop)]
struct Reader {
    section: Section,
    proofs: Vec<PathProof>,
    subs: Vec<SubPath>,
    steps: Vec<PathStep>,
}

impl Model for Reader {
    ghost use Rattle.std.specs.Prelude.{map};
    ghost use Rattle.flow_graph.specs.PathProofs.{steps_of};
    ghost use Rattle.path_checker.specs.Report.{shape_of};
    ghost use Rattle.path_checker.specs.Reader.{Held};

    ghost Value = { Held };

    ghost view = { λ r. record {
      section = r.section;
      proofs = map shape_of r.proofs.items;
      subs = steps_of r.subs.items;
      steps = r.steps.items;
    } };
}

impl Reader {
    ghost use Rattle.path_checker.specs.Reader.{close_sub, close_proof, keep_line, Takes, FailsAt};

    fn new(alloc: Global) -> Self
        ensures { result ≡ record { section = Section.Start; proofs = []; subs = []; steps = [] } }
    {
        Reader {
            section: Section::Start,
            proofs: Vec::new(alloc),
            subs: Vec::new(alloc),
            steps: Vec::new(alloc),
        }
    }

    fn push_step(&mut self, step: PathStep) -> Result<(), ReportFault>
        ensures ok { OnOk result
            (self.new ≡ record self.old { steps = self.old.steps ++ step ∷ [] }) }
        ensures err { IfErr result (λ e. e ≡ ReportFault.NoMemory) }
    {
        match self.steps.push(step) {
            Ok(()) => Ok(()),
            Err(_) => Err(ReportFault::NoMemory),
        }
    }

    /// Ends the sub-path that is being read, if there is one.
    fn close_sub(&mut self, alloc: Global) -> Result<(), ReportFault>
        ensures ok { OnOk result (self.new ≡ close_sub self.old.section self.old) }
        ensures err { IfErr result (λ e. e ≡ ReportFault.NoMemory) }
    {
        let Section::InSub(_) = self.section else {
            return Ok(());
        };
        let steps = replace(&mut self.steps, Vec::new(alloc));
        match self.subs.push(SubPath { steps }) {
            Ok(()) => Ok(()),
            Err(_) => Err(ReportFault::NoMemory),
        }
    }

    /// Ends the proof that is being read, if there is one. The line behind its last step is `end`.
    fn close_proof(&mut self, alloc: Global, end: u32) -> Result<(), ReportFault>
        ensures ok { OnOk result (self.new ≡ close_proof self.old.section end self.old) }
        ensures err { IfErr result (λ e. e ≡ ReportFault.NoMemory) }
    {
        let Section::InPath = self.section else {
            return Ok(());
        };
        let subs = replace(&mut self.subs, Vec::new(alloc));
        let main = replace(&mut self.steps, Vec::new(alloc));
        match self.proofs.push(PathProof { subs, main, end }) {
            Ok(()) => Ok(()),
            Err(_) => Err(ReportFault::NoMemory),
        }
    }

    /// Adds what a line says.
    fn keep_line(&mut self, alloc: Global, line: Line, number: u32) -> Result<(), ReportFault>
        ensures ok { OnOk result (self.new ≡ keep_line number line self.old) }
        ensures err { IfErr result (λ e. e ≡ ReportFault.NoMemory) }
    {
        match line {
            Line::Rejected | Line::Other => Ok(()),
            Line::Error => self.close_proof(alloc, number),
            Line::Sub(_) | Line::Path => self.close_sub(alloc),
            Line::Take(edge) => self.push_step(PathStep::Take {
                edge: EdgeId::new(edge),
                line: number,
            }),
            Line::Through(sub) => self.push_step(PathStep::Sub {
                number: sub,
                line: number,
            }),
        }
    }

    /// Takes a line: it may stand there and names a constraint, or it is the first that fails.
    fn take_line(
        &mut self,
        alloc: Global,
        line: Line,
        number: u32,
        edges: u32,
    ) -> Result<(), ReportFault>
        ensures ok { OnOk result (Takes edges number line self.old self.new) }
        ensures err { IfErr result
            (λ e. (e ≡ ReportFault.NoMemory) ⊎ FailsAt edges self.old.section number line e) }
    {
        let Some(section) = next(self.section, line) else {
            return Err(ReportFault::Grammar(number));
        };
        if is_unknown(edges, line) {
            return Err(ReportFault::NoSuchConstraint(number));
        }
        self.keep_line(alloc, line, number)?;
        self.section = section;
        Ok(())
    }

    /// The proofs of a report that has no line from number `end` on.
    fn finish(mut self, alloc: Global, end: u32) -> Result<Vec<PathProof>, ReportFault>
        ensures proofs { IfOk result
            (λ proofs. map shape_of proofs.items ≡ (close_proof Section.InPath end self).proofs) }
        ensures ok { OnOk result (self.section ≡ Section.InPath) }
        ensures err { IfErr result (λ e. (e ≡ ReportFault.NoMemory)
            ⊎ ((may_end self.section ≡ false) × (e ≡ ReportFault.Grammar end))) }
    {
        let Section::InPath = self.section else {
            return Err(ReportFault::Grammar(end));
        };
        self.close_proof(alloc, end)?;
        let Reader {
            section: _,
            proofs,
            subs: _,
            steps: _,
        } = self;
        Ok(proofs)
    }
}

/// Reads the lines of a report one by one.
fn read_lines(alloc: Global, bytes: &[u8], edges: u32) -> Result<Vec<PathProof>, ReportFault>
    requires { length bytes.now < 2 ^ 32 - 1 }
    ensures proofs { IfOk result
        (λ proofs. map shape_of proofs.items ≡ proofs_in (lines_of bytes.now)) }
    ensures passes { OnOk result (report_fault edges (lines_of bytes.now) ≡ None) }
    ensures fault { IfErr result
        (λ e. (e ≡ ReportFault.NoMemory) ⊎ (report_fault edges (lines_of bytes.now) ≡ Some e)) }
{
    let mut reader = Reader::new(alloc);
    let mut rest = bytes;
    let mut number: u32 = 1;
    'lines: while let Some((line, behind)) = split_at_first(b'\n', rest) {
        reader.take_line(alloc, line_kind(line), number, edges)?;
        rest = behind;
        number += 1;
    }
    if !rest.is_empty() {
        return Err(ReportFault::Grammar(number));
    }
    reader.finish(alloc, number)
}

/// Reads the text of a report whose constraints are numbered below `edges`. A report is the line `rejected`, and then
/// for each error the line `error ..`, for each sub-path from 1 on the line `sub K` and its steps, and the line `path`
/// and its steps. A step is a line `  N ..`, for constraint N, or `  sub K`. Each line ends with a line feed.
///
/// Takes time and memory linear in the text.
///
/// # Errors
///
/// The first line that may not stand where it does (behind the last line, where the end comes too soon), or the first
/// step that names no constraint, whichever comes first; or want of memory.
pub fn read_report(alloc: Global, bytes: &[u8], edges: u32) -> Result<Vec<PathProof>, ReportFault>
    requires { length bytes.now < 2 ^ 32 - 1 }
    ensures proofs { IfOk result
        (λ proofs. map shape_of proofs.items ≡ proofs_in (lines_of bytes.now)) }
    ensures reads { OnOk result (IsReport edges (lines_of bytes.now)) }
    ensures each { IsReport edges (lines_of bytes.now) →
        OnErr result (result ≡ Err ReportFault.NoMemory) }
    ensures place { IfErr result (IsPlaced edges (lines_of bytes.now)) }
    ensures fault { IfErr result
        (λ e. (e ≡ ReportFault.NoMemory) ⊎ (report_fault edges (lines_of bytes.now) ≡ Some e)) }
{
    read_lines(alloc, bytes, edges)
}
