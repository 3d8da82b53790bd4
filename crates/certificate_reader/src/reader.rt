//! The reader of certificates.

ghost use Rattle.std.specs.Prelude.{◌≡◌, ◌≢◌, ◌<◌, ◌≤◌, ◌-◌, ◌^◌, ◌⊎◌, ◌++◌, ◌∷◌, [], ℕ, List};
ghost use Rattle.std.specs.Prelude.{None, Some, true, false, IfErr, IfOk, OnErr, OnOk, length, map};
ghost use Rattle.lattice_core.specs.Order.{size};
ghost use Rattle.lattice_core.specs.View.{orders_of};
ghost use Rattle.flow_graph.specs.System.{most_constraints};
ghost use Rattle.closure_check.specs.declared.part.Part.{Part};
ghost use Rattle.certificate_text.specs.Names.{AreNames};
ghost use Rattle.certificate_text.specs.declared.putting.SetLine.{SetLine};
ghost use Rattle.certificate_reader.specs.Grammar.{IsPlaced, ReadsAs, alls_of, is_known, is_name};
ghost use Rattle.certificate_reader.specs.Lines.{lines_of};
ghost use Rattle.certificate_reader.specs.Reader.{fault_from, may_end, AreLines, AreSmall, IsReadAs};

use crate::fronts::next_line;
use crate::lines::Line;
use crate::making::part_of;
use crate::section::{CertFault, Section, may_end, next};
use certificate_text::{SetLine, end_at, ends, name_in, name_table};
use closure_check::Part;
use flow_graph::FlowGraph;
use lattice_core::{Lattice, Lattices};
use qual_base::{LatticeNo, Numbered};
use std::alloc::{AllocError, Global};
use std::marker::Model;
use std::mem::replace;

/// What a reader looks at: the constraints, the names of their variables, and for each lattice the set of its elements.
#[derive(Clone, Copy)]
struct Scene<'a> {
    graph: &'a FlowGraph,
    names: &'a [Option<u32>],
    alls: &'a [u64],
}

/// Whether an end is the name of a variable.
fn is_name(scene: &Scene, end: u32) -> bool
    requires { AreNames scene.now.graph.now scene.now.names.now }
    ensures { result ≡ is_name scene.now.graph.now end }
{
    end < ends(scene.graph) && name_in(scene.names, end_at(scene.graph, end)) == Some(end)
}

/// Whether the names of a line are those of variables.
fn is_known(scene: &Scene, line: Line) -> bool
    requires { AreNames scene.now.graph.now scene.now.names.now }
    ensures { result ≡ is_known scene.now.graph.now line }
{
    match line {
        Line::Set(name, _, _) => is_name(scene, name),
        Line::Pair(from, to) => is_name(scene, from) && is_name(scene, to),
        Line::Certificate | Line::Lattice(_) | Line::Other => true,
    }
}

/// What was read of a certificate: whole lattices, and the lines of the next one.
#[derive(Drop)]
struct Reader {
    section: Section,
    parts: Vec<Part>,
    sets: Vec<SetLine>,
    pairs: Vec<(u32, u32)>,
}

impl Model for Reader {
    ghost use Rattle.certificate_reader.specs.Reader.{Held};

    ghost Value = { Held };

    ghost view = { λ r. record {
      section = r.section;
      parts = r.parts.items;
      sets = r.sets.items;
      pairs = r.pairs.items;
    } };
}

impl Reader {
    ghost use Rattle.certificate_reader.specs.Reader.{Closed, Closes, FailsAt, Held, Keeps, Takes};

    fn new(alloc: Global) -> Self
        ensures { result ≡ record { section = Section.Start; parts = []; sets = []; pairs = [] } }
    {
        Reader {
            section: Section::Start,
            parts: Vec::new(alloc),
            sets: Vec::new(alloc),
            pairs: Vec::new(alloc),
        }
    }

    /// Ends the lattice that is being read, if there is one.
    fn close(&mut self, alloc: Global, graph: &FlowGraph) -> Result<(), CertFault>
        requires { AreLines graph.now self.old.sets self.old.pairs }
        ensures ok { OnOk result (Closes graph.now self.old.section self.old
            self.new.parts self.new.sets self.new.pairs) }
        ensures err { IfErr result (λ e. e ≡ CertFault.NoMemory) }
    {
        match self.section {
            Section::Start | Section::Opened => Ok(()),
            Section::InSets(_, _) | Section::InPairs(_, _, _) => self.close_part(alloc, graph),
        }
    }

    /// Ends the lattice that is being read.
    fn close_part(&mut self, alloc: Global, graph: &FlowGraph) -> Result<(), CertFault>
        requires { AreLines graph.now self.old.sets self.old.pairs }
        ensures ok { OnOk result
            (Closed graph.now self.old self.new.parts self.new.sets self.new.pairs) }
        ensures err { IfErr result (λ e. e ≡ CertFault.NoMemory) }
    {
        let sets = replace(&mut self.sets, Vec::new(alloc));
        let pairs = replace(&mut self.pairs, Vec::new(alloc));
        let Ok(part) = part_of(alloc, graph, sets.as_slice(), pairs.as_slice()) else {
            return Err(CertFault::NoMemory);
        };
        match self.parts.push(part) {
            Ok(()) => Ok(()),
            Err(_) => Err(CertFault::NoMemory),
        }
    }

    /// Adds what a line says.
    fn keep_line(&mut self, alloc: Global, graph: &FlowGraph, line: Line) -> Result<(), CertFault>
        requires { AreLines graph.now self.old.sets self.old.pairs }
        ensures ok { OnOk result (Keeps graph.now line self.old
            self.new.parts self.new.sets self.new.pairs) }
        ensures err { IfErr result (λ e. e ≡ CertFault.NoMemory) }
    {
        match line {
            Line::Certificate | Line::Other => Ok(()),
            Line::Lattice(_) => self.close(alloc, graph),
            Line::Set(name, first, second) => self.push_set(SetLine {
                name,
                first,
                second,
            }),
            Line::Pair(from, to) => self.push_pair((from, to)),
        }
    }

    fn push_set(&mut self, set: SetLine) -> Result<(), CertFault>
        ensures parts { OnOk result (self.new.parts ≡ self.old.parts) }
        ensures sets { OnOk result (self.new.sets ≡ self.old.sets ++ set ∷ []) }
        ensures pairs { OnOk result (self.new.pairs ≡ self.old.pairs) }
        ensures err { IfErr result (λ e. e ≡ CertFault.NoMemory) }
    {
        match self.sets.push(set) {
            Ok(()) => Ok(()),
            Err(_) => Err(CertFault::NoMemory),
        }
    }

    fn push_pair(&mut self, pair: (u32, u32)) -> Result<(), CertFault>
        ensures parts { OnOk result (self.new.parts ≡ self.old.parts) }
        ensures sets { OnOk result (self.new.sets ≡ self.old.sets) }
        ensures pairs { OnOk result (self.new.pairs ≡ self.old.pairs ++ pair ∷ []) }
        ensures err { IfErr result (λ e. e ≡ CertFault.NoMemory) }
    {
        match self.pairs.push(pair) {
            Ok(()) => Ok(()),
            Err(_) => Err(CertFault::NoMemory),
        }
    }

    /// Takes a line: it may stand there and names variables, or it is the first that fails.
    fn take_line(
        &mut self,
        alloc: Global,
        scene: &Scene,
        line: Line,
        number: u32,
    ) -> Result<(), CertFault>
        requires names { AreNames scene.now.graph.now scene.now.names.now }
        requires few { length scene.now.alls.now ≤ 16 }
        requires lines { AreLines scene.now.graph.now self.old.sets self.old.pairs }
        ensures ok { OnOk result
            (Takes scene.now.graph.now scene.now.alls.now line self.old self.new) }
        ensures err { IfErr result (λ e. (e ≡ CertFault.NoMemory)
            ⊎ FailsAt scene.now.graph.now scene.now.alls.now self.old.section number line e) }
    {
        let Some(section) = next(scene.alls, self.section, line) else {
            return Err(CertFault::Grammar(number));
        };
        if !is_known(scene, line) {
            return Err(CertFault::NoSuchVariable(number));
        }
        self.keep_line(alloc, scene.graph, line)?;
        self.section = section;
        Ok(())
    }

    /// The certificates of a text that has no line from number `end` on.
    fn finish(mut self, alloc: Global, scene: &Scene, end: u32) -> Result<Vec<Part>, CertFault>
        requires { AreLines scene.now.graph.now self.sets self.pairs }
        ensures ends { OnOk result (may_end scene.now.alls.now self.section ≡ true) }
        ensures parts { IfOk result (λ parts. (sets : List SetLine) × (pairs : List (ℕ × ℕ))
            × Closes scene.now.graph.now self.section self parts.items sets pairs) }
        ensures err { IfErr result (λ e. (e ≡ CertFault.NoMemory)
            ⊎ ((may_end scene.now.alls.now self.section ≡ false) × (e ≡ CertFault.Grammar end))) }
    {
        if !may_end(scene.alls, self.section) {
            return Err(CertFault::Grammar(end));
        }
        self.close(alloc, scene.graph)?;
        let Reader {
            section: _,
            parts,
            sets: _,
            pairs: _,
        } = self;
        Ok(parts)
    }
}

/// Reads the lines of a certificate one by one.
fn read_lines(alloc: Global, bytes: &[u8], scene: &Scene) -> Result<Vec<Part>, CertFault>
    requires names { AreNames scene.now.graph.now scene.now.names.now }
    requires few { length scene.now.alls.now ≤ 16 }
    requires short { length bytes.now < 2 ^ 32 - 1 }
    ensures reads { IfOk result (λ parts.
        IsReadAs scene.now.graph.now scene.now.alls.now bytes.now parts.items) }
    ensures fault { IfErr result (λ e. (e ≡ CertFault.NoMemory)
        ⊎ (fault_from scene.now.graph.now scene.now.alls.now Section.Start 1 (lines_of bytes.now)
        ≡ Some e)) }
{
    scene.graph.law();
    let mut reader = Reader::new(alloc);
    let mut rest = bytes;
    let mut number: u32 = 1;
    'lines: while let Some((line, behind)) = next_line(rest) {
        reader.take_line(alloc, scene, line, number)?;
        rest = behind;
        number += 1;
    }
    if !rest.is_empty() {
        return Err(CertFault::Grammar(number));
    }
    reader.finish(alloc, scene, number)
}

/// The sets of all elements of lattices.
fn all_sets(alloc: Global, lattices: &Lattices) -> Result<Vec<u64>, AllocError>
    ensures sets { IfOk result (λ alls. alls.items ≡ alls_of (orders_of lattices.now)) }
    ensures few { length lattices.now ≤ 16 }
    ensures small { OnOk result (AreSmall (length lattices.now) (orders_of lattices.now)) }
{
    let mut alls = Vec::new(alloc);
    for at in 0..lattices.len() {
        alls.push(all_of(lattices.get(LatticeNo::new(at))))?;
    }
    Ok(alls)
}

/// The set of all elements of a lattice.
fn all_of(lattice: &Lattice) -> u64
    ensures set { result ≡ Rattle.certificate_reader.specs.Grammar.all_of lattice.now.order }
    ensures small { size lattice.now.order ≤ 64 }
{
    lattice.law();
    u64::MAX >> (64 - lattice.size())
}

/// Reads the text of the certificates of lattices over a graph.
///
/// Takes time and memory linear in the text, the constraints, and for each lattice the variables; but for the sorting of
/// its pairs.
///
/// # Errors
///
/// The first line that may not stand where it does (behind the last line, where the end comes too soon), or the first
/// with a name that is not the name of a variable, whichever comes first; or want of memory.
pub fn read_certificate(
    alloc: Global,
    bytes: &[u8],
    graph: &FlowGraph,
    lattices: &Lattices,
) -> Result<Vec<Part>, CertFault>
    requires { length bytes.now < 2 ^ 32 - 1 }
    ensures reads { IfOk result
        (λ parts. ReadsAs graph.now (orders_of lattices.now) bytes.now parts.items) }
    ensures whole { IfErr result (λ fault. fault ≢ CertFault.NoMemory → (parts : List Part) →
        ReadsAs graph.now (orders_of lattices.now) bytes.now parts → ⊥) }
    ensures fault { IfErr result
        (IsPlaced graph.now (orders_of lattices.now) (lines_of bytes.now)) }
{
    graph.law();
    let Ok(names) = name_table(alloc, graph) else {
        return Err(CertFault::NoMemory);
    };
    let Ok(alls) = all_sets(alloc, lattices) else {
        return Err(CertFault::NoMemory);
    };
    let scene = Scene {
        graph,
        names: names.as_slice(),
        alls: alls.as_slice(),
    };
    read_lines(alloc, bytes, &scene)
}
