//! Where a line stands in a certificate.

ghost use Rattle.std.specs.Prelude.{◌≡◌, ◌≤◌, ◌+◌, Some, length, slice_index};
ghost use Rattle.certificate_reader.specs.Grammar.{name_behind, pair_behind, sets_fit};
ghost use Rattle.certificate_reader.specs.Reader.{lattice_behind, may_end, next};

use crate::lines::Line;

/// The part of a certificate that a line stands behind: the number of the lattice, and the name or the pair of the last line.
#[derive(Clone, Copy, PartialEq, Eq, Debug)]
pub enum Section {
    Start,
    Opened,
    InSets(u32, Option<u32>),
    InPairs(u32, u32, u32),
}

/// The first line that is none of a certificate there, or that has a name of no variable, or want of memory.
#[derive(Clone, Copy, PartialEq, Eq, Debug)]
pub enum CertFault {
    Grammar(u32),
    NoSuchVariable(u32),
    NoMemory,
}

/// The section that a line leads to, where it may stand in a section. The sets of all elements are given by lattices.
pub fn next(alls: &[u64], section: Section, line: Line) -> Option<Section>
    requires { length alls.now ≤ 16 }
    ensures { result ≡ next alls.now section line }
{
    match section {
        Section::Start => next_at_start(alls, line),
        Section::Opened => next_opened(alls, line),
        Section::InSets(number, last) => next_in_sets(alls, number, last, line),
        Section::InPairs(number, from, to) => next_in_pairs(alls, number, (from, to), line),
    }
}

fn next_at_start(alls: &[u64], line: Line) -> Option<Section>
    ensures { result ≡ next alls.now Section.Start line }
{
    let _ = &alls;
    match line {
        Line::Certificate => Some(Section::Opened),
        _ => None,
    }
}

fn next_opened(alls: &[u64], line: Line) -> Option<Section>
    requires { length alls.now ≤ 16 }
    ensures { result ≡ next alls.now Section.Opened line }
{
    match line {
        Line::Lattice(n) => lattice_behind(alls, 0, n),
        _ => None,
    }
}

fn next_in_sets(alls: &[u64], number: u32, last: Option<u32>, line: Line) -> Option<Section>
    requires { length alls.now ≤ 16 }
    ensures { result ≡ next alls.now (Section.InSets number last) line }
{
    match line {
        Line::Lattice(n) => lattice_behind(alls, number, n),
        Line::Set(name, first, second) => {
            if name_behind(last, name) && sets_fit(all_at(alls, number), first, second) {
                Some(Section::InSets(number, Some(name)))
            } else {
                None
            }
        }
        Line::Pair(from, to) => Some(Section::InPairs(number, from, to)),
        _ => None,
    }
}

fn next_in_pairs(alls: &[u64], number: u32, last: (u32, u32), line: Line) -> Option<Section>
    requires { length alls.now ≤ 16 }
    ensures { result ≡ next alls.now (Section.InPairs number last.0 last.1) line }
{
    match line {
        Line::Lattice(n) => lattice_behind(alls, number, n),
        Line::Pair(from, to) if is_below(last, from, to) => {
            Some(Section::InPairs(number, from, to))
        }
        _ => None,
    }
}

/// The section of a lattice, where it is the one behind so many.
fn lattice_behind(alls: &[u64], number: u32, n: u32) -> Option<Section>
    requires { length alls.now ≤ 16 }
    ensures { result ≡ lattice_behind alls.now number n }
{
    if n > 0 && n - 1 == number && (number as usize) < alls.len() {
        Some(Section::InSets(n, None))
    } else {
        None
    }
}

/// The set of all elements of a lattice, whose number counts from 1.
fn all_at(alls: &[u64], number: u32) -> u64
    ensures { result ≡ slice_index alls.now (Rattle.std.specs.Prelude.◌-◌ number 1) }
{
    match alls.get(number.saturating_sub(1) as usize) {
        Some(all) => *all,
        None => 0,
    }
}

fn name_behind(last: Option<u32>, name: u32) -> bool
    ensures { result ≡ name_behind last name }
{
    match last {
        Some(last) => last < name,
        None => true,
    }
}

fn is_below(last: (u32, u32), from: u32, to: u32) -> bool
    ensures { result ≡ pair_behind (Some last) (from, to) }
{
    last.0 < from || last.0 == from && last.1 < to
}

fn sets_fit(all: u64, first: u64, second: u64) -> bool
    ensures { result ≡ sets_fit all first second }
{
    second != 0 && first <= all && second <= all
}

/// Whether a certificate may end in a section.
pub fn may_end(alls: &[u64], section: Section) -> bool
    ensures { result ≡ may_end alls.now section }
{
    match section {
        Section::Start => false,
        Section::Opened => alls.is_empty(),
        Section::InSets(number, _) => alls.len() == number as usize,
        Section::InPairs(number, _, _) => alls.len() == number as usize,
    }
}
