//! The bytes of a unit, with a table of its lines.

ghost use Rattle.std.specs.Prelude.{ℕ, List, ◌≡◌, ◌==◌, ◌<◌, ◌≤◌, ◌^◌, ◌-◌, length, take, count_by};
ghost use Rattle.std.specs.Prelude.{IfOk};
ghost use Rattle.std.specs.List.Sorted.{IsNonDecreasingBy};
ghost use Rattle.memchr.specs.Find.{is_byte, places};
ghost use Rattle.c_lexer.specs.Places.{Governs, IsLineOf, IsSpot, spot_at};

use crate::places::Mark;
use memchr::memchr_iter;
use qual_base::{NoMemory, Spot, UnitNo};
use std::alloc::Global;
use std::marker::Model;

/// Where the line feeds stand, in time linear in the bytes.
fn line_feeds(alloc: Global, bytes: &[u8]) -> Result<Vec<u32>, NoMemory>
    requires { length bytes.now < 2 ^ 32 - 1 }
    ensures { IfOk result (λ v. v.items ≡ places (is_byte 10) bytes.now) }
{
    let mut feeds = Vec::new(alloc);
    let mut found = memchr_iter(b'\n', bytes);
    'search: while let Some(at) = found.next() {
        feeds.push(at as u32)?;
    }
    Ok(feeds)
}

/// The mark that governs a place, in time logarithmic in the number of marks.
fn mark_at(marks: &[Mark], at: u32) -> Mark
    requires { IsNonDecreasingBy (λ m. m.from) marks.now }
    ensures governs { Governs marks.now at result }
    ensures before { result.from ≤ at }
{
    let count = marks.partition_point(|mark| mark.from <= at);
    if count == 0 {
        return Mark {
            from: 0,
            number: 1,
            name_from: 0,
            name_to: 0,
        };
    }
    marks[count - 1]
}

/// The bytes of a unit, which it borrows. Clauses see the unit's number and its bytes.
#[derive(Drop)]
pub(crate) struct Text<'a> {
    unit: UnitNo,
    bytes: &'a [u8],
    feeds: Vec<u32>,
}

impl<'a> Model for Text<'a> {
    ghost use Rattle.std.specs.Prelude.{ℕ, List, ◌≡◌, ◌<◌, ◌-◌, ◌^◌, length};
    ghost use Rattle.memchr.specs.Find.{is_byte, places};

    ghost Value = { ℕ × List ℕ };

    ghost view = { λ a. (a.unit, a.bytes.now) };

    ghost invariant = { λ a. (length a.bytes.now < 2 ^ 32 - 1)
        × (a.feeds.items ≡ places (is_byte 10) a.bytes.now) };
}

impl<'a> Text<'a> {
    /// The bytes with the table of their lines, in time linear in the bytes.
    pub(crate) fn new(alloc: Global, unit: UnitNo, bytes: &'a [u8]) -> Result<Self, NoMemory>
        requires { length bytes.now < 2 ^ 32 - 1 }
        ensures { IfOk result (λ text. text ≡ (unit, bytes.now)) }
    {
        let feeds = line_feeds(alloc, bytes)?;
        Ok(Text { unit, bytes, feeds })
    }

    pub(crate) fn unit(&self) -> UnitNo
        ensures { result ≡ self.now.0 }
    {
        self.unit
    }

    pub(crate) fn bytes(&self) -> &[u8]
        ensures { result.now ≡ self.now.1 }
    {
        self.bytes
    }

    /// How many line feeds stand before a place, in time logarithmic in the number of lines.
    fn feeds_before(&self, at: u32) -> usize
        requires { at ≤ length self.now.1 }
        ensures { result ≡ count_by (λ c. c == 10) (take at self.now.1) }
    {
        self.feeds.partition_point(|feed| *feed < at)
    }

    /// Where the line of a place begins, in time logarithmic in the number of lines.
    fn line_start(&self, at: u32) -> u32
        requires { at ≤ length self.now.1 }
        ensures { IsLineOf self.now.1 at result }
    {
        let before = self.feeds_before(at);
        if before == 0 {
            return 0;
        }
        self.feeds[before - 1] + 1
    }

    /// How a report names a place, in time logarithmic in the numbers of lines and of marks.
    pub(crate) fn spot_of(&self, marks: &[Mark], at: u32) -> Spot
        requires inside { at ≤ length self.now.1 }
        requires rising { IsNonDecreasingBy (λ m. m.from) marks.now }
        ensures spot { result ≡ spot_at self.now.0 self.now.1 marks.now at }
        ensures names { IsSpot self.now.0 self.now.1 marks.now at result }
    {
        let mark = mark_at(marks, at);
        let feeds = self.feeds_before(at) - self.feeds_before(mark.from);
        Spot {
            unit: self.unit,
            name_from: mark.name_from,
            name_to: mark.name_to,
            line: u64::from(mark.number) + feeds as u64,
            column: u64::from(at - self.line_start(at)) + 1,
        }
    }
}
