//! A list of names, each with something that it stands for.

ghost use Rattle.std.specs.Prelude.{◌≡◌, ◌≢◌, ℕ, ◌<◌, ◌≤◌, ◌∷◌, [], length, take, drop, get_or};
ghost use Rattle.std.specs.Prelude.{slice_get, option_map, OnOk, OnErr};
ghost use Rattle.name_lists.specs.Newest.{newest};
ghost use Rattle.name_lists.specs.Linked.{link_of};

use qual_base::{NameId, NoMemory, Numbered};
use std::alloc::Global;
use std::marker::Model;

/// One entry, with the link to the entry of the same name that it hides. A link is one more than the place of an entry,
/// counted from the oldest, and 0 where there is none.
#[derive(Drop)]
struct Entry<V> {
    name: NameId,
    value: V,
    hides: u32,
}

impl<V: Copy> Entry<V> {
    /// What the name stands for.
    fn value(&self) -> V
        ensures { result ≡ self.now.value }
    {
        self.value
    }
}

/// Names, each with what it stands for. A name may stand there several times.
///
/// Clauses see the list of the entries, the newest first. Memory is linear in the entries, with 4 bytes for each number
/// of a name up to the highest that was put there.
#[derive(Drop)]
pub struct NameList<V> {
    entries: Vec<Entry<V>>,
    newest: Vec<u32>,
}

impl<V> Model for NameList<V> {
    ghost use Rattle.std.specs.Prelude.{List, ℕ, reverse, map};
    ghost use Rattle.name_lists.specs.Linked.{pair_of, AreLinked};

    ghost Value = { List (ℕ × V) };

    ghost view = { λ s. map pair_of (reverse s.entries.items) };

    ghost invariant = { λ s. AreLinked (reverse s.entries.items) s.newest.items };
}

impl<V: Copy + Drop> NameList<V> {
    /// No names. Takes no memory.
    pub fn new(alloc: Global) -> Self
        ensures { result ≡ [] }
    {
        NameList {
            entries: Vec::new(alloc),
            newest: Vec::new(alloc),
        }
    }

    /// How many entries there are. Constant time.
    pub fn len(&self) -> usize
        ensures { result ≡ length self.now }
    {
        self.entries.len()
    }

    /// The link to a name's newest entry. Constant time.
    fn link(&self, name: NameId) -> usize
        ensures { result ≡ link_of self.now name }
    {
        match self.newest.get(name.number() as usize) {
            Some(link) => *link as usize,
            None => 0,
        }
    }

    /// What a name stands for by its newest entry. Takes no memory, and constant time.
    pub fn get(&self, name: NameId) -> Option<V>
        ensures { result ≡ newest self.now name }
    {
        let link = self.link(name);
        if link == 0 {
            return None;
        }
        value_at(&self.entries, link - 1)
    }

    /// What a name stands for by its newest entry, where that is one of so many entries that are the newest of all.
    /// Takes no memory, and constant time.
    pub fn get_among(&self, count: usize, name: NameId) -> Option<V>
        ensures { result ≡ newest (take count self.now) name }
    {
        if self.link(name) > self.len().saturating_sub(count) {
            self.get(name)
        } else {
            None
        }
    }

    /// Adds an entry. For want of memory the list stays as it was. Constant time but for growth, and for 4 bytes for
    /// each number of a name that is higher than all before it.
    pub fn push(&mut self, name: NameId, value: V) -> Result<(), NoMemory>
        ensures pushed { OnOk result (self.new ≡ (name, value) ∷ self.old) }
        ensures err { OnErr result (self.new ≡ self.old) }
    {
        let Ok(link) = u32::try_from(self.entries.len() + 1) else {
            return Err(NoMemory);
        };
        let at = name.number() as usize;
        make_room(&mut self.newest, at + 1)?;
        let hides = self.newest[at];
        self.entries.push(Entry { name, value, hides })?;
        self.newest[at] = link;
        Ok(())
    }

    /// Takes the newest entry back, if there is one. Takes no memory, and constant time.
    pub fn pop(&mut self)
        ensures { self.new ≡ drop 1 self.old }
    {
        if let Some(entry) = self.entries.pop() {
            set(&mut self.newest, entry.name, entry.hides);
        }
    }

    /// Takes so many of the newest entries back. Takes no memory, and time linear in their number.
    pub fn take_back(&mut self, count: usize)
        ensures { self.new ≡ drop count self.old }
    {
        for _ in 0..count {
            self.pop();
        }
    }
}

/// What the name of the entry at a place stands for, if there is one.
fn value_at<V: Copy>(entries: &[Entry<V>], at: usize) -> Option<V>
    ensures { result ≡ option_map (λ e. e.value) (slice_get entries.now at) }
{
    match entries.get(at) {
        Some(entry) => Some(entry.value()),
        None => None,
    }
}

/// Gives at least so many names a link, at first to no entry.
fn make_room(links: &mut Vec<u32>, count: usize) -> Result<(), NoMemory>
    ensures room { OnOk result (count ≤ length links.new.items) }
    ensures same { (name : ℕ) → get_or links.new.items name 0 ≡ get_or links.old.items name 0 }
{
    if count > links.len() {
        links.resize(count, 0)?;
    }
    Ok(())
}

/// Sets the link of a name, if it has one.
fn set(links: &mut Vec<u32>, name: NameId, link: u32)
    ensures here { name < length links.old.items → get_or links.new.items name 0 ≡ link }
    ensures others { (n : ℕ) → n ≢ name → get_or links.new.items n 0 ≡ get_or links.old.items n 0 }
{
    let at = name.number() as usize;
    if at < links.len() {
        links[at] = link;
    }
}
