//! Places of a list, chained by a key of each.

ghost use Rattle.std.specs.Prelude.{◌≡◌, ◌≢◌, ℕ, ◌<◌, ◌≤◌, IfOk, List, [], ◌∷◌, ◌++◌, length};
ghost use Rattle.std.specs.Prelude.{slice_get, slice_index, Some, OnOk, OnErr};
ghost use Rattle.match_summary.specs.Chained.{AreChained, IsLink, link_of};

use qual_base::NoMemory;
use std::alloc::Global;

/// For each key the newest place of a list that has it, and for each place the one before it with the same key. A link is
/// one more than a place, and 0 where there is none.
#[derive(Drop)]
pub struct Chains {
    newest: Vec<u32>,
    before: Vec<u32>,
}

impl Chains {
    /// The chains of an empty list. Takes no memory.
    pub fn new(alloc: Global) -> Self
        ensures { AreChained [] result }
    {
        Chains {
            newest: Vec::new(alloc),
            before: Vec::new(alloc),
        }
    }

    /// The chains of an empty list, with room for so many places and the keys below a number: 4 bytes each.
    pub fn sized(alloc: Global, keys: u32, places: u32) -> Result<Chains, NoMemory>
        ensures { IfOk result (AreChained []) }
    {
        Ok(Chains {
            newest: vec![in alloc; 0u32; keys as usize]?,
            before: Vec::with_capacity(alloc, places as usize)?,
        })
    }

    /// The last place with a key. Constant time.
    pub fn newest(&self, key: u32) -> Option<usize>
        ensures { (keys : List ℕ) →
            AreChained keys self.now → IsLink keys key (length keys) (link_of result) }
    {
        match self.newest.get(key as usize) {
            Some(link) => place(*link),
            None => None,
        }
    }

    /// The last place before another that has the same key. Constant time.
    pub fn before(&self, at: usize) -> Option<usize>
        ensures { (keys : List ℕ) (key : ℕ) → AreChained keys self.now →
            slice_get keys at ≡ Some key → IsLink keys key at (link_of result) }
    {
        match self.before.get(at) {
            Some(link) => place(*link),
            None => None,
        }
    }

    /// Chains one place more. Constant time but for growth, and 4 bytes; the first place of a key takes 4 bytes for each key
    /// up to it.
    pub fn push(&mut self, key: u32) -> Result<(), NoMemory>
        ensures ok { OnOk result
            ((keys : List ℕ) → AreChained keys self.old → AreChained (keys ++ key ∷ []) self.new) }
        ensures err { OnErr result
            ((keys : List ℕ) → AreChained keys self.old → AreChained keys self.new) }
    {
        let Ok(at) = u32::try_from(self.before.len() + 1) else {
            return Err(NoMemory);
        };
        let key = key as usize;
        make_room(&mut self.newest, key + 1)?;
        self.before.push(self.newest[key])?;
        self.newest[key] = at;
        Ok(())
    }

    /// Takes the last place away, by its key. Constant time.
    pub fn pop(&mut self, key: u32)
        ensures { (keys : List ℕ) →
            AreChained (keys ++ key ∷ []) self.old → AreChained keys self.new }
    {
        if let Some(link) = self.before.pop() {
            set(&mut self.newest, key, link);
        }
    }
}

/// The place of a link.
fn place(link: u32) -> Option<usize>
    ensures { link_of result ≡ link }
{
    if link == 0 {
        return None;
    }
    Some(link as usize - 1)
}

/// Gives at least so many keys a link, at first to no place.
fn make_room(links: &mut Vec<u32>, count: usize) -> Result<(), NoMemory>
    ensures room { OnOk result (count ≤ length links.new.items) }
    ensures same { (key : ℕ) → slice_index links.new.items key ≡ slice_index links.old.items key }
{
    if count > links.len() {
        links.resize(count, 0)?;
    }
    Ok(())
}

/// Sets the link of a key, if it has one.
fn set(links: &mut Vec<u32>, key: u32, link: u32)
    ensures here { key < length links.old.items → slice_index links.new.items key ≡ link }
    ensures others { (k : ℕ) →
        k ≢ key → slice_index links.new.items k ≡ slice_index links.old.items k }
{
    let key = key as usize;
    if key < links.len() {
        links[key] = link;
    }
}
