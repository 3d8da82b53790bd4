//! Lists of call sites.

ghost use Rattle.std.specs.Prelude.{◌≡◌, ℕ, ◌<◌, List, [], ◌∷◌, IfOk, OnOk};
ghost use Rattle.std.specs.List.{Contains};
ghost use Rattle.flow_systems.specs.FlowUnfolding.Strings.{HasAll};

use qual_base::{NoMemory, Numbered, SiteId};
use std::alloc::Global;
use std::marker::Model;

/// A list of call sites, the last one first.
#[derive(Drop, Debug)]
pub struct CallString {
    sites: Vec<SiteId>,
}

impl Model for CallString {
    ghost use Rattle.std.specs.Prelude.{List, ℕ};

    ghost Value = { List ℕ };

    ghost view = { λ a. a.sites.items };
}

impl CallString {
    /// No site. Takes no memory.
    pub fn new(alloc: Global) -> Self
        ensures { result ≡ [] }
    {
        CallString {
            sites: Vec::new(alloc),
        }
    }

    pub fn sites(&self) -> &[SiteId]
        ensures { result.now ≡ self.now }
    {
        self.sites.as_slice()
    }
}

/// A copy of a list of sites.
pub fn string_of(alloc: Global, sites: &[SiteId]) -> Result<CallString, NoMemory>
    ensures { IfOk result (λ string. string ≡ sites.now) }
{
    let mut all = Vec::new(alloc);
    all.extend_from_slice(sites)?;
    Ok(CallString { sites: all })
}

/// A list of sites with a site behind the last one.
fn string_with(alloc: Global, site: SiteId, sites: &[SiteId]) -> Result<CallString, NoMemory>
    ensures { IfOk result (λ string. string ≡ site ∷ sites.now) }
{
    let mut all = Vec::new(alloc);
    all.push(site)?;
    all.extend_from_slice(sites)?;
    Ok(CallString { sites: all })
}

/// Adds each string of some with a site behind it.
fn add_longer(
    alloc: Global,
    site: SiteId,
    strings: &[CallString],
    all: &mut Vec<CallString>,
) -> Result<(), NoMemory>
    ensures kept { (w : List ℕ) → Contains all.old.items w → Contains all.new.items w }
    ensures added { OnOk result
        ((w : List ℕ) → Contains strings.now w → Contains all.new.items (site ∷ w)) }
{
    for string in strings {
        all.push(string_with(alloc, site, string.sites())?)?;
    }
    Ok(())
}

/// No site, and each string of some with each of the first sites behind it.
fn longer(alloc: Global, sites: u32, strings: &[CallString]) -> Result<Vec<CallString>, NoMemory>
    ensures empty { IfOk result (λ all. Contains all.items []) }
    ensures added { IfOk result (λ all. (s : ℕ) (w : List ℕ) →
        s < sites → Contains strings.now w → Contains all.items (s ∷ w)) }
{
    let mut all = Vec::new(alloc);
    all.push(CallString::new(alloc))?;
    for s in 0..sites {
        add_longer(alloc, SiteId::new(s), strings, &mut all)?;
    }
    Ok(all)
}

/// All lists of at most so many of the first sites. There are about `sites` to the power of `depth`.
pub fn all_strings(alloc: Global, sites: u32, depth: u32) -> Result<Vec<CallString>, NoMemory>
    ensures { IfOk result (λ all. HasAll all.items sites depth) }
{
    let mut all = Vec::new(alloc);
    all.push(CallString::new(alloc))?;
    'lengths: for _length in 0..depth {
        all = longer(alloc, sites, &all)?;
    }
    Ok(all)
}
