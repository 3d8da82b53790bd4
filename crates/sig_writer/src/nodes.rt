//! The nodes of external functions: the variables of their skeletons where they were first declared.

ghost use Rattle.std.specs.Prelude.{◌≡◌, ◌<◌, ◌≤◌, ◌-◌, ◌+◌, ◌^◌, ◌++◌, ◌⊎◌, length};
ghost use Rattle.std.specs.Prelude.{IfOk, OnOk, MatchOption};
ghost use Rattle.qual_types.specs.Skel.{nodes};
ghost use Rattle.qual_types.specs.Rows.{skel_of};
ghost use Rattle.sig_writer.specs.Nodes.{all_nodes_in, last_in, last_of, nodes_in, numbers_in};
ghost use Rattle.sig_writer.specs.Nodes.{root_in, AreInOrder, AreNodes, IsHigher, IsInOrder};
ghost use Rattle.sig_writer.specs.Nodes.{SkeletonsAreInOrder};

use name_tables::name_scopes::Place;
use qual_base::{NoMemory, Numbered, SkelId, VarId};
use qual_types::{Look, VarTable};
use std::alloc::Global;
use unit_starts::unit_skeletons::Skeletons;

/// The nodes of a function: the variables from one on, before another. They stand in pre-order.
#[derive(Clone, Copy, PartialEq, Eq, Debug)]
pub struct Nodes {
    pub from: u32,
    pub to: u32,
}

impl Nodes {
    /// How many there are.
    pub fn count(self) -> u32
        requires { self.from ≤ self.to }
        ensures { result ≡ self.to - self.from }
    {
        self.to - self.from
    }

    /// The number of a variable among them, from 0.
    pub fn find(self, at: VarId) -> Option<u32>
        ensures { MatchOption result ((at < self.from) ⊎ (self.to ≤ at))
            (λ n. (self.from + n ≡ at) × (at < self.to)) }
    {
        if at.number() < self.to {
            at.number().checked_sub(self.from)
        } else {
            None
        }
    }
}

/// What stands last in a skeleton: a variable, or a part with variables of its own.
#[derive(Clone, Copy)]
enum Last {
    Var(VarId),
    Part(SkelId),
}

/// What stands last in a skeleton.
fn last_in(vars: &VarTable, at: SkelId) -> Last
    ensures last { last_in vars.now result ≡ last_of (skel_of vars.now at) }
    ensures higher { IsHigher (length vars.now) at result }
{
    match vars.look(at) {
        Look::Flat(var, _) => Last::Var(var),
        Look::Ref(_, inside) => Last::Part(inside),
        Look::Fun {
            result: back,
            ellipsis,
            ..
        } => match ellipsis {
            Some(var) => Last::Var(var),
            None => Last::Part(back),
        },
    }
}

/// The last variable of a skeleton. Linear in the length of the path to it.
fn last_of(vars: &VarTable, at: SkelId) -> VarId
    ensures last { result ≡ last_of (skel_of vars.now at) }
    ensures low { result < 2 ^ 24 }
{
    let mut here = at;
    loop {
        match last_in(vars, here) {
            Last::Var(var) => return var,
            Last::Part(part) => here = part,
        }
    }
}

/// The variables of a skeleton, where they are numbered in pre-order. Linear in the length of the path to its last variable.
fn nodes_of(vars: &VarTable, at: SkelId) -> Nodes
    ensures { IsInOrder (skel_of vars.now at) → AreNodes (nodes (skel_of vars.now at)) result }
{
    Nodes {
        from: vars.var(at).number(),
        to: last_of(vars, at).number() + 1,
    }
}

/// The skeleton that begins at a place; a number past all where none does.
pub fn root_at(skeletons: &Skeletons, at: &Place) -> SkelId
    ensures { result ≡ root_in skeletons.now at.now }
{
    match skeletons.starts().get(at) {
        Some(from) => SkelId::new(from),
        None => SkelId::new(4_294_967_295),
    }
}

/// The nodes of the function that was first declared at a place; the first variable of all where no skeleton begins there, as past the
/// table of variables.
pub fn nodes_at(skeletons: &Skeletons, at: &Place) -> Nodes
    requires { AreInOrder skeletons.now }
    ensures { AreNodes (nodes_in skeletons.now at.now) result }
{
    match skeletons.starts().get(at) {
        Some(from) => nodes_of(skeletons.vars(), SkelId::new(from)),
        None => Nodes { from: 0, to: 1 },
    }
}

/// Adds variables, in order.
fn push_nodes(vars: &mut Vec<VarId>, nodes: Nodes) -> Result<(), NoMemory>
    requires { nodes.from ≤ nodes.to }
    ensures { OnOk result (vars.new.items ≡ vars.old.items ++ numbers_in nodes) }
{
    for n in nodes.from..nodes.to {
        vars.push(VarId::new(n))?;
    }
    Ok(())
}

/// Adds the nodes of the function that was first declared at a place.
fn push_nodes_at(vars: &mut Vec<VarId>, skeletons: &Skeletons, at: &Place) -> Result<(), NoMemory>
    requires { AreInOrder skeletons.now }
    ensures { OnOk result (vars.new.items ≡ vars.old.items ++ nodes_in skeletons.now at.now) }
{
    push_nodes(vars, nodes_at(skeletons, at))
}

/// The nodes of all external functions, by where these were first declared. Linear in them, and in memory 4 bytes for each.
pub fn signature_vars(
    alloc: Global,
    functions: &[Place],
    skeletons: &Skeletons,
) -> Result<Vec<VarId>, NoMemory>
    requires { AreInOrder skeletons.now }
    ensures { IfOk result (λ vars. vars.items ≡ all_nodes_in skeletons.now functions.now) }
{
    let mut vars = Vec::new(alloc);
    for at in functions {
        push_nodes_at(&mut vars, skeletons, at)?;
    }
    Ok(vars)
}

/// The skeletons of types that are numbered one behind the other have their variables in pre-order. It does nothing.
pub fn skeletons_are_in_order()
    ensures { SkeletonsAreInOrder }
{}
