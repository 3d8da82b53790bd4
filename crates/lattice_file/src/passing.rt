//! The words of a block's attributes, and how far a word can be one of them.

ghost use Rattle.std.specs.Prelude.{◌≡◌, Some, is_some};
ghost use Rattle.lattice_file.specs.Text.{has_flow, block_attribute_word};
ghost use Rattle.lattice_file.specs.Steps.{map_some, if_flow, flow_named, direction_named};
ghost use Rattle.lattice_file.specs.Steps.{with_flow, has_all_flows};
ghost use Rattle.lattice_file.specs.Extents.{IsFront};
ghost use Rattle.lattice_file.specs.declared.passing.BlockAttribute.TheVariants.{
  Fieldflow as FieldflowAttribute,
};

use crate::lexemes::shared_front;
use crate::words::longer;
use lattice_core::{Direction, Flows};

/// What a block says of its lattice as a whole.
#[derive(Clone, Copy, PartialEq, Eq, Debug)]
pub enum BlockAttribute {
    Ptrflow,
    Fieldflow,
}

impl BlockAttribute {
    /// The attribute's name.
    fn word(self) -> &'static [u8]
        ensures { result.now ≡ block_attribute_word self }
    {
        match self {
            BlockAttribute::Ptrflow => b"ptrflow",
            BlockAttribute::Fieldflow => b"fieldflow",
        }
    }

    /// How far a word can be a value of the attribute.
    pub fn value_front(self, word: &[u8]) -> usize
        ensures { (flows : Flows) → IsFront (λ w. is_some (with_flow self flows w)) word.now result }
    {
        match self {
            BlockAttribute::Ptrflow => direction_front(word),
            BlockAttribute::Fieldflow => shared_front(word, b"down"),
        }
    }
}

/// Whether a block has an attribute.
fn has(flows: &Flows, attribute: BlockAttribute) -> bool
    ensures { result ≡ has_flow flows.now attribute }
{
    match attribute {
        BlockAttribute::Ptrflow => flows.ptr.is_some(),
        BlockAttribute::Fieldflow => flows.field,
    }
}

/// Whether no other attribute can follow.
pub fn has_all(flows: &Flows) -> bool
    ensures { result ≡ has_all_flows flows.now }
{
    flows.ptr.is_some() && flows.field
}

/// How far a word can be the name of this attribute, if the block does not have it yet.
fn front_of(flows: &Flows, word: &[u8], attribute: BlockAttribute) -> usize
    ensures { IsFront (λ w. is_some (if_flow flows.now w attribute)) word.now result }
{
    if has(flows, attribute) {
        0
    } else {
        shared_front(word, attribute.word())
    }
}

/// How far a word can be the name of an attribute that the block does not have yet.
pub fn name_front(flows: &Flows, word: &[u8]) -> usize
    ensures { IsFront (λ w. is_some (flow_named flows.now w)) word.now result }
{
    longer(
        front_of(flows, word, BlockAttribute::Ptrflow),
        front_of(flows, word, BlockAttribute::Fieldflow),
    )
}

/// This attribute, if a word is its name and the block does not have it yet.
fn if_named(flows: &Flows, word: &[u8], attribute: BlockAttribute) -> Option<BlockAttribute>
    ensures { result ≡ if_flow flows.now word.now attribute }
{
    if word == attribute.word() && !has(flows, attribute) {
        Some(attribute)
    } else {
        None
    }
}

/// The attribute of a name, if the block does not have it yet.
pub fn named(flows: &Flows, word: &[u8]) -> Option<BlockAttribute>
    ensures { result ≡ flow_named flows.now word.now }
{
    if_named(flows, word, BlockAttribute::Ptrflow).or(if_named(
        flows,
        word,
        BlockAttribute::Fieldflow,
    ))
}

/// The attributes with a word as the value of one, if it has such a value.
pub fn give(flows: Flows, attribute: BlockAttribute, word: &[u8]) -> Option<Flows>
    ensures { result ≡ with_flow attribute flows word.now }
{
    match attribute {
        BlockAttribute::Ptrflow => with_direction(flows, direction_of(word)),
        BlockAttribute::Fieldflow => with_field(flows, word),
    }
}

fn with_direction(flows: Flows, direction: Option<Direction>) -> Option<Flows>
    ensures { result
        ≡ map_some (λ direction. record flows { ptr = Some direction }) direction }
{
    let mut then = flows;
    match direction {
        Some(direction) => {
            then.ptr = Some(direction);
            Some(then)
        }
        None => None,
    }
}

fn with_field(flows: Flows, word: &[u8]) -> Option<Flows>
    ensures { result ≡ with_flow FieldflowAttribute flows word.now }
{
    let mut then = flows;
    if word != b"down".as_slice() {
        return None;
    }
    then.field = true;
    Some(then)
}

fn direction_of(word: &[u8]) -> Option<Direction>
    ensures { result ≡ direction_named word.now }
{
    if word == b"up".as_slice() {
        Some(Direction::Up)
    } else if word == b"down".as_slice() {
        Some(Direction::Down)
    } else {
        None
    }
}

fn direction_front(word: &[u8]) -> usize
    ensures { IsFront (λ w. is_some (direction_named w)) word.now result }
{
    longer(shared_front(word, b"up"), shared_front(word, b"down"))
}
