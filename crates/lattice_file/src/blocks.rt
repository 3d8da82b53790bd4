//! The blocks of a lattice file, lexeme by lexeme.

ghost use Rattle.std.specs.Prelude.{◌≡◌, ◌<◌, [], length, is_some, true, Some, IfOk, IfErr, OnOk};
ghost use Rattle.std.specs.Prelude.{IfSome, IfNone};
ghost use Rattle.lattice_file.specs.Steps.{WordLexeme, SignLexeme, TextLexeme, next};
ghost use Rattle.lattice_file.specs.Steps.{behind_entry, behind_block};
ghost use Rattle.lattice_file.specs.Reading.{standing_of, GoesOnBy};
ghost use Rattle.lattice_file.specs.Extents.{IsFront, may_come};
ghost use Rattle.lattice_core.specs.Building.{Refuses};
ghost use Rattle.lattice_file.specs.Blocks.{IsBuilt};

use crate::lexemes::shared_front;
use crate::passing::{
    BlockAttribute, give, has_all, name_front as name_of_flow_front, named as flow_named,
};
use crate::words::{Attribute, Given, is_name, name_front};
use lattice_core::{Entry, Flows, Lattice, LatticeFault, Level, Name, Pair, Sign};
use std::alloc::{AllocError, AllocFailed, Global};
use std::marker::Model;

/// The entries, of which there is at least one, and the order lines of a block, each in the order in which they are
/// written, and its attributes.
#[derive(Drop)]
pub struct Block {
    entries: Vec<Entry>,
    pairs: Vec<Pair>,
    flows: Flows,
}

impl Model for Block {
    ghost use Rattle.std.specs.Prelude.{◌<◌, length};
    ghost use Rattle.lattice_file.specs.Blocks.{BlockView};

    ghost Value = { BlockView };

    ghost view = { λ a. record {
      entries = a.entries.items;
      pairs = a.pairs.items;
      flows = a.flows;
    } };

    ghost invariant = { λ a. 0 < length a.entries.items };
}

impl Block {
    /// A block of these entries, order lines and attributes.
    pub fn new(entries: Vec<Entry>, pairs: Vec<Pair>, flows: Flows) -> Block
        requires { 0 < length entries.items }
        ensures entries { result.entries ≡ entries.items }
        ensures pairs { result.pairs ≡ pairs.items }
        ensures flows { result.flows ≡ flows }
    {
        Block {
            entries,
            pairs,
            flows,
        }
    }

    /// The lattice of a block, or the first reason why there is none.
    pub fn build(self, alloc: Global) -> Result<Lattice, LatticeFault>
        ensures built { IfOk result (IsBuilt self) }
        ensures refused { IfErr result (Refuses self.entries self.pairs) }
    {
        let mut lattice = Lattice::build(alloc, self.entries, &self.pairs)?;
        lattice.set_flows(self.flows.ptr, self.flows.field);
        Ok(lattice)
    }
}

/// What may come next.
#[derive(Clone, Copy, PartialEq, Eq, Debug)]
pub enum Stage {
    /// `partial`, or the end.
    Outside,
    /// `order`.
    Order,
    /// `{`, or `[` before attributes of the block.
    Open,
    /// The name of an attribute that the block does not have yet.
    FlowName,
    /// `=` behind the name of an attribute of the block.
    FlowEquals(BlockAttribute),
    /// A value of the attribute of the block.
    FlowValue(BlockAttribute),
    /// `,` where an attribute of the block is left, or `]`.
    Flowed,
    /// `{` behind attributes.
    Braced,
    /// A name, or `}` behind an entry.
    Items,
    /// `[` or `<`.
    Named,
    /// The name of an order line's upper element.
    High,
    /// The name of an attribute that the entry does not have yet.
    Attribute,
    /// `=`.
    Equals(Attribute),
    /// A value of the attribute.
    Value(Attribute),
    /// `,` where an attribute is left, or `]`.
    Attributed,
}

/// Blocks as far as a file is read.
#[derive(Drop)]
pub struct Reader {
    alloc: Global,
    stage: Stage,
    given: Given,
    name: Name,
    entries: Vec<Entry>,
    pairs: Vec<Pair>,
    flows: Flows,
    blocks: Vec<Block>,
}

impl Reader {
    pub fn new(alloc: Global, wide: bool) -> Reader
        ensures stage { result.stage ≡ Stage.Outside }
        ensures wide { result.given.wide ≡ wide }
        ensures blocks { result.blocks.items ≡ [] }
    {
        Reader {
            alloc,
            stage: Stage::Outside,
            given: Given::none(wide),
            name: Name::new(Vec::new(alloc)),
            entries: Vec::new(alloc),
            pairs: Vec::new(alloc),
            flows: Flows::none(),
            blocks: Vec::new(alloc),
        }
    }

    /// The blocks, if the file may end here.
    pub fn finish(self) -> Option<Vec<Block>>
        ensures outside { IfSome result (λ blocks. self.stage ≡ Stage.Outside) }
        ensures blocks { IfSome result (λ blocks. blocks.items ≡ self.blocks.items) }
        ensures inside { IfNone result (self.stage ≡ Stage.Outside → ⊥) }
    {
        match self.stage {
            Stage::Outside => Some(self.blocks),
            _ => None,
        }
    }

    /// Whether a colour text may come next.
    pub fn wants_text(&self) -> bool
        ensures { result ≡ is_some (next (standing_of self.now) TextLexeme) }
    {
        match self.stage {
            Stage::Value(Attribute::Color) => true,
            _ => false,
        }
    }

    /// Takes a colour text.
    pub fn take_text(&mut self)
        requires { is_some (next (standing_of self.old) TextLexeme) ≡ true }
        ensures { next (standing_of self.old) TextLexeme ≡ Some (standing_of self.new) }
    {
        self.given.color = true;
        self.stage = Stage::Attributed;
    }

    /// How far a word can be one that may come next.
    pub fn word_front(&self, word: &[u8]) -> usize
        ensures { IsFront (may_come (standing_of self.now)) word.now result }
    {
        match self.stage {
            Stage::Outside => shared_front(word, b"partial"),
            Stage::Order => shared_front(word, b"order"),
            Stage::Items | Stage::High => name_front(word),
            Stage::Attribute => self.given.name_front(word),
            Stage::Value(attribute) => self.given.value_front(attribute, word),
            Stage::FlowName => name_of_flow_front(&self.flows, word),
            Stage::FlowValue(attribute) => attribute.value_front(word),
            Stage::Open | Stage::FlowEquals(_) | Stage::Flowed | Stage::Braced => 0,
            Stage::Named | Stage::Equals(_) | Stage::Attributed => 0,
        }
    }

    /// Takes a word, and says whether it may come next.
    pub fn take_word(&mut self, word: &[u8]) -> Result<bool, AllocError>
        ensures { IfOk result (λ taken. GoesOnBy self.old self.new (WordLexeme word.now) taken) }
    {
        match self.stage {
            Stage::Outside => Ok(self.begin_order(word)),
            Stage::Order => Ok(self.end_order(word)),
            Stage::Items => self.begin_item(word),
            Stage::High => self.end_line(word),
            Stage::Attribute => Ok(self.begin_attribute(word)),
            Stage::Value(attribute) => Ok(self.end_value(attribute, word)),
            Stage::FlowName => Ok(self.begin_flow(word)),
            Stage::FlowValue(attribute) => Ok(self.end_flow(attribute, word)),
            Stage::Open | Stage::FlowEquals(_) | Stage::Flowed | Stage::Braced => Ok(false),
            Stage::Named | Stage::Equals(_) | Stage::Attributed => Ok(false),
        }
    }

    /// Takes a sign, and says whether it may come next.
    pub fn take_sign(&mut self, sign: u8) -> Result<bool, AllocError>
        ensures { IfOk result (λ taken. GoesOnBy self.old self.new (SignLexeme sign) taken) }
    {
        match self.stage {
            Stage::Open => Ok(self.open_block(sign)),
            Stage::Items => self.end_block(sign),
            Stage::Named => Ok(self.behind_name(sign)),
            Stage::Equals(attribute) => Ok(self.begin_value(attribute, sign)),
            Stage::Attributed => self.behind_attribute(sign),
            Stage::FlowEquals(attribute) => Ok(self.begin_direction(attribute, sign)),
            Stage::Flowed => Ok(self.behind_flow(sign)),
            Stage::Braced => Ok(self.open_items(sign)),
            Stage::FlowName | Stage::FlowValue(_) => Ok(false),
            Stage::Outside | Stage::Order | Stage::High | Stage::Attribute | Stage::Value(_) => {
                Ok(false)
            }
        }
    }

    fn begin_order(&mut self, word: &[u8]) -> bool
        requires { self.old.stage ≡ Stage.Outside }
        ensures { GoesOnBy self.old self.new (WordLexeme word.now) result }
    {
        if word != b"partial".as_slice() {
            return false;
        }
        self.stage = Stage::Order;
        true
    }

    fn end_order(&mut self, word: &[u8]) -> bool
        requires { self.old.stage ≡ Stage.Order }
        ensures { GoesOnBy self.old self.new (WordLexeme word.now) result }
    {
        if word != b"order".as_slice() {
            return false;
        }
        self.stage = Stage::Open;
        true
    }

    fn open_block(&mut self, sign: u8) -> bool
        requires { self.old.stage ≡ Stage.Open }
        ensures { GoesOnBy self.old self.new (SignLexeme sign) result }
    {
        if sign == b'{' {
            self.entries = Vec::new(self.alloc);
            self.pairs = Vec::new(self.alloc);
            self.flows = Flows::none();
            self.stage = Stage::Items;
            return true;
        }
        if sign != b'[' {
            return false;
        }
        self.flows = Flows::none();
        self.stage = Stage::FlowName;
        true
    }

    fn begin_flow(&mut self, word: &[u8]) -> bool
        requires { self.old.stage ≡ Stage.FlowName }
        ensures { GoesOnBy self.old self.new (WordLexeme word.now) result }
    {
        match flow_named(&self.flows, word) {
            Some(attribute) => {
                self.stage = Stage::FlowEquals(attribute);
                true
            }
            None => false,
        }
    }

    fn begin_direction(&mut self, attribute: BlockAttribute, sign: u8) -> bool
        requires { self.old.stage ≡ Stage.FlowEquals attribute }
        ensures { GoesOnBy self.old self.new (SignLexeme sign) result }
    {
        if sign != b'=' {
            return false;
        }
        self.stage = Stage::FlowValue(attribute);
        true
    }

    fn end_flow(&mut self, attribute: BlockAttribute, word: &[u8]) -> bool
        requires { self.old.stage ≡ Stage.FlowValue attribute }
        ensures { GoesOnBy self.old self.new (WordLexeme word.now) result }
    {
        match give(self.flows, attribute, word) {
            Some(flows) => {
                self.flows = flows;
                self.stage = Stage::Flowed;
                true
            }
            None => false,
        }
    }

    fn behind_flow(&mut self, sign: u8) -> bool
        requires { self.old.stage ≡ Stage.Flowed }
        ensures { GoesOnBy self.old self.new (SignLexeme sign) result }
    {
        if sign == b',' && !has_all(&self.flows) {
            self.stage = Stage::FlowName;
            return true;
        }
        if sign != b']' {
            return false;
        }
        self.stage = Stage::Braced;
        true
    }

    fn open_items(&mut self, sign: u8) -> bool
        requires { self.old.stage ≡ Stage.Braced }
        ensures { GoesOnBy self.old self.new (SignLexeme sign) result }
    {
        if sign != b'{' {
            return false;
        }
        self.entries = Vec::new(self.alloc);
        self.pairs = Vec::new(self.alloc);
        self.stage = Stage::Items;
        true
    }

    fn begin_item(&mut self, word: &[u8]) -> Result<bool, AllocError>
        requires { self.old.stage ≡ Stage.Items }
        ensures { IfOk result (λ taken. GoesOnBy self.old self.new (WordLexeme word.now) taken) }
    {
        if !is_name(word) {
            return Ok(false);
        }
        self.name = Name::new(word.to_vec(self.alloc)?);
        self.stage = Stage::Named;
        Ok(true)
    }

    fn behind_name(&mut self, sign: u8) -> bool
        requires { self.old.stage ≡ Stage.Named }
        ensures { GoesOnBy self.old self.new (SignLexeme sign) result }
    {
        if sign == b'[' {
            self.given = Given::none(self.given.wide);
            self.stage = Stage::Attribute;
            return true;
        }
        if sign != b'<' {
            return false;
        }
        self.stage = Stage::High;
        true
    }

    fn end_line(&mut self, word: &[u8]) -> Result<bool, AllocError>
        requires { self.old.stage ≡ Stage.High }
        ensures { IfOk result (λ taken. GoesOnBy self.old self.new (WordLexeme word.now) taken) }
    {
        if !is_name(word) {
            return Ok(false);
        }
        let high = Name::new(word.to_vec(self.alloc)?);
        let low = self.name.copy(self.alloc)?;
        self.pairs.push(Pair { low, high })?;
        self.stage = Stage::Items;
        Ok(true)
    }

    fn begin_attribute(&mut self, word: &[u8]) -> bool
        requires { self.old.stage ≡ Stage.Attribute }
        ensures { GoesOnBy self.old self.new (WordLexeme word.now) result }
    {
        match self.given.named(word) {
            Some(attribute) => {
                self.stage = Stage::Equals(attribute);
                true
            }
            None => false,
        }
    }

    fn begin_value(&mut self, attribute: Attribute, sign: u8) -> bool
        requires { self.old.stage ≡ Stage.Equals attribute }
        ensures { GoesOnBy self.old self.new (SignLexeme sign) result }
    {
        if sign != b'=' {
            return false;
        }
        self.stage = Stage::Value(attribute);
        true
    }

    fn end_value(&mut self, attribute: Attribute, word: &[u8]) -> bool
        requires { self.old.stage ≡ Stage.Value attribute }
        ensures { GoesOnBy self.old self.new (WordLexeme word.now) result }
    {
        match self.given.give(attribute, word) {
            Some(given) => {
                self.given = given;
                self.stage = Stage::Attributed;
                true
            }
            None => false,
        }
    }

    fn behind_attribute(&mut self, sign: u8) -> Result<bool, AllocError>
        requires { self.old.stage ≡ Stage.Attributed }
        ensures { IfOk result (λ taken. GoesOnBy self.old self.new (SignLexeme sign) taken) }
    {
        if sign == b',' && !self.given.is_full() {
            self.stage = Stage::Attribute;
            return Ok(true);
        }
        if sign != b']' {
            return Ok(false);
        }
        self.end_entry()?;
        Ok(true)
    }

    /// Adds the entry that is read.
    fn end_entry(&mut self) -> Result<(), AllocError>
        ensures { OnOk result (standing_of self.new ≡ behind_entry (standing_of self.old)) }
    {
        let entry = Entry {
            name: self.name.copy(self.alloc)?,
            level: self.given.level.unwrap_or(Level::Value),
            sign: self.given.sign.unwrap_or(Sign::Eq),
            write: self.given.write,
            deref: self.given.deref,
        };
        self.entries.push(entry)?;
        self.stage = Stage::Items;
        Ok(())
    }

    fn end_block(&mut self, sign: u8) -> Result<bool, AllocError>
        requires { self.old.stage ≡ Stage.Items }
        ensures { IfOk result (λ taken. GoesOnBy self.old self.new (SignLexeme sign) taken) }
    {
        if sign != b'}' || self.entries.is_empty() {
            return Ok(false);
        }
        self.add_block()?;
        Ok(true)
    }

    /// Adds the block that is read.
    fn add_block(&mut self) -> Result<(), AllocError>
        requires { 0 < length self.old.entries.items }
        ensures { OnOk result (standing_of self.new ≡ behind_block (standing_of self.old)) }
    {
        let entries = std::mem::replace(&mut self.entries, Vec::new(self.alloc));
        let pairs = std::mem::replace(&mut self.pairs, Vec::new(self.alloc));
        self.blocks.push(Block::new(entries, pairs, self.flows))?;
        self.stage = Stage::Outside;
        Ok(())
    }
}
