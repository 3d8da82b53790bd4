//! The words of a lattice file, and how far a word can be one of them.

ghost use Rattle.std.specs.Prelude.{◌≡◌, ◌≤◌, ◌<◌, ◌⊎◌, ◌&&◌, [], ◌∷◌, true, false, length, take};
ghost use Rattle.std.specs.Prelude.{is_some, Some, slice_index, codes};
ghost use Rattle.std.specs.Str.{bytes_eq};
ghost use Rattle.std.specs.List.{list_all};
ghost use Rattle.lattice_file.specs.Text.{no_attribute, has_attribute, is_deref, attribute_word};
ghost use Rattle.lattice_file.specs.Text.{is_letter};
ghost use Rattle.lattice_file.specs.Text.{is_name_byte, begins_with_dollar, is_element_name};
ghost use Rattle.lattice_file.specs.Steps.{map_some, if_named, attribute_named, level_named};
ghost use Rattle.lattice_file.specs.Steps.{sign_named, deref_named, with_value, is_full};
ghost use Rattle.lattice_file.specs.Extents.{IsFront};
ghost use Rattle.lattice_file.specs.declared.words.Attribute.TheVariants.{Write as WriteAttribute};

use crate::lexemes::shared_front;
use lattice_core::{Deref, Level, Sign};

/// What an entry says of its element.
#[derive(Clone, Copy, PartialEq, Eq, Debug)]
pub enum Attribute {
    Level,
    Sign,
    Color,
    Write,
    Deref,
}

/// The attributes of an entry as far as it is read, in a file that is read as one of wider C or not.
#[derive(Clone, Copy, PartialEq, Eq, Debug)]
pub struct Given {
    pub wide: bool,
    pub level: Option<Level>,
    pub sign: Option<Sign>,
    pub color: bool,
    pub write: bool,
    pub deref: Deref,
}

impl Given {
    /// No attribute.
    pub fn none(wide: bool) -> Given
        ensures { result ≡ no_attribute wide }
    {
        Given {
            wide,
            level: None,
            sign: None,
            color: false,
            write: false,
            deref: Deref::No,
        }
    }

    fn has_deref(&self) -> bool
        ensures { result ≡ is_deref self.now.deref }
    {
        match self.deref {
            Deref::No => false,
            Deref::Yes | Deref::Access => true,
        }
    }

    /// Whether an attribute is given.
    pub fn has(&self, attribute: Attribute) -> bool
        ensures { result ≡ has_attribute self.now attribute }
    {
        match attribute {
            Attribute::Level => self.level.is_some(),
            Attribute::Sign => self.sign.is_some(),
            Attribute::Color => self.color,
            Attribute::Write => self.write,
            Attribute::Deref => self.has_deref(),
        }
    }

    /// Whether no other attribute can follow.
    pub fn is_full(&self) -> bool
        ensures { result ≡ is_full self.now }
    {
        self.level.is_some() && self.sign.is_some() && self.color && self.write && self.has_deref()
    }

    /// How far a word can be the name of this attribute, if it is not given yet.
    fn front_of(&self, word: &[u8], attribute: Attribute) -> usize
        ensures { IsFront (λ w. is_some (if_named self.now w attribute)) word.now result }
    {
        if self.has(attribute) {
            0
        } else {
            shared_front(word, attribute.word())
        }
    }

    /// How far a word can be the name of an attribute that is not given yet.
    pub fn name_front(&self, word: &[u8]) -> usize
        ensures { IsFront (λ w. is_some (attribute_named self.now w)) word.now result }
    {
        let write_or_deref = longer(
            self.front_of(word, Attribute::Write),
            self.front_of(word, Attribute::Deref),
        );
        let no_level_or_sign = longer(self.front_of(word, Attribute::Color), write_or_deref);
        let no_level = longer(self.front_of(word, Attribute::Sign), no_level_or_sign);
        longer(self.front_of(word, Attribute::Level), no_level)
    }

    /// This attribute, if a word is its name and it is not given yet.
    fn if_named(&self, word: &[u8], attribute: Attribute) -> Option<Attribute>
        ensures { result ≡ if_named self.now word.now attribute }
    {
        if word == attribute.word() && !self.has(attribute) {
            Some(attribute)
        } else {
            None
        }
    }

    /// The attribute of a name, if it is not given yet.
    pub fn named(&self, word: &[u8]) -> Option<Attribute>
        ensures { result ≡ attribute_named self.now word.now }
    {
        let write_or_deref = self
            .if_named(word, Attribute::Write)
            .or(self.if_named(word, Attribute::Deref));
        let no_level_or_sign = self.if_named(word, Attribute::Color).or(write_or_deref);
        let no_level = self.if_named(word, Attribute::Sign).or(no_level_or_sign);
        self.if_named(word, Attribute::Level).or(no_level)
    }

    /// The attributes with a word as the value of one, if it has such a value.
    pub fn give(self, attribute: Attribute, word: &[u8]) -> Option<Given>
        ensures { result ≡ with_value attribute self word.now }
    {
        match attribute {
            Attribute::Level => self.with_level(level_of(word)),
            Attribute::Sign => self.with_sign(sign_of(word)),
            Attribute::Color => None,
            Attribute::Write => self.with_write(word),
            Attribute::Deref => self.with_deref(deref_of(self.wide, word)),
        }
    }

    fn with_level(self, level: Option<Level>) -> Option<Given>
        ensures { result ≡ map_some (λ level. record self { level = Some level }) level }
    {
        let mut given = self;
        match level {
            Some(level) => {
                given.level = Some(level);
                Some(given)
            }
            None => None,
        }
    }

    fn with_sign(self, sign: Option<Sign>) -> Option<Given>
        ensures { result ≡ map_some (λ sign. record self { sign = Some sign }) sign }
    {
        let mut given = self;
        match sign {
            Some(sign) => {
                given.sign = Some(sign);
                Some(given)
            }
            None => None,
        }
    }

    fn with_write(self, word: &[u8]) -> Option<Given>
        ensures { result ≡ with_value WriteAttribute self word.now }
    {
        let mut given = self;
        if word != b"yes".as_slice() {
            return None;
        }
        given.write = true;
        Some(given)
    }

    fn with_deref(self, deref: Option<Deref>) -> Option<Given>
        ensures { result ≡ map_some (λ deref. record self { deref = deref }) deref }
    {
        let mut given = self;
        match deref {
            Some(deref) => {
                given.deref = deref;
                Some(given)
            }
            None => None,
        }
    }

    /// How far a word can be a value of an attribute.
    pub fn value_front(&self, attribute: Attribute, word: &[u8]) -> usize
        ensures { IsFront (λ w. is_some (with_value attribute self.now w)) word.now result }
    {
        match attribute {
            Attribute::Level => level_front(word),
            Attribute::Sign => sign_front(word),
            Attribute::Color => 0,
            Attribute::Write => shared_front(word, b"yes"),
            Attribute::Deref => deref_front(self.wide, word),
        }
    }
}

fn level_of(word: &[u8]) -> Option<Level>
    ensures { result ≡ level_named word.now }
{
    if word == b"ref".as_slice() {
        Some(Level::Ref)
    } else if word == b"value".as_slice() {
        Some(Level::Value)
    } else {
        None
    }
}

fn sign_of(word: &[u8]) -> Option<Sign>
    ensures { result ≡ sign_named word.now }
{
    if word == b"pos".as_slice() {
        Some(Sign::Pos)
    } else if word == b"neg".as_slice() {
        Some(Sign::Neg)
    } else if word == b"eq".as_slice() {
        Some(Sign::Eq)
    } else {
        None
    }
}

fn deref_of(wide: bool, word: &[u8]) -> Option<Deref>
    ensures { result ≡ deref_named wide word.now }
{
    if word == b"yes".as_slice() {
        Some(Deref::Yes)
    } else if wide && word == b"access".as_slice() {
        Some(Deref::Access)
    } else {
        None
    }
}

/// The longer of two fronts.
pub(crate) fn longer(one: usize, other: usize) -> usize
    ensures first { one ≤ result }
    ensures second { other ≤ result }
    ensures which { (result ≡ one) ⊎ (result ≡ other) }
{
    if one < other { other } else { one }
}

fn level_front(word: &[u8]) -> usize
    ensures { IsFront (λ w. is_some (level_named w)) word.now result }
{
    longer(shared_front(word, b"ref"), shared_front(word, b"value"))
}

fn sign_front(word: &[u8]) -> usize
    ensures { IsFront (λ w. is_some (sign_named w)) word.now result }
{
    let neg_or_eq = longer(shared_front(word, b"neg"), shared_front(word, b"eq"));
    longer(shared_front(word, b"pos"), neg_or_eq)
}

fn access_front(wide: bool, word: &[u8]) -> usize
    ensures { IsFront (λ w. wide && bytes_eq w (codes "access")) word.now result }
{
    if wide {
        shared_front(word, b"access")
    } else {
        0
    }
}

fn deref_front(wide: bool, word: &[u8]) -> usize
    ensures { IsFront (λ w. is_some (deref_named wide w)) word.now result }
{
    let access = access_front(wide, word);
    longer(shared_front(word, b"yes"), access)
}

impl Attribute {
    /// The attribute's name.
    fn word(self) -> &'static [u8]
        ensures { result.now ≡ attribute_word self }
    {
        match self {
            Attribute::Level => b"level",
            Attribute::Sign => b"sign",
            Attribute::Color => b"color",
            Attribute::Write => b"write",
            Attribute::Deref => b"deref",
        }
    }
}

fn is_letter_byte(byte: u8) -> bool
    ensures { result ≡ is_letter byte }
{
    matches!(byte, b'a'..=b'z' | b'A'..=b'Z')
}

fn is_byte_of_names(byte: u8) -> bool
    ensures { result ≡ is_name_byte byte }
{
    matches!(byte, b'a'..=b'z' | b'A'..=b'Z' | b'0'..=b'9' | b'_')
}

fn are_bytes_of_names(bytes: &[u8]) -> bool
    ensures { result ≡ list_all is_name_byte bytes.now }
{
    bytes.iter().all(|byte| is_byte_of_names(*byte))
}

/// Whether a word is `$`, a letter, then letters, digits and `_`.
fn is_dollar_name(word: &[u8]) -> bool
    ensures { result ≡ begins_with_dollar word.now }
{
    match word {
        [dollar, letter, more @ ..] => *dollar == b'$'
            && is_letter_byte(*letter)
            && are_bytes_of_names(more),
        _ => false,
    }
}

/// Whether a word is the name of an element.
pub fn is_name(word: &[u8]) -> bool
    ensures { result ≡ is_element_name word.now }
{
    is_dollar_name(word)
        || word == b"const".as_slice()
        || word == b"volatile".as_slice()
        || word == b"restrict".as_slice()
}

/// The length of the row of letters, digits and `_` that begins a word.
fn name_end(word: &[u8]) -> usize
    ensures within { result ≤ length word.now }
    ensures name { list_all is_name_byte (take result word.now) ≡ true }
    ensures ends { result < length word.now → is_name_byte (slice_index word.now result) ≡ false }
{
    let mut at = 0;
    while at < word.len() && is_byte_of_names(word[at]) {
        at += 1;
    }
    at
}

/// How far a word of one byte can be `$`, a letter, then letters, digits and `_`.
fn short_dollar_front(dollar: u8) -> usize
    ensures { IsFront begins_with_dollar (dollar ∷ []) result }
{
    if dollar == b'$' { 1 } else { 0 }
}

/// How far a word of two bytes at least can be `$`, a letter, then letters, digits and `_`.
fn long_dollar_front(dollar: u8, letter: u8, more: &[u8]) -> usize
    ensures { IsFront begins_with_dollar (dollar ∷ letter ∷ more.now) result }
{
    if dollar != b'$' {
        return 0;
    }
    if !is_letter_byte(letter) {
        return 1;
    }
    name_end(more) + 2
}

/// How far a word can be `$`, a letter, then letters, digits and `_`.
fn dollar_front(word: &[u8]) -> usize
    ensures { IsFront begins_with_dollar word.now result }
{
    match word {
        [] => 0,
        [dollar] => short_dollar_front(*dollar),
        [dollar, letter, more @ ..] => long_dollar_front(*dollar, *letter, more),
    }
}

/// How far a word can be the name of an element.
pub fn name_front(word: &[u8]) -> usize
    ensures { IsFront is_element_name word.now result }
{
    let dollar_or_const = longer(dollar_front(word), shared_front(word, b"const"));
    let no_restrict = longer(dollar_or_const, shared_front(word, b"volatile"));
    longer(no_restrict, shared_front(word, b"restrict"))
}
