//! Structs, unions and enums by their numbers.

ghost use Rattle.std.specs.Prelude.{◌≡◌, ◌<◌, ◌^◌, ◌∷◌, ◌++◌, [], None, length, slice_get, IfOk, OnOk, OnErr};
ghost use Rattle.name_rules.specs.Scopes.{changed_at};
ghost use Rattle.name_tables.specs.NameRecords.Bodies.{has_body, or_empty, with_member, with_unnamed};
ghost use Rattle.name_tables.specs.NameRecords.Aggregates.{body_at, known_at, with_body, with_key};
ghost use Rattle.name_tables.specs.NameRecords.Found.{AreMembers, member_named};

use crate::name_records::body::{Body, Known};
use crate::name_records::member_map::MemberMap;
use crate::name_scopes::Place;
use qual_base::{NameId, NoMemory, Numbered, StructId, TypeId};
use std::alloc::Global;
use std::marker::Model;
use tape_ops::TagKind;

/// What a definition at file scope is known by in other sources: its keyword, and its tag, or where it has none the first name of the
/// typedef of the file that it is a word of. Tags and names of typedefs are apart.
#[derive(Clone, Copy, PartialEq, Eq, Debug, Drop)]
pub struct StructKey {
    pub kind: TagKind,
    pub by_typedef: bool,
    pub name: NameId,
}

/// A struct, union or enum, by the place of its first tag, or of its keyword where it has none.
#[derive(Drop)]
pub struct Aggregate {
    pub kind: TagKind,
    pub at: Place,
    pub body: Option<Body>,
    /// Where the body stands at file scope.
    pub key: Option<StructKey>,
}

/// Structs, unions and enums by their numbers. Clauses see their list. Memory is linear in it and in the members.
#[derive(Drop)]
pub struct Aggregates {
    all: Vec<Aggregate>,
    /// The members so far by their names.
    members: MemberMap,
}

impl Model for Aggregates {
    ghost use Rattle.std.specs.Prelude.{List};
    ghost use Rattle.name_tables.specs.declared.name_records.aggregates.Aggregate.{Aggregate};

    ghost Value = { List Aggregate };

    ghost use Rattle.name_tables.specs.NameRecords.Found.{AreMembers};

    ghost view = { λ s. s.all.items };

    ghost invariant = { λ s. AreMembers s.all.items s.members };
}

impl Aggregates {
    /// None of them. Takes no memory.
    pub fn new(alloc: Global) -> Self
        ensures { result ≡ [] }
    {
        Aggregates {
            all: Vec::new(alloc),
            members: MemberMap::new(alloc),
        }
    }

    /// All of them, in the order of their numbers.
    pub fn as_slice(&self) -> &[Aggregate]
        ensures { result.now ≡ self.now }
    {
        self.all.as_slice()
    }

    /// A new one without a body, and its number. For want of memory, and where there are 2^32 - 1, there is none. Constant time
    /// but for growth.
    pub fn push(&mut self, kind: TagKind, at: &Place) -> Result<StructId, NoMemory>
        ensures number { IfOk result (λ n. n ≡ length self.old) }
        ensures pushed { OnOk result
            (self.new
            ≡ self.old ++ record { kind = kind; at = at.now; body = None; key = None } ∷ []) }
    {
        let count = self.all.len();
        if count >= 4_294_967_295 {
            return Err(NoMemory);
        }
        self.all.push(Aggregate {
            kind,
            at: *at,
            body: None,
            key: None,
        })?;
        Ok(StructId::new(count as u32))
    }

    /// Whether one has a body. Constant time.
    pub fn has_body(&self, number: StructId) -> bool
        ensures { result ≡ has_body (body_at self.now number) }
    {
        match self.all.get(number.number() as usize) {
            Some(it) => it.body.is_some(),
            None => false,
        }
    }

    /// How many own members one has. Constant time.
    pub fn count(&self, number: StructId) -> usize
        ensures { result ≡ length (or_empty (body_at self.now number)).own }
    {
        match self.all.get(number.number() as usize) {
            Some(it) => it.count(),
            None => 0,
        }
    }

    /// The first member of one by a name, its own or one of an unnamed member. Constant time.
    pub fn member_at(&self, number: StructId, name: NameId) -> Option<Known>
        ensures { result ≡ member_named (known_at self.now number) name }
    {
        self.members.get(number, name)
    }

    /// A copy of the members that one has by names. Linear in their number.
    fn known(&self, alloc: Global, number: StructId) -> Result<Vec<Known>, NoMemory>
        ensures { IfOk result (λ known. known.items ≡ known_at self.now number) }
    {
        match self.all.get(number.number() as usize) {
            Some(it) => match &it.body {
                Some(body) => Ok(body.known().to_vec(alloc)?),
                None => Ok(Vec::new(alloc)),
            },
            None => Ok(Vec::new(alloc)),
        }
    }

    /// The body of one begins; where it has one, that goes on. Constant time.
    pub fn open(&mut self, alloc: Global, number: StructId)
        ensures { self.new ≡ changed_at self.old number (with_body (λ body. body)) }
    {
        let Some(it) = self.all.get_mut(number.number() as usize) else {
            return;
        };
        it.open(alloc);
    }

    /// What one is known by in other sources. Constant time.
    pub fn set_key(&mut self, number: StructId, by_typedef: bool, name: NameId)
        ensures { self.new ≡ changed_at self.old number (with_key by_typedef name) }
    {
        let Some(it) = self.all.get_mut(number.number() as usize) else {
            return;
        };
        it.set_key(by_typedef, name);
    }

    /// One more own member, which has a name. Constant time but for growth. For want of memory there are none from then on.
    pub fn push_member(
        &mut self,
        alloc: Global,
        number: StructId,
        name: NameId,
        at: &Place,
        ty: TypeId,
    ) -> Result<(), NoMemory>
        ensures { OnOk result
            (self.new ≡ changed_at self.old number (with_body (with_member name at.now ty))) }
    {
        match member_pushed(
            alloc,
            &mut self.all,
            &mut self.members,
            number,
            name,
            at,
            ty,
        ) {
            Ok(()) => Ok(()),
            Err(NoMemory) => {
                self.all = Vec::new(alloc);
                self.members = MemberMap::new(alloc);
                Err(NoMemory)
            }
        }
    }

    /// One more own member without a name, whose members, those of `inner`, are members of this one too. Linear in their
    /// number. For want of memory there are none from then on.
    pub fn push_unnamed(
        &mut self,
        alloc: Global,
        number: StructId,
        at: &Place,
        ty: TypeId,
        inner: StructId,
    ) -> Result<(), NoMemory>
        ensures { OnOk result
            (self.new
            ≡ changed_at self.old number
            (with_body (with_unnamed at.now ty (known_at self.old inner)))) }
    {
        let known = self.known(alloc, inner)?;
        match unnamed_pushed(
            alloc,
            &mut self.all,
            &mut self.members,
            number,
            at,
            ty,
            &known,
        ) {
            Ok(()) => Ok(()),
            Err(NoMemory) => {
                self.all = Vec::new(alloc);
                self.members = MemberMap::new(alloc);
                Err(NoMemory)
            }
        }
    }
}

/// One more own member of a struct, which has a name. Constant time but for growth.
fn member_pushed(
    alloc: Global,
    all: &mut Vec<Aggregate>,
    members: &mut MemberMap,
    number: StructId,
    name: NameId,
    at: &Place,
    ty: TypeId,
) -> Result<(), NoMemory>
    requires { AreMembers all.old.items members.old }
    ensures pushed { OnOk result (all.new.items
        ≡ changed_at all.old.items number (with_body (with_member name at.now ty))) }
    ensures members { OnOk result (AreMembers all.new.items members.new) }
{
    let Some(it) = all.get_mut(number.number() as usize) else {
        return Ok(());
    };
    let own = it.count();
    it.push_member(alloc, name, at, ty)?;
    let at = *at;
    members.add(number, &Known { name, at, ty, own })
}

/// One more own member of a struct without a name, and the members that lie in it. Linear in their number.
fn unnamed_pushed(
    alloc: Global,
    all: &mut Vec<Aggregate>,
    members: &mut MemberMap,
    number: StructId,
    at: &Place,
    ty: TypeId,
    inner: &[Known],
) -> Result<(), NoMemory>
    requires { AreMembers all.old.items members.old }
    ensures pushed { OnOk result (all.new.items
        ≡ changed_at all.old.items number (with_body (with_unnamed at.now ty inner.now))) }
    ensures members { OnOk result (AreMembers all.new.items members.new) }
{
    let Some(it) = all.get_mut(number.number() as usize) else {
        return Ok(());
    };
    let own = it.count();
    it.push_unnamed(alloc, at, ty, inner)?;
    members.add_inner(number, own, inner)
}

impl Aggregate {
    /// How many own members it has. Constant time.
    fn count(&self) -> usize
        ensures { result ≡ length (or_empty self.now.body).own }
    {
        match &self.body {
            Some(body) => body.count(),
            None => 0,
        }
    }

    /// What it is known by in other sources. Constant time.
    fn set_key(&mut self, by_typedef: bool, name: NameId)
        ensures { self.new ≡ with_key by_typedef name self.old }
    {
        let kind = self.kind;
        self.key = Some(StructKey {
            kind,
            by_typedef,
            name,
        });
    }

    /// The body begins, or goes on. Constant time.
    fn open(&mut self, alloc: Global)
        ensures { self.new ≡ with_body (λ body. body) self.old }
    {
        if self.body.is_none() {
            self.body = Some(Body::new(alloc));
        }
    }

    /// One more own member, which has a name. Constant time but for growth.
    fn push_member(
        &mut self,
        alloc: Global,
        name: NameId,
        at: &Place,
        ty: TypeId,
    ) -> Result<(), NoMemory>
        ensures { OnOk result (self.new ≡ with_body (with_member name at.now ty) self.old) }
    {
        let mut body = body_of(alloc, self.body.take());
        body.push(name, at, ty)?;
        self.body = Some(body);
        Ok(())
    }

    /// One more own member without a name, and the members that lie in it. Linear in their number.
    fn push_unnamed(
        &mut self,
        alloc: Global,
        at: &Place,
        ty: TypeId,
        inner: &[Known],
    ) -> Result<(), NoMemory>
        ensures { OnOk result (self.new ≡ with_body (with_unnamed at.now ty inner.now) self.old) }
    {
        let mut body = body_of(alloc, self.body.take());
        body.push_unnamed(at, ty, inner)?;
        self.body = Some(body);
        Ok(())
    }
}

/// A body, or one without members where there is none.
fn body_of(alloc: Global, body: Option<Body>) -> Body
    ensures { result ≡ or_empty body }
{
    match body {
        Some(body) => body,
        None => Body::new(alloc),
    }
}
