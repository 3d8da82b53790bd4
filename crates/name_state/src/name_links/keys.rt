//! What definitions of structs and unions are known by, and in which sources they are.

ghost use Rattle.std.specs.Prelude.{◌≡◌, ℕ, nat_eq, ◌&&◌, None, Some, OnOk, if◌then◌else◌};
ghost use Rattle.tape_ops.specs.declared.specifier.TagKind.{TagKind};
ghost use Rattle.name_rules.specs.Scopes.{is_kind};
ghost use Rattle.name_rules.specs.Scopes as rules;
ghost use Rattle.name_state.specs.UnitNames.Shown.{key_of};
ghost use Rattle.name_state.specs.NameLinks.Tables.{shared_at, shared_there, keyed, IsKeyed, with_unit};

use name_tables::name_records::StructKey;
use qual_base::{NameId, NoMemory, StructId, UnitNo};
use std::alloc::Global;
use std::collections::HashMap;
use tape_ops::TagKind;

/// The definitions that are known by one key: the first one, its source, and whether another source has one too.
#[derive(Clone, Copy, PartialEq, Eq, Debug, Drop)]
pub(crate) struct Shared {
    pub(crate) first: StructId,
    pub(crate) unit: UnitNo,
    pub(crate) is_elsewhere: bool,
}

/// Definitions by their names, those of each keyword apart.
#[derive(Drop)]
struct ByKind {
    structs: HashMap<NameId, Shared>,
    unions: HashMap<NameId, Shared>,
    enums: HashMap<NameId, Shared>,
}

/// The definitions of sources, by what they are known by. Memory is linear in them.
#[derive(Drop)]
pub(crate) struct Keys {
    tags: ByKind,
    typedefs: ByKind,
}

/// Has this be known by a name. Constant time but for growth.
fn put(table: &mut HashMap<NameId, Shared>, name: NameId, shared: &Shared) -> Result<(), NoMemory>
    ensures { OnOk result ((n : ℕ) → shared_at table.new n
        ≡ (if nat_eq name n then Some shared.now else shared_at table.old n)) }
{
    match table.insert(name, *shared) {
        Ok(_) => Ok(()),
        Err(_) => Err(NoMemory),
    }
}

impl ByKind {
    /// None. Takes no memory.
    fn new(alloc: Global) -> Self
        ensures { (kind : TagKind) (name : ℕ) → shared_there result kind name ≡ None }
    {
        ByKind {
            structs: HashMap::new(alloc),
            unions: HashMap::new(alloc),
            enums: HashMap::new(alloc),
        }
    }

    /// What is known by a keyword and a name. Constant time.
    fn get(&self, kind: TagKind, name: NameId) -> Option<Shared>
        ensures { result ≡ shared_there self.now kind name }
    {
        match kind {
            TagKind::Struct => self.structs.get(&name).copied(),
            TagKind::Union => self.unions.get(&name).copied(),
            TagKind::Enum => self.enums.get(&name).copied(),
        }
    }

    /// Has this be known by a keyword and a name. Constant time but for growth.
    fn set(&mut self, kind: TagKind, name: NameId, shared: &Shared) -> Result<(), NoMemory>
        ensures { OnOk result ((k : TagKind) (n : ℕ) → shared_there self.new k n
            ≡ (if is_kind kind k && nat_eq name n then Some shared.now
            else shared_there self.old k n)) }
    {
        match kind {
            TagKind::Struct => put(&mut self.structs, name, shared),
            TagKind::Union => put(&mut self.unions, name, shared),
            TagKind::Enum => put(&mut self.enums, name, shared),
        }
    }
}

impl Keys {
    /// None. Takes no memory.
    pub(crate) fn new(alloc: Global) -> Self
        ensures { (key : rules.StructKey) → keyed result key ≡ None }
    {
        Keys {
            tags: ByKind::new(alloc),
            typedefs: ByKind::new(alloc),
        }
    }

    /// What is known by a key. Constant time.
    pub(crate) fn get(&self, key: &StructKey) -> Option<Shared>
        ensures { result ≡ keyed self.now (key_of key.now) }
    {
        if key.by_typedef {
            self.typedefs.get(key.kind, key.name)
        } else {
            self.tags.get(key.kind, key.name)
        }
    }

    /// Has this be known by a key. Constant time but for growth.
    fn set(&mut self, key: &StructKey, shared: &Shared) -> Result<(), NoMemory>
        ensures { OnOk result (IsKeyed self.old self.new (key_of key.now) shared.now) }
    {
        if key.by_typedef {
            self.typedefs.set(key.kind, key.name, shared)
        } else {
            self.tags.set(key.kind, key.name, shared)
        }
    }

    /// One more definition, in a source. Constant time but for growth.
    pub(crate) fn add(
        &mut self,
        key: &StructKey,
        number: StructId,
        unit: UnitNo,
    ) -> Result<(), NoMemory>
        ensures { OnOk result (IsKeyed self.old self.new (key_of key.now)
            (with_unit (keyed self.old (key_of key.now)) number unit)) }
    {
        match self.get(key) {
            Some(shared) => {
                if shared.unit == unit {
                    Ok(())
                } else {
                    self.set(
                        key,
                        &Shared {
                            is_elsewhere: true,
                            ..shared
                        },
                    )
                }
            }
            None => self.set(
                key,
                &Shared {
                    first: number,
                    unit,
                    is_elsewhere: false,
                },
            ),
        }
    }
}
