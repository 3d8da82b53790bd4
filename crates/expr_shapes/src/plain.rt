//! Types without annotation words that operators give.

ghost use Rattle.std.specs.Prelude.{IfOk};
ghost use Rattle.expr_shapes.specs.Types.{ArePlain};

use qual_base::{NoMemory, TypeId};
use std::alloc::Global;
use type_table::{Shape, TypeTable};

/// The numbers of the base type, of `void` and of a pointer to the base type, without annotation words.
#[derive(Clone, Copy, PartialEq, Eq, Debug, Drop)]
pub struct Plain {
    pub base: TypeId,
    pub void: TypeId,
    pub text: TypeId,
}

impl Plain {
    /// Adds these types to a table. Constant time but for growth.
    pub fn push(alloc: Global, types: &mut TypeTable) -> Result<Plain, NoMemory>
        ensures plain { IfOk result (λ it. ArePlain types.new it) }
    {
        let base = types.push(Shape::Base, Vec::new(alloc), Vec::new(alloc))?;
        let void = types.push(Shape::Void, Vec::new(alloc), Vec::new(alloc))?;
        let text = types.push(Shape::Ref(base), Vec::new(alloc), Vec::new(alloc))?;
        Ok(Plain { base, void, text })
    }
}
