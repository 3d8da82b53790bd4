//! A copy of a type's outermost constructor.

ghost use Rattle.name_state.specs.NameTypes.Known.{IsCopy};
ghost use Rattle.std.specs.Prelude.{IfOk};

use qual_base::NoMemory;
use std::alloc::Global;
use type_table::Shape;

/// A copy of a shape. Linear in the number of parameters.
pub(crate) fn copy_of(alloc: Global, shape: &Shape) -> Result<Shape, NoMemory>
    ensures { IfOk result (λ copy. IsCopy shape.now copy) }
{
    match shape {
        Shape::Base => Ok(Shape::Base),
        Shape::Void => Ok(Shape::Void),
        Shape::Ref(inside) => Ok(Shape::Ref(*inside)),
        Shape::Fun {
            params,
            result: back,
            ellipsis,
        } => {
            let params = params.to_vec(alloc)?;
            Ok(Shape::Fun {
                params,
                result: *back,
                ellipsis: *ellipsis,
            })
        }
        Shape::Struct(number) => Ok(Shape::Struct(*number)),
    }
}
