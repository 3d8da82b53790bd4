//! Laws of what a tape begins and ends.

ghost use Rattle.owned_laws.specs.TapeLaws.Marks.{ItemsAreBracketed};

/// The tape of an item ends each declaration, list of parameters, body, scope and quiet part that it begins, behind what is begun
/// in it. Own parameters and a body stand only in the declaration of the function's name, the body behind the parameters.
pub fn items_are_bracketed()
    ensures { ItemsAreBracketed }
{}
