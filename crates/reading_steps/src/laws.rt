//! Laws of the steps of readers.

ghost use Rattle.reading_steps.specs.Laws.{FreshIsFree};

/// A name that is no less than the fresh one has no kind in any open scope, and the innermost does not hold it.
pub fn fresh_is_free()
    ensures { FreshIsFree }
{}
