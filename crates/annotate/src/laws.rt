//! What is true of the annotated source.

ghost use Rattle.annotate.specs.Annotated.{CommentsComeOut};

/// Taking the comments out of the annotated source of a unit gives the bytes of the unit back.
pub fn comments_come_out()
    ensures { CommentsComeOut }
{}
