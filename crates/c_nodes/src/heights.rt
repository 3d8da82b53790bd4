//! Heights of nodes from those of their parts, at most 2^32 - 1.

ghost use Rattle.std.specs.Prelude.{◌≡◌, ℕ, ◌+◌, max};
ghost use Rattle.c_tree.specs.Capped.{capped};
ghost use Rattle.c_tree.specs.Height.{attrs_height, pointer_words_height, label_height};

use c_syntax::{AsmLabel, Attr, PointerWord};

/// The height of a node above a part.
pub fn above(part: u32) -> u32
    ensures { (x : ℕ) → part ≡ capped x → result ≡ capped (x + 1) }
{
    part.saturating_add(1)
}

/// The greater of two heights.
pub fn greater(one: u32, other: u32) -> u32
    ensures { (x y : ℕ) → one ≡ capped x → other ≡ capped y → result ≡ capped (max x y) }
{
    one.max(other)
}

/// The height of a node above two parts.
pub fn above_both(one: u32, other: u32) -> u32
    ensures { (x y : ℕ) → one ≡ capped x → other ≡ capped y → result ≡ capped (max x y + 1) }
{
    above(greater(one, other))
}

/// The height of attributes: each is a node without parts.
pub fn of_attrs(attrs: &[Attr]) -> u32
    ensures { result ≡ capped (attrs_height attrs.now) }
{
    match attrs {
        [] => 0,
        [_, ..] => 1,
    }
}

/// The height of the words after a star, linear in these: qualifiers are no nodes.
pub fn of_pointer_words(words: &[PointerWord]) -> u32
    ensures { result ≡ capped (pointer_words_height words.now) }
{
    for word in words {
        match word {
            PointerWord::Qual(_) => {}
            PointerWord::Attr(_) => return 1,
        }
    }
    0
}

/// The height of the name that the linker sees.
pub fn of_label(label: &Option<AsmLabel>) -> u32
    ensures { result ≡ capped (label_height label.now) }
{
    match label {
        Some(_) => 1,
        None => 0,
    }
}
