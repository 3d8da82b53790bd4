//! The annotated source.

ghost use Rattle.std.specs.Prelude.{◌≡◌, ◌++◌, ◌-◌, ◌+◌, ◌<◌, ◌≤◌, ◌∷◌, [], ℕ, List};
ghost use Rattle.std.specs.Prelude.{IfOk, OnOk, Some, codes, drop, length, replicate, slice_get, take};
ghost use Rattle.annotate.specs.Scenes.{Shows, Writes, unit_of};
ghost use Rattle.annotate.specs.Annotated.{annotated_text, item_text, steps_or_dot};
ghost use Rattle.annotate.specs.Annotated.{behind, pieces_from, with_comments, CommentsComeOut};
ghost use Rattle.annotate.specs.Comments.{AreComments, HoldComments, begun_with, closed};

use crate::listing::Listing;
use crate::places::put;
use crate::scene::{Scene, UnitText, find_unit};
use crate::texts::{put_elem, put_marks};
use c_lexer::Tokens;
use qual_base::{NoMemory, Numbered, TokenId, UnitNo};
use qual_types::Step;
use std::alloc::{AllocError, Global};

/// The steps to a variable, or a dot where there are none.
fn put_steps(out: &mut Vec<u8>, path: &[Step]) -> Result<(), AllocError>
    ensures { OnOk result (out.new.items ≡ out.old.items ++ steps_or_dot path.now) }
{
    match path {
        [] => put(out, b"."),
        [_, ..] => put_marks(out, path),
    }
}

/// What a comment says of an element that is listed.
fn put_item(
    out: &mut Vec<u8>,
    scene: &Scene<'_>,
    path: &[Step],
    listing: &Listing,
) -> Result<(), AllocError>
    ensures { OnOk result (Writes scene.now out.old.items out.new.items
        (λ s. item_text s path.now listing.now)) }
{
    put_steps(out, path)?;
    put(out, b" ")?;
    put_elem(out, scene, listing.lattice, listing.elem)
}

/// Begins a comment, or goes on with it.
fn put_front(comment: &mut Vec<u8>) -> Result<(), AllocError>
    ensures { OnOk result (comment.new.items ≡ begun_with comment.old.items) }
{
    if comment.is_empty() {
        put(comment, b"/*")
    } else {
        put(comment, b", ")
    }
}

/// Puts an item into a comment.
fn add_item(
    comment: &mut Vec<u8>,
    scene: &Scene<'_>,
    path: &[Step],
    listing: &Listing,
) -> Result<(), AllocError>
    ensures { OnOk result (Writes scene.now (begun_with comment.old.items) comment.new.items
        (λ s. item_text s path.now listing.now)) }
{
    put_front(comment)?;
    put_item(comment, scene, path, listing)
}

/// Puts the item of an element that is listed into the comment of the token of a unit where its variable stands, if it
/// stands at one of them.
fn add_listing(
    comments: &mut Vec<Vec<u8>>,
    scene: &Scene<'_>,
    unit: UnitNo,
    listing: &Listing,
) -> Result<(), NoMemory>
    ensures added { OnOk result ((s : _) → Shows scene.now s → (before : List _) →
        AreComments s unit before comments.old.items →
        AreComments s unit (before ++ listing.now ∷ []) comments.new.items) }
    ensures count { length comments.new.items ≡ length comments.old.items }
{
    if listing.var.number() >= scene.vars.count() {
        return Ok(());
    }
    let position = scene.vars.position(*comments.allocator(), listing.var)?;
    if position.unit != unit {
        return Ok(());
    }
    let token = position.token.number() as usize;
    if token >= comments.len() {
        return Ok(());
    }
    add_item(&mut comments[token], scene, &position.path, listing)?;
    Ok(())
}

/// So many empty texts. 24 bytes for each.
fn empty_texts(alloc: Global, count: u32) -> Result<Vec<Vec<u8>>, NoMemory>
    ensures { IfOk result (λ texts. (length texts.items ≡ count)
        × HoldComments (λ token. []) texts.items) }
{
    let mut texts = Vec::new(alloc);
    for _ in 0..count {
        texts.push(Vec::new(alloc))?;
    }
    Ok(texts)
}

/// The comments of the tokens of a unit, by their numbers; each without its end, and empty where there is none.
fn comments_of(
    alloc: Global,
    scene: &Scene<'_>,
    unit: UnitNo,
    count: u32,
    listings: &[Listing],
) -> Result<Vec<Vec<u8>>, NoMemory>
    ensures { IfOk result (λ comments. (length comments.items ≡ count)
        × ((s : _) → Shows scene.now s → AreComments s unit listings.now comments.items)) }
{
    let mut comments = empty_texts(alloc, count)?;
    for listing in listings {
        add_listing(&mut comments, scene, unit, listing)?;
    }
    Ok(comments)
}

/// Puts a comment behind a text, with its end; nothing where it is empty.
fn put_comment(out: &mut Vec<u8>, comment: &[u8]) -> Result<(), AllocError>
    ensures { OnOk result (out.new.items ≡ out.old.items ++ closed comment.now) }
{
    if comment.is_empty() {
        return Ok(());
    }
    put(out, comment)?;
    put(out, b"*/")
}

/// Puts the first bytes of what is left and a comment behind a text, and gives the other bytes.
fn put_piece<'a>(
    out: &mut Vec<u8>,
    left: &'a [u8],
    count: usize,
    comment: &[u8],
) -> Result<&'a [u8], AllocError>
    ensures text { OnOk result
        (out.new.items ≡ out.old.items ++ (take count left.now ++ closed comment.now)) }
    ensures rest { IfOk result (λ rest. rest.now ≡ drop count left.now) }
{
    let (piece, rest) = left.split_at(count.min(left.len()));
    put(out, piece)?;
    put_comment(out, comment)?;
    Ok(rest)
}

/// The place right behind a token among the bytes of its unit.
fn place_behind(tokens: &Tokens<'_>, token: TokenId) -> usize
    requires { token < length tokens.now.tokens }
    ensures { result ≡ behind tokens.now token }
{
    tokens.start(token) as usize + tokens.bytes(token).len()
}

/// The bytes of a unit with the comments of its tokens. Linear in both.
fn put_pieces(
    out: &mut Vec<u8>,
    tokens: &Tokens<'_>,
    comments: &[Vec<u8>],
) -> Result<(), AllocError>
    requires { length comments.now ≡ length tokens.now.tokens }
    ensures { OnOk result ((items : ℕ → List (List ℕ)) → HoldComments items comments.now →
        out.new.items ≡ out.old.items ++ with_comments
        (pieces_from items (behind tokens.now) 0 tokens.now.bytes 0 (length tokens.now.tokens))) }
{
    let mut left = tokens.unit_bytes();
    let mut at = 0;
    for n in 0..tokens.len() {
        let count = place_behind(tokens, TokenId::new(n)).saturating_sub(at);
        left = put_piece(out, left, count, &comments[n as usize])?;
        at += count;
    }
    put(out, left)
}

/// Puts the annotated source of a unit behind a text. Linear in the unit and in what is listed, but for the paths of its
/// positions; memory: 24 bytes for each token, and the comments.
pub fn put_annotated(
    alloc: Global,
    out: &mut Vec<u8>,
    scene: &Scene<'_>,
    unit: UnitNo,
    listings: &[Listing],
) -> Result<(), NoMemory>
    ensures { OnOk result (Writes scene.now out.old.items out.new.items
        (λ s. annotated_text s unit listings.now)) }
{
    put(out, b"annotated\n")?;
    let Some(found) = find_unit(scene.units, unit) else {
        return Ok(());
    };
    let tokens = found.tokens;
    let comments = comments_of(alloc, scene, tokens.unit(), tokens.len(), listings)?;
    put_pieces(out, tokens, &comments)?;
    Ok(())
}
