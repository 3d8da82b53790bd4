//! The readers of the parts inside, by the one reader that is lent.
//!
//! `depth` is the number of the readers of lists that the lent one gives; `room` is the greatest
//! height that the tree may have.

ghost use Rattle.c_reading.specs.Knot.{knot};
ghost use Rattle.reader_base.specs.Lent.{Lends, begun_of, specs_from};
ghost use Rattle.reader_base.specs.Lent.{ReadsExpr, ReadsTypeName, ReadsSpecs, ReadsDeclr};
ghost use Rattle.reader_base.specs.Lent.{ReadsInitList, ReadsBlock, ReadsStmt};

use crate::asking::{Answer, Ask, Begun, Declared};
use crate::cursor::Cursor;
use crate::fault::ReadError;
use c_nodes::{SizedBlock, SizedExpr, SizedInitList, SizedSpecs, SizedStmt, SizedTypeName};
use c_reading::{Mode, Reach, Role};
use typedef_scope::Kind;

/// An expression inside.
pub fn expr_inside<'a, F>(
    lent: &F,
    reach: Reach,
    begun: Begun,
    room: u16,
    cursor: &mut Cursor<'a>,
    depth: u32,
) -> Result<SizedExpr, ReadError>
where
    F: Fn(Ask, &mut Cursor<'a>) -> Result<Answer, ReadError>,
    requires { Lends F.Fn lent.now depth }
    ensures { ReadsExpr cursor.old cursor.new result
        ((knot depth).expr reach (begun_of begun) room) }
{
    match lent(Ask::Expr(reach, begun, room), cursor)? {
        Answer::Expr(found) => Ok(found),
        _ => Err(ReadError::NoMemory),
    }
}

/// The name of a type inside.
pub fn type_name_inside<'a, F>(
    lent: &F,
    room: u16,
    cursor: &mut Cursor<'a>,
    depth: u32,
) -> Result<SizedTypeName, ReadError>
where
    F: Fn(Ask, &mut Cursor<'a>) -> Result<Answer, ReadError>,
    requires { Lends F.Fn lent.now depth }
    ensures { ReadsTypeName cursor.old cursor.new result ((knot depth).type_name room) }
{
    match lent(Ask::TypeName(room), cursor)? {
        Answer::TypeName(found) => Ok(found),
        _ => Err(ReadError::NoMemory),
    }
}

/// Specifiers inside, behind words that were read already.
pub fn specs_inside<'a, F>(
    lent: &F,
    role: Role,
    known: SizedSpecs,
    room: u16,
    cursor: &mut Cursor<'a>,
    depth: u32,
) -> Result<SizedSpecs, ReadError>
where
    F: Fn(Ask, &mut Cursor<'a>) -> Result<Answer, ReadError>,
    requires { Lends F.Fn lent.now depth }
    ensures { ReadsSpecs cursor.old cursor.new result (specs_from depth role known room) }
{
    match lent(Ask::Specs(role, known, room), cursor)? {
        Answer::Specs(found) => Ok(found),
        _ => Err(ReadError::NoMemory),
    }
}

/// A declarator inside, or none, whose name is held for a kind where one is wanted.
pub fn declr_inside<'a, F>(
    lent: &F,
    mode: Mode,
    wanted: Option<Kind>,
    flag: bool,
    room: u16,
    cursor: &mut Cursor<'a>,
    depth: u32,
) -> Result<Declared, ReadError>
where
    F: Fn(Ask, &mut Cursor<'a>) -> Result<Answer, ReadError>,
    requires { Lends F.Fn lent.now depth }
    ensures { ReadsDeclr cursor.old cursor.new result ((knot depth).declr mode wanted flag room) }
{
    match lent(Ask::Declr(mode, wanted, flag, room), cursor)? {
        Answer::Declr(found) => Ok(found),
        _ => Err(ReadError::NoMemory),
    }
}

/// An initialiser in braces inside.
pub fn init_list_inside<'a, F>(
    lent: &F,
    room: u16,
    cursor: &mut Cursor<'a>,
    depth: u32,
) -> Result<SizedInitList, ReadError>
where
    F: Fn(Ask, &mut Cursor<'a>) -> Result<Answer, ReadError>,
    requires { Lends F.Fn lent.now depth }
    ensures { ReadsInitList cursor.old cursor.new result ((knot depth).init_list room) }
{
    match lent(Ask::InitList(room), cursor)? {
        Answer::InitList(found) => Ok(found),
        _ => Err(ReadError::NoMemory),
    }
}

/// A block inside.
pub fn block_inside<'a, F>(
    lent: &F,
    room: u16,
    cursor: &mut Cursor<'a>,
    depth: u32,
) -> Result<SizedBlock, ReadError>
where
    F: Fn(Ask, &mut Cursor<'a>) -> Result<Answer, ReadError>,
    requires { Lends F.Fn lent.now depth }
    ensures { ReadsBlock cursor.old cursor.new result ((knot depth).block room) }
{
    match lent(Ask::Block(room), cursor)? {
        Answer::Block(found) => Ok(found),
        _ => Err(ReadError::NoMemory),
    }
}

/// A statement inside.
pub fn stmt_inside<'a, F>(
    lent: &F,
    room: u16,
    cursor: &mut Cursor<'a>,
    depth: u32,
) -> Result<SizedStmt, ReadError>
where
    F: Fn(Ask, &mut Cursor<'a>) -> Result<Answer, ReadError>,
    requires { Lends F.Fn lent.now depth }
    ensures { ReadsStmt cursor.old cursor.new result ((knot depth).stmt room) }
{
    match lent(Ask::Stmt(room), cursor)? {
        Answer::Stmt(found) => Ok(found),
        _ => Err(ReadError::NoMemory),
    }
}
