//! The storage words that stand so far (C99, 6.7.1).

ghost use Rattle.std.specs.Prelude.{◌≡◌};
ghost use Rattle.c_specs.specs.Storage.{stored, storing};

use c_words::Keyword;

/// The storage words that stand so far, in whichever order.
#[derive(Clone, Copy, PartialEq, Eq, Debug)]
pub enum Storage {
    Nothing,
    Typedef,
    Extern,
    Static,
    Auto,
    Register,
    Thread,
    ThreadStatic,
    ThreadExtern,
}

/// The storage word of a keyword, `_Thread_local` among them, or nothing.
pub(crate) fn storing(keyword: Keyword) -> Storage
    ensures { result ≡ storing keyword }
{
    match keyword {
        Keyword::Typedef => Storage::Typedef,
        Keyword::Extern => Storage::Extern,
        Keyword::Static => Storage::Static,
        Keyword::Auto => Storage::Auto,
        Keyword::Register => Storage::Register,
        Keyword::Thread => Storage::Thread,
        _ => Storage::Nothing,
    }
}

/// One more word, or none where these do not stand together.
pub(crate) fn stored(storage: Storage, word: Storage) -> Option<Storage>
    ensures { result ≡ stored storage word }
{
    match (storage, word) {
        (Storage::Nothing, Storage::Typedef) => Some(Storage::Typedef),
        (Storage::Nothing, Storage::Extern) => Some(Storage::Extern),
        (Storage::Nothing, Storage::Static) => Some(Storage::Static),
        (Storage::Nothing, Storage::Auto) => Some(Storage::Auto),
        (Storage::Nothing, Storage::Register) => Some(Storage::Register),
        (Storage::Nothing, Storage::Thread) => Some(Storage::Thread),
        (Storage::Thread, Storage::Static) | (Storage::Static, Storage::Thread) => Some(
            Storage::ThreadStatic,
        ),
        (Storage::Thread, Storage::Extern) | (Storage::Extern, Storage::Thread) => Some(
            Storage::ThreadExtern,
        ),
        _ => None,
    }
}
