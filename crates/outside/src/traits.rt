//! The outside of the tool: files that are read and a sink that is written.
//!
//! What went through is kept in logs that only clauses read, by each implementation: the bytes that were given of each
//! file that was started, and the bytes that were taken. What the outside holds beside that is told by files in memory
//! alone.

ghost use Rattle.std.specs.Prelude.{◌≡◌, ℕ, ◌+◌, ◌<◌, ◌≤◌, List, [], ◌∷◌, ◌++◌, IfOk, IfSome, length, Option, All};
ghost use Rattle.outside.specs.Readings.{Reading, begun, goes_on, at_last, Agrees};
ghost use Rattle.outside.specs.Puts.{taken, failures};

/// A read or a write failed.
#[derive(Clone, Copy, PartialEq, Eq, Debug)]
pub struct Failed;

/// Files that are read one after the other, each from its start.
pub trait Files {
    /// The readings so far, in order: each the name that was started, the bytes that were given since, and whether
    /// its end was reached or a call for it failed. The last is that of the file that was started last.
    ghost log: { Self → List Reading };

    /// How many calls failed.
    ghost failed: { Self → ℕ };

    /// The files by name and bytes, where they are told. Of two with one name the first counts, and a name of none
    /// has empty contents.
    ghost contents: { Self → Option (List (List ℕ × List ℕ)) };

    /// Starts the file of that name. A start that fails is a reading too.
    fn start(&mut self, name: &str) -> Result<(), Failed>
        ensures log { log self.new ≡ log self.old ++ begun name.now result ∷ [] }
        ensures failed { failed self.new ≡ failed self.old + failures result }
        ensures contents { contents self.new ≡ contents self.old }
        ensures agrees { IfSome (contents self.new) (λ all. All (Agrees all) (log self.new)) };

    /// Moves bytes of the file into the front of `into`, and answers how many: none at its end.
    fn next(&mut self, into: &mut [u8]) -> Result<usize, Failed>
        requires { 0 < length into.old }
        ensures log { log self.new ≡ at_last (goes_on result into.new) (log self.old) }
        ensures within { IfOk result (λ n. n ≤ length into.new) }
        ensures failed { failed self.new ≡ failed self.old + failures result }
        ensures contents { contents self.new ≡ contents self.old }
        ensures agrees { IfSome (contents self.new) (λ all. All (Agrees all) (log self.new)) };
}

/// A sink that takes bytes, piece by piece.
pub trait Sink {
    /// The bytes that were taken.
    ghost written: { Self → List ℕ };

    /// How many puts failed.
    ghost failed: { Self → ℕ };

    /// Takes bytes from the front of `piece`, and answers how many; at a failure it takes none.
    fn put(&mut self, piece: &[u8]) -> Result<usize, Failed>
        ensures written { written self.new ≡ written self.old ++ taken result piece.now }
        ensures some { IfOk result (λ n. 0 < length piece.now → 0 < n) }
        ensures within { IfOk result (λ n. n ≤ length piece.now) }
        ensures failed { failed self.new ≡ failed self.old + failures result };
}
