//! The kinds of ordinary names.

ghost use Rattle.std.specs.Prelude.{◌≡◌};
ghost use Rattle.typedef_scope.specs.Scopes.{is_same};

/// What an ordinary name stands for: a type, an object or function, or an enumerator.
#[derive(Clone, Copy, PartialEq, Eq, Debug)]
pub enum Kind {
    Typedef,
    Value,
    Constant,
}

impl Kind {
    /// Whether two kinds are one.
    pub fn is_same(self, other: Kind) -> bool
        ensures { result ≡ is_same self other }
    {
        match (self, other) {
            (Kind::Typedef, Kind::Typedef)
            | (Kind::Value, Kind::Value)
            | (Kind::Constant, Kind::Constant) => true,
            _ => false,
        }
    }
}
