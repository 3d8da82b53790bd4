//! Faults, and the first of several.

ghost use Rattle.std.specs.Prelude.{◌≡◌, Some};
ghost use Rattle.name_rules.specs.Faults.{number, fault_where};
ghost use Rattle.unit_shapes.specs.Faults.{rule_of, fault_of, some_fault_of, is_before, earlier, keep};

use name_tables::name_scopes::Place;
use qual_base::Numbered;

/// The rules of names and types that may fail, the lower first.
#[derive(Clone, Copy, PartialEq, Eq, Debug, Drop)]
pub enum Rule {
    /// A name in an expression has no visible declaration and is not called directly.
    Undeclared,
    /// What is dereferenced or indexed is no pointer.
    NotPointer,
    /// The value that is called is no pointer to a function.
    NotFunction,
    /// A struct has no body or no such member, or what stands there is no struct.
    NoMember,
    /// The number of arguments is not that of the parameters, or with an ellipsis less.
    ArgCount,
    /// The target of an assignment, `++`, `--` or `&` is no place.
    NotPlace,
    /// A second body of a function, or of a tag in one scope.
    DefinedTwice,
    /// A declared type or a type's name has over 4,096 constructors.
    TypeTooLarge,
    /// An expression that a type is made by has none by what is known behind it.
    NoType,
}

/// A rule that fails at a place.
#[derive(Clone, Copy, PartialEq, Eq, Debug, Drop)]
pub struct Fault {
    pub at: Place,
    pub rule: Rule,
}

impl Rule {
    /// Its number among the rules.
    fn number(self) -> u8
        ensures { result ≡ number (rule_of self) }
    {
        match self {
            Rule::Undeclared => 1,
            Rule::NotPointer => 2,
            Rule::NotFunction => 3,
            Rule::NoMember => 4,
            Rule::ArgCount => 5,
            Rule::NotPlace => 6,
            Rule::DefinedTwice => 7,
            Rule::TypeTooLarge => 8,
            Rule::NoType => 9,
        }
    }
}

impl Fault {
    /// Whether it comes before another: in an earlier unit, at an earlier token of one unit, or by
    /// a lower rule at one token.
    fn is_before(&self, other: &Fault) -> bool
        ensures { result ≡ is_before (fault_of self.now) (fault_of other.now) }
    {
        let (unit, token) = (self.at.0.number(), self.at.1.number());
        let (other_unit, other_token) = (other.at.0.number(), other.at.1.number());
        let is_lower = self.rule.number() < other.rule.number();
        unit < other_unit
            || (unit == other_unit && (token < other_token || (token == other_token && is_lower)))
    }
}

/// Keeps the earlier one of a fault and one that is known.
#[tactic(auto, unfolding(crate::specs::Faults::earlier))]
pub(crate) fn keep(best: &mut Option<Fault>, fault: &Fault)
    ensures { some_fault_of best.new
        ≡ Some (earlier (some_fault_of best.old) (fault_of fault.now)) }
{
    let known = *best;
    match known {
        Some(known) => {
            if fault.is_before(&known) {
                *best = Some(*fault);
            }
        }
        None => *best = Some(*fault),
    }
}

/// A rule may fail at a place.
pub(crate) fn note(best: &mut Option<Fault>, fails: bool, at: &Place, rule: Rule)
    ensures { some_fault_of best.new
        ≡ keep (some_fault_of best.old) (fault_where fails at.now (rule_of rule)) }
{
    if fails {
        keep(best, &Fault { at: *at, rule });
    }
}
