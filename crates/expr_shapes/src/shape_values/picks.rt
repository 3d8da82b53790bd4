//! Picks: which of several expressions may be what a choice or a selection by a type gives, and of which type that is.

ghost use Rattle.std.specs.Prelude.{◌≡◌, ◌||◌, ◌∷◌, ◌++◌, [], List, is_some, not};
ghost use Rattle.type_table.specs.declared.row.TypeRow as row;
ghost use Rattle.type_table.specs.Rows.{type_of};
ghost use Rattle.name_rules.specs.Values as rules;
ghost use Rattle.expr_shapes.specs.ShapeValues.Views.{value_type, some_value_type, some_type, shape_in};
ghost use Rattle.expr_shapes.specs.ShapeValues.Picks.{IsPicked, candidate_in, first_by, may_be, more_than, IsLower};
ghost use Rattle.type_table.specs.Types.{pointer};

use crate::shape_values::reading::{target_of, value};
use crate::shape_values::shape::{ExprShape, ValueType};
use qual_base::TypeId;
use type_table::{Shape, TypeTable};

/// What two types are made of inside, where both may be one by their outermost constructors. Constant time.
fn insides(types: &TypeTable, one: TypeId, other: TypeId) -> Parts
    ensures same { rules.may_be_one (type_of types.now one) (type_of types.now other)
        ≡ may_be types.now result }
    ensures low { IsLower one result }
{
    match (types.shape(one), types.shape(other)) {
        (Shape::Base, Shape::Base) | (Shape::Void, Shape::Void) => Parts::Same,
        (Shape::Struct(n), Shape::Struct(m)) => {
            if *n == *m { Parts::Same } else { Parts::Apart }
        }
        (Shape::Ref(inside), Shape::Ref(other)) => Parts::Of(*inside, *other),
        (Shape::Fun { result: back, .. }, Shape::Fun { result: other, .. }) => {
            Parts::Of(*back, *other)
        }
        (Shape::Base | Shape::Void | Shape::Struct(_) | Shape::Ref(_) | Shape::Fun { .. }, _) => {
            Parts::Apart
        }
    }
}

/// Whether two types may be one: at once, or where these may be one.
#[derive(Clone, Copy)]
enum Parts {
    Same,
    Apart,
    Of(TypeId, TypeId),
}

/// Whether two types may be one. Linear in their depth.
fn may_be_one(types: &TypeTable, one: TypeId, other: TypeId) -> bool
    ensures { result ≡ rules.may_be_one (type_of types.now one) (type_of types.now other) }
{
    let mut one = one;
    let mut other = other;
    loop {
        match insides(types, one, other) {
            Parts::Same => return true,
            Parts::Apart => return false,
            Parts::Of(inside, inner) => {
                one = inside;
                other = inner;
            }
        }
    }
}

/// Whether an expression behind a type's name is a candidate by the control's value; where no type is named, it always is. Linear in
/// the depth of the types.
pub fn is_candidate(types: &TypeTable, control: &ValueType, named: &Option<TypeId>) -> bool
    ensures { result ≡ rules.is_candidate (value_type types.now control.now)
        (some_type types.now named.now) }
{
    let Some(named) = named else {
        return true;
    };
    match control {
        ValueType::Of(ty) => may_be_one(types, *ty, *named),
        ValueType::PointerTo(ty) => match target_of(types, &ValueType::Of(*named)) {
            Some(inside) => may_be_one(types, *ty, inside),
            None => false,
        },
    }
}

/// The rank of a pointer to what has a type. Constant time.
fn rank_of_pointer(types: &TypeTable, inside: TypeId) -> u8
    ensures { result ≡ rules.rank (pointer [] (type_of types.now inside)) }
{
    match types.shape(inside) {
        Shape::Void => 4,
        Shape::Base | Shape::Ref(_) | Shape::Fun { .. } | Shape::Struct(_) => 5,
    }
}

/// The rank of a value among those that may be picked. Constant time.
fn rank(types: &TypeTable, value: &ValueType) -> u8
    ensures { result ≡ rules.rank (value_type types.now value.now) }
{
    match value {
        ValueType::PointerTo(ty) => rank_of_pointer(types, *ty),
        ValueType::Of(ty) => match types.shape(*ty) {
            Shape::Void => 0,
            Shape::Base => 1,
            Shape::Fun { .. } => 2,
            Shape::Struct(_) => 3,
            Shape::Ref(inside) => rank_of_pointer(types, *inside),
        },
    }
}

/// How many there are of something.
#[derive(Clone, Copy)]
enum Count {
    Nothing,
    One,
    Several,
}

/// With one more.
fn more(count: Count) -> Count
    ensures { result ≡ more_than count }
{
    match count {
        Count::Nothing => Count::One,
        Count::One | Count::Several => Count::Several,
    }
}

/// Whether some type is not known, with one more value. Constant time.
fn unknown_with(is_unknown: bool, value: &Option<ValueType>) -> bool
    ensures { (rows : List row.TypeRow) → result
        ≡ (is_unknown || not (is_some (some_value_type rows value.now))) }
{
    match value {
        Some(_) => is_unknown,
        None => true,
    }
}

/// The candidates of a pick so far: how many there are, and how many of them are no zeros; the first one; whether one has no type; and
/// the first of the highest rank, of all and of those that are no zeros.
#[derive(Clone, Copy)]
pub struct Picked {
    count: Count,
    others: Count,
    first: ExprShape,
    is_unknown: bool,
    highest: Option<ValueType>,
    highest_other: Option<ValueType>,
}

/// That of two values which is of a higher rank, or else the first; of one that is known that. Constant time.
fn higher(
    types: &TypeTable,
    best: &Option<ValueType>,
    value: &Option<ValueType>,
) -> Option<ValueType>
    ensures { some_value_type types.now result
        ≡ rules.higher_of (some_value_type types.now best.now) (some_value_type types.now value.now) }
{
    let Some(other) = value else {
        return *best;
    };
    match best {
        Some(first) => {
            if rank(types, first) < rank(types, other) {
                *value
            } else {
                *best
            }
        }
        None => *value,
    }
}

impl Picked {
    /// Of no candidates.
    pub fn new() -> Self
        ensures { (rows : List row.TypeRow) → IsPicked rows [] result }
    {
        Picked {
            count: Count::Nothing,
            others: Count::Nothing,
            first: ExprShape::Value(None),
            is_unknown: false,
            highest: None,
            highest_other: None,
        }
    }

    /// The first candidate, behind one more. Constant time.
    fn first_with(&self, shape: &ExprShape) -> ExprShape
        ensures { (rows : List row.TypeRow) → shape_in rows result
            ≡ first_by self.now.count (shape_in rows self.now.first) (shape_in rows shape.now) }
    {
        match self.count {
            Count::Nothing => *shape,
            Count::One | Count::Several => self.first,
        }
    }

    /// One more candidate. Constant time.
    pub fn add(&mut self, types: &TypeTable, shape: &ExprShape, is_zero: bool)
        ensures { (all : List rules.Candidate) → IsPicked types.now all self.old
            → IsPicked types.now (all ++ candidate_in types.now shape.now is_zero ∷ []) self.new }
    {
        let value = value(types, shape);
        self.first = self.first_with(shape);
        self.count = more(self.count);
        self.is_unknown = unknown_with(self.is_unknown, &value);
        self.highest = higher(types, &self.highest, &value);
        if !is_zero {
            self.others = more(self.others);
            self.highest_other = higher(types, &self.highest_other, &value);
        }
    }

    /// The type of the highest rank of those that are left. Constant time.
    fn highest_left(&self) -> Option<ValueType>
        ensures { (rows : List row.TypeRow) (all : List rules.Candidate) → IsPicked rows all
            self.now → some_value_type rows result ≡ rules.first_ranked (rules.left_of all) }
    {
        match self.others {
            Count::Nothing => self.highest,
            Count::One | Count::Several => self.highest_other,
        }
    }

    /// The value of a pick of several candidates. Constant time.
    fn value(&self) -> Option<ValueType>
        ensures { (rows : List row.TypeRow) (all : List rules.Candidate) → IsPicked rows all
            self.now → some_value_type rows result ≡ rules.picked_value all }
    {
        if self.is_unknown {
            None
        } else {
            self.highest_left()
        }
    }

    /// What is picked. Constant time.
    pub fn shape(&self) -> ExprShape
        ensures { (rows : List row.TypeRow) (all : List rules.Candidate) → IsPicked rows all
            self.now → shape_in rows result ≡ rules.pick_shape all }
    {
        match self.count {
            Count::Nothing => ExprShape::Value(None),
            Count::One => self.first,
            Count::Several => ExprShape::Value(self.value()),
        }
    }

    /// Whether several candidates are left, so that the pick has a value of its own.
    pub fn is_fresh(&self) -> bool
        ensures { (rows : List row.TypeRow) (all : List rules.Candidate) → IsPicked rows all
            self.now → result ≡ rules.is_fresh_pick all }
    {
        match self.others {
            Count::Nothing => matches!(self.count, Count::Several),
            Count::One => false,
            Count::Several => true,
        }
    }
}
