//! The words of the command line.

/// What system is made.
#[derive(Clone, Copy, PartialEq, Eq, Debug)]
pub enum Kind {
    /// Each function calls the next one.
    Chain,
    /// The same constraints from the last to the first.
    Reversed,
    /// The same as the chain, and the last function calls the first.
    Ring,
    /// Many callers of one function with many parameters.
    Fan,
    /// One call of a function with many parameters, each of which comes back by a result of its own.
    Wide,
    /// Constraints drawn by a generator of pseudo-random numbers.
    Random,
}

/// How far a run goes.
#[derive(Clone, Copy, PartialEq, Eq, Debug)]
pub enum Goal {
    /// To the pairs of variables that matched paths join.
    Closure,
    /// To the exceeded bounds.
    Solve,
    /// To the path proof of the first exceeded bound.
    Show,
}

/// What the words ask for.
#[derive(Clone, Copy, Debug)]
pub struct Wanted {
    pub kind: Kind,
    pub size: u32,
    pub goal: Goal,
}

fn kind_of(word: &str) -> Option<Kind> {
    match word.as_bytes() {
        b"chain" => Some(Kind::Chain),
        b"reversed" => Some(Kind::Reversed),
        b"ring" => Some(Kind::Ring),
        b"fan" => Some(Kind::Fan),
        b"wide" => Some(Kind::Wide),
        b"random" => Some(Kind::Random),
        _ => None,
    }
}

fn goal_of(word: &str) -> Option<Goal> {
    match word.as_bytes() {
        b"closure" => Some(Goal::Closure),
        b"solve" => Some(Goal::Solve),
        b"show" => Some(Goal::Show),
        _ => None,
    }
}

/// What the words after the program's name mean: `KIND N GOAL`, in this order.
pub fn meaning(words: &[String]) -> Option<Wanted> {
    match words {
        [kind, size, goal] => {
            Some(Wanted {
                kind: kind_of(kind.as_str())?,
                size: size.as_str().parse::<u32>().ok()?,
                goal: goal_of(goal.as_str())?,
            })
        }
        _ => None,
    }
}
