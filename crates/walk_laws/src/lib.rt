//! Laws of what leads where: functions without a body, each with a law as its contract.
//!
//! Entry: the laws of walks. Invariant: the unfolding leads from one variable to another exactly where a walk does.
//! It does not know any algorithm. Above: `flow_query`.
#![tactic(auto)]

ghost use Rattle.walk_laws.specs.Laws.{LeadsAreWalks, WalkShown};

/// A path in two phases leads exactly where the unfolding does.
pub fn leads_are_walks()
    ensures { LeadsAreWalks }
{}

/// A walk that is made of parts holds.
pub fn walk_shown()
    ensures { WalkShown }
{}
