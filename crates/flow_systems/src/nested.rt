//! A path proof whose calls nest in one another, beside the depths at which its system is met.

use crate::building::{graph_of, lattices_of};
use crate::case::PlainLink::{Bound, Const, Enter, Le, Leave};
use crate::case::{Answers, Case, F0, TWO};
use crate::flow_unfolding::is_met;
use path_checker::{check, read_report};
use qual_base::LatticeNo;
use std::test::Fail;

// A function that calls itself at its one site: 0 is entered as 1 and so on to 6, a flow leads from 6 to 13, and 13 is
// left as 12 and so on to 7. The path takes six calls that are open at once, and its main path has five steps.
static NESTED: Case = Case {
    name: "calls nested in one another",
    shapes: &[TWO],
    owners: &[F0; 14],
    sites: &[(0, F0)],
    rows: &[
        Const(1, 0),
        Enter(0, 0, 1),
        Enter(0, 1, 2),
        Enter(0, 2, 3),
        Enter(0, 3, 4),
        Enter(0, 4, 5),
        Enter(0, 5, 6),
        Le(6, 13),
        Leave(0, 13, 12),
        Leave(0, 12, 11),
        Leave(0, 11, 10),
        Leave(0, 10, 9),
        Leave(0, 9, 8),
        Leave(0, 8, 7),
        Bound(7, 0),
    ],
    masks: &[],
    answers: &[Answers {
        reached: &[],
        values: &[],
        matched: &[],
        exceeded: &[14],
        met: [true, true, true, true],
    }],
};

// one step in the first of six sub-paths and three in each other, and five in the main path: 21 in all
static NESTED_PROOF: &str = "rejected
error
sub 1
  7 
sub 2
  6 
  sub 1
  8 
sub 3
  5 
  sub 2
  9 
sub 4
  4 
  sub 3
  10 
sub 5
  3 
  sub 4
  11 
sub 6
  2 
  sub 5
  12 
path
  0 
  1 
  sub 6
  13 
  14 
";

#[test]
fn a_path_proof_needs_the_depth_of_its_sub_paths(rt: HostRuntime) -> Result<(), Fail> {
    let alloc = rt.alloc();
    let graph = graph_of(&rt, alloc, &NESTED)?;
    let proofs = read_report(alloc, NESTED_PROOF.as_bytes(), graph.len())?;
    assert_eq!(rt; proofs.len(), 1);
    let lattices = lattices_of(&rt, alloc, &NESTED)?;
    assert!(rt; check(&graph, &lattices, &proofs[0]).is_ok());
    assert_eq!(rt; lattices.len(), 1);
    let lattice = lattices.get(LatticeNo::new(0));
    for (depth, met) in [(0, true), (3, true), (5, true), (6, false), (21, false)] {
        let found = is_met(alloc, &graph, LatticeNo::new(0), lattice, depth)?;
        assert_eq!(rt; found, met, "at depth {depth}");
    }
    Ok(())
}
