//! Tests of parts of the tool by calls: that each answers where there is memory, which no clause says, and worked values.
//!
//! Entry: its tests. Invariant: what a call must answer was worked out by hand, or by two other programs.
//! It does not know the tool. Nothing stands above.
#![tactic(auto)]

#[cfg(test)]
mod bounds;
#[cfg(test)]
mod certificate_readings;
#[cfg(test)]
mod certificate_texts;
#[cfg(test)]
mod certificate_verdicts;
#[cfg(test)]
mod certificates;
#[cfg(test)]
mod generated;
#[cfg(test)]
mod graphs;
#[cfg(test)]
mod lattice_files;
#[cfg(test)]
mod lexing;
#[cfg(test)]
mod needed_parts;
#[cfg(test)]
mod operand_shapes;
#[cfg(test)]
mod path_cases;
#[cfg(test)]
mod path_proofs;
#[cfg(test)]
mod reports;
#[cfg(test)]
mod scopes;
#[cfg(test)]
mod shape_stacks;
#[cfg(test)]
mod skeletons;
#[cfg(test)]
mod tapes;
#[cfg(test)]
mod type_tables;
#[cfg(test)]
mod words;
