//! Tests of junit_xml: rows as a document that build servers read. No program uses it.
//!
//! They use the public names of the room alone, and stand above it, so that its proofs are not made once more for its tests.
//! `rows` has what they are made with.
#![tactic(auto)]

pub mod rows;
#[cfg(test)]
mod tests_documents;
#[cfg(test)]
mod tests_hostile_ids;
#[cfg(test)]
mod tests_hostile_texts;
#[cfg(test)]
mod written;
