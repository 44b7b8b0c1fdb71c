#![tactic(auto)]
// The lines of a plan's steps, from the flat listing and the nodes' sets.
pub mod digits; // digits.rt: words and decimal numbers, written to a lent buffer
pub mod listed; // listed.rt: the steps that were priced, and their lines
