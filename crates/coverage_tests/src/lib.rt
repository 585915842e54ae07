//! Tests of cells, of coverages, of their texts, and of diagnostics.
#![tactic(auto)]

#[cfg(test)]
mod forms;
#[cfg(test)]
mod ranges;
#[cfg(test)]
mod shown;
#[cfg(test)]
mod sphere;
#[cfg(test)]
mod text;
