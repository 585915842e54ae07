//! Tests of the twelve parts, of the step machine, and of the shared map.
#![tactic(auto)]

#[cfg(test)]
mod parts;
#[cfg(test)]
mod rounds;
#[cfg(test)]
mod shared;
#[cfg(test)]
mod shown;
#[cfg(test)]
mod steps;
