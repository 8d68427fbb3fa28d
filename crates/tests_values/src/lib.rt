//! Tests of what archives hold, and of writers that fail, through public calls of the crates below archive_core.
#![tactic(auto)]

#[cfg(test)]
mod all_tuples;
#[cfg(test)]
mod arrays;
#[cfg(test)]
mod assertions;
#[cfg(test)]
mod boxed_slices;
#[cfg(test)]
mod colliding;
#[cfg(test)]
mod comparisons;
#[cfg(test)]
mod copies;
#[cfg(test)]
mod device;
#[cfg(test)]
mod iterators;
#[cfg(test)]
mod maps;
#[cfg(test)]
mod numbers;
#[cfg(test)]
mod options;
#[cfg(test)]
mod owner_views;
#[cfg(test)]
mod owners;
#[cfg(test)]
mod places;
#[cfg(test)]
mod rc;
#[cfg(test)]
mod regions;
#[cfg(test)]
mod rel_ptr;
#[cfg(test)]
mod results;
#[cfg(test)]
mod self_checks;
#[cfg(test)]
mod shared;
#[cfg(test)]
mod strings;
#[cfg(test)]
mod tuples;
#[cfg(test)]
mod without_meaning;
