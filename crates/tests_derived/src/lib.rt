//! Tests of the types of derived_types and derived_plain, and of the module turns of library_calls, as a user's own, through public calls.
//! The bytes of each archive were worked out by hand, from docs/FORMAT.md.
#![tactic(auto)]

#[cfg(test)]
mod assertions;
#[cfg(test)]
mod crops;
#[cfg(test)]
mod depots;
#[cfg(test)]
mod drawings;
#[cfg(test)]
mod entries;
#[cfg(test)]
mod events;
#[cfg(test)]
mod judgements;
#[cfg(test)]
mod kinds;
#[cfg(test)]
mod lists;
#[cfg(test)]
mod notices;
#[cfg(test)]
mod outcomes;
#[cfg(test)]
mod owners;
#[cfg(test)]
mod parcels;
#[cfg(test)]
mod places;
#[cfg(test)]
mod points;
#[cfg(test)]
mod presses;
#[cfg(test)]
mod ranks;
#[cfg(test)]
mod shipments;
#[cfg(test)]
mod spots;
#[cfg(test)]
mod stock;
#[cfg(test)]
mod tracks;
#[cfg(test)]
mod turns;
