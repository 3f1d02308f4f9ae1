//! Test vectors of the public calls, with the texts and the order that no contract says.
#![tactic(auto)]

#[cfg(test)]
mod converging;
#[cfg(test)]
mod fault_places;
#[cfg(test)]
mod fault_texts;
#[cfg(test)]
mod live;
#[cfg(test)]
mod moves;
#[cfg(test)]
mod patches;
#[cfg(test)]
mod pointers;
#[cfg(test)]
mod replicas;
#[cfg(test)]
mod running;
#[cfg(test)]
mod weights;
#[cfg(test)]
mod written;
