//! What no contract says of sites, their exchange, their threads and workers, and of the crates that
//! write tables, and no row can: that calls succeed with ample memory; that gates are asked, turns
//! come and watches are told; contracts that a test states; that laws can be called. Only public
//! calls are used, so that no library is proved a second time for its tests.
#![tactic(auto)]

#[cfg(test)]
mod calls;
#[cfg(test)]
mod desk;
#[cfg(test)]
mod event;
#[cfg(test)]
mod fans;
#[cfg(test)]
mod fixture;
#[cfg(test)]
mod laws;
#[cfg(test)]
mod memory;
#[cfg(test)]
mod order;
#[cfg(test)]
mod refused;
#[cfg(test)]
mod region;
#[cfg(test)]
mod serving;
#[cfg(test)]
mod shared;
#[cfg(test)]
mod taking;
#[cfg(test)]
mod threads;
#[cfg(test)]
mod wants;
#[cfg(test)]
mod watches;
#[cfg(test)]
mod worker;
