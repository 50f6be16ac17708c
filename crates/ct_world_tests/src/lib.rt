//! The tests of the world, of the crates that it stands on, of detectors and of rehearsals, by public calls alone, so that none of
//! these crates is proved once more with them. They look at what no clause says and no program shows: that calls succeed with ample
//! memory, what a board takes, what threads do. Runs of the programs are looked at in cases/.
#![tactic(auto)]

#[cfg(test)]
mod abcast;
#[cfg(test)]
mod calls;
#[cfg(test)]
mod detect;
#[cfg(test)]
mod limits;
#[cfg(test)]
mod names;
#[cfg(test)]
mod rehearse;
#[cfg(test)]
mod rounds;
#[cfg(test)]
mod world;
