//! Tests of records and rehearsals by public calls: streams that fail at each place, a crash after each step of a list, free runs
//! with each detector. What the programs show of them is looked at in cases/.
#![tactic(auto)]

#[cfg(test)]
mod tests;
