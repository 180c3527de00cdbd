//! Worked rows of the top call, as tests, so that `atl_driver` is not proved with them each time.
#![tactic(auto)]

#[cfg(test)]
mod calls;
#[cfg(test)]
mod exec;
#[cfg(test)]
mod facts;
#[cfg(test)]
mod faults;
#[cfg(test)]
mod lines;
#[cfg(test)]
mod lowered;
#[cfg(test)]
mod outside;
#[cfg(test)]
mod plain;
#[cfg(test)]
mod rules;
#[cfg(test)]
mod run;
#[cfg(test)]
mod scheduled;
#[cfg(test)]
mod sources;
#[cfg(test)]
mod stages;
#[cfg(test)]
mod trial;
