//! Tests of what commands do and say by what no command line shows: sentences and notes by values that
//! no run finds, calls that fail, fronts of files, and the program with both its outputs, over
//! files and outputs in memory. There is nothing else here.
#![tactic(auto)]

#[cfg(test)]
mod failing;
#[cfg(test)]
mod found_plans;
#[cfg(test)]
mod found_values;
#[cfg(test)]
mod fronts;
#[cfg(test)]
mod histories;
#[cfg(test)]
mod messages;
#[cfg(test)]
mod notes;
#[cfg(test)]
mod programs;
#[cfg(test)]
mod reasons;
#[cfg(test)]
mod refused_files;
