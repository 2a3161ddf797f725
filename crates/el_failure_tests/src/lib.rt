//! Tests of calls of the program that fail, that stop or that refuse, of what no contract says.
#![tactic(auto)]

#[cfg(test)]
mod changing_file;
#[cfg(test)]
mod ends;
#[cfg(test)]
mod failing_calls;
#[cfg(test)]
mod failing_disk;
#[cfg(test)]
mod failing_reads;
#[cfg(test)]
mod failing_set;
#[cfg(test)]
mod refused_blocks;
#[cfg(test)]
mod silent_disk;
#[cfg(test)]
mod stopped_moves;
