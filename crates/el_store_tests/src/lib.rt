//! Tests of the devices and of the stores, of what no contract says.
#![tactic(auto)]

#[cfg(test)]
mod byte_tests;
#[cfg(test)]
mod cache_tests;
#[cfg(test)]
mod crash_tests;
#[cfg(test)]
mod crashes;
#[cfg(test)]
mod device_tests;
#[cfg(test)]
mod disk_tests;
#[cfg(test)]
mod disks;
#[cfg(test)]
mod edits;
#[cfg(test)]
mod folder_tests;
#[cfg(test)]
mod link_tests;
#[cfg(test)]
mod migration_tests;
#[cfg(test)]
mod opening_tests;
#[cfg(test)]
mod page_tests;
#[cfg(test)]
mod redone_tests;
#[cfg(test)]
mod row_tests;
#[cfg(test)]
mod text_tests;
