//! Tests of the shared words, the ports and disks: what no clause of `farm_base`, `farm_ports` and `farm_disk` says.
#![tactic(auto)]

#[cfg(test)]
mod disk_calls;
#[cfg(test)]
mod disks;
#[cfg(test)]
mod file_disks;
#[cfg(test)]
mod folders;
#[cfg(test)]
mod links;
#[cfg(test)]
mod ports;
#[cfg(test)]
mod shared_words;
