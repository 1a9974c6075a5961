//! Tests of the site of a folder and of its bytes: what neither a clause of
//! `farm_site`, `site_file`, `site_encoding` and `site_decoding` nor a file of cases says.
#![tactic(auto)]

#[cfg(test)]
mod bytes;
#[cfg(test)]
mod every_key;
#[cfg(test)]
mod faults;
#[cfg(test)]
mod files;
#[cfg(test)]
mod folders;
#[cfg(test)]
mod formats;
#[cfg(test)]
mod from_bytes;
#[cfg(test)]
mod gauges;
#[cfg(test)]
mod parts;
#[cfg(test)]
mod row_site;
