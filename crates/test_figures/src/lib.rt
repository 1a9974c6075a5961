//! Tests of rounding, quantities, manual gauging, factors, the custody calculation and capacity tables: what no clause of
//! `farm_rounding`, `farm_fixed`, `farm_readings`, `farm_vcf`, `farm_chain` and `strap_table` says.
#![tactic(auto)]

#[cfg(test)]
mod capacity;
#[cfg(test)]
mod chain;
#[cfg(test)]
mod factors;
#[cfg(test)]
mod no_factors;
#[cfg(test)]
mod out_of_range;
#[cfg(test)]
mod quantities;
#[cfg(test)]
mod readings;
#[cfg(test)]
mod records;
#[cfg(test)]
mod roofs;
#[cfg(test)]
mod rounding;
#[cfg(test)]
mod ten_figures;
#[cfg(test)]
mod texts;
#[cfg(test)]
mod twelve_rows;
