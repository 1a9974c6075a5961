//! Tests of texts of pieces, tickets, movements, keys, stocks, entries and requests: what no clause of `text_pieces`, `farm_ticket`,
//! `farm_movement`, `key_index`, `farm_stock`, `farm_history` and `farm_http` says.
#![tactic(auto)]

#[cfg(test)]
mod entries;
#[cfg(test)]
mod entry_bytes;
#[cfg(test)]
mod entry_rows;
#[cfg(test)]
mod keys;
#[cfg(test)]
mod line_rows;
#[cfg(test)]
mod movements;
#[cfg(test)]
mod pieces;
#[cfg(test)]
mod requests;
#[cfg(test)]
mod stocks;
#[cfg(test)]
mod tickets;
