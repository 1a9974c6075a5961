//! The statuses of a run that refuses its arguments, its folder or its input. The others are those of `run_reports`.

/// The arguments are no command.
pub(crate) const NO_COMMAND: u8 = 1;
/// The folder describes no site.
pub(crate) const SITE_REFUSED: u8 = 2;
/// The input was refused.
pub(crate) const REFUSED: u8 = 4;
