//! The statuses with which the program ends.

/// All is done.
pub const DONE: u8 = 0;

/// The words are no command.
pub const NO_COMMAND: u8 = 1;

/// The input is refused.
pub const REFUSED: u8 = 2;

/// The source failed.
pub const SOURCE_FAILED: u8 = 3;

/// The output failed.
pub const OUTPUT_FAILED: u8 = 4;

/// Memory ran out.
pub const NO_MEMORY: u8 = 5;

/// The checked run is wrong.
pub const WRONG: u8 = 6;

/// The pairing does not serve a line of the script.
pub const UNFIT: u8 = 7;
