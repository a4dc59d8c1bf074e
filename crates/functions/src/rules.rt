//! The rules of combining that have names. Bit 4f + 2g + h of a rule is its answer at the bits f, g and h.

/// The first function chooses: the second where it is 1, else the third.
pub const CHOICE: u8 = 0b1100_1010;

/// Whether an odd number of the three is 1.
pub const PARITY: u8 = 0b1001_0110;

/// Whether at least two of the three are 1.
pub const MAJORITY: u8 = 0b1110_1000;

/// Whether all three are 1.
pub const CONJUNCTION: u8 = 0b1000_0000;
