//! For how many places a request may ask (V1.1b3, sections 6.1 to 6.4, 6.11 and 6.12).

/// Functions 1 and 2 read at most so many bits,
pub const MOST_BITS_READ: u16 = 2000;

/// functions 3 and 4 at most so many registers,
pub const MOST_REGISTERS_READ: u16 = 125;

/// function 15 writes at most so many coils,
pub const MOST_COILS_WRITTEN: u16 = 1968;

/// and function 16 at most so many registers.
pub const MOST_REGISTERS_WRITTEN: u16 = 123;
