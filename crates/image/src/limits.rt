// Document 01's numbers for an image, each once.
pub const SHORTEST: usize = 24;

pub const LONGEST: usize = 1360;

// Bytes of an element, and of the trailer.
pub const ELEMENT: usize = 8;

pub const TRAILER: usize = 16;

// How many there may be. The lengths of the arrays in a circuit's parts say three of them again.
pub const ELEMENTS: u8 = 32;

pub const CURVES: u8 = 8;

pub const NODES: u8 = 15;

pub const BREAKPOINTS: usize = 16;

// Sample rates, in hertz.
pub const LOWEST_RATE: u32 = 8000;

pub const HIGHEST_RATE: u32 = 192000;

// The versions of an image. They differ in the leak alone.
pub const VERSION_1: u8 = 1;

pub const VERSION_2: u8 = 2;

// The greatest conductance and slope, in nanosiemens, and the greatest size of a breakpoint, in
// microvolts.
pub const CONDUCTANCE: u64 = 1073741824;

pub const BREAKPOINT: u64 = 67108864;
