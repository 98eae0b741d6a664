// The limits that several layers share, by name; specs/Refusals.antt has the same ones for the contracts.

// The most bytes of a key, and the most bytes hashed in all.
pub const MOST_BYTES: u64 = (1 << 61) - 1;
// The most bytes of info.
pub const MOST_INFO: usize = 1024;
// The most digests of an output.
pub const MOST_DIGESTS: usize = 255;
