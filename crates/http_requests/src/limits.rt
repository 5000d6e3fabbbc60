//! Limits of a request.

/// The greatest size of a head in bytes, from the first byte to the empty line that ends it.
pub const MAX_HEAD: usize = 8192;

/// The greatest number of header lines in a head.
pub const MAX_HEADER_LINES: usize = 32;

/// The greatest size of a body in bytes.
pub const MAX_BODY: usize = 16384;
