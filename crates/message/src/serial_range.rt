//! Ranges of consecutive serials.

/// The serials from `lo` to `hi`, inclusive. 1 <= `lo` <= `hi` <= 9223372036854775806.
#[derive(Clone, Copy)]
pub struct SerialRange {
    /// The first serial.
    pub lo: u64,
    /// The last serial.
    pub hi: u64,
}
