//! Limits of times, serials and lists.

/// 9999-12-31 23:59:59 UTC, the latest time and the latest end of a validity, in seconds since 1970-01-01 00:00:00 UTC.
pub const LATEST_MOMENT: u64 = 253402300799;

/// The longest lifetime that a department may permit, in seconds. The shortest is 1.
pub const LONGEST_LIFE: u64 = 253402300799;

/// The last serial that may be issued. The first is 1: serial 0 is never used.
pub const LAST_SERIAL: u64 = 9223372036854775806;

/// The most principals of a certificate. It has at least one.
pub const MOST_PRINCIPALS: usize = 16;

/// The most rules of a department. It has at least one.
pub const MOST_RULES: usize = 16;

/// The most administrators of a department, which may have none.
pub const MOST_ADMINISTRATORS: usize = 16;

/// The most namespaces of a department, which may have none.
pub const MOST_NAMESPACES: usize = 8;
