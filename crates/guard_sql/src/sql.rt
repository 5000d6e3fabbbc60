//! The statements, each in one place.

pub(crate) const CREATE_GUARD: &str =
    "CREATE TABLE guard (id INTEGER PRIMARY KEY, schema INTEGER NOT NULL, \
    ca BLOB NOT NULL, first INTEGER NOT NULL, last INTEGER NOT NULL) STRICT";

pub(crate) const INSERT_GUARD: &str =
    "INSERT INTO guard (id, schema, ca, first, last) VALUES (?1, ?2, ?3, ?4, ?5)";

pub(crate) const EVERY_GUARD: &str = "SELECT id, schema, ca, first, last FROM guard";

pub(crate) const LOWER_GUARD: &str = "UPDATE guard SET last = ?1 WHERE id = 1";

pub(crate) const CREATE_APPROVED: &str = "CREATE TABLE approved (serial INTEGER PRIMARY KEY, \
    moment INTEGER NOT NULL, body BLOB NOT NULL) STRICT";

pub(crate) const INSERT_APPROVED: &str =
    "INSERT INTO approved (serial, moment, body) VALUES (?1, ?2, ?3)";

pub(crate) const FIND_APPROVED: &str =
    "SELECT serial, moment, body FROM approved WHERE serial = ?1";

pub(crate) const FROM_APPROVED: &str =
    "SELECT serial, moment, body FROM approved WHERE serial >= ?1 ORDER BY serial LIMIT 1";
