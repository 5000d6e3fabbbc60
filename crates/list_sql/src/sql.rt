//! The SQL statements.

pub(crate) const CREATE_LIST: &str =
    "CREATE TABLE list (id INTEGER PRIMARY KEY, schema INTEGER NOT NULL, \
    bytes BLOB NOT NULL) STRICT";

pub(crate) const INSERT_LIST: &str = "INSERT INTO list (id, schema, bytes) VALUES (?1, ?2, ?3)";

pub(crate) const EVERY_LIST: &str = "SELECT id, schema, bytes FROM list";

pub(crate) const DELETE_LISTS: &str = "DELETE FROM list";
