//! All SQL statements, each in one place.

// ---- the office

pub(crate) const CREATE_OFFICE: &str =
    "CREATE TABLE office (id INTEGER PRIMARY KEY, schema INTEGER NOT NULL, \
    ca BLOB NOT NULL, root TEXT NOT NULL, station TEXT NOT NULL, first INTEGER NOT NULL, last INTEGER NOT NULL, \
    next INTEGER NOT NULL, version INTEGER NOT NULL, date INTEGER NOT NULL) STRICT";

pub(crate) const INSERT_OFFICE: &str =
    "INSERT INTO office (id, schema, ca, root, station, first, last, next, \
    version, date) VALUES (?1, ?2, ?3, ?4, ?5, ?6, ?7, ?8, ?9, ?10)";

pub(crate) const EVERY_OFFICE: &str =
    "SELECT id, schema, ca, root, station, first, last, next, version, date FROM office ORDER BY id";

pub(crate) const COUNT_OFFICE: &str =
    "UPDATE office SET next = ?1, version = ?2, date = ?3 WHERE id = 1";

pub(crate) const NUMBER_OFFICE: &str = "UPDATE office SET schema = ?1 WHERE id = 1";

// ---- departments

pub(crate) const CREATE_DEPARTMENT: &str =
    "CREATE TABLE department (name TEXT PRIMARY KEY, kind INTEGER NOT NULL, \
    admins TEXT NOT NULL, rules TEXT NOT NULL, options TEXT NOT NULL, extensions TEXT NOT NULL, \
    maxlife INTEGER NOT NULL, namespaces TEXT NOT NULL) STRICT";

pub(crate) const PUT_DEPARTMENT: &str =
    "INSERT INTO department (name, kind, admins, rules, options, extensions, \
    maxlife, namespaces) VALUES (?1, ?2, ?3, ?4, ?5, ?6, ?7, ?8) ON CONFLICT (name) DO UPDATE SET \
    kind = excluded.kind, admins = excluded.admins, rules = excluded.rules, options = excluded.options, \
    extensions = excluded.extensions, maxlife = excluded.maxlife, namespaces = excluded.namespaces";

pub(crate) const FIND_DEPARTMENT: &str =
    "SELECT name, kind, admins, rules, options, extensions, maxlife, namespaces \
    FROM department WHERE name = ?1";

pub(crate) const EVERY_DEPARTMENT: &str =
    "SELECT name, kind, admins, rules, options, extensions, maxlife, namespaces \
    FROM department ORDER BY name";

// ---- certificates

pub(crate) const CREATE_CERT: &str = "CREATE TABLE cert (serial INTEGER PRIMARY KEY, \
    department TEXT NOT NULL REFERENCES department, keyid TEXT NOT NULL, body BLOB NOT NULL, signature BLOB) STRICT";

pub(crate) const INSERT_CERT: &str =
    "INSERT INTO cert (serial, department, keyid, body, signature) VALUES (?1, ?2, ?3, ?4, ?5)";

pub(crate) const FIND_CERT: &str =
    "SELECT serial, department, keyid, body, signature FROM cert WHERE serial = ?1";

pub(crate) const CERTS_WITHIN: &str = "SELECT serial, department, keyid, body, signature \
    FROM cert WHERE serial >= ?1 AND serial <= ?2 ORDER BY serial";

pub(crate) const SIGN_CERT: &str = "UPDATE cert SET signature = ?2 WHERE serial = ?1";

// ---- requests

pub(crate) const CREATE_REQUEST: &str =
    "CREATE TABLE request (caller TEXT NOT NULL, key TEXT NOT NULL, \
    message BLOB NOT NULL, reply TEXT NOT NULL, PRIMARY KEY (caller, key)) STRICT";

pub(crate) const INSERT_REQUEST: &str =
    "INSERT INTO request (caller, key, message, reply) VALUES (?1, ?2, ?3, ?4)";

pub(crate) const FIND_REQUEST: &str =
    "SELECT caller, key, message, reply FROM request WHERE caller = ?1 AND key = ?2";

// ---- runs of revoked serials

pub(crate) const CREATE_RUN: &str =
    "CREATE TABLE run (lo INTEGER PRIMARY KEY, hi INTEGER NOT NULL) STRICT";

pub(crate) const INSERT_RUN: &str = "INSERT INTO run (lo, hi) VALUES (?1, ?2)";

pub(crate) const EVERY_RUN: &str = "SELECT lo, hi FROM run ORDER BY lo";

pub(crate) const LAST_RUN: &str = "SELECT lo, hi FROM run WHERE lo <= ?1 ORDER BY lo DESC LIMIT 1";

pub(crate) const DELETE_RUNS: &str = "DELETE FROM run WHERE lo >= ?1 AND lo <= ?2";

// ---- revoked key IDs

pub(crate) const CREATE_REVOKED: &str =
    "CREATE TABLE revoked_keyid (keyid TEXT PRIMARY KEY) STRICT";

pub(crate) const INSERT_REVOKED: &str = "INSERT INTO revoked_keyid (keyid) VALUES (?1)";

pub(crate) const FIND_REVOKED: &str = "SELECT keyid FROM revoked_keyid WHERE keyid = ?1";

pub(crate) const EVERY_REVOKED: &str = "SELECT keyid FROM revoked_keyid ORDER BY keyid";

// ---- CAs

pub(crate) const CREATE_CA: &str =
    "CREATE TABLE ca (number INTEGER PRIMARY KEY, ca BLOB NOT NULL UNIQUE, since INTEGER NOT NULL) STRICT";

pub(crate) const INSERT_CA: &str = "INSERT INTO ca (number, ca, since) VALUES (?1, ?2, ?3)";

pub(crate) const EVERY_CA: &str = "SELECT number, ca, since FROM ca ORDER BY number";
