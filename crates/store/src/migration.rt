//! Migration of tables from schema 1 to schema 2.
//!
//! The file of an office of schema 1 gets the table of CAs, with the office's own CA as the first, and schema number 2,
//! all in one transaction, or nothing. All other rows stay as they are.

mod ending;
mod first_ca;
mod migrating;
mod moving;

pub use migrating::migrate;
