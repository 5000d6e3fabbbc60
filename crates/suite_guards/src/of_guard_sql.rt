//! `guard_sql`: what only calls can show, that they succeed if memory and the disk suffice.

use guard::{Approved, Register, RegisterFault, Scope};
use guard_sql::GuardStore;
use sqlite::{Connection, MemStore};
use std::alloc::Global;
use text::Text;

const SCOPE: Scope = Scope {
    ca: [0x11; 32],
    first: 2,
    last: 9,
};

/// A guard in memory.
fn guard_in_memory(alloc: Global) -> Option<GuardStore<MemStore>> {
    let Ok(conn) = Connection::open_in_memory(alloc) else {
        return None;
    };
    GuardStore::init(alloc, conn, &SCOPE).ok()
}

/// Stores a body under a serial, and returns whether that succeeded.
fn keep(alloc: Global, guard: &mut GuardStore<MemStore>, serial: u64, body: &[u8]) -> bool {
    let Ok(body) = Text::from_slice(alloc, body) else {
        return false;
    };
    let row = Approved {
        serial,
        moment: 1000,
        body,
    };
    let mut rows = Vec::new(alloc);
    if rows.push(row).is_err() {
        return false;
    }
    guard.keep(rows).is_ok()
}

/// Stores bodies under these serials at once, and returns whether that succeeded.
fn keep_all(alloc: Global, guard: &mut GuardStore<MemStore>, serials: &[u64]) -> bool {
    let mut rows = Vec::new(alloc);
    for serial in serials {
        let row = Approved {
            serial: *serial,
            moment: 1000,
            body: Text::new(alloc),
        };
        if rows.push(row).is_err() {
            return false;
        }
    }
    guard.keep(rows).is_ok()
}

/// Whether this body is found under a serial.
fn has(alloc: Global, guard: &mut GuardStore<MemStore>, serial: u64, body: &[u8]) -> bool {
    match guard.body_of(alloc, serial) {
        Ok(Some(found)) => found.is(body),
        _ => false,
    }
}

/// The serial and the time of the row that is found from a serial on.
fn first_from(alloc: Global, guard: &mut GuardStore<MemStore>, serial: u64) -> Option<(u64, u64)> {
    match guard.row_from(alloc, serial) {
        Ok(Some(row)) => Some((row.serial, row.moment)),
        _ => None,
    }
}

/// The last serial of the guard's scope.
fn last_of(guard: &mut GuardStore<MemStore>) -> Option<u64> {
    match guard.scope() {
        Ok(scope) => Some(scope.last),
        Err(_) => None,
    }
}

#[test]
fn bodies_are_kept_and_found(rt: HostRuntime) {
    let alloc = rt.alloc();
    let mut guard = guard_in_memory(alloc).expect(&rt, "memory suffices");
    assert!(rt; keep(alloc, &mut guard, 7, b"seven"));
    assert!(rt; keep(alloc, &mut guard, 3, b"three"));
    assert!(rt; !keep(alloc, &mut guard, 3, b"other"));
    assert!(rt; has(alloc, &mut guard, 3, b"three"));
    assert!(rt; has(alloc, &mut guard, 7, b"seven"));
    assert!(rt; !has(alloc, &mut guard, 4, b"three"));
    assert!(rt; !has(alloc, &mut guard, u64::MAX, b"three"));
    assert_eq!(rt; first_from(alloc, &mut guard, 0), Some((3, 1000)));
    assert_eq!(rt; first_from(alloc, &mut guard, 4), Some((7, 1000)));
    assert_eq!(rt; first_from(alloc, &mut guard, 8), None);
}

#[test]
fn bodies_are_kept_together_or_not_at_all(rt: HostRuntime) {
    let alloc = rt.alloc();
    let mut guard = guard_in_memory(alloc).expect(&rt, "memory suffices");
    assert!(rt; keep_all(alloc, &mut guard, &[7, 3]));
    assert!(rt; !keep_all(alloc, &mut guard, &[4, 7]));
    assert!(rt; !keep_all(alloc, &mut guard, &[5, u64::MAX]));
    assert_eq!(rt; first_from(alloc, &mut guard, 4), Some((7, 1000)));
    assert!(rt; keep_all(alloc, &mut guard, &[]));
    assert_eq!(rt; first_from(alloc, &mut guard, 0), Some((3, 1000)));
}

#[test]
fn the_last_serial_is_lowered(rt: HostRuntime) {
    let alloc = rt.alloc();
    let mut guard = guard_in_memory(alloc).expect(&rt, "memory suffices");
    assert_eq!(rt; guard.set_last(5), Ok(()));
    assert_eq!(rt; guard.set_last(u64::MAX), Err(RegisterFault::Device));
    assert_eq!(rt; last_of(&mut guard), Some(5));
}
