//! `list_sql`: what isn't proved, that calls answer if memory and the disk suffice.

use list_guard::{ListRegister, RegisterFault};
use list_sql::ListStore;
use sqlite::{Connection, MemStore};
use std::alloc::Global;
use text::Text;

/// A list guard in memory.
fn guard_in_memory(alloc: Global) -> Option<ListStore<MemStore>> {
    let Ok(conn) = Connection::open_in_memory(alloc) else {
        return None;
    };
    ListStore::init(alloc, conn).ok()
}

/// What comes of it if a list is to be kept.
fn keep(alloc: Global, guard: &mut ListStore<MemStore>, list: &[u8]) -> Result<(), RegisterFault> {
    match Text::from_slice(alloc, list) {
        Ok(list) => guard.keep(list),
        Err(_) => Err(RegisterFault::NoMemory),
    }
}

#[test]
fn the_last_list_is_kept_and_told(rt: HostRuntime) {
    let alloc = rt.alloc();
    let mut guard = guard_in_memory(alloc).expect(&rt, "memory suffices");
    assert!(rt; guard.last().is_none());
    assert_eq!(rt; keep(alloc, &mut guard, b"first"), Ok(()));
    assert_eq!(rt; keep(alloc, &mut guard, b"second"), Ok(()));
    assert!(rt; guard.last() == Some(b"second".as_slice()));
}

#[test]
fn a_list_without_a_byte_is_not_kept(rt: HostRuntime) {
    let alloc = rt.alloc();
    let mut guard = guard_in_memory(alloc).expect(&rt, "memory suffices");
    assert_eq!(rt; keep(alloc, &mut guard, b""), Err(RegisterFault::Device));
    assert!(rt; guard.last().is_none());
}

/// A list of this length.
fn list_of(alloc: Global, length: usize) -> Option<Text> {
    let mut bytes = Vec::new(alloc);
    for _ in 0..length {
        match bytes.push(7) {
            Ok(()) => {}
            Err(_) => return None,
        }
    }
    Some(Text::from_vec(bytes))
}

#[test]
fn a_list_of_several_pieces_is_kept(rt: HostRuntime) {
    let alloc = rt.alloc();
    let mut guard = guard_in_memory(alloc).expect(&rt, "memory suffices");
    let long = list_of(alloc, 200000).expect(&rt, "memory suffices");
    assert_eq!(rt; guard.keep(long), Ok(()));
    assert_eq!(rt; keep(alloc, &mut guard, b"short"), Ok(()));
    assert!(rt; guard.last() == Some(b"short".as_slice()));
}
