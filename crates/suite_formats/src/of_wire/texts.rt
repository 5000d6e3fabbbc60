//! Worked examples from the standards, written and read.

use std::alloc::Global;
use text::NoMemory;
use wire::{Cursor, put_string, put_u32, put_u64};

/// RFC 4251, section 5: 699921578 is stored as `29 b7 f4 aa`, and "testing" as `00 00 00 07 t e s t i n g`.
/// PROTOCOL.krl: the magic number of a key revocation list spells the last eight bytes.
const EXAMPLES: &[u8] = b"\x29\xb7\xf4\xaa\x00\x00\x00\x07testingSSHKRL\n\0";

const LIST_MAGIC: u64 = 0x5353_484b_524c_0a00;

fn examples(alloc: Global) -> Result<Vec<u8>, NoMemory> {
    let mut out = Vec::new(alloc);
    put_u32(&mut out, 699_921_578)?;
    put_string(&mut out, b"testing")?;
    put_u64(&mut out, LIST_MAGIC)?;
    Ok(out)
}

#[test]
fn examples_of_the_standards_are_written(rt: HostRuntime) {
    let out = examples(rt.alloc()).expect(&rt, "memory");
    assert_eq!(rt; out.as_slice(), EXAMPLES);
}

/// The values that a cursor reads from the examples, whether it is at the end then, and what it reads there.
fn read<'a>() -> (Option<u32>, Option<&'a [u8]>, Option<u64>, bool, Option<u8>) {
    let mut cursor = Cursor::new(EXAMPLES);
    let values = (cursor.u32(), cursor.string(), cursor.u64());
    (values.0, values.1, values.2, cursor.at_end(), cursor.u8())
}

#[test]
fn examples_of_the_standards_are_read(rt: HostRuntime) {
    let wanted = (
        Some(699_921_578),
        Some(b"testing".as_slice()),
        Some(LIST_MAGIC),
        true,
        None,
    );
    assert_eq!(rt; read(), wanted);
}

/// The reads of a cursor at a truncated string: no string, its length, no long number, its first byte; and that more is
/// left.
fn read_cut() -> (bool, Option<u32>, Option<u64>, Option<u8>, bool) {
    let mut cursor = Cursor::new(b"\x00\x00\x00\x07testin");
    let values = (cursor.string().is_some(), cursor.u32(), cursor.u64());
    (values.0, values.1, values.2, cursor.u8(), cursor.at_end())
}

#[test]
fn a_cut_string_leaves_the_cursor(rt: HostRuntime) {
    assert_eq!(rt; read_cut(), (false, Some(7), None, Some(b't'), false));
}
