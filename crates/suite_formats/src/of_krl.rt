//! Lists whose writer fails.

ghost use Rattle.std.specs.Prelude.{IsTrue};
ghost use Rattle.std.specs.List.Sorted.{IsStrictlyIncreasing};
ghost use Rattle.krl.specs.Published.{fits};

use krl::{CaPart, KrlHead, runs_of};
use krl_writer::{krl_len, write_krl};
use lines::OutFault;
use std::alloc::Global;
use text::{NoMemory, Text, Texts};
use wire::{Pace, ScriptedWriter};

const HEAD: KrlHead = KrlHead {
    version: 1,
    date: 3000,
};

/// Under the CA of 32 bytes 0x11, the serials 1 and 5 to 7; under that of 0x12, the serial 9; and the key ID web/alice.
const LIST: &[u8; 255] =
    b"SSHKRL\n\0\0\0\0\x01\0\0\0\0\0\0\0\x01\0\0\0\0\0\0\x0b\xb8\0\0\0\0\0\0\0\0\0\0\0\0\0\0\0\0\x01\0\0\0\
    o\0\0\03\0\0\0\x0bssh-ed25519\0\0\0\x20\x11\x11\x11\x11\x11\x11\x11\x11\x11\x11\x11\x11\x11\x11\x11\x11\
    \x11\x11\x11\x11\x11\x11\x11\x11\x11\x11\x11\x11\x11\x11\x11\x11\0\0\0\0\x20\0\0\0\x08\0\0\0\0\0\
    \0\0\x01!\0\0\0\x10\0\0\0\0\0\0\0\x05\0\0\0\0\0\0\0\x07#\0\0\0\x0d\0\0\0\x09web/alice\x01\0\0\0Z\0\0\
    \03\0\0\0\x0bssh-ed25519\0\0\0\x20\x12\x12\x12\x12\x12\x12\x12\x12\x12\x12\x12\x12\x12\x12\x12\x12\
    \x12\x12\x12\x12\x12\x12\x12\x12\x12\x12\x12\x12\x12\x12\x12\x12\0\0\0\0\x20\0\0\0\x08\0\0\0\0\0\0\0\
    \x09#\0\0\0\x0d\0\0\0\x09web/alice";

fn part(alloc: Global, byte: u8, serials: &[u64]) -> Result<CaPart, NoMemory>
    requires { IsStrictlyIncreasing serials.now }
{
    Ok(CaPart {
        ca: [byte; 32],
        runs: runs_of(alloc, serials)?,
    })
}

fn key_ids(alloc: Global) -> Result<Texts, NoMemory> {
    let mut ids = Texts::new(alloc);
    ids.push(Text::from_slice(alloc, b"web/alice")?)?;
    Ok(ids)
}

/// How writing ends, and the bytes that a writer with this limit takes.
fn written(
    alloc: Global,
    parts: &[CaPart],
    ids: &Texts,
    pace: Pace,
    limit: usize,
) -> (Result<(), OutFault>, Vec<u8>)
    requires { IsTrue (fits parts.now ids.now) }
{
    let mut sink = ScriptedWriter::new(alloc, pace, limit);
    let done = write_krl(&HEAD, parts, ids, &mut sink);
    let ScriptedWriter { taken, .. } = sink;
    (done, taken)
}

/// The first limit at which the result or the bytes taken aren't the expected ones, and what they are.
fn first_other(
    alloc: Global,
    parts: &[CaPart],
    ids: &Texts,
    pace: Pace,
) -> Option<(usize, Result<(), OutFault>, Vec<u8>)>
    requires { IsTrue (fits parts.now ids.now) }
{
    for limit in 0..256 {
        let (done, taken) = written(alloc, parts, ids, pace, limit);
        if done.is_ok() != (limit == 255) || Some(taken.as_slice()) != LIST.get(..limit) {
            return Some((limit, done, taken));
        }
    }
    None
}

#[test]
fn a_writer_that_fails_took_a_beginning(rt: HostRuntime) {
    let first = part(rt.alloc(), 0x11, &[1, 5, 6, 7]).expect(&rt, "memory");
    let second = part(rt.alloc(), 0x12, &[9]).expect(&rt, "memory");
    let ids = key_ids(rt.alloc()).expect(&rt, "memory");
    let parts = [first, second];
    assert_eq!(rt; krl_len(&parts, &ids), Some(255));
    assert_eq!(rt; first_other(rt.alloc(), &parts, &ids, Pace::Whole), None);
    assert_eq!(rt; first_other(rt.alloc(), &parts, &ids, Pace::OneByte), None);
}
