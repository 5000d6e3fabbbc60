//! Allowed signers whose writer fails, and public-key lines of all types.

mod subjects;

use lines::{OutFault, SignerRow, write_signers};
use std::alloc::Global;
use text::{NoMemory, Text, Texts};
use wire::{Pace, ScriptedWriter};

/// A line with patterns, namespaces, and the key of 32 bytes 0x11.
const LINE: &[u8; 138] = b"alice,*@example.org cert-authority,namespaces=\"file,git\" ssh-ed25519 \
    AAAAC3NzaC1lZDI1NTE5AAAAIBERERERERERERERERERERERERERERERERERERERERER\n";

fn texts_of(alloc: Global, first: &[u8], second: &[u8]) -> Result<Texts, NoMemory> {
    let mut texts = Texts::new(alloc);
    texts.push(Text::from_slice(alloc, first)?)?;
    texts.push(Text::from_slice(alloc, second)?)?;
    Ok(texts)
}

fn row(alloc: Global) -> Result<SignerRow, NoMemory> {
    Ok(SignerRow {
        rules: texts_of(alloc, b"alice", b"*@example.org")?,
        namespaces: texts_of(alloc, b"file", b"git")?,
        ca: [0x11; 32],
    })
}

/// How writing ends, and the bytes that a writer with this limit takes.
fn written(
    alloc: Global,
    rows: &[SignerRow],
    pace: Pace,
    limit: usize,
) -> (Result<(), OutFault>, Vec<u8>) {
    let mut writer = ScriptedWriter::new(alloc, pace, limit);
    let done = write_signers(rows, &mut writer);
    let ScriptedWriter { taken, .. } = writer;
    (done, taken)
}

/// The first limit at which the result or the bytes taken aren't the expected ones, and what they are.
fn first_other(
    alloc: Global,
    rows: &[SignerRow],
    pace: Pace,
) -> Option<(usize, Result<(), OutFault>, Vec<u8>)> {
    for limit in 0..139 {
        let (done, taken) = written(alloc, rows, pace, limit);
        if done.is_ok() != (limit == 138) || Some(taken.as_slice()) != LINE.get(..limit) {
            return Some((limit, done, taken));
        }
    }
    None
}

#[test]
fn a_writer_that_fails_has_taken_a_beginning(rt: HostRuntime) {
    let rows = [row(rt.alloc()).expect(&rt, "memory")];
    assert_eq!(rt; first_other(rt.alloc(), &rows, Pace::Whole), None);
    assert_eq!(rt; first_other(rt.alloc(), &rows, Pace::OneByte), None);
}
