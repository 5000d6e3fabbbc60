//! Readers and writers that end, fail and proceed step by step.

ghost use Rattle.std.specs.Prelude.{◌<◌, ◌+◌, ◌≤◌, IfOk};

use std::alloc::Global;
use std::io;
use std::io::{ErrorKind, Read, Write};
use wire::{
    Ending, Failed, FromRead, FromWrite, Pace, ScriptedNonces, ScriptedReader, ScriptedWriter,
    Sink, Source, VecSink, read_full, write_all,
};

const TEXT: &[u8] = b"testing";

/// The buffers after four reads into three dashes each, or `None` for a read that fails.
type Reads = [Option<[u8; 3]>; 4];

fn three<S: Source>(source: &mut S) -> Option<[u8; 3]>
    requires { S.failed source.old < 100 }
    ensures { S.failed source.new ≤ S.failed source.old + 1 }
{
    let mut buf = *b"---";
    match source.read(&mut buf) {
        Ok(_) => Some(buf),
        Err(Failed) => None,
    }
}

fn four<S: Source>(source: &mut S) -> Reads
    requires { S.failed source.old < 9 }
{
    [three(source), three(source), three(source), three(source)]
}

const ENDING: Reads = [Some(*b"tes"), Some(*b"tin"), Some(*b"g--"), Some(*b"---")];

/// The reads of a reader, and how often it failed.
fn reads(pace: Pace, ending: Ending) -> (Reads, u64) {
    let mut reader = ScriptedReader::new(TEXT, pace, ending);
    (four(&mut reader), reader.failures())
}

#[test]
fn a_reader_goes_at_its_pace_and_ends_or_fails(rt: HostRuntime) {
    let slow = [Some(*b"t--"), Some(*b"e--"), Some(*b"s--"), Some(*b"t--")];
    let failing = [Some(*b"tes"), Some(*b"tin"), Some(*b"g--"), None];
    assert_eq!(rt; reads(Pace::Whole, Ending::Ends), (ENDING, 0));
    assert_eq!(rt; reads(Pace::OneByte, Ending::Ends), (slow, 0));
    assert_eq!(rt; reads(Pace::Whole, Ending::Fails), (failing, 1));
}

/// The reads from four nonce bytes, and how often they failed.
fn nonces(ending: Ending) -> (Reads, u64) {
    let mut nonces = ScriptedNonces::new(b'3', 4, ending);
    (four(&mut nonces), nonces.failures())
}

#[test]
fn nonces_end_or_fail_after_their_count(rt: HostRuntime) {
    let (three, one, none) = (Some(*b"333"), Some(*b"3--"), Some(*b"---"));
    assert_eq!(rt; nonces(Ending::Ends), ([three, one, none, none], 0));
    assert_eq!(rt; nonces(Ending::Fails), ([three, one, None, None], 2));
}

/// The result of filling five dashes, and the buffer after it.
type Filled = (Result<usize, Failed>, [u8; 5]);

fn filled<S: Source>(source: &mut S) -> Filled
    requires { S.failed source.old < 100 }
    ensures { S.failed source.new ≤ S.failed source.old + 1 }
{
    let mut buf = [b'-'; 5];
    let done = read_full(source, &mut buf);
    (done, buf)
}

/// Five dashes filled three times, and how often the reader failed.
fn fills(pace: Pace, ending: Ending) -> ([Filled; 3], u64) {
    let mut reader = ScriptedReader::new(TEXT, pace, ending);
    let three = [
        filled(&mut reader),
        filled(&mut reader),
        filled(&mut reader),
    ];
    (three, reader.failures())
}

#[test]
fn a_buffer_is_filled_or_the_reader_is_at_its_end(rt: HostRuntime) {
    let wanted = (
        [(Ok(5), *b"testi"), (Ok(2), *b"ng---"), (Ok(0), *b"-----")],
        0,
    );
    assert_eq!(rt; fills(Pace::Whole, Ending::Ends), wanted);
    assert_eq!(rt; fills(Pace::OneByte, Ending::Ends), wanted);
}

#[test]
fn a_reader_that_fails_has_given_what_it_had(rt: HostRuntime) {
    let wanted = (
        [
            (Ok(5), *b"testi"),
            (Err(Failed), *b"ng---"),
            (Err(Failed), *b"-----"),
        ],
        2,
    );
    assert_eq!(rt; fills(Pace::Whole, Ending::Fails), wanted);
    assert_eq!(rt; fills(Pace::OneByte, Ending::Fails), wanted);
}

/// How writing ends, how often a writer with this limit failed, and the bytes that it took.
type Taken = (Result<(), Failed>, u64, Vec<u8>);

fn taken(alloc: Global, pace: Pace, limit: usize) -> Taken {
    let mut writer = ScriptedWriter::new(alloc, pace, limit);
    let done = write_all(&mut writer, TEXT);
    let ScriptedWriter {
        taken,
        failures,
        ..
    } = writer;
    (done, failures, taken)
}

fn is_due(limit: usize, seen: &Taken) -> bool {
    let (done, failures, bytes) = seen;
    let wanted = if limit < 7 {
        (Err(Failed), 1)
    } else {
        (Ok(()), 0)
    };
    (*done, *failures) == wanted && bytes.as_slice() == TEXT.get(..limit).unwrap_or(TEXT)
}

/// The first limit up to 8 at which a writer takes other bytes, and these.
fn first_other(alloc: Global, pace: Pace) -> Option<(usize, Taken)> {
    for limit in 0..9 {
        let seen = taken(alloc, pace, limit);
        if !is_due(limit, &seen) {
            return Some((limit, seen));
        }
    }
    None
}

#[test]
fn a_writer_takes_exactly_its_limit(rt: HostRuntime) {
    assert_eq!(rt; first_other(rt.alloc(), Pace::Whole), None);
    assert_eq!(rt; first_other(rt.alloc(), Pace::OneByte), None);
}

fn appended(old: Vec<u8>) -> Taken {
    let mut sink = VecSink::new(old);
    let done = write_all(&mut sink, TEXT).and(write_all(&mut sink, b""));
    let failures = sink.failures();
    (done, failures, sink.into_vec())
}

#[test]
fn a_vector_takes_all_after_what_it_holds(rt: HostRuntime) {
    let old = b"old ".to_vec(rt.alloc()).expect(&rt, "memory");
    let (done, failures, bytes) = appended(old);
    assert_eq!(rt; (done, failures), (Ok(()), 0));
    assert_eq!(rt; bytes.as_slice(), b"old testing".as_slice());
}

/// A stream of std that is interrupted a few times, and then transfers this many bytes, or fails.
#[derive(Drop)]
struct Troubled {
    interruptions: u8,
    bytes: Option<usize>,
}

impl Troubled {
    fn turn(&mut self, most: usize) -> io::Result<usize>
        ensures { IfOk result (λ n. n ≤ most) }
    {
        if self.interruptions > 0 {
            self.interruptions -= 1;
            return Err(io::Error::from(ErrorKind::Interrupted));
        }
        match self.bytes {
            Some(n) => Ok(n.min(most)),
            None => Err(io::Error::from(ErrorKind::BrokenPipe)),
        }
    }
}

impl Read for Troubled {
    fn read(&mut self, buf: &mut [u8]) -> io::Result<usize> {
        self.turn(buf.len())
    }
}

impl Write for Troubled {
    fn write(&mut self, buf: &[u8]) -> io::Result<usize> {
        self.turn(buf.len())
    }

    fn flush(&mut self) -> io::Result<()> {
        Ok(())
    }
}

/// The result of a read from such a stream, and how often it failed.
fn read(interruptions: u8, bytes: Option<usize>) -> (Result<usize, Failed>, u64) {
    let mut source = FromRead::new(Troubled {
        interruptions,
        bytes,
    });
    let done = source.read(&mut [0; 5]);
    (done, source.failures())
}

/// The result of a write to such a stream, and how often it failed.
fn write(interruptions: u8, bytes: Option<usize>, text: &[u8]) -> (Result<usize, Failed>, u64) {
    let mut sink = FromWrite::new(Troubled {
        interruptions,
        bytes,
    });
    let done = sink.write(text);
    (done, sink.failures())
}

#[test]
fn interrupted_calls_are_made_again(rt: HostRuntime) {
    assert_eq!(rt; read(3, Some(2)), (Ok(2), 0));
    assert_eq!(rt; write(3, Some(2), TEXT), (Ok(2), 0));
}

#[test]
fn other_errors_are_failures(rt: HostRuntime) {
    assert_eq!(rt; read(1, None), (Err(Failed), 1));
    assert_eq!(rt; write(1, None, TEXT), (Err(Failed), 1));
}

#[test]
fn a_write_that_takes_nothing_is_a_failure(rt: HostRuntime) {
    assert_eq!(rt; write(0, Some(0), b""), (Ok(0), 0));
    assert_eq!(rt; write(0, Some(0), TEXT), (Err(Failed), 1));
}

/// The reads of a slice, and what is left of it.
fn slice_read() -> (Reads, usize) {
    let mut source = FromRead::new(TEXT);
    let reads = four(&mut source);
    (reads, source.into_inner().len())
}

fn vector_written(alloc: Global) -> (Result<(), Failed>, Vec<u8>) {
    let mut sink = FromWrite::new(Vec::new(alloc));
    let done = write_all(&mut sink, TEXT);
    (done, sink.into_inner())
}

#[test]
fn streams_of_std_are_read_and_written(rt: HostRuntime) {
    assert_eq!(rt; slice_read(), (ENDING, 0));
    let (done, bytes) = vector_written(rt.alloc());
    assert_eq!(rt; done, Ok(()));
    assert_eq!(rt; bytes.as_slice(), TEXT);
}
