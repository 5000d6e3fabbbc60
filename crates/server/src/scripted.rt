//! Listeners in memory.

ghost use Rattle.std.specs.Prelude.{◌≡◌, ◌≤◌, ◌<◌, Some, [], length, map, drop, vec_len, vec_capacity, IfOk};
ghost use Rattle.server.specs.Books.{Book};

use crate::connection_fault::Fault;
use crate::listener::{Connection, Listener};
use std::alloc::{AllocError, Global};
use wire::{Ending, Pace, ScriptedReader, VecSink};

/// A connection in memory.
#[derive(Clone, Copy)]
pub struct ScriptedConnection<'a> {
    /// The bytes that it sends.
    pub sent: &'a [u8],
    /// The time when it is accepted, at most `values::LATEST_MOMENT`.
    pub moment: u64,
    ghost lawful: { moment ≤ 253402300799 },
}

/// What was written on a connection.
#[derive(Drop)]
pub struct Written {
    /// The bytes.
    pub bytes: Vec<u8>,
    /// Whether it was ended as a connection whose entire response was written.
    pub whole: bool,
}

/// A listener of in-memory connections, in order. It keeps what is written on each.
#[derive(Drop)]
pub struct ScriptedListener<'a> {
    all: &'a [ScriptedConnection<'a>],
    accepted: usize,
    written: Vec<Written>,
    alloc: Global,
    ghost room: { length all.now ≤ vec_capacity written },
    ghost met: { vec_len written ≤ accepted },
    ghost most: { accepted ≤ length all.now },
}

impl<'a> ScriptedListener<'a> {
    /// A listener of these connections.
    ///
    /// # Errors
    ///
    /// The allocation for what is written failed.
    pub fn new(
        alloc: Global,
        all: &'a [ScriptedConnection<'a>],
    ) -> Result<ScriptedListener<'a>, AllocError>
        ensures { IfOk result (λ listener. ⟦<ScriptedListener<'a> as Listener>⟧.book listener ≡ Some (record {
          written = [];
          coming = map (λ c. record { sent = c.sent.now; moment = c.moment }) all.now;
        })) }
    {
        Ok(ScriptedListener {
            all,
            accepted: 0,
            written: Vec::with_capacity(alloc, all.len())?,
            alloc,
        })
    }

    /// What was written on each connection that was handled.
    pub fn written(&self) -> &[Written]
        ensures { ⟦<ScriptedListener<'a> as Listener>⟧.book self.now
            ≡ Some (record {
              written = map (λ w. record { bytes = w.bytes.items; whole = w.whole }) result.now;
              coming =
                  map (λ c. record { sent = c.sent.now; moment = c.moment }) (drop self.now.accepted self.now.all.now);
            }) }
    {
        self.written.as_slice()
    }
}

impl<'a> Listener for ScriptedListener<'a> {
    type Reader = ScriptedReader<'a>;

    type Writer = VecSink;

    ghost book = { λ s. Some (record {
      written = map (λ w. record { bytes = w.bytes.items; whole = w.whole }) s.written.items;
      coming =
          map (λ c. record { sent = c.sent.now; moment = c.moment }) (drop s.accepted s.all.now);
    }) };

    ghost is_open = { λ s. vec_len s.written < s.accepted };

    fn accept(&mut self) -> Result<Connection<ScriptedReader<'a>, VecSink>, Fault> {
        if self.accepted == self.all.len() {
            return Err(Fault::Socket);
        }
        let next = self.all[self.accepted];
        self.accepted += 1;
        Ok(Connection {
            reader: ScriptedReader::new(next.sent, Pace::Whole, Ending::Ends),
            writer: VecSink::new(Vec::new(self.alloc)),
            moment: next.moment,
        })
    }

    fn end(&mut self, _reader: ScriptedReader<'a>, writer: VecSink, whole: bool) {
        let bytes = writer.into_vec();
        self.written.push(Written { bytes, whole }).unwrap();
    }
}
