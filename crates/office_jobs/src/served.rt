//! Serving an office.

ghost use Rattle.std.specs.Prelude.{◌≡◌, ◌≤◌, ◌<◌, ◌+◌, ℕ, [], IfErr, IfOk, List, OnErr, OnOk, false, is_ok};
ghost use Rattle.std.specs.List.{list_any};
ghost use Rattle.std.specs.Io.KnownBytes.{Appends};
ghost use Rattle.wire.specs.Streams.{AppendsBeginning};
ghost use Rattle.lines.specs.Writing.{Writes};
ghost use Rattle.sqlite.specs.Held.{state};
ghost use Rattle.store_sql.specs.Look.{is_office_table};
ghost use Rattle.store_sql.specs.Honest.{Between, IsOutside, IsUnlimited, On, StaysClean, tables_of};
ghost use Rattle.server.specs.Connections.{Extends};
ghost use Rattle.server.specs.Names.{listening_line, no_memory_line};
ghost use Rattle.store.specs.Meaning.{Tells};
ghost use Rattle.office_jobs.specs.Ending.{Heeds};
ghost use Rattle.office_jobs.specs.Jobs.{RefusesNone};
ghost use Rattle.office_jobs.specs.Names.{Takes};
ghost use Rattle.office_jobs.specs.Opening.{HeedsRows};
ghost use Rattle.office_jobs.specs.Serving.{MeetsOver};
ghost use Rattle.office_jobs.specs.Whole.{Listens, ServesAt, ServesOpen};

use crate::job_fault::JobFault;
use crate::opening::open_office;
use crate::output::Output;
use crate::world::World;
use exchanges::{print_number, print_piece};
use server::{Listener, serve_keeping};
use sqlite::{Alter, Connection};
use std::io::ErrorKind;
use std::net::{Ipv4Addr, SocketAddrV4};
use store::Store;
use wire::{Failed, FromRead, Sink, Source};

/// Serves `connections` connections of a listener over an open office, and returns its connection with the status: 0,
/// or 1 if there was no memory to begin with.
pub fn serve_over<R: AllocGlobal, S: Alter, L: Listener, N: Source, E: Sink>(
    rt: &R,
    store: Store<S>,
    listener: &mut L,
    nonces: &mut N,
    connections: u64,
    err: &mut E,
) -> (u8, Connection<S>)
    requires draws { N.failed nonces.old + connections ≤ u64.MAX }
    requires tells { E.failed err.old ≡ 0 }
    ensures status { result.0 ≤ 1 }

    // Each connection gets the response that is specified for its request after the arrivals of the earlier ones, or it
    // is closed with a fault, whose line is printed.
    ensures met { result.0 ≡ 0 → (said : List ℕ)
        × Takes (E.failed err.old) (E.failed err.new) (E.taken err.old) (E.taken err.new) said
        × MeetsOver connections (L.book listener.old) (L.book listener.new) (N.remaining nonces.old)
        (N.remaining nonces.new) said (state S.Store store.conn) (state S.Store result.1) }
    ensures lacking { result.0 ≡ 1
        → Takes (E.failed err.old) (E.failed err.new) (E.taken err.old) (E.taken err.new) no_memory_line }
    ensures served { Between S.Store (λ old new. Extends connections (Tells old) (Tells new)) store.conn result.1 }
    ensures unmet { result.0 ≡ 1 → result.1 ≡ store.conn }
    ensures honest { StaysClean S.Store store.conn result.1 }
{
    let (status, office) = serve_keeping(rt, listener, store, nonces, connections, err);
    (status, office.into_connection())
}

// Asks the world for a listener at this port of 127.0.0.1.
fn listen_on<W: World>(world: &mut W, port: u16) -> Result<(W::Incoming, u16), ErrorKind>
    ensures { Listens W.World port world.old result world.new }
{
    world.listen(SocketAddrV4::new(Ipv4Addr::LOCALHOST, port))
}

// Prints the line with a port.
fn print_line<O: Sink>(out: &mut O, port: u16) -> Result<(), Failed>
    requires { O.failed out.old < u64.MAX }
    ensures { Writes O.taken O.failed O.room out.old out.new (is_ok result) (listening_line port) }
{
    print_piece(out, b"listening ")?;
    print_number(out, port as u64)?;
    print_piece(out, b"\n")
}

// Prints the line with the port at which a server listens, and flushes it.
fn print_port<O: Output>(out: &mut O, port: u16) -> Result<(), JobFault>
    requires { O.failed out.old < u64.MAX }
    ensures ok { OnOk result (Appends (O.taken out.old) (O.taken out.new) (listening_line port)) }
    ensures part { OnErr result (AppendsBeginning (O.taken out.old) (O.taken out.new) (listening_line port)) }
    ensures heeds { Heeds (O.failed out.old) (O.failed out.new) (O.is_flushed out.new) result }
    ensures only { IfErr result (λ e. e ≡ JobFault.Write) }
{
    match print_line(out, port) {
        Ok(()) => match out.flush() {
            Ok(()) => Ok(()),
            Err(_) => Err(JobFault::Write),
        },
        Err(_) => Err(JobFault::Write),
    }
}

// Listens, prints the port, and serves the open office.
fn serve_listening<S: Alter, W: World<Conn = Connection<S>> + AllocGlobal, O: Output, E: Sink>(
    world: &mut W,
    store: Store<S>,
    nonces: W::File,
    port: u16,
    connections: u64,
    out: &mut O,
    err: &mut E,
) -> (Result<u8, JobFault>, Connection<S>)
    requires tells { E.failed err.old ≡ 0 }
    requires prints { O.failed out.old < u64.MAX }
    ensures ok { OnOk result.0 ((said : List ℕ)
        × Takes (E.failed err.old) (E.failed err.new) (E.taken err.old) (E.taken err.new) said
        × ServesOpen S.Store W.World W.Incoming.book port connections (W.File.remaining nonces)
        (O.taken out.old) (O.taken out.new) said world.old world.new store.conn result.1 result.0) }
    ensures err { OnErr result.0 (ServesOpen S.Store W.World W.Incoming.book port connections
        (W.File.remaining nonces) (O.taken out.old) (O.taken out.new) [] world.old world.new store.conn result.1
        result.0) }
    ensures quiet { OnErr result.0 (err.new ≡ err.old) }
    ensures honest { StaysClean S.Store store.conn result.1 }
    ensures status { IfOk result.0 (λ status. status ≤ 1) }
    ensures heeds { Heeds (O.failed out.old) (O.failed out.new) (O.is_flushed out.new) result.0 }
{
    match listen_on(world, port) {
        Ok((incoming, at)) => match print_port(out, at) {
            Ok(()) => {
                let mut source = FromRead::new(nonces);
                let mut incoming = incoming;
                let (status, conn) = serve_over(
                    world,
                    store,
                    &mut incoming,
                    &mut source,
                    connections,
                    err,
                );
                (Ok(status), conn)
            }
            Err(fault) => (Err(fault), store.into_connection()),
        },
        Err(_) => (Err(JobFault::Socket), store.into_connection()),
    }
}

/// Serves the office in a database at a port of the loopback interface. Nobody listens before the office is open.
pub fn serve_at_port<S: Alter, W: World<Conn = Connection<S>> + AllocGlobal, O: Output, E: Sink>(
    world: &mut W,
    conn: Connection<S>,
    nonces: W::File,
    port: u16,
    connections: u64,
    out: &mut O,
    err: &mut E,
) -> (Result<u8, JobFault>, Connection<S>)
    requires outside { IsOutside S.Store conn }
    requires unlimited { IsUnlimited S.Store conn }
    requires tells { E.failed err.old ≡ 0 }
    requires prints { O.failed out.old < u64.MAX }
    ensures serves { (said : List ℕ)
        × Takes (E.failed err.old) (E.failed err.new) (E.taken err.old) (E.taken err.new) said
        × ServesAt S.Store W.World W.Incoming.book port connections (W.File.remaining nonces)
        (O.taken out.old) (O.taken out.new) said world.old world.new conn result.1 result.0 }
    ensures honest { StaysClean S.Store conn result.1 }
    ensures status { IfOk result.0 (λ status. status ≤ 1) }
    ensures heeds { Heeds (O.failed out.old) (O.failed out.new) (O.is_flushed out.new) result.0 }

    // A database without an office's table is refused and left unchanged.
    ensures none { list_any is_office_table (tables_of S.Store conn) ≡ false
        → RefusesNone conn result.1 result.0 }

    // One with an office's table is used if its row is that of an office of this schema.
    ensures rows { On S.Store HeedsRows conn result.1 result.0 }
{
    match open_office(world.alloc(), conn) {
        Ok(store) => serve_listening(world, store, nonces, port, connections, out, err),
        Err((fault, conn)) => (Err(JobFault::from(fault)), conn),
    }
}
