//! The tables of an office that has received no request yet.

ghost use Rattle.std.specs.Prelude.{◌≡◌, ◌∷◌, [], ◌<◌, ◌^◌, IfOk};
ghost use Rattle.store_sql.specs.Contents.{no_contents};
ghost use Rattle.store_sql.specs.Honest.{On, OutlivesBy};
ghost use Rattle.store_sql.specs.Changes.{with_ca_row, with_office};
ghost use Rattle.office.specs.Openings.{IsOpening};
ghost use Rattle.office.specs.State.{first_ca, opened};
ghost use Rattle.store.specs.Rows.{ca_row, office_contents, office_row};
ghost use Rattle.store.specs.Transactions.{Does, KeepsOnErr};
ghost use Rattle.store.specs.Creating.{DoesOnBlank, EndsOnBlank, FailsOnBlank, LeavesOnBlank, RefusesFirst};
ghost use Rattle.store.specs.Creating.{RefusesOpening, first_contents};

use crate::rows::{conclude, number};
use lines::key_blob_of;
use office::Opening;
use sqlite::{Alter, Connection};
use std::alloc::Global;
use store_sql::{CaRow, Fault, Number, OfficeRow, begin, create_tables, insert_ca, insert_office};
use text::{NoMemory, Text};

/// The schema of new tables, and the only one that can be opened.
pub(crate) const SCHEMA: u64 = 2;

fn office_row(alloc: Global, opening: &Opening) -> Result<OfficeRow, NoMemory>
    requires { IsOpening opening.now }
    ensures { IfOk result (λ row. row ≡ office_row (opened opening.now)) }
{
    Ok(OfficeRow {
        id: number(1),
        schema: number(SCHEMA),
        ca: Text::from_slice(alloc, &key_blob_of(&opening.ca))?,
        root: opening.root.copied(alloc)?,
        station: opening.station.copied(alloc)?,
        first: number(opening.first),
        last: number(opening.last),
        next: number(opening.first),
        version: Number::ZERO,
        date: Number::ZERO,
    })
}

fn ca_row(alloc: Global, opening: &Opening) -> Result<CaRow, NoMemory>
    requires { IsOpening opening.now }
    ensures { IfOk result (λ row. row ≡ ca_row 1 opening.now.first (first_ca opening.now)) }
{
    Ok(CaRow {
        number: number(1),
        ca: Text::from_slice(alloc, &key_blob_of(&opening.ca))?,
        since: number(opening.first),
    })
}

fn fill<S: Alter>(conn: &mut Connection<S>, office: &OfficeRow, ca: &CaRow) -> Result<(), Fault>
    ensures { Does S.Store (λ c. with_ca_row ca.now (with_office office.now c)) (RefusesFirst office.now ca.now)
        conn.old conn.new result }
{
    insert_office(conn, office)?;
    insert_ca(conn, ca)
}

fn make<S: Alter>(conn: &mut Connection<S>, office: &OfficeRow, ca: &CaRow) -> Result<(), Fault>
    ensures { DoesOnBlank S.Store (first_contents office.now ca.now) (RefusesFirst office.now ca.now no_contents)
        conn.old conn.new result }
{
    create_tables(conn)?;
    fill(conn, office, ca)
}

fn make_whole<S: Alter>(
    conn: &mut Connection<S>,
    office: &OfficeRow,
    ca: &CaRow,
) -> Result<(), Fault>
    ensures ends { On S.Store (EndsOnBlank (first_contents office.now ca.now)) conn.old conn.new result }
    ensures cause { On S.Store (FailsOnBlank (RefusesFirst office.now ca.now no_contents)) conn.old conn.new result }
    ensures before { On S.Store KeepsOnErr conn.old conn.new result }
    ensures survives { OutlivesBy S.Store (LeavesOnBlank (first_contents office.now ca.now)) conn.old conn.new }
{
    begin(conn)?;
    let made = make(conn, office, ca);
    conclude(conn, made)
}

/// Makes the tables of an office with this initial configuration in a database without tables, all of them or none.
pub(crate) fn create<S: Alter>(
    alloc: Global,
    conn: &mut Connection<S>,
    opening: &Opening,
) -> Result<(), Fault>
    requires { IsOpening opening.now }
    ensures ends { On S.Store (EndsOnBlank (office_contents opening.now [])) conn.old conn.new result }
    ensures cause { On S.Store (FailsOnBlank (RefusesOpening opening.now)) conn.old conn.new result }
    ensures before { On S.Store KeepsOnErr conn.old conn.new result }
    ensures survives { OutlivesBy S.Store (LeavesOnBlank (office_contents opening.now [])) conn.old conn.new }
{
    let office = office_row(alloc, opening)?;
    let ca = ca_row(alloc, opening)?;
    make_whole(conn, &office, &ca)
}
