//! Printing reports of an office.

ghost use Rattle.std.specs.Prelude.{◌≡◌, ◌==◌, ◌<◌, ◌^◌, ℕ, List, length, None, Some, Err, false};
ghost use Rattle.std.specs.Prelude.{option_copied, option_map};
ghost use Rattle.std.specs.Prelude.{position};
ghost use Rattle.http_requests.specs.declared.response.MediaType.TheVariants.{PlainText};
ghost use Rattle.http_requests.specs.Asks.{Asks, get};
ghost use Rattle.http_requests.specs.Responses.{response_text};
ghost use Rattle.exchanges.specs.Reading.{rest_after, cut_of};
ghost use Rattle.office_jobs.specs.Ending.{failures_after};
ghost use Rattle.office_jobs.specs.Reporting.{Reports, resource_of};
ghost use Rattle.office_jobs.specs.Opening.{HeedsRows};
ghost use Rattle.std.specs.List.{list_any};
ghost use Rattle.store_sql.specs.Look.{is_office_table};
ghost use Rattle.store_sql.specs.Honest.{IsOutside, IsUnlimited, On, StaysClean, tables_of};

use crate::job_fault::JobFault;
use crate::opening::open_office;
use crate::output::write_out;
use headline::respond;
use office::StoreFault;
use sqlite::{Alter, Connection};
use std::alloc::Global;
use store::Store;
use wire::Sink;

/// A report: the body of the response to a GET of its resource.
#[derive(Clone, Copy)]
pub enum Report {
    /// The allowed signers.
    Signers,
    /// The table of certificates.
    Table,
}

impl Report {
    fn request(self) -> &'static [u8]
        ensures { Asks result.now (get (resource_of self)) }
    {
        match self {
            Report::Signers => b"GET /v1/signers HTTP/1.1\r\n\r\n",
            Report::Table => b"GET /v1/table HTTP/1.1\r\n\r\n",
        }
    }
}

// The bytes after this prefix.
fn after<'a>(text: &'a [u8], head: &[u8]) -> Option<&'a [u8]>
    ensures { option_copied result ≡ rest_after head.now text.now }
{
    text.strip_prefix(head)
}

fn first_place(text: &[u8], byte: u8) -> Option<usize>
    ensures { result ≡ position (λ b. b == byte) text.now }
{
    text.iter().position(|b| *b == byte)
}

// The bytes before the first occurrence of this byte, and the bytes after it.
fn cut_at(text: &[u8], byte: u8) -> Option<(&[u8], &[u8])>
    ensures { option_map (λ p. (p.0.now, p.1.now)) result ≡ cut_of byte text.now }
{
    let Some(place) = first_place(text, byte) else {
        return None;
    };
    Some((&text[..place], &text[place + 1..]))
}

// The bytes after the first occurrence of this byte.
fn past(text: &[u8], byte: u8) -> Option<&[u8]>
    ensures { option_copied result ≡ option_map (λ p. p.1) (cut_of byte text.now) }
{
    match cut_at(text, byte) {
        Some(cut) => Some(cut.1),
        None => None,
    }
}

// The body of a plain-text response with status 200.
fn body_of(response: &[u8]) -> Option<&[u8]>
    ensures { (body : List ℕ) → length body < 2 ^ 64 → response.now ≡ response_text 200 PlainText body
        → option_copied result ≡ Some body }
{
    let Some(sized) = after(
        response,
        b"HTTP/1.1 200 OK\r\ncontent-type: text/plain\r\ncontent-length: ",
    ) else {
        return None;
    };
    let Some(rest) = past(sized, b'\r') else {
        return None;
    };
    after(rest, b"\nconnection: close\r\n\r\n")
}

// Prints a report of an open office.
fn report_in<S: Alter, W: Sink>(
    store: &mut Store<S>,
    alloc: Global,
    report: Report,
    out: &mut W,
) -> Result<(), JobFault>
    requires { W.failed out.old < u64.MAX }
    ensures reports { On S.Store (λ old new. Reports report old new (W.taken out.old) (W.taken out.new))
        store.old.conn store.new.conn result }
    ensures honest { StaysClean S.Store store.old.conn store.new.conn }
    ensures failed { W.failed out.new ≡ failures_after (W.failed out.old) result }
{
    http_requests::one_ask();
    match respond(store, alloc, report.request(), 0, &[0; 32]) {
        Ok(response) => match body_of(response.as_slice()) {
            Some(body) => write_out(out, body),
            None => Err(JobFault::Store(StoreFault::Damaged)),
        },
        Err(fault) => Err(JobFault::from(fault)),
    }
}

/// Prints a report of the office in a database.
pub fn report_over<S: Alter, W: Sink>(
    alloc: Global,
    conn: Connection<S>,
    report: Report,
    out: &mut W,
) -> (Result<(), JobFault>, Connection<S>)
    requires outside { IsOutside S.Store conn }
    requires unlimited { IsUnlimited S.Store conn }
    requires prints { W.failed out.old < u64.MAX }
    ensures reports { On S.Store (λ old new. Reports report old new (W.taken out.old) (W.taken out.new))
        conn result.1 result.0 }
    ensures honest { StaysClean S.Store conn result.1 }

    // `Write` is the fault exactly if a call of the output failed.
    ensures failed { W.failed out.new ≡ failures_after (W.failed out.old) result.0 }

    // A database without an office's table is refused and left unchanged.
    ensures none { list_any is_office_table (tables_of S.Store conn) ≡ false
        → result ≡ record { 0 = Err (JobFault.Store StoreFault.NotAnOffice); 1 = conn } }

    // One with an office's table is used if its row is that of an office of this schema.
    ensures rows { On S.Store HeedsRows conn result.1 result.0 }
{
    match open_office(alloc, conn) {
        Ok(store) => {
            let mut office = store;
            let done = report_in(&mut office, alloc, report, out);
            (done, office.into_connection())
        }
        Err((fault, conn)) => (Err(JobFault::from(fault)), conn),
    }
}
