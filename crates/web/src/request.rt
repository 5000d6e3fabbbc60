//! The answer to a request.

ghost use Rattle.std.specs.Prelude.{◌≡◌, ◌≢◌, ℕ, List, IfOk, OnOk, OnErr, IfErr};
ghost use Rattle.http_requests.specs.declared.resource.Resource.TheVariants.{Pending, RevocationList};
ghost use Rattle.http_requests.specs.Asked.{ask_of};
ghost use Rattle.http_requests.specs.Asks.{Asks};
ghost use Rattle.office.specs.Faults.{HasRegisterCause};
ghost use Rattle.office.specs.History.{state};
ghost use Rattle.office.specs.Registers.{AnswersBy, FailsAsARegister, FailsWithin, FailuresPersist, MeansTheSame};
ghost use Rattle.office.specs.Registers.{Preserves, WhereMeant};
ghost use Rattle.web.specs.Answers.{AsksNoChange, IsAnswered, IsNoMessage, IsRefusal, Keeps, ListFits};
ghost use Rattle.web.specs.Answers.{resource_response};
ghost use Rattle.web.specs.Causes.{AsksPlainGet, FailsAfter, IsPlainGet, StopsAt};
ghost use Rattle.web.specs.Forms.{HasForm, MayAnswer, MayShow};
ghost use Rattle.web.specs.Requests.{request_ask};

use crate::answering::to_arrival;
use crate::certificate_lines::{to_certificate, to_pending, to_serial_body};
use crate::departments::to_departments;
use crate::publishing::{to_cas, to_list, to_signers};
use crate::report::to_table;
use crate::room::to_refusal;
use http_requests::{Asked, Resource, Routes, asks};
use office::{Arrival, Registry, StoreFault};
use std::alloc::Global;
use text::{NoMemory, Text};
use values::Refusal;

/// What a request asks, with owned texts.
#[derive(Drop)]
pub(crate) enum Request {
    /// A request that is refused without the register.
    Refused(Refusal),
    /// A GET of a resource.
    Get(Resource),
    /// A POST: a message from this caller under this request key.
    Post {
        caller: Text,
        key: Text,
        message: Text,
    },
}

impl Request {
    /// A copy of what was asked.
    fn of(alloc: Global, asked: Asked<'_>) -> Result<Request, NoMemory>
        ensures { IfOk result (λ request. request_ask request ≡ ask_of asked.entry) }
    {
        match asked {
            Asked::Refused(refusal) => Ok(Request::Refused(refusal)),
            Asked::Get(resource) => Ok(Request::Get(resource)),
            Asked::Post {
                caller,
                key,
                message,
            } => Ok(Request::Post {
                caller: Text::from_slice(alloc, caller)?,
                key: Text::from_slice(alloc, key)?,
                message: Text::from_slice(alloc, message)?,
            }),
        }
    }
}

/// The response with a resource.
fn to_resource<R: Registry>(
    registry: &mut R,
    alloc: Global,
    resource: Resource,
) -> Result<Vec<u8>, StoreFault>
    ensures preserves { Preserves R.is_honest R.is_open R.is_as_before R.means registry.old registry.new }
    ensures stays_open { R.is_honest registry.new → OnOk result (R.is_open registry.new) }
    ensures row { R.is_honest registry.new → AnswersBy R.means registry.old result
        (λ o l v. v.items ≡ resource_response (state o l) resource) }
    ensures fits { R.is_honest registry.new → resource ≡ RevocationList
        → OnOk result (WhereMeant R.means registry.old (λ o l. ListFits (state o l))) }
    ensures form { IfOk result (λ v. MayShow resource v.items) }
    ensures cause { R.is_honest registry.new → IfErr result
        (λ e. HasRegisterCause e (FailsWithin R.means R.fails registry.old registry.new)) }
    ensures plain { R.is_honest registry.new → resource ≢ Pending → IfErr result (λ e. HasRegisterCause e
        (FailsAfter R.is_open R.is_as_before R.means R.fails registry.old registry.new)) }
    ensures only { R.is_honest registry.new → FailsAsARegister R.means registry.old result }
{
    match resource {
        Resource::Pending => to_pending(registry, alloc),
        Resource::Certificate(serial) => to_certificate(registry, alloc, serial),
        Resource::Body(serial) => to_serial_body(registry, alloc, serial),
        Resource::RevocationList => to_list(registry, alloc),
        Resource::Signers => to_signers(registry, alloc),
        Resource::Table => to_table(registry, alloc),
        Resource::Cas => to_cas(registry, alloc),
        Resource::Departments => to_departments(registry, alloc),
    }
}

/// The response to a request that was already read, independent of its bytes.
pub(crate) fn answer_request<R: Registry>(
    registry: &mut R,
    alloc: Global,
    request: Request,
    moment: u64,
    nonce: &[u8; 32],
) -> Result<Vec<u8>, StoreFault>
    ensures failures { FailuresPersist R.is_honest R.is_open registry.old registry.new }
    ensures stays_open { R.is_honest registry.new → OnOk result (R.is_open registry.old → R.is_open registry.new) }
    ensures answered { R.is_honest registry.new → (bytes : List ℕ) → Asks bytes (request_ask request)
        → IfOk result (λ v. IsAnswered (R.means registry.old) (R.means registry.new)
        (Keeps R.means R.is_open registry.new) bytes moment nonce.now v.items) }
    ensures form { IfOk result (λ v. MayAnswer (request_ask request) v.items) }
    ensures fault { R.is_honest registry.new → OnErr result (MeansTheSame R.means registry.old registry.new) }
    ensures before { R.is_honest registry.new → R.is_open registry.new
        → OnErr result (R.is_as_before registry.old registry.new) }
    ensures reads { R.is_honest registry.new → R.is_open registry.new → IsNoMessage (request_ask request)
        → R.is_as_before registry.old registry.new }
    ensures refused { R.is_honest registry.new → IfOk result (λ v. IsRefusal v.items
        → R.is_open registry.new → R.is_as_before registry.old registry.new) }
    ensures cause { R.is_honest registry.new → (bytes : List ℕ) → Asks bytes (request_ask request) → IfErr result
        (λ e. HasRegisterCause e (StopsAt R.means R.fails R.stops bytes moment nonce.now registry.old registry.new)) }
    ensures plain { R.is_honest registry.new → IsPlainGet (request_ask request) → IfErr result (λ e. HasRegisterCause e
        (FailsAfter R.is_open R.is_as_before R.means R.fails registry.old registry.new)) }
    ensures only { R.is_honest registry.new → FailsAsARegister R.means registry.old result }
{
    match request {
        Request::Refused(refusal) => to_refusal(alloc, refusal),
        Request::Get(resource) => to_resource(registry, alloc, resource),
        Request::Post {
            caller,
            key,
            message,
        } => {
            let arrival = Arrival {
                caller,
                key,
                bytes: message,
                moment,
                nonce: *nonce,
            };
            to_arrival(registry, alloc, arrival)
        }
    }
}

/// Like `answer`, but with routes that were built beforehand.
pub fn answer_by<R: Registry>(
    routes: &Routes,
    registry: &mut R,
    alloc: Global,
    request: &[u8],
    moment: u64,
    nonce: &[u8; 32],
) -> Result<Vec<u8>, StoreFault>
    ensures failures { FailuresPersist R.is_honest R.is_open registry.old registry.new }
    ensures stays_open { R.is_honest registry.new → OnOk result (R.is_open registry.old → R.is_open registry.new) }
    ensures answered { R.is_honest registry.new → IfOk result (λ v. IsAnswered (R.means registry.old)
        (R.means registry.new) (Keeps R.means R.is_open registry.new) request.now moment nonce.now v.items) }
    ensures fault { R.is_honest registry.new → OnErr result (MeansTheSame R.means registry.old registry.new) }
    ensures before { R.is_honest registry.new → R.is_open registry.new
        → OnErr result (R.is_as_before registry.old registry.new) }
    ensures reads { R.is_honest registry.new → R.is_open registry.new → AsksNoChange request.now
        → R.is_as_before registry.old registry.new }
    ensures refused { R.is_honest registry.new → IfOk result (λ v. IsRefusal v.items
        → R.is_open registry.new → R.is_as_before registry.old registry.new) }
    ensures cause { R.is_honest registry.new → IfErr result
        (λ e. HasRegisterCause e
        (StopsAt R.means R.fails R.stops request.now moment nonce.now registry.old registry.new)) }
    ensures plain { R.is_honest registry.new → AsksPlainGet request.now → IfErr result (λ e. HasRegisterCause e
        (FailsAfter R.is_open R.is_as_before R.means R.fails registry.old registry.new)) }
    ensures only { R.is_honest registry.new → FailsAsARegister R.means registry.old result }

    // Whatever the register means, a response has the form that the request asks for.
    ensures form { IfOk result (λ v. HasForm request.now v.items) }
{
    let request = Request::of(alloc, asks(routes, request))?;
    answer_request(registry, alloc, request, moment, nonce)
}

/// The response to the bytes of a request (RFC 9112): the one specified after the arrivals so far. Bytes after the
/// request are ignored.
///
/// The routes and room for a response are made before the register is called, so after a fault nothing was applied.
/// If the request needed the register and was answered, the register is open, and so preserves what it means. A refusal
/// that is determined by the bytes alone doesn't need the register.
///
/// # Errors
///
/// `Device` if the database failed, or refused the rows of the arrival, and `NoMemory` if an allocation was refused or
/// a section of the list would be too long. A register that means a history returns no other fault.
pub fn answer<R: Registry>(
    registry: &mut R,
    alloc: Global,
    request: &[u8],
    moment: u64,
    nonce: &[u8; 32],
) -> Result<Vec<u8>, StoreFault>
    ensures failures { FailuresPersist R.is_honest R.is_open registry.old registry.new }
    ensures stays_open { R.is_honest registry.new → OnOk result (R.is_open registry.old → R.is_open registry.new) }
    ensures answered { R.is_honest registry.new → IfOk result (λ v. IsAnswered (R.means registry.old)
        (R.means registry.new) (Keeps R.means R.is_open registry.new) request.now moment nonce.now v.items) }
    ensures fault { R.is_honest registry.new → OnErr result (MeansTheSame R.means registry.old registry.new) }

    // A request that is no message leaves the stored rows unchanged, whatever they mean. So does each fault, and each
    // refusal.
    ensures before { R.is_honest registry.new → R.is_open registry.new
        → OnErr result (R.is_as_before registry.old registry.new) }
    ensures reads { R.is_honest registry.new → R.is_open registry.new → AsksNoChange request.now
        → R.is_as_before registry.old registry.new }
    ensures refused { R.is_honest registry.new → IfOk result (λ v. IsRefusal v.items
        → R.is_open registry.new → R.is_as_before registry.old registry.new) }
    ensures cause { R.is_honest registry.new → IfErr result
        (λ e. HasRegisterCause e
        (StopsAt R.means R.fails R.stops request.now moment nonce.now registry.old registry.new)) }

    // For a GET, except that of the pending certificates, the register failed while its rows were as before the call.
    ensures plain { R.is_honest registry.new → AsksPlainGet request.now → IfErr result (λ e. HasRegisterCause e
        (FailsAfter R.is_open R.is_as_before R.means R.fails registry.old registry.new)) }
    ensures only { R.is_honest registry.new → FailsAsARegister R.means registry.old result }

    // Whatever the register means, a response has the form that the request asks for.
    ensures form { IfOk result (λ v. HasForm request.now v.items) }
{
    let routes = Routes::new(alloc)?;
    answer_by(&routes, registry, alloc, request, moment, nonce)
}
