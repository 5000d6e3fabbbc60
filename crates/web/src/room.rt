//! Room for responses.

ghost use Rattle.std.specs.Prelude.{◌≡◌, ◌≤◌, [], IfOk, IfErr, vec_capacity};
ghost use Rattle.http_requests.specs.Responses.{response_text, refusal_response};

use http_requests::{MAX_RESPONSE_HEAD, MediaType, begin_response, refuse, respond};
use office::StoreFault;
use std::alloc::Global;
use values::Refusal;

/// The room that is reserved for a response before anything is applied: it fits the longest reply and every refusal.
pub(crate) const ROOM: usize = 512;

/// Room for `size` bytes.
pub(crate) fn room(alloc: Global, size: usize) -> Result<Vec<u8>, StoreFault>
    ensures ok { IfOk result (λ v. (v.items ≡ []) × (size ≤ vec_capacity v)) }
    ensures err { IfErr result (λ e. e ≡ StoreFault.NoMemory) }
{
    match Vec::with_capacity(alloc, size) {
        Ok(room) => Ok(room),
        Err(_) => Err(StoreFault::NoMemory),
    }
}

/// The response with a body.
pub(crate) fn to_body(alloc: Global, media: MediaType, body: &[u8]) -> Result<Vec<u8>, StoreFault>
    ensures ok { IfOk result (λ v. v.items ≡ response_text 200 media body.now) }
    ensures err { IfErr result (λ e. e ≡ StoreFault.NoMemory) }
{
    let room = room(alloc, body.len().saturating_add(MAX_RESPONSE_HEAD))?;
    Ok(respond(room, media, body))
}

/// The response with a body, in the body's own memory: the head is appended, and then rotated to the front.
pub(crate) fn around(body: Vec<u8>, media: MediaType) -> Result<Vec<u8>, StoreFault>
    ensures ok { IfOk result (λ v. v.items ≡ response_text 200 media body.items) }
    ensures err { IfErr result (λ e. e ≡ StoreFault.NoMemory) }
{
    let size = body.len();
    let mut response = body;
    let Ok(()) = response.reserve(MAX_RESPONSE_HEAD) else {
        return Err(StoreFault::NoMemory);
    };
    begin_response(&mut response, media, size);
    let head = response.len() - size;
    response.rotate_right(head);
    Ok(response)
}

/// The response with a refusal.
pub(crate) fn to_refusal(alloc: Global, refusal: Refusal) -> Result<Vec<u8>, StoreFault>
    ensures ok { IfOk result (λ v. v.items ≡ refusal_response refusal) }
    ensures err { IfErr result (λ e. e ≡ StoreFault.NoMemory) }
{
    Ok(refuse(room(alloc, ROOM)?, refusal))
}
