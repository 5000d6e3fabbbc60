//! What a request asks for.

ghost use Rattle.std.specs.Prelude.{◌≡◌};
ghost use Rattle.http_requests.specs.Asks.{Asks, IsLawfulAsk};
ghost use Rattle.http_requests.specs.Asked.{ask_of};
ghost use Rattle.http_requests.specs.Plans.{plan_ask};

use crate::head::read_head;
use crate::plan::{Plan, head_plan};
use crate::resource::Resource;
use crate::router::Routes;
use values::Refusal;

/// What a request asks for.
#[derive(Clone, Copy, Drop)]
pub enum Asked<'a> {
    /// Nothing that is answered: one of the refusals from `BadHead` to `ShortBody`.
    Refused(Refusal),
    /// A resource.
    Get(Resource),
    /// That the office accept a message of this caller under this request ID. Both are valid names.
    Post {
        /// The caller's name.
        caller: &'a [u8],
        /// The request ID.
        key: &'a [u8],
        /// The bytes of the body, at most `MAX_BODY`.
        message: &'a [u8],
    },
}

impl<'a> Plan<'a> {
    /// What is asked with these bytes after the head. Bytes after the body are ignored.
    fn with(self, rest: &'a [u8]) -> Asked<'a>
        ensures { ask_of result ≡ plan_ask self.entry rest.now }
    {
        match self {
            Plan::Refused(refusal) => Asked::Refused(refusal),
            Plan::Get(resource) => Asked::Get(resource),
            Plan::Post { caller, key, size } => {
                if rest.len() < size {
                    return Asked::Refused(Refusal::ShortBody);
                }
                Asked::Post {
                    caller,
                    key,
                    message: &rest[..size],
                }
            }
        }
    }
}

/// What the bytes of a request ask for (RFC 9112, section 3). Bytes after the body, and all bytes after the head of a
/// GET, are ignored.
pub fn asks<'a>(routes: &Routes, request: &'a [u8]) -> Asked<'a>
    ensures asked { Asks request.now (ask_of result) }
    ensures lawful { IsLawfulAsk (ask_of result) }
{
    let Some(head) = read_head(request) else {
        return Asked::Refused(Refusal::BadHead);
    };
    head_plan(routes, &head).with(&request[head.len..])
}
