//! What a head asks for, before the bytes of its body arrive.

ghost use Rattle.std.specs.Prelude.{◌≡◌, ℕ, List, codes, if◌then◌else◌};
ghost use Rattle.std.specs.Str.{bytes_eq};
ghost use Rattle.httparse.specs.Grammar.{RequestHead, IsRequestHead};
ghost use Rattle.values.specs.declared.refusal.Refusal.{Refusal};
ghost use Rattle.http_requests.specs.Heads.{States};
ghost use Rattle.http_requests.specs.Shows.{ShowsHead};
ghost use Rattle.http_requests.specs.Asks.{posted, get, refused};
ghost use Rattle.http_requests.specs.BodySizes.{stated_size};
ghost use Rattle.http_requests.specs.Plans.{Plans, PlansHead, plan_ask, plan_size};

use crate::head::{Head, read_head};
use crate::limits::MAX_BODY;
use crate::resource::Resource;
use crate::route::{Route, route_of};
use crate::router::Routes;
use http::Method;
use std::str::from_utf8;
use values::Refusal;

/// What a head asks for.
#[derive(Clone, Copy, Drop)]
pub enum Plan<'a> {
    /// A refusal, whatever follows: one of those from `BadHead` to `TooLong`.
    Refused(Refusal),
    /// A resource, whatever follows.
    Get(Resource),
    /// That the office accept a message of this caller under this request ID. Both are valid names.
    Post {
        /// The caller's name.
        caller: &'a [u8],
        /// The request ID.
        key: &'a [u8],
        /// The size of the message in bytes, at most `MAX_BODY`.
        size: usize,
    },
}

fn has_method(head: &Head<'_>, method: &Method) -> bool
    ensures { result ≡ bytes_eq head.now.method.now method.now }
{
    head.method == method.as_str().as_bytes()
}

/// The plan for a head that posts to a caller's messages.
fn post_of<'a>(head: &Head<'_>, caller: &'a [u8], key: &'a [u8]) -> Plan<'a>
    ensures size { (known : List (List ℕ)) → States head.now.stated known
        → plan_size result ≡ stated_size known head.now.is_coded }
    ensures ask { (known : List (List ℕ)) (rest : List ℕ) → States head.now.stated known
        → plan_ask result rest ≡ posted caller.now key.now known head.now.is_coded rest }
{
    let Some(size) = head.stated else {
        return Plan::Refused(Refusal::LengthRequired);
    };
    if head.is_coded {
        return Plan::Refused(Refusal::LengthRequired);
    }
    if size > MAX_BODY {
        return Plan::Refused(Refusal::TooLong);
    }
    Plan::Post { caller, key, size }
}

/// The plan for a head at a resource.
fn get_of<'a>(head: &Head<'_>, resource: Resource) -> Plan<'a>
    ensures size { plan_size result ≡ 0 }
    ensures ask { (h : RequestHead) (rest : List ℕ) → ShowsHead head.now h → plan_ask result rest
        ≡ (if bytes_eq h.method (codes "GET") then get resource else refused Refusal.WrongMethod) }
{
    if has_method(head, &Method::GET) {
        Plan::Get(resource)
    } else {
        Plan::Refused(Refusal::WrongMethod)
    }
}

/// The plan for a head.
pub(crate) fn head_plan<'a>(routes: &Routes, head: &Head<'a>) -> Plan<'a>
    ensures { (h : RequestHead) → IsRequestHead h → ShowsHead head.now h → PlansHead h result }
{
    let Ok(path) = from_utf8(head.target) else {
        return Plan::Refused(Refusal::NoRoute);
    };
    match route_of(routes, path) {
        None => Plan::Refused(Refusal::NoRoute),
        Some(Route::Message { caller, key }) => {
            if has_method(head, &Method::POST) {
                post_of(head, caller, key)
            } else {
                Plan::Refused(Refusal::WrongMethod)
            }
        }
        Some(Route::Resource(resource)) => get_of(head, resource),
    }
}

/// What the head that the bytes begin with asks for (RFC 9112, section 3), and the size of its body.
pub fn plan_of<'a>(routes: &Routes, bytes: &'a [u8]) -> Plan<'a>
    ensures { Plans bytes.now result }
{
    let Some(head) = read_head(bytes) else {
        return Plan::Refused(Refusal::BadHead);
    };
    head_plan(routes, &head)
}
