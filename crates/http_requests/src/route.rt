//! The destination of a path.

ghost use Rattle.std.specs.Prelude.{◌≡◌, ◌≢◌, ◌==◌, ℕ, List, IfSome, IfNone, IsTrue, Some, None, position, decimal};
ghost use Rattle.matchit.specs.Router.{RouteOf};
ghost use Rattle.matchit.specs.Seek.{first};
ghost use Rattle.values.specs.Names.{is_name};
ghost use Rattle.http_requests.specs.declared.router.RouteKind.{RouteKind};
ghost use Rattle.http_requests.specs.declared.resource.Resource.{Resource};
ghost use Rattle.values.specs.Serials.{is_serial};
ghost use Rattle.http_requests.specs.Paths.{Path, IsPath, path_text, message, resource};
ghost use Rattle.http_requests.specs.Routing.{routing};
ghost use Rattle.http_requests.specs.RoutePath.{path_of};

use crate::resource::Resource;
use crate::router::{RouteKind, Routes};
use values::{is_name, is_serial, read_decimal};

/// The destination of a path.
#[derive(Clone, Copy, Drop)]
pub enum Route<'p> {
    /// The messages of a caller under a request ID.
    Message { caller: &'p [u8], key: &'p [u8] },
    /// A resource of a GET.
    Resource(Resource),
}

/// The route of the path, without a check of its parameters.
fn kind_of(routes: &Routes, path: &str) -> Option<RouteKind>
    ensures some { IfSome result (λ kind.
        (r : RouteOf RouteKind) × (first routing path.now ≡ Some r) × (r.value ≡ kind)) }
    ensures none { IfNone result (first routing path.now ≡ None) }
{
    match routes.router.at(path) {
        Ok(found) => Some(*found.value),
        Err(_) => None,
    }
}

/// The position of the first slash.
fn slash_at(bytes: &[u8]) -> Option<usize>
    ensures { result ≡ position (λ b. b == 47) bytes.now }
{
    bytes.iter().position(|b| *b == b'/')
}

/// The caller and the request ID in the path of a message.
fn message_of(path: &[u8]) -> Option<(&[u8], &[u8])>
    ensures names { IfSome result (λ r. IsPath (message r.0.now r.1.now)) }
    ensures text { IfSome result (λ r. path.now ≡ path_text (message r.0.now r.1.now)) }
    ensures none { IfNone result ((caller key : List ℕ) → IsPath (message caller key)
        → path.now ≢ path_text (message caller key)) }
{
    let Some(rest) = path.strip_prefix(b"/v1/callers/") else {
        return None;
    };
    let Some(at) = slash_at(rest) else {
        return None;
    };
    let (caller, tail) = rest.split_at(at);
    let Some(key) = tail.strip_prefix(b"/requests/") else {
        return None;
    };
    if !is_name(caller) {
        return None;
    }
    if !is_name(key) {
        return None;
    }
    Some((caller, key))
}

/// The serial in the text, from 1 to the last one.
fn serial_of(text: &[u8]) -> Option<u64>
    ensures serial { IfSome result (λ n. IsTrue (is_serial n)) }
    ensures text { IfSome result (λ n. text.now ≡ decimal n) }
    ensures none { IfNone result ((n : ℕ) → IsTrue (is_serial n) → text.now ≢ decimal n) }
{
    match read_decimal(text) {
        Some(serial) if is_serial(serial) => Some(serial),
        _ => None,
    }
}

/// The serial in the path of a certificate.
fn certificate_of(path: &[u8]) -> Option<u64>
    ensures serial { IfSome result (λ n. IsPath (resource (Resource.Certificate n))) }
    ensures text { IfSome result (λ n. path.now ≡ path_text (resource (Resource.Certificate n))) }
    ensures none { IfNone result ((n : ℕ) → IsPath (resource (Resource.Certificate n))
        → path.now ≢ path_text (resource (Resource.Certificate n))) }
{
    let Some(digits) = path.strip_prefix(b"/v1/certs/") else {
        return None;
    };
    serial_of(digits)
}

/// The serial in the path of a certificate's body.
fn body_of(path: &[u8]) -> Option<u64>
    ensures serial { IfSome result (λ n. IsPath (resource (Resource.Body n))) }
    ensures text { IfSome result (λ n. path.now ≡ path_text (resource (Resource.Body n))) }
    ensures none { IfNone result ((n : ℕ) → IsPath (resource (Resource.Body n))
        → path.now ≢ path_text (resource (Resource.Body n))) }
{
    let Some(rest) = path.strip_prefix(b"/v1/certs/") else {
        return None;
    };
    let Some(digits) = rest.strip_suffix(b"/body") else {
        return None;
    };
    serial_of(digits)
}

/// The destination of the path.
pub(crate) fn route_of<'p>(routes: &Routes, path: &'p str) -> Option<Route<'p>>
    ensures path { IfSome result (λ r. IsPath (path_of r)) }
    ensures text { IfSome result (λ r. path.now ≡ path_text (path_of r)) }
    ensures none { IfNone result ((p : Path) → IsPath p → path.now ≢ path_text p) }
{
    match kind_of(routes, path) {
        None => None,
        Some(RouteKind::Message) => match message_of(path.as_bytes()) {
            Some((caller, key)) => Some(Route::Message { caller, key }),
            None => None,
        },
        Some(RouteKind::Certificate) => match certificate_of(path.as_bytes()) {
            Some(serial) => Some(Route::Resource(Resource::Certificate(serial))),
            None => None,
        },
        Some(RouteKind::Body) => match body_of(path.as_bytes()) {
            Some(serial) => Some(Route::Resource(Resource::Body(serial))),
            None => None,
        },
        Some(RouteKind::Fixed(resource)) => Some(Route::Resource(resource)),
    }
}
