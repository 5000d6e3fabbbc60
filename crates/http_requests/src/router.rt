//! The routes, stored for lookup.

ghost use Rattle.std.specs.Prelude.{◌≡◌, IfOk};
ghost use Rattle.matchit.specs.Router.{RouteOf};
ghost use Rattle.matchit.specs.Rows.{RowsOf};
ghost use Rattle.http_requests.specs.declared.router.RouteKind.{RouteKind};
ghost use Rattle.http_requests.specs.Routing.{routing, routing_by_parameters, with_route};

use crate::resource::Resource;
use matchit::Router;
use std::alloc::Global;
use text::NoMemory;

/// The route of a path.
#[derive(Clone, Copy)]
pub enum RouteKind {
    /// `/v1/callers/{caller}/requests/{key}`
    Message,
    /// `/v1/certs/{serial}`
    Certificate,
    /// `/v1/certs/{serial}/body`
    Body,
    /// A path without parameters, which is that of this resource.
    Fixed(Resource),
}

/// The routes of the office, made once and borrowed by each call that looks one up.
#[derive(Drop)]
pub struct Routes {
    pub(crate) router: Router<RouteKind>,
    pub(crate) ghost whole: { router ≡ routing },
}

/// The router with one more route, unless memory was refused before.
fn with_route(
    router: Result<Router<RouteKind>, NoMemory>,
    path: &str,
    kind: RouteKind,
) -> Result<Router<RouteKind>, NoMemory>
    ensures { (rows : RowsOf (RouteOf RouteKind)) → IfOk router (λ r. r ≡ rows)
        → IfOk result (λ r. r ≡ with_route path.now kind rows) }
{
    let mut router = router?;
    match router.insert(path, kind) {
        Ok(()) => Ok(router),
        Err(_) => Err(NoMemory),
    }
}

/// The routes of messages, certificates and bodies.
fn router_by_parameters(alloc: Global) -> Result<Router<RouteKind>, NoMemory>
    ensures { IfOk result (λ r. r ≡ routing_by_parameters) }
{
    let router = Ok(Router::new(alloc));
    let router = with_route(
        router,
        "/v1/callers/{caller}/requests/{key}",
        RouteKind::Message,
    );
    let router = with_route(router, "/v1/certs/{serial}", RouteKind::Certificate);
    with_route(router, "/v1/certs/{serial}/body", RouteKind::Body)
}

/// All routes.
fn router_of(alloc: Global) -> Result<Router<RouteKind>, NoMemory>
    ensures { IfOk result (λ r. r ≡ routing) }
{
    let router = router_by_parameters(alloc);
    let router = with_route(router, "/v1/pending", RouteKind::Fixed(Resource::Pending));
    let router = with_route(
        router,
        "/v1/krl",
        RouteKind::Fixed(Resource::RevocationList),
    );
    let router = with_route(router, "/v1/signers", RouteKind::Fixed(Resource::Signers));
    let router = with_route(router, "/v1/table", RouteKind::Fixed(Resource::Table));
    let router = with_route(router, "/v1/cas", RouteKind::Fixed(Resource::Cas));
    with_route(
        router,
        "/v1/departments",
        RouteKind::Fixed(Resource::Departments),
    )
}

impl Routes {
    /// The routes of the office.
    ///
    /// # Errors
    ///
    /// `NoMemory` if the router couldn't insert a route. Lack of memory is the only possible reason.
    pub fn new(alloc: Global) -> Result<Routes, NoMemory> {
        match router_of(alloc) {
            Ok(router) => Ok(Routes { router }),
            Err(refused) => Err(refused),
        }
    }
}
