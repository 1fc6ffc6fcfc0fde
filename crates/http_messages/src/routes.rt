//! The routes, and their table.

ghost use Rattle.std.specs.Prelude.{◌≡◌, IfOk, OnOk, OnErr};
ghost use Rattle.matchit.specs.declared.InsertError.TheVariants.{OutOfMemory};
ghost use Rattle.http_messages.specs.Methods.{is_get, is_post, is_put};
ghost use Rattle.http_messages.specs.Routes.{about_route};
ghost use Rattle.http_messages.specs.Table.{with_routes, route_table};
ghost use Rattle.http_messages.specs.MessageParts.{Fits, AreFitting};
ghost use Rattle.http_messages.specs.Table.{added};
ghost use Rattle.http_messages.specs.Table.{route_at, route_of};
ghost use Rattle.http_messages.specs.MessageParts.{has_query, serves};

use http::Method;
use matchit::{InsertError, Router};
use std::alloc::Global;
use texts::StreamFault;

/// What a path names.
#[derive(Clone, Copy)]
pub enum Route {
    /// `/ccr`: a request for credit control.
    Ccr,
    /// `/accounts/{a}`: an account.
    Account,
    /// `/accounts/{a}/statement/{yyyymm}`: an account's statement of a month.
    Statement,
    /// `/accounts/{a}/credits`: the credits of an account.
    Credits,
    /// `/accounts/{a}/allowances`: the allowances of an account.
    Allowances,
    /// `/vouchers/{code}/redeem`: the redemption of a voucher.
    Redeem,
    /// `/sweep`: a sweep.
    Sweep,
}

/// All routes, in the order in which a router gets them.
const ROUTES: [Route; 7] = [
    Route::Ccr,
    Route::Account,
    Route::Statement,
    Route::Credits,
    Route::Allowances,
    Route::Redeem,
    Route::Sweep,
];

/// Whether a method is GET.
pub(crate) fn is_get(method: &Method) -> bool
    ensures { result ≡ is_get method.now }
{
    *method == Method::GET
}

/// Whether a method is POST.
fn is_post(method: &Method) -> bool
    ensures { result ≡ is_post method.now }
{
    *method == Method::POST
}

/// Whether a method is PUT.
fn is_put(method: &Method) -> bool
    ensures { result ≡ is_put method.now }
{
    *method == Method::PUT
}

impl Route {
    /// The text of its path: a part in braces is any that isn't empty.
    fn pattern(self) -> &'static str
        ensures { result.now ≡ (about_route self).pattern }
    {
        match self {
            Route::Ccr => "/ccr",
            Route::Account => "/accounts/{a}",
            Route::Statement => "/accounts/{a}/statement/{yyyymm}",
            Route::Credits => "/accounts/{a}/credits",
            Route::Allowances => "/accounts/{a}/allowances",
            Route::Redeem => "/vouchers/{code}/redeem",
            Route::Sweep => "/sweep",
        }
    }

    /// Whether the path has this method.
    pub(crate) fn serves(self, method: &Method) -> bool
        ensures { result ≡ serves self method.now }
    {
        match self {
            Route::Ccr => is_post(method),
            Route::Account => is_get(method) || is_put(method),
            Route::Statement => is_get(method),
            Route::Credits => is_post(method),
            Route::Allowances => is_post(method),
            Route::Redeem => is_post(method),
            Route::Sweep => is_post(method),
        }
    }
}

/// The fault of an error of a growth that was refused.
fn refused(error: InsertError) -> StreamFault
    requires { error ≡ OutOfMemory }
    ensures { result ≡ StreamFault.Memory }
{
    let _ = error;
    StreamFault::Memory
}

/// One more route, of those that fit. The one fault is `Memory`, where a growth was refused.
fn add(router: &mut Router<Route>, text: &str, value: Route) -> Result<(), StreamFault>
    requires { Fits text.now router.old }
    ensures added { OnOk result (router.new ≡ added text.now value router.old) }
    ensures fault { OnErr result (result ≡ Err StreamFault.Memory) }
{
    match router.insert(text, value) {
        Ok(()) => Ok(()),
        Err(error) => Err(refused(error)),
    }
}

/// Adds routes, one after another, each of which fits among those before it. The one fault is
/// `Memory`, where a growth was refused.
fn add_each(router: &mut Router<Route>, routes: &[Route]) -> Result<(), StreamFault>
    requires { AreFitting routes.now router.old }
    ensures added { OnOk result (router.new ≡ with_routes routes.now router.old) }
    ensures fault { OnErr result (result ≡ Err StreamFault.Memory) }
{
    for route in routes {
        add(router, route.pattern(), *route)?;
    }
    Ok(())
}

/// The table of routes, made once a connection.
///
/// # Errors
/// `Memory` where a growth was refused.
#[tactic(auto, unfolding(crate::specs::Table::route_table))]
pub fn known_router(alloc: Global) -> Result<Router<Route>, StreamFault>
    ensures table { IfOk result (λ r. r ≡ route_table) }
    ensures fault { OnErr result (result ≡ Err StreamFault.Memory) }
{
    let mut router = Router::new(alloc);
    add_each(&mut router, &ROUTES)?;
    Ok(router)
}

/// The route of a path.
fn row_of(router: &Router<Route>, path: &str) -> Option<Route>
    requires { router.now ≡ route_table }
    ensures { result ≡ route_at path.now }
{
    match router.at(path) {
        Ok(found) => Some(*found.value),
        Err(_) => None,
    }
}

/// Whether a target has a query.
fn has_query(target: &str) -> bool
    ensures { result ≡ has_query target.now }
{
    target.as_bytes().iter().any(|b| *b == b'?')
}

/// What a target names: a path without a query that has a route in the table.
pub(crate) fn route_of(router: &Router<Route>, target: &str) -> Option<Route>
    requires { router.now ≡ route_table }
    ensures { result ≡ route_of target.now }
{
    if has_query(target) {
        None
    } else {
        row_of(router, target)
    }
}
