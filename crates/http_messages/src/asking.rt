//! What a request of HTTP asks.

ghost use Rattle.std.specs.Prelude.{◌≡◌, Result};
ghost use Rattle.std.specs.List.{before_first, after_first};
ghost use Rattle.commands.specs.declared.command.Command.{Command};
ghost use Rattle.json_fields.specs.Gives.{Gives, Says};
ghost use Rattle.json_fields.specs.declared.fault.WireFault.{WireFault};
ghost use Rattle.http_messages.specs.RequestsGiven.{seen};
ghost use Rattle.http_messages.specs.Asking.{account_in_path};
ghost use Rattle.http_messages.specs.MessageParts.{is_slash, second_part, fourth_part};
ghost use Rattle.http_messages.specs.Asking.{reads, IsAskingGiven};
ghost use Rattle.http_messages.specs.MessageParts.{code_in};
ghost use Rattle.http_messages.specs.MessageParts.{month_in};
ghost use Rattle.http_messages.specs.MessageParts.{stated};
ghost use Rattle.http_messages.specs.MessageParts.{account_asked, account_command, allowance_asked};
ghost use Rattle.http_messages.specs.Routes.{asking_by};
ghost use Rattle.http_messages.specs.MessageParts.{credit_asked, redemption_asked};
ghost use Rattle.http_messages.specs.MessageParts.{statement_in};
ghost use Rattle.http_messages.specs.Table.{route_table, asked_of};
ghost use Rattle.http_messages.specs.declared.asking.StatementAsked.{StatementAsked};

use crate::refusal::HttpRefusal;
use crate::requests::HttpRequest;
use crate::routes::{Route, is_get, route_of};
use commands::{Avp, Command};
use http::Method;
use identifiers::{AccountNumber, VoucherCode};
use matchit::Router;
use std::alloc::Global;
use texts::Month;
use wire::{Scratch, WireFault, read_allow, read_credit, read_redeem, read_request};

/// A statement that is asked for.
#[derive(Drop)]
pub struct StatementAsked {
    /// Whose charges it shows.
    pub account: AccountNumber,
    /// The civil month in the book's zone.
    pub month: Month,
}

/// What a request asks: it is refused, isn't read, is a command or asks for a statement.
#[derive(Drop)]
pub enum HttpAsked {
    /// It is refused.
    Refused(HttpRefusal),
    /// The path or the body has a fault, or memory ran out.
    Unread(WireFault),
    /// It is a command.
    Does(Command),
    /// It asks for a statement.
    States(StatementAsked),
}

/// What follows the first slash of a text; nothing where it has none.
fn after_slash(text: &str) -> &str
    ensures { result.now ≡ after_first is_slash text.now }
{
    match text.split_once('/') {
        Some((_, rest)) => rest,
        None => "",
    }
}

/// What is before the first slash of a text; all of it where it has none.
fn before_slash(text: &str) -> &str
    ensures { result.now ≡ before_first is_slash text.now }
{
    match text.split_once('/') {
        Some((part, _)) => part,
        None => text,
    }
}

/// The second part of a path, between its second slash and the third or the end.
fn second_part(target: &str) -> &str
    ensures { result.now ≡ second_part target.now }
{
    before_slash(after_slash(after_slash(target)))
}

/// The fourth part of a path, between its fourth slash and the fifth or the end.
fn fourth_part(target: &str) -> &str
    ensures { result.now ≡ fourth_part target.now }
{
    before_slash(after_slash(after_slash(after_slash(after_slash(target)))))
}

/// The number of the account that a path names.
fn account_in(alloc: Global, target: &str) -> Result<AccountNumber, WireFault>
    ensures { Gives (λ a. a) result (account_in_path target.now) }
{
    let number = AccountNumber::new(alloc, second_part(target))?;
    number.ok_or(WireFault::Invalid(Avp::SubscriptionIdData))
}

/// The code of the voucher that a path names.
fn code_in(alloc: Global, target: &str) -> Result<VoucherCode, WireFault>
    ensures { Gives (λ c. c) result (code_in target.now) }
{
    let code = VoucherCode::new(alloc, second_part(target))?;
    code.ok_or(WireFault::Invalid(Avp::VoucherCode))
}

/// The month that a path names.
fn month_in(target: &str) -> Result<Month, WireFault>
    ensures { Says (λ m. m) result (month_in target.now) }
{
    Month::from_word(fourth_part(target)).ok_or(WireFault::Invalid(Avp::Month))
}

/// What a method asks of an account: GET its balance, PUT that it is opened.
fn account_command(method: &Method, account: AccountNumber) -> Command
    ensures { result ≡ account_command method.now account }
{
    if is_get(method) {
        Command::Balance(account)
    } else {
        Command::OpenAccount(account)
    }
}

/// The command that a method asks of the account in a path.
fn read_account(alloc: Global, method: &Method, target: &str) -> Result<Command, WireFault>
    ensures { Gives (λ c. c) result (account_asked method.now target.now) }
{
    let account = account_in(alloc, target)?;
    Ok(account_command(method, account))
}

/// The credit of the account in a path.
fn read_credits(
    alloc: Global,
    target: &str,
    body: &[u8],
    scratch: &mut Scratch,
) -> Result<Command, WireFault>
    ensures { Gives (λ c. c) result (credit_asked target.now body.now) }
{
    let account = account_in(alloc, target)?;
    Ok(Command::Credit(read_credit(alloc, account, body, scratch)?))
}

/// The allowance of the account in a path.
// rule: http-paths
fn read_allowance(
    alloc: Global,
    target: &str,
    body: &[u8],
    scratch: &mut Scratch,
) -> Result<Command, WireFault>
    ensures { Gives (λ c. c) result (allowance_asked target.now body.now) }
{
    let account = account_in(alloc, target)?;
    Ok(Command::Allow(read_allow(alloc, account, body, scratch)?))
}

/// The redemption of the voucher in a path.
// rule: http-paths
fn read_redemption(
    alloc: Global,
    target: &str,
    body: &[u8],
    scratch: &mut Scratch,
) -> Result<Command, WireFault>
    ensures { Gives (λ c. c) result (redemption_asked target.now body.now) }
{
    let code = code_in(alloc, target)?;
    Ok(Command::Redeem(read_redeem(alloc, code, body, scratch)?))
}

/// The statement that a path names, or its first fault: of the account, then of the month.
fn read_statement(alloc: Global, target: &str) -> Result<StatementAsked, WireFault>
    ensures { Gives (λ q. q) result (statement_in target.now) }
{
    let account = account_in(alloc, target)?;
    let month = month_in(target)?;
    Ok(StatementAsked { account, month })
}

/// A command that is read, or its fault.
fn told(read: Result<Command, WireFault>) -> HttpAsked
    ensures { (reading : Result Command WireFault) → Gives (λ c. c) read reading →
        IsAskingGiven (reads reading) result }
{
    match read {
        Ok(command) => HttpAsked::Does(command),
        Err(fault) => HttpAsked::Unread(fault),
    }
}

/// A statement that is asked for, or the fault of its path.
#[tactic(auto, using(crate::proofs::StatedLemmas::stated_is, crate::proofs::StatedLemmas::unstated_is))]
fn told_statement(read: Result<StatementAsked, WireFault>) -> HttpAsked
    ensures { (reading : Result StatementAsked WireFault) → Gives (λ q. q) read reading →
        IsAskingGiven (stated reading) result }
{
    match read {
        Ok(statement) => HttpAsked::States(statement),
        Err(fault) => HttpAsked::Unread(fault),
    }
}

/// What a request asks of a route that has its method: first the path is read, then the body.
fn asked_by(
    alloc: Global,
    route: Route,
    method: &Method,
    target: &str,
    body: &[u8],
    scratch: &mut Scratch,
) -> HttpAsked
    ensures { IsAskingGiven (asking_by route method.now target.now body.now) result }
{
    match route {
        Route::Ccr => told(read_request(alloc, body, scratch)),
        Route::Account => told(read_account(alloc, method, target)),
        Route::Statement => told_statement(read_statement(alloc, target)),
        Route::Credits => told(read_credits(alloc, target, body, scratch)),
        Route::Allowances => told(read_allowance(alloc, target, body, scratch)),
        Route::Redeem => told(read_redemption(alloc, target, body, scratch)),
        Route::Sweep => HttpAsked::Does(Command::Sweep),
    }
}

/// What a request asks by the table of routes. Its body is read by `scratch`, which may serve all
/// requests of a connection.
// rule: http-path
pub fn ask(
    alloc: Global,
    router: &Router<Route>,
    request: &HttpRequest,
    scratch: &mut Scratch,
) -> HttpAsked
    requires { router.now ≡ route_table }
    ensures { IsAskingGiven (asked_of (seen request.now)) result }
{
    let Some(route) = route_of(router, request.target.as_str()) else {
        return HttpAsked::Refused(HttpRefusal::NotFound);
    };
    if !route.serves(&request.method) {
        return HttpAsked::Refused(HttpRefusal::MethodNotAllowed);
    }
    asked_by(
        alloc,
        route,
        &request.method,
        request.target.as_str(),
        request.body.as_slice(),
        scratch,
    )
}
