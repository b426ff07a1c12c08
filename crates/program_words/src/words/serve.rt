//! The words after `serve`.
ghost use Rattle.std.specs.Prelude.{◌≡◌, true, IfSome, map, string_bytes};
ghost use Rattle.std.specs.Net.Socket.{socket_ip, socket_port};
ghost use Rattle.program_words.specs.Words.{GivesAddress, GivesStore, IsPlanInRange, WritesAddress};
ghost use Rattle.program_words.specs.Words.{HasIntegerOrUsual, may_be_endless, usual_sessions, usual_with_log};
ghost use Rattle.program_words.specs.inner.WordValues.{IsPlanOf, IsServeOf};

use crate::address::here;
use crate::options::{has_word, parse_count, parse_number, parse_optional, value};
use crate::plan::Plan;
use sb_calls::{REPLICAS, WORKERS};
use std::net::{IpAddr, SocketAddr};

/// How a bank is served, and where.
#[derive(Clone, Copy, Debug, PartialEq, Eq)]
pub struct ServeWords<'a> {
    /// The port where the server listens; 0 is any free one.
    pub port: u16,
    /// How the bank is served.
    pub plan: Plan,
    /// The folder where node 0 keeps its checkpoint, if the plan saves. Else nothing is there.
    pub store: &'a str,
    /// The folder where the log is kept, if it is.
    pub log: Option<&'a str>,
}

// How many sessions a bank that is served without end has: more than any machine can.
const ENDLESS: usize = usize::MAX;

// How many clients a bank with a log serves at once, and how many seconds each may be silent, unless the
// words say it: so none holds up the others.
const CLIENTS_OF_LOG: usize = 100;

const PATIENCE_OF_LOG: usize = 60;

/// How a bank is served, by the words after `serve`.
pub(super) fn serve_words<'a>(options: &'a [String]) -> Option<ServeWords<'a>>
    ensures { IfSome result (λ serve. IsServeOf options.entry.now serve) }
{
    let address = address_of(options)?;
    let (saves, store) = store_of(options);
    let log = value(options, "--log");
    let plan = plan_of(options, address.ip(), saves, log.is_some())?;
    Some(ServeWords {
        port: address.port(),
        plan,
        store,
        log,
    })
}

// Where the server listens: one of the two options says it.
fn address_of(options: &[String]) -> Option<SocketAddr>
    ensures { IfSome result
        (λ address. GivesAddress (socket_ip address) (socket_port address) (map string_bytes options.now)) }
{
    match value(options, "--listen") {
        Some(text) => {
            if value(options, "--port").is_some() {
                return None;
            }
            parse_address(text)
        }
        None => {
            let port = parse_number(options, "--port")?;
            Some(here(u16::try_from(port).ok()?))
        }
    }
}

// The address that a text writes, without a scope: that is no part of a plan.
fn parse_address(text: &str) -> Option<SocketAddr>
    ensures { IfSome result (λ address. WritesAddress text.now (socket_ip address) (socket_port address)) }
{
    let address = text.parse::<SocketAddr>().ok()?;
    match address {
        SocketAddr::V6(address) if address.scope_id() != 0 => None,
        _ => Some(address),
    }
}

// Whether the bank saves, and its store's folder.
fn store_of<'a>(options: &'a [String]) -> (bool, &'a str)
    ensures { GivesStore result.0 result.1.now (map string_bytes options.entry.now) }
{
    match value(options, "--store") {
        Some(folder) => (true, folder),
        None => (false, "."),
    }
}

// The plan that these words give, for a bank at this host that saves or doesn't, and that keeps a log or
// doesn't.
fn plan_of(options: &[String], host: IpAddr, saves: bool, logs: bool) -> Option<Plan>
    ensures { IfSome result (λ plan. IsPlanOf options.now host saves logs plan) }
{
    let clients = parse_or_usual(options, "--clients", logs, CLIENTS_OF_LOG)?;
    let usual = usual_sessions(may_be_endless(logs, clients));
    let plan = Plan {
        host,
        sessions: parse_count(options, "--sessions", usual)?,
        clients,
        nodes: parse_count(options, "--nodes", 1)?,
        workers: parse_count(options, "--workers", 0)?,
        saves,
        patience: parse_or_usual(options, "--patience", logs, PATIENCE_OF_LOG)?,
        is_quiet: has_word(options, "--quiet"),
    };
    if is_in_range(&plan, logs) {
        Some(plan)
    } else {
        None
    }
}

// The number that an option has, or if it has none this one of a bank that keeps a log. `None` if its
// value isn't a number.
fn parse_or_usual(
    options: &[String],
    option: &str,
    logs: bool,
    number: usize,
) -> Option<Option<usize>>
    ensures { IfSome result (λ given. HasIntegerOrUsual option.now (usual_with_log logs number) given
        (map string_bytes options.now)) }
{
    match parse_optional(options, option)? {
        Some(given) => Some(Some(given)),
        None if logs => Some(Some(number)),
        None => Some(None),
    }
}

// Whether a bank that keeps a log or doesn't, with this number of clients at once, may be served without
// end.
fn may_be_endless(logs: bool, clients: Option<usize>) -> bool
    ensures { result ≡ may_be_endless logs clients }
{
    logs || clients.is_some()
}

// How many sessions there are, unless the words say it.
fn usual_sessions(endless: bool) -> usize
    ensures { result ≡ usual_sessions endless }
{
    if endless { ENDLESS } else { 1 }
}

// Whether a plan's numbers are within their limits.
fn is_in_range(plan: &Plan, logs: bool) -> bool
    ensures { result ≡ true → IsPlanInRange logs plan.now }
{
    let is_patient = match plan.patience {
        Some(seconds) => (1..=86_400).contains(&seconds),
        None => true,
    };
    let are_few = match plan.clients {
        Some(count) => (1..=1_000).contains(&count),
        None => true,
    };
    is_patient
        && are_few
        && 1 <= plan.sessions
        && (may_be_endless(logs, plan.clients) || plan.sessions <= 1_000)
        && (1..=REPLICAS).contains(&plan.nodes)
        && plan.workers <= WORKERS
}
