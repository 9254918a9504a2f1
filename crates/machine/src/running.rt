//! Runs: requests that are served one after another by any desk. Tests alone call it; the program
//! serves streams (the crate `http_edge`). `specs/Runs`.
ghost use Rattle.std.specs.Prelude.{◌≡◌, List, IfOk, OnErr};
ghost use Rattle.machine.specs.State.{State};
ghost use Rattle.machine.specs.Requests.{request_value, request_values};
ghost use Rattle.machine.specs.Runs.{MayReply, moved, Run, after_a_stop, after_a_stop_of_run};

use crate::desk::Desk;
use crate::reply::Reply;
use crate::request::Request;
use std::alloc::{AllocError, Global};
use streams::OUT_OF_MEMORY;
use thiserror::Error;

/// Why a run served no request.
#[derive(Clone, Copy, Debug, PartialEq, Eq, Error)]
pub enum RunFault {
    /// Memory for the replies was refused.
    #[error("{}", OUT_OF_MEMORY)]
    Memory,
}

impl From<AllocError> for RunFault {
    ghost use Rattle.machine.specs.declared.running.RunFault.TheVariants.{Memory};

    ghost from_gives = { λ _ fault. fault ≡ Memory };

    fn from(_: AllocError) -> RunFault {
        RunFault::Memory
    }
}

/// Serves one request.
fn serve<D: Desk>(desk: &mut D, request: &Request<'_>) -> Reply
    ensures reliable { D.is_reliable desk.new → D.is_reliable desk.old }
    ensures reply { D.is_reliable desk.new → (m : State) → D.stands desk.old m → MayReply D.store_may_refuse m (request_value request.now) result }
    ensures state { D.is_reliable desk.new → (m : State) → D.stands desk.old m → D.stands desk.new (moved m (request_value request.now) result) }
    ensures left { D.is_reliable desk.new → (m : State) (states : List State) → D.stands desk.old m → D.may_leave desk.old states
        → D.may_leave desk.new (after_a_stop m states (request_value request.now) result) }
{
    match request {
        Request::Command(command) => desk.apply(command),
        Request::Query(query) => desk.ask(query),
    }
}

/// Serves requests in order, each from the state that the one before left. Room for all replies is
/// made first: where that is refused, no request was served.
pub fn run<D: Desk>(
    alloc: Global,
    desk: &mut D,
    requests: &[Request<'_>],
) -> Result<Vec<Reply>, RunFault>
    ensures reliable { D.is_reliable desk.new → D.is_reliable desk.old }
    ensures run { IfOk result (λ replies. D.is_reliable desk.new → (m : State) → D.stands desk.old m
        → (n : State) × Run D.store_may_refuse m (request_values requests.now) replies.items n × D.stands desk.new n) }
    ensures left { IfOk result (λ replies. D.is_reliable desk.new → (m : State) (states : List State) → D.stands desk.old m → D.may_leave desk.old states
        → D.may_leave desk.new (after_a_stop_of_run m states (request_values requests.now) replies.items)) }
    ensures unserved { OnErr result (desk.new ≡ desk.old) }
{
    let mut replies = Vec::with_capacity(alloc, requests.len())?;
    for request in requests {
        let reply = serve(desk, request);
        replies.push_reserved(reply);
    }
    Ok(replies)
}
