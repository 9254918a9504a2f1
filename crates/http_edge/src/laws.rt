//! Laws of the definitions of a stream: it has one list of requests, and what is served of it is a
//! run of the machine.
ghost use Rattle.std.specs.Prelude.{◌≡◌, ℕ, Bool, List};
ghost use Rattle.machine.specs.State.{State};
ghost use Rattle.machine.specs.Retries.{Event, Life, Moment, states_after_a_stop, with_run};
ghost use Rattle.machine.specs.Runs as machine;
ghost use Rattle.http_edge.specs.Messages.{Requests, Sure};
ghost use Rattle.http_edge.specs.Replies.{AnswerValue};
ghost use Rattle.http_edge.specs.Requests.{MessageValue};
ghost use Rattle.http_edge.specs.Serving.{MayAnswerAll, after_a_stop_of_answers, replies_in, requests_in};

use machine::retry_law;

/// A stream has at most one list of requests, and one list of them is sure.
pub fn requests_law()
    ensures requests { (limit : ℕ) (bytes : List ℕ) (messages others : List MessageValue) → Requests limit bytes messages → Requests limit bytes others
        → messages ≡ others }
    ensures sure { (limit : ℕ) (bytes : List ℕ) (messages others : List MessageValue) → Sure limit bytes messages → Sure limit bytes others
        → messages ≡ others }
{}

/// The requests among messages that are served, with the replies to them, are a run of the machine:
/// it begins and ends in the same states, and a crash leaves the same. So a life of a desk goes on
/// with what is served, and the laws of lives hold of it.
pub fn run_law()
    ensures run { (store_may_refuse : Bool) (m n : State) (messages : List MessageValue) (answers : List AnswerValue)
        → MayAnswerAll store_may_refuse m messages answers n
        → machine.Run store_may_refuse m (requests_in messages) (replies_in messages answers) n }
    ensures left { (store_may_refuse : Bool) (m n : State) (states : List State) (messages : List MessageValue) (answers : List AnswerValue)
        → MayAnswerAll store_may_refuse m messages answers n
        → after_a_stop_of_answers m states messages answers ≡ machine.after_a_stop_of_run m states (requests_in messages) (replies_in messages answers) }
    ensures life { (store_may_refuse : Bool) (events : List Event) (t : Moment) (messages : List MessageValue) (answers : List AnswerValue) (n : State)
        → Life store_may_refuse events t → MayAnswerAll store_may_refuse t.now messages answers n
        → (u : Moment) × Life store_may_refuse (with_run (requests_in messages) (replies_in messages answers) events) u
        × (u.now ≡ n) × (states_after_a_stop u ≡ after_a_stop_of_answers t.now (states_after_a_stop t) messages answers) }
{
    retry_law();
}
