//! Laws of the machine's definitions, which mention no program: what a body is judged to be, that a
//! query has one reply, and that commands may be sent again.
ghost use Rattle.std.specs.Prelude.{◌≡◌, ◌↔◌, ◌⊎◌, ℕ, Bool, true, List, Contains, None, Some, Ok, Err, map};
ghost use Rattle.dump.specs.declared.fault.LineFault as dumps;
ghost use Rattle.dump.specs.Fault.{IsFault};
ghost use Rattle.dump.specs.Lines.{dump_of};
ghost use Rattle.dump.specs.Progress.{DumpValue};
ghost use Rattle.lsif.specs.declared.profile.Profile.{Profile};
ghost use Rattle.tags.specs.Judging.{HasTags, HasFault};
ghost use Rattle.tags.specs.Values.{TagValue};
ghost use Rattle.tags.specs.declared.code.LineFault as tags;
ghost use Rattle.machine.specs.Answers.{Answers};
ghost use Rattle.machine.specs.Moments.{IsIndex};
ghost use Rattle.machine.specs.Judging.{judged_dump, judged_tags};
ghost use Rattle.machine.specs.Machine.{reply_of};
ghost use Rattle.machine.specs.State.{Accepted, State};
ghost use Rattle.machine.specs.Reply.{ReplyValue, is_refusal, reply_status};
ghost use Rattle.machine.specs.Requests.{CommandValue, QueryValue, RequestValue, command};
ghost use Rattle.machine.specs.Retries.{Event, sent, IsPlain, Life, Moment, once, plain_kept, states_after_a_stop, with_run};
ghost use Rattle.machine.specs.Runs.{MayReply, Run, after_a_stop_of_run};

use dump::{fault_law, listing_law, pick_law};
use tags::text_law;

/// The verdict on a body is the fault of the dump that it is by the profile, or of the tags file;
/// and where it has none, the dump or the tags.
pub fn judgement_law()
    ensures dump_fault { (profile : Profile) (body : List ℕ) (f : dumps.LineFault)
        → (judged_dump profile body ≡ Err f) ↔ IsFault (dump_of profile body) (Some f) }
    ensures dump { (profile : Profile) (body : List ℕ) (dump : DumpValue)
        → (judged_dump profile body ≡ Ok dump) ↔ ((dump.profile ≡ profile) × IsFault (dump_of profile body) None
        × (dump_of profile body ≡ map Ok dump.elements)) }
    ensures tags_fault { (body : List ℕ) (f : tags.LineFault) → (judged_tags body ≡ Err f) ↔ HasFault body f }
    ensures tags { (body : List ℕ) (tags : List TagValue) → (judged_tags body ≡ Ok tags) ↔ HasTags body tags }
{
    fault_law();
    text_law();
}

/// From each state a query has at most one reply.
pub fn answer_law()
    ensures { (m : State) (query : QueryValue) (r s : ReplyValue) → Answers m query r → Answers m query s → r ≡ s }
{
    listing_law();
    pick_law();
}

/// In every life each dump has no fault, the tags of a project are those of a text, and finitely
/// many projects have a part. From each such state each query has a reply.
pub fn reply_law()
    ensures index { (store_may_refuse : Bool) (events : List Event) (t : Moment) → Life store_may_refuse events t → IsIndex t.now }
    ensures reply { (m : State) → IsIndex m → (query : QueryValue) → (r : ReplyValue) × Answers m query r }
{
    judgement_law();
}

/// In every life the state is what plain writing leaves of the commands that count, each once. A
/// command whose key one of these has is refused, or has the reply that was made for that one. Say
/// that a command was accepted; only then does its reply have the status 200. Then each later one
/// of its project and key is refused by S01 or S02, or has that very reply, whatever crashes there
/// were. A run goes on with a life, and the states that the run may leave are those that a crash of
/// the life may leave. So this holds of each desk.
pub fn retry_law()
    ensures parts { (store_may_refuse : Bool) (events : List Event) (t : Moment) → Life store_may_refuse events t → IsPlain t }
    ensures again { (store_may_refuse : Bool) (events : List Event) (t : Moment) (c : CommandValue) (r : ReplyValue) (kept : Accepted)
        → Life store_may_refuse events t → MayReply store_may_refuse t.now (command c) r
        → plain_kept (once t.counted) c.project c.key ≡ Some kept → (is_refusal r ≡ true) ⊎ (r ≡ reply_of kept) }
    ensures first { (store_may_refuse : Bool) (events : List Event) (t : Moment) (c later : CommandValue) (r reply : ReplyValue)
        → Life store_may_refuse events t → Contains events (sent c r) → reply_status r ≡ 200
        → later.project ≡ c.project → later.key ≡ c.key → MayReply store_may_refuse t.now (command later) reply
        → (is_refusal reply ≡ true) ⊎ (reply ≡ r) }
    ensures runs { (store_may_refuse : Bool) (events : List Event) (t : Moment) (requests : List RequestValue) (replies : List ReplyValue) (n : State)
        → Life store_may_refuse events t → Run store_may_refuse t.now requests replies n
        → (u : Moment) × Life store_may_refuse (with_run requests replies events) u × (u.now ≡ n)
        × (states_after_a_stop u ≡ after_a_stop_of_run t.now (states_after_a_stop t) requests replies) }
{}
