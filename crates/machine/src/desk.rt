//! The trait of what serves requests, with what each call promises of the states of the machine, so
//! that whatever serves streams is proved over every desk. The desks themselves are in the crate
//! `desk`. `specs/Runs` has the promises' words.
use crate::names::{Key, ProjectName};
use crate::reply::Reply;
use crate::request::{Command, Query};
use crate::upload::Upload;

/// What serves requests. It represents states of the abstract machine: a reply is the machine's,
/// and it then represents the machine's next state; or it is a refusal, S01 or S02, and nothing
/// changed.
pub trait Desk {
    ghost use Rattle.std.specs.Prelude.{◌≡◌, ℕ, Bool, true, List, [], ◌∷◌, ◌++◌};
    ghost use Rattle.machine.specs.State.{State};
    ghost use Rattle.machine.specs.Reply.{out_of_memory};
    ghost use Rattle.machine.specs.Requests as requests;
    ghost use Rattle.machine.specs.Runs.{KnowsReply, MayReply, moved, after_a_stop};
    ghost use Rattle.machine.specs.Uploads.{HasRead, command_of};

    /// The states that it represents.
    ghost stands: { Self → State → Type 0 };

    /// The lists of states of which a crash now leaves one.
    ghost may_leave: { Self → List State → Type 0 };

    /// Whether it keeps its state in a store, which may refuse.
    ghost store_may_refuse: { Bool };

    /// So far its store returned what was written to it. Of a desk of which this isn't true nothing
    /// is said.
    ghost is_reliable: { Self → Type 0 };

    /// Serves a command. The reply is made before the command has its effect.
    fn apply(&mut self, command: &Command<'_>) -> Reply
        ensures reliable { is_reliable self.new → is_reliable self.old }
        ensures reply { is_reliable self.new → (m : State) → stands self.old m
            → MayReply store_may_refuse m (requests.command (requests.command_value command.now)) result }
        ensures state { is_reliable self.new → (m : State) → stands self.old m
            → stands self.new (moved m (requests.command (requests.command_value command.now)) result) }
        ensures left { is_reliable self.new → (m : State) (states : List State) → stands self.old m → may_leave self.old states
            → may_leave self.new (after_a_stop m states (requests.command (requests.command_value command.now)) result) };

    /// The reply to each command of this project with this key, where that is known before the
    /// command's body has come: the kept one, or S01 or S02. None where the key isn't kept.
    fn kept_reply(&mut self, project: &ProjectName, key: &Key) -> Option<Reply>
        ensures reliable { is_reliable self.new → is_reliable self.old }
        ensures reply { is_reliable self.new → (m : State) → stands self.old m
            → KnowsReply store_may_refuse m project.now key.now result }
        ensures state { is_reliable self.new → (m : State) → stands self.old m → stands self.new m }
        ensures left { is_reliable self.new → (m : State) (states : List State) → stands self.old m → may_leave self.old states → may_leave self.new states };

    /// Serves the command that an upload is, with each body that it represents. Where memory was
    /// refused for it, that is the reply.
    fn finish_upload(&mut self, upload: Upload) -> Reply
        ensures reliable { is_reliable self.new → is_reliable self.old }
        ensures reply { is_reliable self.new → (m : State) (body : List ℕ) → stands self.old m → HasRead upload.body body
            → MayReply store_may_refuse m (requests.command (command_of upload body)) result }
        ensures state { is_reliable self.new → (m : State) (body : List ℕ) → stands self.old m → HasRead upload.body body
            → stands self.new (moved m (requests.command (command_of upload body)) result) }
        ensures left { is_reliable self.new → (m : State) (states : List State) (body : List ℕ) → stands self.old m → may_leave self.old states
            → HasRead upload.body body → may_leave self.new (after_a_stop m states (requests.command (command_of upload body)) result) }
        ensures memory { upload.body.is_out_of_memory ≡ true → result ≡ out_of_memory };

    /// Answers a query.
    fn ask(&mut self, query: &Query) -> Reply
        ensures reliable { is_reliable self.new → is_reliable self.old }
        ensures reply { is_reliable self.new → (m : State) → stands self.old m
            → MayReply store_may_refuse m (requests.query (requests.query_value query.now)) result }
        ensures state { is_reliable self.new → (m : State) → stands self.old m → stands self.new m }
        ensures left { is_reliable self.new → (m : State) (states : List State) → stands self.old m → may_leave self.old states → may_leave self.new states };

    /// A crash leaves one of these states, so it leaves one of these and another.
    ghost weaker: { (desk : Self) (states : List State) (n : State) → may_leave desk states → may_leave desk (states ++ n ∷ []) };
}
