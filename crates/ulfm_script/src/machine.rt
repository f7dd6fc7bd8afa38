//! What is promised by whatever answers the calls of a script: each reply is one that the sequential object gives.
ghost use Rattle.std.specs.Prelude.{◌≡◌, IfOk};
ghost use Rattle.ulfm_laws.specs.declared.flag_and.FlagAnd.{FlagAnd};
ghost use Rattle.ulfm_model.specs.{Answers.{traits_of}, Runs.{State, new_state}, Words.{MayOpen}};
ghost use Rattle.ulfm_script.specs.{Runs.{Steps, reply_group}, Spelling.{IsSpelled}};

use std::alloc::{AllocError, Allocator};
use ulfm_laws::FlagAnd;
use ulfm_model::{Call, Limits, Reply};

/// Whatever answers the calls of a script, one after another, as the sequential object does.
pub trait Machine<A: Allocator>: Drop {
    /// The state of the sequential object that it stands for.
    ghost state: { Self → State FlagAnd };

    /// A machine to which nothing has happened. Only memory can be refused.
    fn open(alloc: A, limits: Limits) -> Result<Self, AllocError>
        requires { MayOpen limits }
        ensures { IfOk result (λ machine. state machine ≡ new_state limits) };

    /// The reply to a call that a script can ask for. Where it is about a group, a communicator's failed group or the members
    /// of a new one, the vector has that group afterwards, in order; else it is empty. After an error the machine isn't used
    /// again.
    fn apply(
        &mut self,
        call: &Call<FlagAnd>,
        group: &mut Vec<u16, A>,
    ) -> Result<Reply<FlagAnd>, AllocError>
        requires { IsSpelled call.now }
        ensures steps { IfOk result (λ reply. Steps (state self.old) call.now reply (state self.new)) }
        ensures group { IfOk result (λ reply. group.new.items ≡ reply_group (state self.new) (traits_of call.now).comm reply) };
}
