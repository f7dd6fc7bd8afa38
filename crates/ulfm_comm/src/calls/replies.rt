// What a call's reply is to its caller.
ghost use Rattle.std.specs.Prelude.{◌≡◌, ◌⊎◌};
ghost use Rattle.ulfm_model.specs.declared.reply.Reply.TheVariants.{Started, FailedGroup, Acked, Freed, Refused, Standing};
ghost use Rattle.ulfm_comm.specs.Calls.{reply_of};
ghost use Rattle.ulfm_comm.specs.Polls.{polled};
ghost use Rattle.ulfm_comm.specs.Replies.{IsOfKind, Kind};
ghost use Rattle.ulfm_comm.specs.Revokes.{revoked};

use crate::calls::polled::Polled;
use ulfm_model::refusal::Refusal;
use ulfm_model::reply::Reply;

// The refusal that a reply is, where it isn't its call's answer.
fn refusal_in<P>(reply: Reply<P>) -> Refusal
    requires { (refusal : Refusal) × (reply ≡ Refused refusal) }
    ensures { reply ≡ Refused result }
{
    match reply {
        Reply::Refused(refusal) => refusal,
        // A call's reply is its own answer or a refusal, as its caller says.
        _ => unreachable!(),
    }
}

// The answer that a reply of such a form is; any other reply is a refusal.
macro_rules! answer {
    ($reply:ident, $($form:pat => $told:expr),+) => {
        match $reply {
            $($form => Ok($told),)+
            _ => Err(refusal_in($reply)),
        }
    };
}

// That of a start.
pub(crate) fn started<P>(reply: Reply<P>) -> Result<(), Refusal>
    requires { IsOfKind Kind.Starts reply }
    ensures { reply_of (λ _. Started) result ≡ reply }
{
    answer!(reply, Reply::Started => ())
}

// That of a query of the failed group: how many ranks it has.
pub(crate) fn counted<P>(reply: Reply<P>) -> Result<u16, Refusal>
    requires { IsOfKind Kind.Counts reply }
    ensures { reply_of FailedGroup result ≡ reply }
{
    answer!(reply, Reply::FailedGroup { count } => count)
}

// That of an acknowledgement: how many failures are acknowledged now.
pub(crate) fn acked<P>(reply: Reply<P>) -> Result<u16, Refusal>
    requires { IsOfKind Kind.Acknowledges reply }
    ensures { reply_of Acked result ≡ reply }
{
    answer!(reply, Reply::Acked { count } => count)
}

// That of a communicator given back.
pub(crate) fn freed<P>(reply: Reply<P>) -> Result<(), Refusal>
    requires { IsOfKind Kind.Frees reply }
    ensures { reply_of (λ _. Freed) result ≡ reply }
{
    answer!(reply, Reply::Freed => ())
}

// Whether a communicator was revoked: by this call, or at all.
pub(crate) fn told<P>(reply: Reply<P>) -> Result<bool, Refusal>
    requires { IsOfKind Kind.Revokes reply ⊎ IsOfKind Kind.Asks reply }
    ensures revokes { IsOfKind Kind.Revokes reply → reply_of revoked result ≡ reply }
    ensures asks { IsOfKind Kind.Asks reply → reply_of Standing result ≡ reply }
{
    answer!(reply, Reply::Revoked => true, Reply::AlreadyRevoked => false, Reply::Standing { revoked } => revoked)
}

// That of a poll.
pub(crate) fn polled<P>(reply: Reply<P>) -> Result<Polled<P>, Refusal>
    requires { IsOfKind Kind.Polls reply }
    ensures { reply_of polled result ≡ reply }
{
    answer!(
        reply,
        Reply::Pending => Polled::Pending,
        Reply::Agreed { value, failed, raised } => Polled::Agreed { value, failed, raised },
        Reply::Shrunk { comm, context, size } => Polled::Shrunk { comm, context, size },
        Reply::Done => Polled::Done
    )
}
