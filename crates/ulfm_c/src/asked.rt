// What is asked of a replica's rank.
ghost use Rattle.std.specs.Prelude.{◌≡◌};
ghost use Rattle.ulfm_c.specs.Replicas.{call_of};
ghost use Rattle.ulfm_model.specs.Answers.{traits_of};
ghost use Rattle.ulfm_model.specs.declared.event.Caller.TheVariants.{Rank as OfRank};

use ulfm_laws::FlagAnd;
use ulfm_model::Call;

/// A call but for its rank, which the replica knows. An agree isn't among them, since it has a flag of C's.
#[derive(Clone, Copy)]
pub enum Asked {
    /// A shrink of the communicator of this number.
    Shrink { comm: u16 },
    /// A barrier on it.
    Barrier { comm: u16 },
    /// A poll of what is open on it.
    Poll { comm: u16 },
    /// Its revocation.
    Revoke { comm: u16 },
    /// Whether it is revoked.
    IsRevoked { comm: u16 },
    /// Who of its members has failed.
    GetFailed { comm: u16 },
    /// Its first so many failures are acknowledged.
    Ack { comm: u16, count: u16 },
    /// All its failures are acknowledged.
    FailureAck { comm: u16 },
    /// Who of its members is acknowledged.
    FailureGetAcked { comm: u16 },
    /// It is given back.
    Free { comm: u16 },
}

impl Asked {
    // That call of this rank.
    pub(crate) fn by(self, rank: u16) -> Call<FlagAnd>
        ensures call { result ≡ call_of self rank }
        ensures mine { (traits_of result).by ≡ OfRank rank }
    {
        match self {
            Asked::Shrink { comm } => Call::Shrink { rank, comm },
            Asked::Barrier { comm } => Call::Barrier { rank, comm },
            Asked::Poll { comm } => Call::Poll { rank, comm },
            Asked::Revoke { comm } => Call::Revoke { rank, comm },
            Asked::IsRevoked { comm } => Call::IsRevoked { rank, comm },
            Asked::GetFailed { comm } => Call::GetFailed { rank, comm },
            Asked::Ack { comm, count } => Call::Ack { rank, comm, count },
            Asked::FailureAck { comm } => Call::FailureAck { rank, comm },
            Asked::FailureGetAcked { comm } => Call::FailureGetAcked { rank, comm },
            Asked::Free { comm } => Call::Free { rank, comm },
        }
    }
}
