// What may be asked of the agreement object: the calls of ranks, a declaration, and the requests that some calls open.
ghost use Rattle.std.specs.Prelude.{◌≡◌};
ghost use Rattle.ulfm_model.specs.Answers.{rank_of, traits_of};

/// What is asked of the object. Each call but `Fail` is that of a rank, on a communicator that it holds.
#[derive(Clone, Copy, Debug, PartialEq, Eq)]
pub enum Call<P> {
    /// The outside declares a rank failed.
    Fail { rank: u16 },
    /// The failed group that is known (ULFM: Communicator Functions, `MPI_COMM_GET_FAILED`).
    GetFailed { rank: u16, comm: u16 },
    /// The first `count` known failures are acknowledged (ULFM: Communicator Functions, `MPI_COMM_ACK_FAILED`).
    Ack { rank: u16, comm: u16, count: u16 },
    /// All known failures are acknowledged: the call of the interface of 2013 (`MPIX_Comm_failure_ack`).
    FailureAck { rank: u16, comm: u16 },
    /// The failures that are acknowledged: the call of the interface of 2013 (`MPIX_Comm_failure_get_acked`).
    FailureGetAcked { rank: u16, comm: u16 },
    /// An agree is started (ULFM: Communicator Functions, `MPI_COMM_IAGREE`).
    Agree { rank: u16, comm: u16, value: P },
    /// A shrink is started (ULFM: Communicator Functions, `MPI_COMM_ISHRINK`).
    Shrink { rank: u16, comm: u16 },
    /// A barrier is started.
    Barrier { rank: u16, comm: u16 },
    /// The reply to the open request is asked for.
    Poll { rank: u16, comm: u16 },
    /// The communicator is revoked (ULFM: Communicator Functions, `MPI_COMM_REVOKE`).
    Revoke { rank: u16, comm: u16 },
    /// Whether the communicator is revoked (ULFM: Communicator Functions, `MPI_COMM_IS_REVOKED`).
    IsRevoked { rank: u16, comm: u16 },
    /// The communicator is given back.
    Free { rank: u16, comm: u16 },
}

/// How many failures an acknowledgement of all names: no world has more ranks.
pub const MOST_FAILURES: u16 = 1024;

/// What a rank has started on a communicator and not yet been answered, with its round.
#[derive(Clone, Copy, Debug, PartialEq, Eq)]
pub enum Request {
    /// An agreement on flags, in this round.
    Agree { round: u16 },
    /// A shrink, in this round of agreement.
    Shrink { round: u16 },
    /// A barrier, in this round of barriers.
    Barrier { round: u16 },
}

/// The rank that a call names, and its communicator. A declaration has none, and 0 here.
#[inline]
fn named_by<P: Copy>(asked: &Call<P>) -> (u16, u16)
    ensures rank { result.0 ≡ rank_of asked.now }
    ensures comm { result.1 ≡ (traits_of asked.now).comm }
{
    match *asked {
        Call::Fail { rank } => (rank, 0),
        Call::GetFailed { rank, comm }
        | Call::Ack { rank, comm, .. }
        | Call::FailureAck { rank, comm }
        | Call::FailureGetAcked { rank, comm }
        | Call::Agree { rank, comm, .. }
        | Call::Shrink { rank, comm }
        | Call::Barrier { rank, comm }
        | Call::Poll { rank, comm }
        | Call::Revoke { rank, comm }
        | Call::IsRevoked { rank, comm }
        | Call::Free { rank, comm } => (rank, comm),
    }
}

/// The rank that a call names: its caller, or whom the outside declares failed.
pub fn rank_of<P: Copy>(asked: &Call<P>) -> u16
    ensures { result ≡ rank_of asked.now }
{
    named_by(asked).0
}

/// The communicator of a call of a rank. A declaration has none, and 0 here.
pub fn comm_of<P: Copy>(asked: &Call<P>) -> u16
    ensures { result ≡ (traits_of asked.now).comm }
{
    named_by(asked).1
}
