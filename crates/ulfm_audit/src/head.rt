//! The head of a stored log: the limits of its world.
ghost use Rattle.std.specs.Prelude.{◌≡◌, ◌≢◌, MatchOption};
ghost use Rattle.std.specs.Bool.{Decides};
ghost use Rattle.ulfm_model.specs.declared.limits.Limits.{Limits};
ghost use Rattle.ulfm_model.specs.Words.{MayOpen};
ghost use Rattle.ulfm_audit.specs.Logs.{IsHeadOf, head_bytes};

use ulfm_model::limits::Limits;

/// How many bytes a head has.
pub(crate) const HEAD_BYTES: usize = 24;

/// The head of a log of a world of these limits.
fn head_of(limits: Limits) -> [u8; HEAD_BYTES]
    ensures { result ≡ head_bytes limits }
{
    let ranks = limits.ranks.to_le_bytes();
    let comms = limits.comms.to_le_bytes();
    let rounds = limits.rounds.to_le_bytes();
    [
        b'u', b'l', b'f', b'm', b' ', b'l', b'o', b'g', 1, 0, ranks[0], ranks[1], comms[0],
        comms[1], rounds[0], rounds[1], 0, 0, 0, 0, 0, 0, 0, 0,
    ]
}

/// The numbers that stand where a head has its limits; whether it is one isn't asked.
fn limits_in(bytes: &[u8; HEAD_BYTES]) -> Limits
    ensures { (limits : Limits) → bytes.now ≡ head_bytes limits → result ≡ limits }
{
    Limits {
        ranks: u16::from_le_bytes([bytes[10], bytes[11]]),
        comms: u16::from_le_bytes([bytes[12], bytes[13]]),
        rounds: u16::from_le_bytes([bytes[14], bytes[15]]),
    }
}

/// Whether two strings of bytes are one.
fn are_same(xs: &[u8], ys: &[u8]) -> bool
    ensures { Decides result (xs.now ≡ ys.now) }
{
    xs == ys
}

/// Whether a world of these limits may be opened.
fn may_open(limits: Limits) -> bool
    ensures { Decides result (MayOpen limits) }
{
    limits.check().is_ok()
}

/// The limits of the world whose log has this head; none where it is no head, or no world of these limits may be opened.
pub(crate) fn read_head(bytes: &[u8; HEAD_BYTES]) -> Option<Limits>
    ensures { MatchOption result ((limits : Limits) → MayOpen limits → bytes.now ≢ head_bytes limits) (IsHeadOf bytes.now) }
{
    let limits = limits_in(bytes);
    if !may_open(limits) {
        return None;
    }
    if !are_same(&head_of(limits), bytes) {
        return None;
    }
    Some(limits)
}
