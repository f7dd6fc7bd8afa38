//! An entry as 24 bytes, as logs store it, and back. All numbers are little-endian; what a kind of entry doesn't use is 0.
//!
//! | Offset | Bytes | Number |
//! |---|---|---|
//! | 0 | 1 | the kind: 1 a declared failure, 2 an agree's contribution, 3 a shrink's contribution, 4 a mark, 5 an arrival, 6 a revocation, 7 a communicator made |
//! | 1 | 1 | in whose name: 0 the outside's, 1 a rank's |
//! | 2 | 2 | that rank |
//! | 4 | 2 | the communicator; of kind 7 the new one |
//! | 6 | 2 | the round |
//! | 8 | 2 | the rank that is declared, contributes, is marked or arrives; of kind 7 the parent communicator |
//! | 10 | 2 | known failures (kinds 2, 3 and 4) |
//! | 12 | 2 | acknowledged failures (kinds 2 and 3) |
//! | 14 | 2 | 0 |
//! | 16 | 8 | the packed flag (kind 2), or the bits of the mask of free context ids (kind 3) |
ghost use Rattle.std.specs.Prelude.{◌≡◌, ◌≢◌, ◌<◌, ◌^◌, MatchOption, Some};
ghost use Rattle.std.specs.Bool.{Decides};
ghost use Rattle.ulfm_laws.specs.Ranges.{payload_bits};
ghost use Rattle.ulfm_model.specs.declared.{contribution.Contribution.{Contribution}, contribution.MarkCount.{MarkCount}, contribution.Offer.{Offer}, event.Caller.{Caller}, event.Entry.{Entry}, event.Event.{Event}};
ghost use Rattle.ulfm_replica.specs.Wire.{IsReadAs, blank, bytes_from, entry_bytes, fields_by, fields_of, kind_of, named_of, number_of, payload_of};
ghost use Rattle.ulfm_replica.specs.declared.wire.Fields.{Fields};

use ulfm_laws::meld::Packed;
use ulfm_laws::summary::{Acked, CtxMask, Known};
use ulfm_model::contribution::{Contribution, MarkCount, Offer};
use ulfm_model::event::{Caller, Entry, Event};

/// How many bytes an entry has.
pub const ENTRY_BYTES: usize = 24;

/// The numbers that an entry's bytes tell.
#[derive(Clone, Copy)]
pub(crate) struct Fields {
    /// What happened, 1 to 7.
    pub kind: u8,
    /// Whether it came in a rank's name: 1 if so, else 0.
    pub named: u8,
    /// That rank's number.
    pub by: u16,
    /// The communicator's number.
    pub comm: u16,
    /// The round's number.
    pub round: u16,
    /// The number of the rank that it is about, or of the parent communicator.
    pub rank: u16,
    /// How many failures are known.
    pub known: u16,
    /// How many of them are acknowledged.
    pub acked: u16,
    /// The packed flag, or the bits of the mask.
    pub payload: u64,
}

// The mask of these bits.
fn mask_of(bits: u64) -> CtxMask
    ensures { result.bits ≡ bits }
{
    CtxMask { bits }
}

impl Fields {
    // Those of a kind, in a caller's name, with these numbers and no further ones.
    fn numbered(kind: u8, by: Caller, comm: u16, round: u16, rank: u16) -> Fields
        ensures { result ≡ record (blank kind by) { comm = comm; round = round; rank = rank } }
    {
        let (named, by) = match by {
            Caller::Outside => (0, 0),
            Caller::Rank(rank) => (1, rank),
        };
        Fields {
            kind,
            named,
            by,
            comm,
            round,
            rank,
            known: 0,
            acked: 0,
            payload: 0,
        }
    }

    // Those of a contribution to a round, in a caller's name.
    fn contributed<P: Packed>(
        by: Caller,
        comm: u16,
        round: u16,
        rank: u16,
        given: &Contribution<P>,
    ) -> Fields
        ensures { result ≡ fields_by P.pack by (Event.Settle comm round rank given.now) }
    {
        let (kind, payload) = match given.offer {
            Offer::Flag(flag) => (2, flag.pack()),
            Offer::Ctx(mask) => (3, mask.bits),
        };
        Fields {
            known: given.known.count,
            acked: given.acked.count,
            payload,
            ..Fields::numbered(kind, by, comm, round, rank)
        }
    }

    // Those of an entry.
    fn of<P: Packed>(entry: &Entry<P>) -> Fields
        ensures { result ≡ fields_of P.pack entry.now }
    {
        let by = entry.by;
        match entry.event {
            Event::Fail { rank } => Fields::numbered(1, by, 0, 0, rank),
            Event::Settle {
                comm,
                round,
                rank,
                given,
            } => Fields::contributed(by, comm, round, rank, &given),
            Event::Mark {
                comm,
                round,
                rank,
                known,
            } => Fields {
                known: known.known.count,
                ..Fields::numbered(4, by, comm, round, rank)
            },
            Event::Arrive { comm, round, rank } => Fields::numbered(5, by, comm, round, rank),
            Event::Revoke { comm } => Fields::numbered(6, by, comm, 0, 0),
            Event::Spawn {
                comm,
                parent,
                round,
            } => Fields::numbered(7, by, comm, round, parent),
        }
    }

    // Their bytes.
    fn bytes(&self) -> [u8; ENTRY_BYTES]
        ensures { result ≡ bytes_from self.now }
    {
        let by = self.by.to_le_bytes();
        let comm = self.comm.to_le_bytes();
        let round = self.round.to_le_bytes();
        let rank = self.rank.to_le_bytes();
        let known = self.known.to_le_bytes();
        let acked = self.acked.to_le_bytes();
        let [p0, p1, p2, p3, p4, p5, p6, p7] = self.payload.to_le_bytes();
        [
            self.kind, self.named, by[0], by[1], comm[0], comm[1], round[0], round[1], rank[0],
            rank[1], known[0], known[1], acked[0], acked[1], 0, 0, p0, p1, p2, p3, p4, p5, p6, p7,
        ]
    }

    // The numbers that stand in bytes; whether all others are 0 isn't asked.
    fn read(bytes: &[u8; ENTRY_BYTES]) -> Fields
        ensures { (f : Fields) → f.payload < 2 ^ payload_bits → bytes.now ≡ bytes_from f → result ≡ f }
    {
        Fields {
            kind: bytes[0],
            named: bytes[1],
            by: u16::from_le_bytes([bytes[2], bytes[3]]),
            comm: u16::from_le_bytes([bytes[4], bytes[5]]),
            round: u16::from_le_bytes([bytes[6], bytes[7]]),
            rank: u16::from_le_bytes([bytes[8], bytes[9]]),
            known: u16::from_le_bytes([bytes[10], bytes[11]]),
            acked: u16::from_le_bytes([bytes[12], bytes[13]]),
            payload: u64::from_le_bytes([
                bytes[16], bytes[17], bytes[18], bytes[19], bytes[20], bytes[21], bytes[22],
                bytes[23],
            ]),
        }
    }

    // In whose name it came.
    fn caller(&self) -> Option<Caller>
        ensures { (by : Caller) → self.now.named ≡ named_of by → self.now.by ≡ number_of by → result ≡ Some by }
    {
        match self.named {
            0 => Some(Caller::Outside),
            1 => Some(Caller::Rank(self.by)),
            _ => None,
        }
    }

    // What a contribution offers.
    fn offer<P: Packed>(&self) -> Option<Offer<P>>
        ensures { (offer : Offer P) → self.now.kind ≡ kind_of offer → self.now.payload ≡ payload_of P.pack offer → result ≡ Some offer }
    {
        if self.kind == 2 {
            let flag = P::unpack(self.payload)?;
            Some(Offer::Flag(flag))
        } else {
            Some(Offer::Ctx(mask_of(self.payload)))
        }
    }

    // The contribution of an offer.
    fn given<P: Copy>(&self, offer: Offer<P>) -> Option<Contribution<P>>
        ensures { (given : Contribution P) → offer ≡ given.offer → self.now.known ≡ given.known.count → self.now.acked ≡ given.acked.count
            → result ≡ Some given }
    {
        if self.known > 1024 || self.acked > self.known {
            return None;
        }
        Some(Contribution {
            offer,
            known: Known { count: self.known },
            acked: Acked { count: self.acked },
        })
    }

    // The contribution that they tell.
    fn contribution<P: Packed>(&self) -> Option<Contribution<P>>
        ensures { (given : Contribution P) → self.now.kind ≡ kind_of given.offer → self.now.payload ≡ payload_of P.pack given.offer
            → self.now.known ≡ given.known.count → self.now.acked ≡ given.acked.count → result ≡ Some given }
    {
        let offer = self.offer()?;
        self.given(offer)
    }

    // The count of a mark.
    fn mark(&self) -> Option<MarkCount>
        ensures { (mark : MarkCount) → self.now.known ≡ mark.known.count → result ≡ Some mark }
    {
        if self.known == 0 || self.known > 1024 {
            return None;
        }
        Some(MarkCount {
            known: Known { count: self.known },
        })
    }

    // What happened.
    fn event<P: Packed>(&self) -> Option<Event<P>>
        ensures { (by : Caller) (event : Event P) → self.now ≡ fields_by P.pack by event → result ≡ Some event }
    {
        let Fields {
            comm,
            round,
            rank,
            ..
        } = *self;
        match self.kind {
            1 => Some(Event::Fail { rank }),
            2 | 3 => {
                let given = self.contribution()?;
                Some(Event::Settle {
                    comm,
                    round,
                    rank,
                    given,
                })
            }
            4 => {
                let known = self.mark()?;
                Some(Event::Mark {
                    comm,
                    round,
                    rank,
                    known,
                })
            }
            5 => Some(Event::Arrive { comm, round, rank }),
            6 => Some(Event::Revoke { comm }),
            7 => Some(Event::Spawn {
                comm,
                parent: rank,
                round,
            }),
            _ => None,
        }
    }

    // The entry.
    fn entry<P: Packed>(&self) -> Option<Entry<P>>
        ensures { (entry : Entry P) → self.now ≡ fields_of P.pack entry → result ≡ Some entry }
    {
        let by = self.caller()?;
        let event = self.event()?;
        Some(Entry { by, event })
    }
}

/// The bytes of an entry.
///
/// ```
/// let entry: Entry<FlagAnd> = Entry { by: Caller::Outside, event: Event::Fail { rank: 258 } };
/// let bytes = bytes_of(&entry);
/// assert!(rt; bytes[0] == 1 && bytes[8] == 2 && bytes[9] == 1);
/// ```
pub fn bytes_of<P: Packed>(entry: &Entry<P>) -> [u8; ENTRY_BYTES]
    ensures { result ≡ entry_bytes P.pack entry.now }
{
    Fields::of(entry).bytes()
}

// Whether two strings of bytes are one.
fn are_same(xs: &[u8], ys: &[u8]) -> bool
    ensures { Decides result (xs.now ≡ ys.now) }
{
    xs == ys
}

/// The entry of these bytes; none where they are no entry's. No two strings are the bytes of one entry: a number that its kind doesn't
/// use has to be 0, and a flag's payload that which its kind packs it into.
///
/// ```
/// assert!(rt; entry_of(&bytes_of(&entry)) == Some(entry));
/// ```
pub fn entry_of<P: Packed>(bytes: &[u8; ENTRY_BYTES]) -> Option<Entry<P>>
    ensures { MatchOption result ((entry : Entry P) → bytes.now ≢ entry_bytes P.pack entry) (IsReadAs P.pack bytes.now) }
{
    let entry = Fields::read(bytes).entry()?;
    if are_same(&bytes_of(&entry), bytes) {
        Some(entry)
    } else {
        None
    }
}

/// An entry's bytes are read as the entry. It is a law, and for nothing else.
pub fn entries_come_back<P: Packed>(entry: &Entry<P>) -> Option<Entry<P>>
    ensures { result ≡ Some entry.now }
{
    entry_of(&bytes_of(entry))
}
