//! What the lines before a bad one tell of its caller: the events, the caller's call under way, and how far the caller has come on each
//! communicator.
ghost use Rattle.std.specs.Prelude.{IfSome};
ghost use Rattle.ulfm_model.specs.Words.{MayOpen};

use std::alloc::{AllocError, Allocator};
use ulfm_judge::Judge;
use ulfm_laws::FlagAnd;
use ulfm_lines::read_line;
use ulfm_model::call::{comm_of, rank_of};
use ulfm_model::event::{Caller, Entry};
use ulfm_model::limits::Limits;
use ulfm_model::refusal::Refusal;
use ulfm_model::{Call, Line, Reply, Request};
use ulfm_script::{HeaderKind, read_header};
use ulfm_story::split_line;

/// The call that a caller has under way.
#[derive(Clone, Copy)]
pub(crate) struct Begun {
    /// The call, as its line has it.
    pub(crate) asked: Call<FlagAnd>,
    /// The number of its line.
    pub(crate) line: u32,
    /// How many events there were before it.
    pub(crate) events: u32,
    /// How many failures its look found, if it was made.
    pub(crate) look: Option<u16>,
}

/// How far the caller has come on a communicator.
#[derive(Clone, Copy)]
pub(crate) struct OnComm {
    comm: u16,
    /// How many agreements it has started.
    agreements: u16,
    /// How many barriers it has started.
    barriers: u16,
    /// How many failures it has acknowledged.
    pub(crate) acked: u16,
    /// What it has open.
    pub(crate) request: Option<Request>,
}

/// What the lines before a bad one tell of its caller.
#[derive(Drop)]
pub(crate) struct Scene<A: Allocator> {
    /// The limits of the trace's world.
    pub(crate) limits: Limits,
    /// Whose line the bad one is.
    pub(crate) caller: Caller,
    /// The events.
    pub(crate) history: Vec<Entry<FlagAnd>, A>,
    /// The caller's call under way.
    pub(crate) begun: Option<Begun>,
    /// The communicators on which the caller has done something.
    held: Vec<OnComm, A>,
    /// Whether the caller was refused for good.
    pub(crate) refused: bool,
}

/// Who makes a call.
pub(crate) fn caller_of(asked: &Call<FlagAnd>) -> Caller {
    match *asked {
        Call::Fail { .. } => Caller::Outside,
        _ => Caller::Rank(rank_of(asked)),
    }
}

/// Whose line it is.
pub(crate) fn line_caller(line: &Line<FlagAnd>) -> Caller {
    match *line {
        Line::Called { call: asked, .. } => caller_of(&asked),
        Line::Looked { rank, .. } => Caller::Rank(rank),
        Line::Happened { by, .. } | Line::Replied { by, .. } => by,
    }
}

/// Whether a reply ends the request that was polled.
fn ends(reply: &Reply<FlagAnd>) -> bool {
    matches!(
        reply,
        Reply::Agreed { .. }
            | Reply::Shrunk { .. }
            | Reply::Done
            | Reply::Refused(Refusal::Mismatch)
            | Reply::Refused(Refusal::NoContext)
            | Reply::Refused(Refusal::NoRoom)
            | Reply::Refused(Refusal::IsRevoked)
            | Reply::Refused(Refusal::ProcFailed)
    )
}

impl OnComm {
    /// Nothing is done on this communicator yet.
    fn new(comm: u16) -> OnComm {
        OnComm {
            comm,
            agreements: 0,
            barriers: 0,
            acked: 0,
            request: None,
        }
    }

    /// Takes in that a start was answered.
    fn open(&mut self, asked: &Call<FlagAnd>) {
        match *asked {
            Call::Agree { .. } => {
                self.request = Some(Request::Agree {
                    round: self.agreements,
                });
                self.agreements = self.agreements.saturating_add(1);
            }
            Call::Shrink { .. } => {
                self.request = Some(Request::Shrink {
                    round: self.agreements,
                });
                self.agreements = self.agreements.saturating_add(1);
            }
            Call::Barrier { .. } => {
                self.request = Some(Request::Barrier {
                    round: self.barriers,
                });
                self.barriers = self.barriers.saturating_add(1);
            }
            _ => {}
        }
    }

    /// Takes in a reply to a call on this communicator.
    fn answer(&mut self, asked: &Call<FlagAnd>, reply: &Reply<FlagAnd>) {
        match *reply {
            Reply::Started => self.open(asked),
            Reply::Acked { count } => self.acked = count,
            _ => {
                if ends(reply) {
                    self.request = None;
                }
            }
        }
    }
}

impl<A: Allocator + Copy> Scene<A> {
    /// Nothing is told yet.
    fn new(alloc: A, limits: Limits, caller: Caller) -> Scene<A> {
        Scene {
            limits,
            caller,
            history: Vec::new(alloc),
            begun: None,
            held: Vec::new(alloc),
            refused: false,
        }
    }

    /// How many events there were.
    pub(crate) fn events(&self) -> u32 {
        u32::try_from(self.history.len()).unwrap_or(u32::MAX)
    }

    /// How far the caller has come on a communicator.
    pub(crate) fn on(&self, comm: u16) -> OnComm {
        match self.held.iter().find(|x| x.comm == comm) {
            Some(x) => *x,
            None => OnComm::new(comm),
        }
    }

    /// The round that a call of the caller is about: the open one for a poll, the next for a start.
    pub(crate) fn request_of(&self, asked: &Call<FlagAnd>) -> Option<Request> {
        let on = self.on(comm_of(asked));
        match *asked {
            Call::Poll { .. } => on.request,
            Call::Agree { .. } => Some(Request::Agree {
                round: on.agreements,
            }),
            Call::Shrink { .. } => Some(Request::Shrink {
                round: on.agreements,
            }),
            Call::Barrier { .. } => Some(Request::Barrier { round: on.barriers }),
            _ => None,
        }
    }

    /// Takes in that the caller's call has looked.
    fn look(&mut self, failures: u16) {
        if let Some(begun) = self.begun {
            self.begun = Some(Begun {
                look: Some(failures),
                ..begun
            });
        }
    }

    /// Takes in the reply to the caller's call.
    fn answer(&mut self, reply: &Reply<FlagAnd>) -> Result<(), AllocError> {
        let Some(begun) = self.begun else {
            return Ok(());
        };
        self.begun = None;
        if let Reply::Refused(Refusal::SelfFailed) = *reply {
            self.refused = true;
        }
        let comm = comm_of(&begun.asked);
        match self.held.iter_mut().find(|x| x.comm == comm) {
            Some(x) => {
                x.answer(&begun.asked, reply);
                Ok(())
            }
            None => {
                let mut x = OnComm::new(comm);
                x.answer(&begun.asked, reply);
                self.held.push(x)?;
                Ok(())
            }
        }
    }
}

/// A line before a bad one.
#[derive(Drop)]
struct Told<'a> {
    /// Its number.
    number: u32,
    /// What it tells.
    line: Line<FlagAnd>,
    /// The ranks that its reply lists, in order; else nobody.
    group: &'a [u16],
}

/// What takes in the lines before a bad one, one by one.
trait Taker {
    /// Takes in a line.
    fn take_in(&mut self, told: &Told<'_>) -> Result<(), AllocError>;
}

impl<A: Allocator + Copy> Taker for Scene<A> {
    fn take_in(&mut self, told: &Told<'_>) -> Result<(), AllocError> {
        match told.line {
            Line::Called { call: asked, .. } => {
                if caller_of(&asked) == self.caller {
                    self.begun = Some(Begun {
                        asked,
                        line: told.number,
                        events: self.events(),
                        look: None,
                    });
                }
                Ok(())
            }
            Line::Looked { rank, failures } => {
                if Caller::Rank(rank) == self.caller {
                    self.look(failures);
                }
                Ok(())
            }
            Line::Happened { by, event } => match event {
                Some(event) => {
                    self.history.push(Entry { by, event })?;
                    Ok(())
                }
                None => Ok(()),
            },
            Line::Replied { by, reply, .. } => match reply {
                Some(reply) if by == self.caller => self.answer(&reply),
                _ => Ok(()),
            },
        }
    }
}

impl<A: Allocator + Copy + Drop> Taker for Judge<FlagAnd, A> {
    fn take_in(&mut self, told: &Told<'_>) -> Result<(), AllocError> {
        let _ = self.take(&told.line, told.group)?;
        Ok(())
    }
}

/// Takes in the lines behind a header, up to the first that isn't whole.
fn take_lines<A: Allocator + Copy, T: Taker>(
    alloc: A,
    text: &[u8],
    taker: &mut T,
) -> Result<(), AllocError> {
    let mut group = Vec::new(alloc);
    let mut left = text;
    for number in 2..u32::MAX {
        let Some((line, behind)) = split_line(left) else {
            return Ok(());
        };
        if let Some(line) = read_line(line, &mut group)? {
            let group = group.as_slice();
            taker.take_in(&Told {
                number,
                line,
                group,
            })?;
        }
        left = behind;
    }
    Ok(())
}

/// The limits in the first line of a trace, and the text behind it.
fn limits_of(before: &[u8]) -> Option<(Limits, &[u8])>
    ensures { IfSome result (λ both. MayOpen both.0) }
{
    let (first, rest) = split_line(before)?;
    match read_header(HeaderKind::Trace, first) {
        Ok(limits) => Some((limits, rest)),
        Err(_) => None,
    }
}

/// What the lines before a bad one tell of a caller; nothing where they have no header.
pub(crate) fn scene_of<A: Allocator + Copy>(
    alloc: A,
    before: &[u8],
    caller: Caller,
) -> Result<Option<Scene<A>>, AllocError> {
    let Some((limits, rest)) = limits_of(before) else {
        return Ok(None);
    };
    let mut scene = Scene::new(alloc, limits, caller);
    take_lines(alloc, rest, &mut scene)?;
    Ok(Some(scene))
}

/// A judge that has taken the lines before a bad one; none where they have no header.
pub(crate) fn judge_behind<A: Allocator + Copy + Drop>(
    alloc: A,
    before: &[u8],
) -> Result<Option<Judge<FlagAnd, A>>, AllocError> {
    let Some((limits, rest)) = limits_of(before) else {
        return Ok(None);
    };
    let mut judge = Judge::open(alloc, limits)?;
    take_lines(alloc, rest, &mut judge)?;
    Ok(Some(judge))
}
