//! The judge of traces.
ghost use Rattle.std.specs.Prelude.{◌≡◌, ◌≤◌, IfOk, List, ℕ, if◌then◌else◌, is_some, length, map, max};
ghost use Rattle.ulfm_judge.specs.Kept.{AreCalls, needed_by, place_by, traced_of};
ghost use Rattle.ulfm_judge.specs.Telling.{TellsSome};
ghost use Rattle.ulfm_numbers.specs.Telling.{TablesTell};
ghost use Rattle.ulfm_model.specs.History.{History, first_ranks};
ghost use Rattle.ulfm_model.specs.Words.{MayOpen};
ghost use Rattle.ulfm_model.specs.Traces.{Takes, Traced, Under, nothing};
ghost use Rattle.ulfm_model.specs.declared.line.Why.{Why};

use crate::calls::{OpenCall, begin, look, place_by};
use crate::closing::take_reply;
use crate::events::happen;
use std::alloc::{AllocError, Allocator};
use ulfm_laws::meld::Packed;
use ulfm_model::event::Caller;
use ulfm_model::fresh::new_records;
use ulfm_model::limits::Limits;
use ulfm_model::line::{Line, Why};
use ulfm_model::record::RankRecord;
use ulfm_numbers::numbers::Numbers;

/// Judges the lines of a trace one after another. Of what happened it keeps when, by what was said, and no history: what a line takes
/// grows with the members of its communicator, with the communicators and with the failures, and not with the lines before it. For calls
/// it has a place for the outside and for each rank up to the greatest whose call began, however many calls there were.
#[derive(Drop)]
pub struct Judge<P: Packed, A: Allocator> {
    alloc: A,
    limits: Limits,
    numbers: Numbers<P, A>,
    records: Vec<RankRecord<A>, A>,
    calls: Vec<OpenCall<P, A>, A>,
    ghost may: { MayOpen limits },
    ghost numbered: { map (λ own. own.number) records.items ≡ first_ranks limits.ranks },
}

/// Why a reply that no reply is may not come: none has begun that it could answer, or it is none of that call's.
fn why_unread<P: Packed, A: Allocator>(calls: &[OpenCall<P, A>], by: Caller) -> Why
    ensures { result ≡ (if is_some (place_by calls.now by) then Why.Reply else Why.Call) }
{
    match place_by(calls, by) {
        Some(_) => Why::Reply,
        None => Why::Call,
    }
}

/// Takes in a line, on what is kept.
#[inline(always)]
fn take_line<P: Packed, A: Allocator + Copy + Drop>(
    alloc: A,
    limits: Limits,
    numbers: &mut Numbers<P, A>,
    records: &mut [RankRecord<A>],
    calls: &mut Vec<OpenCall<P, A>, A>,
    line: &Line<P>,
    group: &[u16],
) -> Result<Option<Why>, AllocError>
    requires may { MayOpen limits }
    requires numbers { map (λ own. own.number) records.old ≡ first_ranks limits.ranks }
    ensures numbers { map (λ own. own.number) records.new ≡ map (λ own. own.number) records.old }
    ensures few { length calls.new.items ≤ max (length calls.old.items) (needed_by line.now) }
    ensures taken { (h : History P) (us : List (Under P)) → TablesTell limits.ranks numbers.old h → AreCalls calls.old.items us
        → let old = traced_of limits h records.old us in
        IfOk result (TellsSome limits numbers.new records.new calls.new.items (Takes P.meld old group.now line.now)) }
{
    match *line {
        Line::Called { call: asked, .. } => begin(alloc, numbers.count, calls, asked),
        Line::Looked { rank, failures } => {
            Ok(look(limits, &numbers.failures, records, calls, rank, failures))
        }
        Line::Happened { by, event } => {
            let Some(event) = event else {
                return Ok(Some(Why::Event));
            };
            happen(alloc, limits, numbers, records, calls, by, event)
        }
        Line::Replied { by, point, reply } => {
            let Some(reply) = reply else {
                return Ok(Some(why_unread(calls, by)));
            };
            take_reply(
                alloc, limits, numbers, records, calls, by, point, reply, group,
            )
        }
    }
}

impl<P: Packed, A: Allocator + Copy + Drop> Judge<P, A> {
    ghost use Rattle.ulfm_judge.specs.Standing.{JudgeStands, call_places};

    /// A judge of a trace behind a header with these limits: nothing was said yet.
    pub fn open(alloc: A, limits: Limits) -> Result<Judge<P, A>, AllocError>
        requires { MayOpen limits }
        ensures stands { IfOk result (λ judge. JudgeStands judge (nothing limits)) }
        ensures none { IfOk result (λ judge. call_places judge ≡ 0) }
    {
        let records = new_records(alloc, limits)?;
        let numbers = Numbers::new(alloc, limits.ranks)?;
        Ok(Judge {
            alloc,
            limits,
            numbers,
            records,
            calls: Vec::new(alloc),
        })
    }

    /// Judges one line, with the ranks that it lists where it is a reply, after those that were taken before: why it may not come,
    /// or nothing where it may. A line that may not come changes nothing. After an error, which is want of memory, part of the line
    /// may be taken in: such a judge is to be used no more.
    #[inline(always)]
    pub fn take(&mut self, line: &Line<P>, group: &[u16]) -> Result<Option<Why>, AllocError>
        ensures few { call_places self.new ≤ max (call_places self.old) (needed_by line.now) }
        ensures taken { (now : Traced P) → JudgeStands self.old now
            → IfOk result (λ why. (next : Traced P) × Takes P.meld now group.now line.now next why × JudgeStands self.new next) }
    {
        take_line(
            self.alloc,
            self.limits,
            &mut self.numbers,
            &mut self.records,
            &mut self.calls,
            line,
            group,
        )
    }
}
