//! The account of a bad line: notes on what judged it, and the lines that might stand in its place.
use crate::points::matters_of;
use crate::rounds::{note_matters, note_request};
use crate::say::{Part, say, say_on};
use crate::scene::{Scene, line_caller, scene_of};
use crate::tries::{Asked, Trier};
use crate::wrong::{note_event, note_look, note_own, note_reply, note_text};
use std::alloc::{AllocError, Allocator};
use ulfm_laws::{FlagAnd, Known};
use ulfm_lines::read_line;
use ulfm_model::call::{Request, comm_of};
use ulfm_model::event::{Caller, Event};
use ulfm_model::{Call, Line, MarkCount, Why};
use ulfm_script::print_call;

/// The most bytes of a bad line that a note shows.
const MOST_SHOWN: usize = 500;

/// The most counts of a mark that are tried.
const MOST_COUNTS: u16 = 1024;

/// The account of a bad line.
#[derive(Drop)]
pub(crate) struct Account<A: Allocator> {
    /// What it and its notes are allocated by.
    pub(crate) alloc: A,
    /// What is told of the line, and of what judged it.
    pub(crate) notes: Vec<Vec<u8, A>, A>,
    /// Lines that might stand in its place.
    pub(crate) candidates: Vec<Vec<u8, A>, A>,
}

impl<A: Allocator + Copy> Account<A> {
    /// Adds a note.
    pub(crate) fn note(&mut self, parts: &[Part]) -> Result<(), AllocError> {
        let note = say(self.alloc, parts)?;
        self.push(note)
    }

    /// Adds a note with a call in it, as scripts spell it.
    fn note_asked(
        &mut self,
        before: &[Part],
        asked: &Call<FlagAnd>,
        behind: &[Part],
    ) -> Result<(), AllocError> {
        let mut note = say(self.alloc, before)?;
        print_call(&mut note, asked)?;
        say_on(&mut note, behind)?;
        self.push(note)
    }

    /// Adds a note that is made.
    pub(crate) fn push(&mut self, note: Vec<u8, A>) -> Result<(), AllocError> {
        self.notes.push(note)?;
        Ok(())
    }
}

/// The text behind some lines, up to its newline, and whether it has one.
fn line_behind<'a>(text: &'a [u8], before: &[u8]) -> (&'a [u8], bool) {
    let rest = if before.len() <= text.len() {
        &text[before.len()..]
    } else {
        text
    };
    match ulfm_story::split_line(rest) {
        Some((line, _)) => (line, true),
        None => (rest, false),
    }
}

/// The first so many bytes of a line, or all of it.
fn first_bytes(line: &[u8], count: usize) -> &[u8] {
    if count < line.len() {
        &line[..count]
    } else {
        line
    }
}

/// Notes the first bytes of a bad line.
fn note_line<A: Allocator + Copy>(
    account: &mut Account<A>,
    number: u32,
    shown: &[u8],
) -> Result<(), AllocError> {
    let mut note = say(
        account.alloc,
        &[
            Part::Words(b"line "),
            Part::Number(number),
            Part::Words(b": "),
        ],
    )?;
    note.extend_from_slice(shown)?;
    account.push(note)
}

/// The account of the line of this number, behind these lines of a text, which is bad for this reason.
pub(crate) fn account_of<A: Allocator + Copy + Drop>(
    alloc: A,
    text: &[u8],
    before: &[u8],
    number: u32,
    why: Why,
) -> Result<Account<A>, AllocError> {
    let mut account = Account {
        alloc,
        notes: Vec::new(alloc),
        candidates: Vec::new(alloc),
    };
    let (bad, is_whole) = line_behind(text, before);
    let mut group = Vec::new(alloc);
    note_line(&mut account, number, first_bytes(bad, MOST_SHOWN))?;
    if why == Why::Text {
        note_text(&mut account, bad, is_whole, number)?;
        return Ok(account);
    }
    let Some(line) = read_line(bad, &mut group)? else {
        return Ok(account);
    };
    let Some(scene) = scene_of(alloc, before, line_caller(&line))? else {
        return Ok(account);
    };
    match why {
        Why::Call => tell_call(&mut account, &scene, &line)?,
        Why::Reply => tell_reply(&mut account, before, &scene, &line, &group)?,
        _ => tell_other(&mut account, before, &scene, &line, why)?,
    }
    Ok(account)
}

/// Tells of a call that begins while another is under way, or of a line without a call.
fn tell_call<A: Allocator + Copy>(
    account: &mut Account<A>,
    scene: &Scene<A>,
    line: &Line<FlagAnd>,
) -> Result<(), AllocError> {
    let by = Part::By(scene.caller);
    match (line, scene.begun) {
        (Line::Called { .. }, Some(begun)) => account.note_asked(
            &[
                Part::Words(b"wrong: the call, since "),
                by,
                Part::Words(b" has one under way, from line "),
                Part::Number(begun.line),
                Part::Words(b": "),
            ],
            &begun.asked,
            &[],
        ),
        _ => account.note(&[
            Part::Words(b"wrong: the caller, since "),
            by,
            Part::Words(b" has no call under way"),
        ]),
    }
}

/// Tells of a bad look or event.
fn tell_other<A: Allocator + Copy + Drop>(
    account: &mut Account<A>,
    before: &[u8],
    scene: &Scene<A>,
    line: &Line<FlagAnd>,
    why: Why,
) -> Result<(), AllocError> {
    let Some(mut trier) = Trier::new(account.alloc, before)? else {
        return Ok(());
    };
    match *line {
        Line::Looked { rank, .. } => {
            note_look(account, scene, rank)?;
            note_call(account, scene)?;
            try_looks(&mut trier, scene, rank)?;
        }
        Line::Happened { by, event } => {
            tell_event(account, scene, event, why)?;
            try_events(&mut trier, by, event)?;
        }
        _ => {}
    }
    account.candidates = trier.texts()?;
    Ok(())
}

/// Tells of a bad event.
fn tell_event<A: Allocator + Copy + Drop>(
    account: &mut Account<A>,
    scene: &Scene<A>,
    event: Option<Event<FlagAnd>>,
    why: Why,
) -> Result<(), AllocError> {
    if why == Why::Own {
        note_own(account, scene)?;
        note_call(account, scene)?;
    } else {
        note_event(account, scene, event)?;
    }
    let (comm, request) = match event {
        Some(Event::Settle { comm, round, .. }) | Some(Event::Mark { comm, round, .. }) => {
            (comm, Some(Request::Agree { round }))
        }
        Some(Event::Arrive { comm, round, .. }) => (comm, Some(Request::Barrier { round })),
        Some(Event::Spawn { parent, round, .. }) => (parent, Some(Request::Shrink { round })),
        Some(Event::Revoke { comm }) => (comm, None),
        _ => (0, None),
    };
    let round = round_of(request);
    let matters = matters_of(account.alloc, &scene.history, comm, round)?;
    note_request(account, scene, &matters, comm, request)?;
    note_matters(account, &matters)
}

/// The round of a request; 0 where there is none.
fn round_of(request: Option<Request>) -> u16 {
    match request {
        Some(Request::Agree { round })
        | Some(Request::Shrink { round })
        | Some(Request::Barrier { round }) => round,
        None => 0,
    }
}

/// The caller's call, its look, and what it has acknowledged.
fn note_call<A: Allocator + Copy>(
    account: &mut Account<A>,
    scene: &Scene<A>,
) -> Result<(), AllocError> {
    let Some(begun) = scene.begun else {
        return Ok(());
    };
    account.note_asked(
        &[Part::Words(b"call: ")],
        &begun.asked,
        &[
            Part::Words(b", from line "),
            Part::Number(begun.line),
            Part::Words(b", with "),
            Part::Number(begun.events),
            Part::Words(b" events before it and "),
            Part::Number(scene.events()),
            Part::Words(b" now"),
        ],
    )?;
    match begun.look {
        Some(count) => account.note(&[
            Part::Words(b"failures: "),
            Part::Number(u32::from(count)),
            Part::Words(b" found by its look, "),
            Part::Number(u32::from(scene.on(comm_of(&begun.asked)).acked)),
            Part::Words(b" acknowledged by the rank"),
        ]),
        None => account.note(&[Part::Words(b"it has made no look")]),
    }
}

/// Tries the look that finds what is declared.
fn try_looks<A: Allocator + Copy + Drop>(
    trier: &mut Trier<'_, A>,
    scene: &Scene<A>,
    rank: u16,
) -> Result<(), AllocError> {
    let declared = scene
        .history
        .iter()
        .filter(|entry| matches!(entry.event, Event::Fail { .. }))
        .count();
    let failures = u16::try_from(declared).unwrap_or(u16::MAX);
    trier.try_line(Line::Looked { rank, failures }, &[])
}

/// Tries an event in its caller's name and in the outside's, a mark with other counts too.
fn try_events<A: Allocator + Copy + Drop>(
    trier: &mut Trier<'_, A>,
    by: Caller,
    event: Option<Event<FlagAnd>>,
) -> Result<(), AllocError> {
    let Some(found) = event else {
        return Ok(());
    };
    if let Event::Mark {
        comm,
        round,
        rank,
        ..
    } = found
    {
        for count in 1..MOST_COUNTS + 1 {
            let known = MarkCount {
                known: Known { count },
            };
            let event = Some(Event::Mark {
                comm,
                round,
                rank,
                known,
            });
            trier.try_line(Line::Happened { by, event }, &[])?;
        }
    }
    trier.try_line(
        Line::Happened {
            by: Caller::Outside,
            event,
        },
        &[],
    )
}

/// Tells of a bad reply.
fn tell_reply<A: Allocator + Copy + Drop>(
    account: &mut Account<A>,
    before: &[u8],
    scene: &Scene<A>,
    line: &Line<FlagAnd>,
    group: &[u16],
) -> Result<(), AllocError> {
    let (Some(begun), Line::Replied { point, .. }) = (scene.begun, *line) else {
        return Ok(());
    };
    let comm = comm_of(&begun.asked);
    let request = scene.request_of(&begun.asked);
    let matters = matters_of(account.alloc, &scene.history, comm, round_of(request))?;
    let Some(mut trier) = Trier::new(account.alloc, before)? else {
        return Ok(());
    };
    let asked = Asked {
        scene,
        begun,
        request,
        relevant: &matters,
    };
    let points = matters.points(point, begun.events, scene.events())?;
    for at in points.iter() {
        asked.try_at(account.alloc, &mut trier, *at)?;
    }
    note_reply(account, scene, &begun, line, group, &trier.found)?;
    note_call(account, scene)?;
    note_request(account, scene, &matters, comm, request)?;
    note_matters(account, &matters)?;
    account.candidates = trier.texts()?;
    Ok(())
}
