//! The picture of a trace, for a browser.
ghost use Rattle.std.specs.Prelude.{IfOk};
ghost use Rattle.ulfm_draw.specs.Forms.{IsPicture};

use crate::layout::{Layout, short};
use crate::legend::{draw_legend, legend_height, tone_class};
use crate::say::{Part, say, say_number};
use crate::signs::{Drawn, draw_number, draw_row, put_shown};
use crate::style::STYLE;
use crate::{Group, Leaf, Page};
use std::alloc::{AllocError, Allocator};
use ulfm_story::{Bar, MOST_LINES, Story, Tone, split_line, tell_story};
use ulfm_trace::{Verdict, verdict_line};

/// How many lines of a trace with this verdict are drawn as its own, the header among them.
pub(crate) fn lines_of(verdict: Verdict) -> u32 {
    match verdict {
        Verdict::Legal => MOST_LINES,
        Verdict::Illegal { line, .. } => line.saturating_sub(1),
    }
}

/// What is drawn.
#[derive(Drop)]
struct Scene<'a, A: Allocator> {
    story: &'a Story<A>,
    layout: &'a Layout<A>,
    text: &'a [u8],
    verdict: Verdict,
}

/// The picture of a trace with this verdict: up to its bad line, if it has one.
pub fn draw_picture<A: Allocator + Copy + Drop>(
    alloc: A,
    text: &[u8],
    verdict: Verdict,
) -> Result<Vec<u8, A>, AllocError>
    ensures { IfOk result (λ shown. IsPicture verdict shown.items) }
{
    match tell_story(alloc, text, lines_of(verdict))? {
        None => draw_nothing(alloc, verdict),
        Some(story) => {
            let is_open = story.bars.iter().any(|bar| bar.tone == Tone::Open);
            let has_more = is_open || verdict != Verdict::Legal;
            let layout = Layout::new(alloc, &story, text, has_more)?;
            let scene = Scene {
                story: &story,
                layout: &layout,
                text,
                verdict,
            };
            draw_scene(alloc, &scene)
        }
    }
}

/// The picture of a text that has no header.
fn draw_nothing<A: Allocator + Copy + Drop>(
    alloc: A,
    verdict: Verdict,
) -> Result<Vec<u8, A>, AllocError>
    ensures { IfOk result (λ shown. IsPicture verdict shown.items) }
{
    let title = b"No trace";
    let said = b"The first line is no header of a trace.";
    let page = Page::open(alloc, 900, 120, title, said, STYLE)?;
    let mut group = page.group()?;
    group.put(Leaf::Box, b"bg", &[0, 0, 900, 120, 0], b"")?;
    group.put(Leaf::Words, b"h", &[24, 34], title)?;
    group.put(Leaf::Words, b"s", &[24, 54], said)?;
    finish(alloc, group.close()?, verdict, 84)
}

/// Ends a picture with the line of its verdict.
fn finish<A: Allocator + Copy>(
    alloc: A,
    page: Page<A>,
    verdict: Verdict,
    y: u32,
) -> Result<Vec<u8, A>, AllocError>
    ensures { IfOk result (λ shown. IsPicture verdict shown.items) }
{
    let line = verdict_line(alloc, verdict)?;
    let class: &[u8] = match verdict {
        Verdict::Legal => b"v",
        Verdict::Illegal { .. } => b"v w",
    };
    page.finish(class, y, &line)
}

/// Draws a scene.
fn draw_scene<A: Allocator + Copy + Drop>(
    alloc: A,
    scene: &Scene<'_, A>,
) -> Result<Vec<u8, A>, AllocError>
    ensures { IfOk result (λ shown. IsPicture scene.now.verdict shown.items) }
{
    let width = scene.layout.width;
    let foot = scene.layout.end() + 52;
    let height = foot + legend_height(scene.story, width) + 56;
    let mut words = Vec::new(alloc);
    let mut said = Vec::new(alloc);
    say_title(&mut words, scene)?;
    say_description(alloc, &mut said, scene)?;
    let page = Page::open(alloc, width, height, &words, &said, STYLE)?;
    let mut group = page.group()?;
    group.put(Leaf::Box, b"bg", &[0, 0, width, height, 0], b"")?;
    group.put(Leaf::Words, b"h", &[24, 34], &words)?;
    group.put(Leaf::Words, b"s", &[24, 54], &said)?;
    draw_stripes(&mut group, scene)?;
    draw_lanes(&mut group, scene)?;
    draw_bars(&mut group, scene)?;
    draw_names(&mut group, &mut words, scene)?;
    let page = draw_rows(group.close()?, &mut words, scene)?;
    let page = draw_bad_line(page, alloc, &mut words, scene)?;
    let mut group = page.group()?;
    group.put(
        Leaf::Across,
        b"lane",
        &[24, foot - 26, width.saturating_sub(24)],
        b"",
    )?;
    let last = draw_legend(&mut group, scene.story, foot, width)?;
    finish(alloc, group.close()?, scene.verdict, last + 32)
}

/// The title.
fn say_title<A: Allocator>(words: &mut Vec<u8, A>, scene: &Scene<'_, A>) -> Result<(), AllocError> {
    let limits = scene.story.limits;
    say(
        words,
        &[
            Part::Text(b"Trace of a world of "),
            Part::Number(u32::from(limits.ranks)),
            Part::Text(plural(limits.ranks, b" rank", b" ranks")),
            Part::Text(b", "),
            Part::Number(u32::from(limits.comms)),
            Part::Text(plural(limits.comms, b" communicator", b" communicators")),
            Part::Text(b" and "),
            Part::Number(u32::from(limits.rounds)),
            Part::Text(plural(limits.rounds, b" round", b" rounds")),
        ],
    )
}

/// A word for one, or for several.
fn plural<'a>(count: u16, one: &'a [u8], several: &'a [u8]) -> &'a [u8] {
    if count == 1 { one } else { several }
}

/// The description: how many lines are drawn, and the verdict.
fn say_description<A: Allocator + Copy>(
    alloc: A,
    words: &mut Vec<u8, A>,
    scene: &Scene<'_, A>,
) -> Result<(), AllocError> {
    let rows = &scene.story.rows;
    let events = rows.iter().filter(|row| row.event.is_some()).count();
    say_counts(words, short(rows.len()), short(events))?;
    let line = verdict_line(alloc, scene.verdict)?;
    words.extend_from_slice(without_last(&line))?;
    words.extend_from_slice(b". Time runs down, one line of the trace in each row.")
}

/// How many rows, with the header as a line, and how many events.
fn say_counts<A: Allocator>(
    words: &mut Vec<u8, A>,
    rows: u16,
    events: u16,
) -> Result<(), AllocError> {
    say(
        words,
        &[
            Part::Number(u32::from(rows) + 1),
            Part::Text(b" lines and "),
            Part::Number(u32::from(events)),
            Part::Text(b" events: "),
        ],
    )
}

/// A line without its newline.
fn without_last(line: &[u8]) -> &[u8] {
    match line.split_last() {
        Some((_, front)) => front,
        None => line,
    }
}

/// The ground of every second row, and that of a bad line.
fn draw_stripes<A: Allocator + Copy + Drop>(
    group: &mut Group<A>,
    scene: &Scene<'_, A>,
) -> Result<(), AllocError> {
    let layout = scene.layout;
    let height = layout.scale.row();
    let rows = short(scene.story.rows.len());
    let width = layout.width.saturating_sub(32);
    for row in 0..rows {
        if row % 2 == 1 {
            let y = layout.y(row) - height / 2;
            group.put(Leaf::Box, b"row", &[16, y, width, height, 0], b"")?;
        }
    }
    if scene.verdict != Verdict::Legal {
        let y = layout.y(rows) - height / 2;
        group.put(Leaf::Box, b"why", &[16, y, width, height, 0], b"")?;
    }
    Ok(())
}

/// The lanes: red from a declaration on.
fn draw_lanes<A: Allocator + Copy + Drop>(
    group: &mut Group<A>,
    scene: &Scene<'_, A>,
) -> Result<(), AllocError> {
    let layout = scene.layout;
    let end = layout.end();
    let half = layout.scale.bar() + 6;
    for lane in &scene.story.lanes {
        let x = layout.x(*lane);
        let declared = scene.story.declared.iter().find(|it| it.0 == *lane);
        match declared {
            None => group.put(Leaf::Down, b"lane", &[x, Layout::<A>::top() - 6, end], b"")?,
            Some((_, row)) => {
                let y = layout.y(*row);
                let height = end.saturating_sub(y);
                group.put(Leaf::Box, b"fog", &[x - half, y, 2 * half, height, 0], b"")?;
                group.put(Leaf::Down, b"lane", &[x, Layout::<A>::top() - 6, y], b"")?;
                group.put(Leaf::Down, b"dead", &[x, y, end], b"")?;
            }
        }
    }
    Ok(())
}

/// The calls.
fn draw_bars<A: Allocator + Copy + Drop>(
    group: &mut Group<A>,
    scene: &Scene<'_, A>,
) -> Result<(), AllocError> {
    for bar in &scene.story.bars {
        draw_bar(group, scene.layout, bar)?;
    }
    for bar in &scene.story.bars {
        if let Some(early) = bar.early {
            draw_point(group, scene.layout, bar, early)?;
        }
    }
    Ok(())
}

/// A call, from its line to its reply's.
fn draw_bar<A: Allocator + Copy + Drop>(
    group: &mut Group<A>,
    layout: &Layout<A>,
    bar: &Bar,
) -> Result<(), AllocError> {
    let wide = layout.scale.bar();
    let first = layout.y(bar.first) - 6;
    let tail = if bar.tone == Tone::Open { 12 } else { 6 };
    let height = (layout.y(bar.last) + tail).saturating_sub(first);
    let numbers = [
        layout.x(bar.lane) - wide / 2,
        first,
        wide,
        height,
        wide.saturating_sub(2) / 2,
    ];
    group.put(Leaf::Box, tone_class(bar.tone), &numbers, b"")
}

/// The point of a reply that lies before its end, with a line to the reply.
fn draw_point<A: Allocator + Copy + Drop>(
    group: &mut Group<A>,
    layout: &Layout<A>,
    bar: &Bar,
    early: u16,
) -> Result<(), AllocError> {
    let x = layout.x(bar.lane);
    let y = layout.y(early) + layout.scale.row() / 2;
    group.put(Leaf::Down, b"ptl", &[x, y, layout.y(bar.last)], b"")?;
    group.put(Leaf::Point, b"pt", &[x, y - 5], b"")
}

/// The names of the lanes, at the top and in each gap.
fn draw_names<A: Allocator + Copy + Drop>(
    group: &mut Group<A>,
    words: &mut Vec<u8, A>,
    scene: &Scene<'_, A>,
) -> Result<(), AllocError> {
    draw_names_at(group, words, scene, Layout::<A>::top() - 14)?;
    for gap in 0..scene.layout.again {
        let row = gap.saturating_add(1).saturating_mul(40);
        let y = scene.layout.y(row) - scene.layout.scale.row() / 2 - 8;
        let width = scene.layout.text.saturating_sub(30);
        group.put(Leaf::Box, b"bg", &[16, y - 14, width, 18, 0], b"")?;
        draw_names_at(group, words, scene, y)?;
    }
    Ok(())
}

/// The names of the lanes at this y; where lanes are narrow, every second number.
fn draw_names_at<A: Allocator + Copy + Drop>(
    group: &mut Group<A>,
    words: &mut Vec<u8, A>,
    scene: &Scene<'_, A>,
    y: u32,
) -> Result<(), AllocError> {
    let is_labelled = scene.layout.scale.is_labelled();
    for (i, lane) in scene.story.lanes.iter().enumerate() {
        words.clear();
        let class: &[u8] = if is_labelled {
            put_name(words, *lane)?;
            b"n"
        } else {
            put_short_name(words, i, *lane)?;
            b"c"
        };
        if !words.is_empty() {
            group.put(Leaf::Words, class, &[scene.layout.x(*lane), y], words)?;
        }
    }
    Ok(())
}

/// The name of a lane.
fn put_name<A: Allocator>(words: &mut Vec<u8, A>, lane: u16) -> Result<(), AllocError> {
    if lane == 0 {
        return words.extend_from_slice(b"outside");
    }
    words.extend_from_slice(b"rank ")?;
    say_number(words, u32::from(lane - 1))
}

/// The number of every second lane, or `-` for the outside.
fn put_short_name<A: Allocator>(
    words: &mut Vec<u8, A>,
    place: usize,
    lane: u16,
) -> Result<(), AllocError> {
    if lane == 0 {
        return words.push(b'-').map_err(AllocError::from);
    }
    if place % 2 == 1 {
        return say_number(words, u32::from(lane - 1));
    }
    Ok(())
}

/// The rows.
fn draw_rows<A: Allocator + Copy + Drop>(
    page: Page<A>,
    words: &mut Vec<u8, A>,
    scene: &Scene<'_, A>,
) -> Result<Page<A>, AllocError> {
    let mut page = page;
    let mut left = match split_line(scene.text) {
        Some((_, behind)) => behind,
        None => &[],
    };
    let mut notes = scene.story.notes.iter().peekable();
    for (i, row) in scene.story.rows.iter().enumerate() {
        let index = short(i);
        let Some((line, behind)) = split_line(left) else {
            return Ok(page);
        };
        let note = notes.next_if(|note| note.row == index);
        let drawn = Drawn {
            layout: scene.layout,
            lanes: &scene.story.lanes,
            index,
            row,
            line,
            note,
        };
        page = draw_row(page, words, &drawn)?;
        left = behind;
    }
    Ok(page)
}

/// The row of a bad line, with the judge's reason.
fn draw_bad_line<A: Allocator + Copy + Drop>(
    page: Page<A>,
    alloc: A,
    words: &mut Vec<u8, A>,
    scene: &Scene<'_, A>,
) -> Result<Page<A>, AllocError> {
    let Verdict::Illegal { line: number, .. } = scene.verdict else {
        return Ok(page);
    };
    let told = verdict_line(alloc, scene.verdict)?;
    let mut group = page.titled(&told)?;
    let y = scene.layout.y(short(scene.story.rows.len()));
    draw_number(&mut group, words, number, 44, y)?;
    words.clear();
    put_shown(words, line_at(scene.text, number))?;
    words.extend_from_slice(b": ")?;
    words.extend_from_slice(&told)?;
    group.put(Leaf::Words, b"w", &[scene.layout.text, y + 4], words)?;
    group.close()
}

/// The line of this number, counted from 1, or what there is of it.
pub(crate) fn line_at(text: &[u8], number: u32) -> &[u8] {
    let mut left = text;
    for _ in 1..number {
        let Some((_, behind)) = split_line(left) else {
            return &[];
        };
        left = behind;
    }
    match split_line(left) {
        Some((line, _)) => line,
        None => left,
    }
}
