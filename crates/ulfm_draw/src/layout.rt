//! Where things stand in a picture.
ghost use Rattle.std.specs.Prelude.{◌+◌, ◌<◌, ◌≤◌, ◌^◌};

use crate::labels::put_label;
use std::alloc::{AllocError, Allocator};
use ulfm_story::{Note, Row, Story, split_line};

/// After how many rows the names of the lanes come again, and how many rows have to follow.
const AGAIN: u16 = 40;

const FOLLOW: u16 = 10;

/// How high the gap is in which they stand.
const GAP: u32 = 26;

/// Where the first lane begins.
const LEFT: u32 = 52;

/// The most bytes of a line that are shown.
pub(crate) const SHOWN: usize = 76;

/// How much room there is for a lane and a row.
#[derive(Clone, Copy, Debug, PartialEq, Eq)]
pub enum Scale {
    /// Up to four ranks.
    Large,
    /// Up to eight.
    Middle,
    /// More: there are no labels in the lanes.
    Small,
}

impl Scale {
    /// The scale for so many ranks.
    fn of(ranks: usize) -> Scale {
        if ranks <= 4 {
            Scale::Large
        } else if ranks <= 8 {
            Scale::Middle
        } else {
            Scale::Small
        }
    }

    /// How wide a lane is.
    fn pitch(self) -> u32
        ensures { result ≤ 112 }
    {
        match self {
            Scale::Large => 112,
            Scale::Middle => 92,
            Scale::Small => 16,
        }
    }

    /// How high a row is.
    pub(crate) fn row(self) -> u32
        ensures { result ≤ 22 }
    {
        if self == Scale::Small { 16 } else { 22 }
    }

    /// How wide a call's bar is.
    pub(crate) fn bar(self) -> u32
        ensures { result ≤ 14 }
    {
        if self == Scale::Small { 8 } else { 14 }
    }

    /// Half the size of a sign.
    pub(crate) fn sign(self) -> u32
        ensures low { 5 ≤ result }
        ensures high { result ≤ 6 }
    {
        if self == Scale::Small { 5 } else { 6 }
    }

    /// Where a lane's middle is, from its beginning.
    fn middle(self) -> u32
        ensures low { 12 ≤ result }
        ensures high { result ≤ 26 }
    {
        if self == Scale::Small { 12 } else { 26 }
    }

    /// Whether there are labels in the lanes.
    pub(crate) fn is_labelled(self) -> bool {
        self != Scale::Small
    }
}

/// Where things stand in a picture.
#[derive(Drop)]
pub(crate) struct Layout<A: Allocator> {
    /// How much room a lane and a row have.
    pub(crate) scale: Scale,
    /// By lane, how many lanes stand before it.
    places: Vec<u16, A>,
    /// How many lanes there are.
    lanes: u16,
    /// How many rows there are, that of an illegal line among them.
    pub(crate) rows: u16,
    /// How often the lanes' names come again.
    pub(crate) again: u16,
    /// Where the lines of the trace begin.
    pub(crate) text: u32,
    /// How wide the picture is.
    pub(crate) width: u32,
}

/// A count as a number of 16 bits; the greatest where it has more.
pub(crate) fn short(count: usize) -> u16 {
    u16::try_from(count).unwrap_or(u16::MAX)
}

/// How wide this many letters are at most, at so many units each.
pub(crate) fn span_of(letters: usize, each: u32) -> u32
    requires { each ≤ 16 }
    ensures { result < 2 ^ 21 }
{
    u32::from(short(letters)) * each
}

/// The places of lanes, by lane.
fn places_of<A: Allocator + Copy>(alloc: A, lanes: &[u16]) -> Result<Vec<u16, A>, AllocError> {
    let mut places = vec![in alloc; 0; 1026]?;
    for (i, lane) in lanes.iter().enumerate() {
        if let Some(place) = places.get_mut(usize::from(*lane)) {
            *place = short(i);
        }
    }
    Ok(places)
}

impl<A: Allocator + Copy + Drop> Layout<A> {
    /// The layout of a story, told by this text; with a row more where there is something to be said below the last.
    pub(crate) fn new(
        alloc: A,
        story: &Story<A>,
        text: &[u8],
        has_more: bool,
    ) -> Result<Layout<A>, AllocError> {
        let ranks = story.lanes.iter().filter(|lane| **lane != 0).count();
        let rows = short(story.rows.len());
        let mut layout = Layout {
            scale: Scale::of(ranks),
            places: places_of(alloc, &story.lanes)?,
            lanes: short(story.lanes.len()),
            rows: rows.saturating_add(u16::from(has_more)),
            again: rows.saturating_sub(FOLLOW) / AGAIN,
            text: 0,
            width: 900,
        };
        layout.text = layout.text_of(alloc, &story.rows)?;
        layout.width = layout.width_of(text, &story.notes);
        Ok(layout)
    }

    /// The middle of a lane.
    pub(crate) fn x(&self, lane: u16) -> u32
        ensures low { 64 ≤ result }
        ensures high { result < 2 ^ 23 }
    {
        let place = self.places.get(usize::from(lane)).copied().unwrap_or(0);
        LEFT + u32::from(place) * self.scale.pitch() + self.scale.middle()
    }

    /// The middle of a row.
    pub(crate) fn y(&self, row: u16) -> u32
        ensures low { 111 ≤ result }
        ensures high { result < 2 ^ 22 }
    {
        let height = self.scale.row();
        let gaps = u32::from((row / AGAIN).min(self.again)) * GAP;
        Self::top() + u32::from(row) * height + 11 + gaps
    }

    /// Where the first row begins.
    pub(crate) fn top() -> u32
        ensures low { 100 ≤ result }
        ensures high { result ≤ 112 }
    {
        108
    }

    /// Where the last row ends.
    pub(crate) fn end(&self) -> u32
        ensures { result < 2 ^ 22 + 32 }
    {
        self.y(self.rows.saturating_sub(1)) + 12
    }

    /// Where the lanes end.
    fn lanes_end(&self) -> u32
        ensures { result < 2 ^ 23 }
    {
        LEFT + u32::from(self.lanes) * self.scale.pitch() + 40
    }

    /// Where the lines of the trace begin: behind the lanes and each label, and the number of an event.
    fn text_of(&self, alloc: A, rows: &[Row]) -> Result<u32, AllocError> {
        let mut most = self.lanes_end();
        let mut label = Vec::new(alloc);
        for row in rows {
            label.clear();
            if self.scale.is_labelled() {
                put_label(&mut label, row)?;
            }
            most = most.max(self.label_x(row) + span_of(label.len(), 7));
        }
        Ok(most.saturating_add(60))
    }

    /// Where the label of a row begins.
    pub(crate) fn label_x(&self, row: &Row) -> u32
        ensures { result < 2 ^ 23 + 12 }
    {
        match row.target {
            Some(target) => self.x(target) + 12,
            None => self.x(row.lane) + 12,
        }
    }

    /// How wide the picture is: each line of the trace has room, with what is noted beside it.
    fn width_of(&self, text: &[u8], notes: &[Note<A>]) -> u32 {
        let mut most = 40;
        let mut left = text;
        for _ in 0..self.rows.saturating_add(1) {
            let Some((line, behind)) = split_line(left) else {
                break;
            };
            most = most.max(line.len().min(SHOWN));
            left = behind;
        }
        let longest = notes.iter().map(|note| note.words.len()).max().unwrap_or(0);
        let wide = span_of(most, 8).saturating_add(span_of(longest, 8));
        self.text.saturating_add(wide).saturating_add(48).max(900)
    }
}
