//! Replies, each once, and what ranks note of them.
use crate::few::Few;
use std::alloc::{AllocError, Allocator};
use std::collections::HashMap;
use std::hash::{BuildHasherDefault, FoldHasher};
use ulfm_laws::FlagAnd;
use ulfm_model::{Refusal, Reply};
use ulfm_script::{LastGroup, print_reply};

/// A reply, with the ranks that it lists.
#[derive(Clone, Copy, Debug, PartialEq, Eq)]
pub(crate) struct Answer {
    /// What a call is answered.
    pub(crate) reply: Reply<FlagAnd>,
    /// A failed group, or the members of a new communicator; else nobody.
    pub(crate) group: Few,
}

/// A reply that lists nobody.
pub(crate) fn plain(reply: Reply<FlagAnd>) -> Answer {
    Answer {
        reply,
        group: Few::none(),
    }
}

/// A refusal.
pub(crate) fn refused(refusal: Refusal) -> Answer {
    plain(Reply::Refused(refusal))
}

/// The text of a reply, as scripts print it.
pub(crate) fn answer_text<A: Allocator + Copy>(
    alloc: A,
    answer: &Answer,
) -> Result<Vec<u8, A>, AllocError> {
    let mut group = Vec::new(alloc);
    for place in 0..answer.group.count() {
        if let Some(rank) = answer.group.get(place) {
            group.push(u16::from(rank))?;
        }
    }
    let mut last = LastGroup::new(alloc);
    let mut text = Vec::new(alloc);
    print_reply(&mut text, &answer.reply, &group, &mut last)?;
    Ok(text)
}

/// The replies that came up, each with its text.
#[derive(Drop)]
pub(crate) struct Answers<A: Allocator> {
    alloc: A,
    known: Vec<Answer, A>,
    texts: Vec<Vec<u8, A>, A>,
}

impl<A: Allocator + Copy + Drop> Answers<A> {
    pub(crate) fn new(alloc: A) -> Answers<A> {
        Answers {
            alloc,
            known: Vec::new(alloc),
            texts: Vec::new(alloc),
        }
    }

    /// The number of a reply, counted from 1.
    pub(crate) fn number(&mut self, answer: Answer) -> Result<u16, AllocError> {
        if let Some(at) = self.known.iter().position(|known| *known == answer) {
            return Ok(number_behind(at));
        }
        let at = self.known.len();
        let text = answer_text(self.alloc, &answer)?;
        self.texts.push(text)?;
        self.known.push(answer)?;
        Ok(number_behind(at))
    }

    /// The text of a reply, by its number; none of 0.
    pub(crate) fn text(&self, number: u16) -> Option<&[u8]> {
        let at = usize::from(number).checked_sub(1)?;
        match self.texts.get(at) {
            Some(text) => Some(text.as_slice()),
            None => None,
        }
    }
}

/// The number behind a place, of 16 bits.
fn number_behind(at: usize) -> u16 {
    u16::try_from(at).unwrap_or(u16::MAX).saturating_add(1)
}

/// What a rank notes: a reply, by its number, or words of its own, by the number of their text.
#[derive(Clone, Copy, Debug, PartialEq, Eq)]
pub(crate) enum Note {
    /// A reply, by its number.
    Reply(u16),
    /// Words that were said, by their number.
    Said(u16),
}

/// A note as a number.
fn note_number(note: Note) -> u32 {
    match note {
        Note::Reply(number) => u32::from(number) << 1,
        Note::Said(text) => (u32::from(text) << 1) | 1,
    }
}

/// Lists of notes, each with a number: 0 is the empty one.
#[derive(Drop)]
pub(crate) struct Notes<A: Allocator> {
    alloc: A,
    // For each list but the empty one, the list before its last note, and that note.
    lists: Vec<(u32, Note), A>,
    numbers: HashMap<(u32, u32), u32, BuildHasherDefault<FoldHasher>, A>,
}

impl<A: Allocator + Copy + Drop> Notes<A> {
    pub(crate) fn new(alloc: A) -> Notes<A> {
        Notes {
            alloc,
            lists: Vec::new(alloc),
            numbers: HashMap::new(alloc),
        }
    }

    /// The number of a list with one more note.
    pub(crate) fn add(&mut self, list: u32, note: Note) -> Result<u32, AllocError> {
        let key = (list, note_number(note));
        if let Some(number) = self.numbers.get(&key) {
            return Ok(*number);
        }
        self.lists.push((list, note))?;
        let number = u32::try_from(self.lists.len()).unwrap_or(u32::MAX);
        self.numbers.insert(key, number)?;
        Ok(number)
    }

    /// The notes of a list.
    pub(crate) fn list(&self, number: u32) -> Result<Vec<Note, A>, AllocError> {
        let mut notes = Vec::new(self.alloc);
        let mut left = number;
        for _ in 0..self.lists.len() {
            let Some(at) = (left as usize).checked_sub(1) else {
                break;
            };
            let Some((before, note)) = self.lists.get(at) else {
                break;
            };
            notes.push(*note)?;
            left = *before;
        }
        notes.reverse();
        Ok(notes)
    }
}
