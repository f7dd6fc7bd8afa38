//! What a trace of three ranks tells of their agreements, and whether it is as it must be.
use std::alloc::{AllocError, Global};
use std::test::Fail;

/// A reply `agreed`, from its first word on, and the round that it is of.
#[derive(Clone, Copy)]
struct Agreed<'a> {
    comm: &'a str,
    round: &'a str,
    reply: &'a str,
}

/// The last four replies to a rank, each from its first word on.
#[derive(Clone, Copy)]
struct Replies<'a> {
    first: &'a str,
    second: &'a str,
    third: &'a str,
    last: &'a str,
}

/// What a trace tells of a rank.
#[derive(Clone, Copy)]
struct Told<'a> {
    rank: &'a str,
    declared: bool,
    replies: Replies<'a>,
}

/// The word at this place of a line, from 0; empty where there is none.
fn word(line: &str, place: usize) -> &str {
    line.split(' ').nth(place).unwrap_or("")
}

/// The reply of a line, without its caller and its point.
fn reply_of(line: &str) -> &str {
    line.splitn(4, ' ').nth(3).unwrap_or("")
}

fn is_declaration_of(line: &str, rank: &str) -> bool {
    word(line, 0) == "event"
        && word(line, 1) == "-"
        && word(line, 2) == "fail"
        && word(line, 3) == rank
}

fn is_poll_of(line: &str, rank: &str) -> bool {
    word(line, 0) == "call" && word(line, 1) == "poll" && word(line, 2) == rank
}

fn is_reply_to(line: &str, rank: &str) -> bool {
    word(line, 0) == "reply" && word(line, 1) == rank
}

/// The rank gives its own flag.
fn is_settle_of(line: &str, rank: &str) -> bool {
    word(line, 0) == "event"
        && word(line, 1) == rank
        && word(line, 2) == "settle"
        && word(line, 5) == rank
}

/// Adds each reply `agreed` to a rank: it is of the round in which the rank gave its flag last, on the communicator that it polled last.
fn add_agreed<'a>(
    agreed: &mut Vec<Agreed<'a>>,
    alloc: Global,
    trace: &'a str,
    rank: &str,
) -> Result<(), AllocError> {
    let mut comm = "";
    let mut settles: Vec<&'a str> = Vec::new(alloc);
    for line in trace.lines() {
        if is_poll_of(line, rank) {
            comm = word(line, 3);
        }
        if is_settle_of(line, rank) {
            settles.push(line)?;
        }
        if is_reply_to(line, rank) && word(line, 3) == "agreed" {
            if let Some(settle) = settles.iter().rfind(|settle| word(settle, 3) == comm) {
                let round = word(settle, 4);
                let reply = reply_of(line);
                agreed.push(Agreed { comm, round, reply })?;
            }
        }
    }
    Ok(())
}

impl<'a> Agreed<'a> {
    /// The two are of one round, and are answered differently.
    fn differs(&self, other: &Agreed<'a>) -> bool {
        let same_comm = self.comm == other.comm;
        let same_round = self.round == other.round;
        let same_reply = self.reply == other.reply;
        same_comm && same_round && !same_reply
    }
}

/// What the lines of a trace tell of a rank.
fn told_of<'a>(trace: &'a str, rank: &'a str) -> Told<'a> {
    let mut declared = false;
    let mut replies = Replies {
        first: "",
        second: "",
        third: "",
        last: "",
    };
    for line in trace.lines() {
        if is_declaration_of(line, rank) {
            declared = true;
        }
        if is_reply_to(line, rank) {
            replies = Replies {
                first: replies.second,
                second: replies.third,
                third: replies.last,
                last: reply_of(line),
            };
        }
    }
    Told {
        rank,
        declared,
        replies,
    }
}

impl<'a> Told<'a> {
    /// The rank is answered `agreed` and then `shrunk` at the end, as another is.
    fn ends_as(&self, other: &Told<'a>) -> bool {
        word(self.replies.first, 0) == "started"
            && word(self.replies.second, 0) == "agreed"
            && word(self.replies.third, 0) == "started"
            && word(self.replies.last, 0) == "shrunk"
            && self.replies.second == other.replies.second
            && self.replies.last == other.replies.last
    }

    /// The rank is among the members that its last reply, a `shrunk`, tells.
    fn is_member(&self) -> bool {
        self.replies
            .last
            .split(' ')
            .enumerate()
            .any(|(place, member)| place >= 5 && member == self.rank)
    }
}

/// What a trace tells is as it must be: one answer a round, and who isn't declared ends in one new communicator.
pub(crate) fn judge(alloc: Global, trace: &str) -> Result<(), Fail> {
    let mut agreed = Vec::new(alloc);
    for rank in ["0", "1", "2"] {
        add_agreed(&mut agreed, alloc, trace, rank)?;
    }
    for one in agreed.iter() {
        if agreed.iter().any(|other| one.differs(other)) {
            return Err(Fail::from("a round has two answers"));
        }
    }
    let all = [
        told_of(trace, "0"),
        told_of(trace, "1"),
        told_of(trace, "2"),
    ];
    let Some(first) = all.iter().find(|told| !told.declared) else {
        return Err(Fail::from("all ranks are declared"));
    };
    for told in all.iter() {
        if !told.declared && !told.ends_as(first) {
            return Err(Fail::from("it ends otherwise"));
        }
        if !told.declared && !told.is_member() {
            return Err(Fail::from("somebody is left out"));
        }
    }
    Ok(())
}
