//! The line that a script's call printed last.
ghost use Rattle.std.specs.Prelude.{◌≡◌, ◌++◌, ◌∷◌, [], IsTrue, None, OnOk, Some, if◌then◌else◌};
ghost use Rattle.std.specs.Option.{ForSome};
ghost use Rattle.ulfm_script.specs.Printed.{IsLineOf, is_of_group, reply_text};

use crate::last_group::LastGroup;
use crate::printing::print_reply;
use std::alloc::{AllocError, Allocator};
use ulfm_laws::FlagAnd;
use ulfm_model::Reply;

/// The line that was printed last, and the reply that it tells. Where the same reply comes again, as to each rank of a round, its line stands
/// there already.
#[derive(Drop)]
pub struct LastLine<A: Allocator> {
    /// The reply that the text tells, unless it is about a group.
    reply: Option<Reply<FlagAnd>>,
    /// The line, with its newline.
    pub text: Vec<u8, A>,
    ghost told: { ForSome reply (IsLineOf text.items) },
}

impl<A: Allocator> LastLine<A> {
    /// No line was printed yet, and this is room for one.
    pub(crate) fn new(text: Vec<u8, A>) -> LastLine<A>
        ensures { result.text ≡ text }
    {
        LastLine { reply: None, text }
    }

    /// The line, with its newline.
    pub fn text(&self) -> &[u8]
        ensures { result.now ≡ self.now.text.items }
    {
        &self.text
    }

    /// Makes it the line of this reply, which is about this group. After an error nothing is said of the text.
    #[inline(always)]
    pub(crate) fn put(
        &mut self,
        reply: &Reply<FlagAnd>,
        group: &[u16],
        last: &mut LastGroup<A>,
    ) -> Result<(), AllocError>
        ensures { OnOk result (self.new.text.items ≡ reply_text group.now reply.now ++ 10 ∷ []) }
    {
        if self.is_of(reply) {
            return Ok(());
        }
        self.print(reply, group, last)
    }

    /// Whether it is the line of this reply, whatever the group.
    #[inline(always)]
    fn is_of(&self, reply: &Reply<FlagAnd>) -> bool
        ensures { IsTrue result → self.now.reply ≡ Some reply.now }
    {
        match &self.reply {
            Some(told) => told == reply,
            None => false,
        }
    }

    /// Prints a reply's line in the place of the last.
    fn print(
        &mut self,
        reply: &Reply<FlagAnd>,
        group: &[u16],
        last: &mut LastGroup<A>,
    ) -> Result<(), AllocError>
        ensures { OnOk result (self.new.text.items ≡ reply_text group.now reply.now ++ 10 ∷ []) }
    {
        self.reply = None;
        self.text.clear();
        print_reply(&mut self.text, reply, group, last)?;
        self.text.push(b'\n')?;
        self.reply = alone(reply);
        Ok(())
    }
}

/// A reply that isn't about a group.
fn alone(reply: &Reply<FlagAnd>) -> Option<Reply<FlagAnd>>
    ensures { result ≡ if is_of_group reply.now then None else Some reply.now }
{
    match reply {
        Reply::Shrunk { .. } | Reply::FailedGroup { .. } => None,
        _ => Some(*reply),
    }
}
