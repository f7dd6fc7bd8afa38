// The member of rank 0 of a new world, and of a communicator of its own.
use std::alloc::Allocator;
use std::process::Abort;
use std::test::Fail;
use ulfm_comm::Polled;
use ulfm_laws::flag_and::FlagAnd;
use ulfm_laws::meld::Packed;
use ulfm_wait::Member;
use ulfm_words::OpenWords;

/// The member of rank 0 of a world over new words, which has so many ranks.
pub(crate) fn first_member<W, P: Packed, A: Allocator + Copy>(
    rt: &impl Abort,
    alloc: A,
    words: W,
    count: usize,
) -> Result<Member<W, P, A>, Fail>
where
    W: OpenWords<P, A> + Drop,
{
    let (_, mut members) = ulfm_wait::open(alloc, words)?;
    assert!(rt; members.len() == count && count > 0);
    Ok(members.swap_remove(0))
}

/// What the poll of a shrink gives where rank 0 is left in the new communicator alone.
pub(crate) fn alone_in(comm: u16, context: u8) -> Polled<FlagAnd> {
    Polled::Shrunk {
        comm,
        context,
        size: 1,
    }
}
