// What a reply leaves of a rank's record, a communicator that it makes included.
ghost use Rattle.std.specs.Prelude.{◌≡◌, OnErr, OnOk, Some};
ghost use Rattle.ulfm_model.specs.Terms.{comm_of};
ghost use Rattle.ulfm_model.specs.Answers.{left_by, traits_of};
ghost use Rattle.ulfm_model.specs.Records.{Held, Record, held_at};
ghost use Rattle.ulfm_model.specs.declared.reply.Reply.TheVariants.{Started};
ghost use Rattle.ulfm_model.specs.Kept.{FitsNext, record_of};

use std::alloc::{AllocError, Allocator};
use ulfm_model::call::{Call, comm_of};
use ulfm_model::event::Entry;
use ulfm_model::groups::members;
use ulfm_model::held::{HeldComm, take_in};
use ulfm_model::leaves::settle;
use ulfm_model::limits::Limits;
use ulfm_model::record::RankRecord;
use ulfm_model::reply::Reply;

/// Takes in a reply, with the failures that the rank has seen by then. Memory is taken first: after an error the record is as
/// it was.
pub fn leave<P: Copy, A: Allocator + Copy + Drop>(
    alloc: A,
    limits: Limits,
    after: &[Entry<P>],
    own: &mut RankRecord<A>,
    seen: Vec<u16, A>,
    asked: &Call<P>,
    reply: Reply<P>,
) -> Result<(), AllocError>
    requires { (x : Held) → reply ≡ Started → held_at (record_of limits own.old) (comm_of asked.now) ≡ Some x → FitsNext ((traits_of asked.now).starts x) }
    ensures ok { let now : Record = record (record_of limits own.old) { seen = seen.items } in
        OnOk result (record_of limits own.new ≡ left_by limits.ranks after.now now asked.now reply) }
    ensures err { OnErr result (record_of limits own.new ≡ record_of limits own.old) }
{
    match reply {
        Reply::Shrunk { comm, context, .. } => {
            let group = members(alloc, limits.ranks, after, comm)?;
            let made = HeldComm::new(comm, context, group);
            own.held.reserve(1)?;
            take_in(&mut own.held, comm_of(asked), made);
            own.seen = seen;
        }
        _ => {
            own.seen = seen;
            settle(own, asked, reply);
        }
    }
    Ok(())
}
