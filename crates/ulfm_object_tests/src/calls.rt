//! Calls as lines of scripts, on flags that are melded by and, and replies as they are printed.
use std::alloc::Global;
use std::test::Fail;
use ulfm_laws::flag_and::FlagAnd;
use ulfm_model::call::{Call, comm_of};
use ulfm_model::limits::Limits;
use ulfm_model::reply::Reply;
use ulfm_object::Object;
use ulfm_script::{LastGroup, Version, print_reply, read_call_of};

/// The call that a line asks for, in any version.
pub(crate) fn call_of(line: &str) -> Result<Call<FlagAnd>, Fail> {
    for version in [Version::First, Version::Second] {
        if let Ok(call) = read_call_of(version, line.as_bytes()) {
            return Ok(call);
        }
    }
    Err(Fail::from("a line is no call"))
}

/// A reply to a call as it is printed, with the group that the object has behind it.
pub(crate) fn told(
    alloc: Global,
    object: &Object<FlagAnd, Global>,
    asked: &Call<FlagAnd>,
    reply: &Reply<FlagAnd>,
) -> Result<Vec<u8>, Fail> {
    let mut text = Vec::new(alloc);
    let mut group = match *reply {
        Reply::Shrunk { comm, .. } => object.members(comm)?,
        _ => object.failed(comm_of(asked))?,
    };
    if let Reply::FailedGroup { count } = *reply {
        group.truncate(usize::from(count));
    }
    print_reply(&mut text, reply, &group, &mut LastGroup::new(alloc))?;
    Ok(text)
}

pub(crate) fn limits(ranks: u16, comms: u16, rounds: u16) -> Limits {
    Limits {
        ranks,
        comms,
        rounds,
    }
}
