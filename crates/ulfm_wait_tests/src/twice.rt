// What a user may conclude of two polls of the future of an agree.
ghost use Rattle.std.specs.Prelude.{◌≡◌, true, false, Some};
ghost use Rattle.ulfm_laws.specs.Flags.{flag_meld};
ghost use Rattle.ulfm_laws.specs.declared.flag_and.FlagAnd.{FlagAnd as Flag};
ghost use Rattle.ulfm_wait.specs.Members.{Membership, setting_of};
ghost use Rattle.ulfm_wait.specs.Turns.{HasPolled};

use futures::Future;
use futures::task::{Context, Poll};
use std::alloc::Global;
use ulfm_book::BookWords;
use ulfm_laws::FlagAnd;
use ulfm_wait::AgreeFuture;

/// Polls a future twice, unless the first poll gives its output: whether both polls were pending. Then they made one start, and
/// two polls of its rank, which has given its flag.
pub fn is_pending_twice(
    future: &mut AgreeFuture<BookWords<FlagAnd>, FlagAnd, Global>,
    cx: &mut Context<'_>,
) -> bool
    ensures { result ≡ true → future.old.agree.started ≡ false → (m : Membership _) → future.old.held ≡ Some m
        → HasPolled (setting_of flag_meld (λ (flag : Flag). flag.bits) false) 2 future.old.agree m future.new }
{
    let Poll::Pending = future.poll(cx) else {
        return false;
    };
    let Poll::Pending = future.poll(cx) else {
        return false;
    };
    true
}
