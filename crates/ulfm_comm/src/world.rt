// A world, which is opened over words with its ranks. It makes passes, and lets one learn what another has seen.
ghost use Rattle.std.specs.Prelude.{◌≡◌, [], length, map, MatchResult, IfOk};
ghost use Rattle.std.specs.List.{AllByRecursion};
ghost use Rattle.ulfm_model.specs.History.{first_ranks as all_below};
ghost use Rattle.ulfm_model.specs.Words.{MayOpen};
ghost use Rattle.ulfm_model.specs.Records.{Fits};
ghost use Rattle.ulfm_model.specs.declared.limits.OpenFault.TheVariants.{OutOfMemory};
ghost use Rattle.ulfm_words.specs.Steps.{view_of, IsView, IsNew, Tells, Learns};
ghost use Rattle.ulfm_comm.specs.Counts.{new_rank, records_of};
ghost use Rattle.ulfm_comm.specs.Ranks.{IsEmptyList};

use crate::rank::{LocalState, Rank};
use std::alloc::{AllocError, Allocator};
use std::marker::{Model, PhantomData};
use std::sync::ArcSlice;
use ulfm_laws::meld::Packed;
use ulfm_model::limits::{Limits, OpenFault};
use ulfm_steps::group::first_ranks;
use ulfm_words::{OpenWords, Words};

/// A world of ranks and communicators, over words: 64-bit registers, each of which is set at most once. Its ranks are given out once, when
/// it is opened. In contracts it stands for the identity of its words, with the limits that it was opened with. Examples are of a world of
/// two ranks.
#[derive(Drop)]
pub struct World<W, P: Packed, A: Allocator>
where
    W: Words<P, A>,
{
    // Each atomic step of a call is one of theirs. Nobody outside gets at them: nobody opens a second world over the same words.
    pub(crate) words: W,
    flags: PhantomData<P>,
    memory: PhantomData<A>,
}

impl<W, P: Packed, A: Allocator> Model for World<W, P, A>
where
    W: Words<P, A>,
{
    ghost use Rattle.ulfm_words.specs.Steps.{Name};

    ghost Value = { Name };

    ghost view = { λ w. W.name w.words };
}

impl<W, P: Packed, A: Allocator + Copy> World<W, P, A>
where
    W: Words<P, A>,
{
    /// A world over new words, and one rank of each number, in order. It fails only where memory is refused.
    ///
    /// ```
    /// let words: PlainWords<FlagAnd> = PlainWords::open(limits)?;
    /// let (world, ranks) = World::open(alloc, words)?;
    /// assert!(rt; world.limits() == limits && ranks.len() == 2);
    /// ```
    pub fn open(alloc: A, words: W) -> Result<(World<W, P, A>, Vec<Rank<P, A>, A>), OpenFault>
    where
        W: Drop,
        ensures world { IfOk result (λ o. o.0 ≡ W.name words) }
        ensures ranks { MatchResult result (λ o. o.1.items ≡ map (new_rank (W.name words).limits) (all_below (W.name words).limits.ranks))
            (λ fault. fault ≡ OutOfMemory) }
        ensures fits { IfOk result (λ o. AllByRecursion (Fits P.meld (W.name words).limits []) (records_of o.1.items)) }
    {
        let limits = words.limits();
        match ranks_of(alloc, limits) {
            Ok(ranks) => Ok((
                World {
                    words,
                    flags: PhantomData,
                    memory: PhantomData,
                },
                ranks,
            )),
            Err(_) => Err(OpenFault::OutOfMemory),
        }
    }

    /// The limits that the world was opened with. It makes no atomic step.
    ///
    /// ```
    /// assert!(rt; world.limits().ranks == 2);
    /// ```
    pub fn limits(&self) -> Limits
        ensures { result ≡ self.now.limits }
    {
        self.words.limits()
    }
}

impl<W, P: Packed, A: Allocator> World<W, P, A>
where
    W: OpenWords<P, A>,
{
    /// A new pass, one caller's local view of the words, which has seen nothing. It fails only where memory is refused. It makes no atomic
    /// step.
    ///
    /// ```
    /// let mut pass = world.pass(alloc)?;
    /// assert!(rt; world.fail(&mut pass, 1) == Ok(true));
    /// ```
    pub fn pass(&self, alloc: A) -> Result<W::Pass, AllocError>
        ensures { IfOk result (λ p. IsNew P.meld (view_of P.pack self.now (W.sight p))) }
    {
        self.words.pass(alloc)
    }

    /// What a pass has seen, as a value that another pass may `learn`. It makes no atomic step.
    ///
    /// ```
    /// rank.revoke(&world, &mut pass, 0)?;
    /// let told = world.told(&pass);
    /// let mut other = world.pass(alloc)?;
    /// world.learn(&mut other, &told);
    /// ```
    pub fn told(&self, pass: &W::Pass) -> W::Told
        requires of { IsView P.meld (view_of P.pack self.now (W.sight pass.now)) }
        ensures { Tells W.tells_all (view_of P.pack self.now (W.sight pass.now)) (W.heard result) }
    {
        self.words.told(pass)
    }

    /// The pass takes in what another told: from now on it has seen that too. It makes no atomic step.
    ///
    /// ```
    /// let mut detector = world.pass(alloc)?;
    /// world.fail(&mut detector, 1)?;
    /// world.learn(&mut pass, &world.told(&detector));
    /// ```
    pub fn learn(&self, pass: &mut W::Pass, told: &W::Told)
        requires of { IsView P.meld (view_of P.pack self.now (W.sight pass.old)) }
        requires told { (W.heard told.now).name ≡ self.now }
        ensures { Learns P.meld W.alone (W.heard told.now) (view_of P.pack self.now (W.sight pass.old))
            (view_of P.pack self.now (W.sight pass.new)) }
    {
        self.words.learn(pass, told)
    }
}

// One rank of each number, in order. The members of the world's communicator stand in one list for all of them. What ranks use in each call
// stands close together, behind the lists that most of them leave empty.
fn ranks_of<P: Packed, A: Allocator + Copy>(
    alloc: A,
    limits: Limits,
) -> Result<Vec<Rank<P, A>, A>, AllocError>
    requires { MayOpen limits }
    ensures { IfOk result (λ ranks. ranks.items ≡ map (new_rank limits) (all_below limits.ranks)) }
{
    let group = ArcSlice::from_vec(first_ranks(alloc, limits.ranks)?)?;
    let lists = empty_lists(alloc, limits.ranks)?;
    let mut ranks = Vec::with_capacity(alloc, limits.ranks as usize)?;
    for seen in lists {
        let number = ranks.len() as u16;
        ranks.push(Rank::with_state(LocalState::new(alloc, limits, number, &group, seen)?))?;
    }
    Ok(ranks)
}

// A list for each rank, of the failures that it will have seen: nobody yet, with room for all ranks.
fn empty_lists<A: Allocator + Copy>(alloc: A, ranks: u16) -> Result<Vec<Vec<u16, A>, A>, AllocError>
    ensures each { IfOk result (λ lists. length lists.items ≡ ranks) }
    ensures roomy { IfOk result (λ lists. AllByRecursion (IsEmptyList ranks) lists.items) }
{
    let mut lists = Vec::with_capacity(alloc, ranks as usize)?;
    'room: for _rank in 0..ranks {
        lists.push(Vec::with_capacity(alloc, ranks as usize)?)?;
    }
    Ok(lists)
}
