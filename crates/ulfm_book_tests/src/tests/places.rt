// Threads that set one place at once.
ghost use Rattle.ulfm_words.specs.Steps.{view_of, IsView};

use crate::tests::words::{limits, revoke};
use std::alloc::{AllocError, Global};
use std::marker::Model;
use std::test::Fail;
use std::thread::{self, Threads};
use ulfm_book::{BookPass, BookWords};
use ulfm_laws::{FlagAnd, Packed};
use ulfm_words::OpenWords;

/// Words, and a pass of theirs.
#[derive(Drop)]
struct Setter<'a, P: Packed> {
    words: &'a BookWords<P>,
    pass: BookPass<P>,
}

impl<'a, P: Packed> Model for Setter<'a, P> {
    ghost use Rattle.ulfm_words.specs.Steps.{IsView, Name, view_of};

    ghost Value = { Name };

    ghost view = { λ s. s.words.now };

    ghost invariant = { λ s. IsView P.meld (view_of P.pack s.words.now s.pass) };
}

impl<'a, P: Packed> Setter<'a, P> {
    fn new(words: &'a BookWords<P>, pass: BookPass<P>) -> Setter<'a, P>
        requires { IsView P.meld (view_of P.pack words.now pass) }
    {
        Setter { words, pass }
    }

    /// Revokes the world: whether this call did it.
    fn revoke(&mut self) -> bool {
        revoke(self.words, &mut self.pass, 0).is_ok()
    }
}

/// Each revokes the world on a thread of its own.
fn revoke_on_all<'a, R: Threads + Sync>(
    rt: &R,
    all: Vec<Setter<'a, FlagAnd>>,
) -> Result<Vec<bool>, AllocError> {
    thread::map_vec(rt, all, &|mut setter| setter.revoke())
}

/// Four threads revoke one world: how many of them did it.
fn revoke_one<R: Threads + Sync>(
    rt: &R,
    alloc: Global,
    words: &BookWords<FlagAnd>,
) -> Result<usize, AllocError> {
    let mut all = Vec::new(alloc);
    for _ in 0..4 {
        all.push(Setter::new(words, words.pass(alloc)?))?;
    }
    let won = revoke_on_all(rt, all)?;
    Ok(won.iter().filter(|won| **won).count())
}

#[test]
fn never_twice_a_place(rt: HostRuntime) -> Result<(), Fail> {
    for _ in 0..64 {
        let words = BookWords::open(rt.alloc(), limits(4, 1))?;
        assert_eq!(rt; revoke_one(&rt, rt.alloc(), &words)?, 1);
    }
    Ok(())
}
