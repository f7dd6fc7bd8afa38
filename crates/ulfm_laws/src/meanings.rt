//! What the kinds of contribution stand for, and what their laws come to.
//!
//! Each function here is a theorem: it does nothing, and its clauses hold of all values that they name. Who calls it
//! may use them in a proof.
ghost use Rattle.std.specs.Prelude.{◌≡◌, ◌↔◌, ℕ, ◌<◌, ◌≤◌, ◌^◌, min, max, List, [], ◌++◌, length, take, Some};
ghost use Rattle.std.specs.Prelude.{Contains, IsBitSet};
ghost use Rattle.ulfm_laws.specs.Combined.{combined};
ghost use Rattle.ulfm_laws.specs.Lawful.{IsLawful};
ghost use Rattle.ulfm_laws.specs.Ranges.{payload_bits};
ghost use Rattle.ulfm_laws.specs.StandsFor.{MeldsToUnion, MeldsToIntersection, places};
ghost use Rattle.ulfm_laws.specs.StandsFor.{flag_stands_for, mask_stands_for};
ghost use Rattle.ulfm_laws.specs.StandsFor.{known_stands_for, acked_stands_for};
ghost use Rattle.ulfm_laws.specs.declared.summary.Acked.{Acked};
ghost use Rattle.ulfm_laws.specs.declared.summary.CtxMask.{CtxMask};
ghost use Rattle.ulfm_laws.specs.declared.flag_and.FlagAnd.{FlagAnd};
ghost use Rattle.ulfm_laws.specs.declared.summary.Known.{Known};

use crate::meld::{Meld, Packed};
use crate::{Acked, Body, CtxMask, FlagAnd, Known, Summary};

/// A flag stands for the places of its bits, 0 to 63. The meld of two flags has a bit exactly where both have it,
/// that of many where each has it.
pub fn flags_intersect()
    ensures bits { (x : FlagAnd) (i : ℕ) →
        Contains (flag_stands_for x) i ↔ ((i < payload_bits) × IsBitSet x.bits i) }
    ensures melds { MeldsToIntersection places
        ⟦<FlagAnd as Meld>⟧.unit ⟦<FlagAnd as Meld>⟧.meld flag_stands_for }
{}

/// A mask stands for a set of context ids, 0 to 63. The meld of masks stands for the intersection of their sets.
pub fn masks_intersect()
    ensures ids { (x : CtxMask) (id : ℕ) →
        Contains (mask_stands_for x) id ↔ ((id < payload_bits) × IsBitSet x.bits id) }
    ensures melds { MeldsToIntersection places
        ⟦<CtxMask as Meld>⟧.unit ⟦<CtxMask as Meld>⟧.meld mask_stands_for }
{}

/// A count of known failures stands for that many first ranks of a failed group, whichever group it is. The meld
/// stands for the union, and so the union's length is the greatest.
pub fn known_groups_unite()
    ensures melds { (failed : List ℕ) →
        MeldsToUnion ⟦<Known as Meld>⟧.unit ⟦<Known as Meld>⟧.meld (known_stands_for failed) }
    ensures length { (failed : List ℕ) (x y : Known) →
        length (known_stands_for failed (⟦<Known as Meld>⟧.meld x y))
        ≡ max (length (known_stands_for failed x)) (length (known_stands_for failed y)) }
{}

/// A count of acknowledged failures stands for that many first ranks of a failed group, whichever group it is, and
/// 2047 for everyone in it. The meld stands for the intersection, and so the intersection's length is the least.
///
/// No failed group has more than 1024 ranks, and of such a group the first 2047 are everyone, as `beginning` says.
pub fn acknowledged_groups_intersect()
    ensures melds { (failed : List ℕ) →
        MeldsToIntersection failed
        ⟦<Acked as Meld>⟧.unit ⟦<Acked as Meld>⟧.meld (acked_stands_for failed) }
    ensures length { (failed : List ℕ) (x y : Acked) →
        length (acked_stands_for failed (⟦<Acked as Meld>⟧.meld x y))
        ≡ min (length (acked_stands_for failed x)) (length (acked_stands_for failed y)) }
    ensures beginning { (failed : List ℕ) (x : Acked) → length failed ≤ 1024 →
        acked_stands_for failed x ≡ take x.count failed }
{}

/// Each of the four kinds is lawful.
pub fn kinds_are_lawful()
    ensures flag { IsLawful ⟦<FlagAnd as Meld>⟧.unit ⟦<FlagAnd as Meld>⟧.meld }
    ensures mask { IsLawful ⟦<CtxMask as Meld>⟧.unit ⟦<CtxMask as Meld>⟧.meld }
    ensures known { IsLawful ⟦<Known as Meld>⟧.unit ⟦<Known as Meld>⟧.meld }
    ensures acked { IsLawful ⟦<Acked as Meld>⟧.unit ⟦<Acked as Meld>⟧.meld }
{}

/// Bodies and summaries are lawful over each payload that is.
pub fn bodies_and_summaries_are_lawful<P: Meld>()
    ensures payload { IsLawful P.unit P.meld }
    ensures body { IsLawful ⟦<Body<P> as Meld>⟧.unit ⟦<Body<P> as Meld>⟧.meld }
    ensures summary { IsLawful ⟦<Summary<P> as Meld>⟧.unit ⟦<Summary<P> as Meld>⟧.meld }
{}

/// Many values may be combined in parts, in any order, and each as often as it is met: only which values there are
/// counts.
pub fn parts_meld<P: Meld>()
    ensures append { (xs ys : List P) →
        combined P.unit P.meld (xs ++ ys)
        ≡ P.meld (combined P.unit P.meld xs) (combined P.unit P.meld ys) }

    // Lists with the same members are combined alike.
    ensures members { (xs ys : List P) → ((x : P) → Contains xs x ↔ Contains ys x) →
        combined P.unit P.meld xs ≡ combined P.unit P.meld ys }
{}

/// A value comes back from its word, and the word has 64 bits.
pub fn packing_is_exact<P: Packed>()
    ensures round_trip { (x : P) → P.unpack (P.pack x) ≡ Some x }
    ensures fits { (x : P) → P.pack x < 2 ^ payload_bits }
{}
