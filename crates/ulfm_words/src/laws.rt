//! Laws of places and of the words of slots and blocks. Each function does nothing: what it ensures is a law.
ghost use Rattle.std.specs.Prelude.{◌≡◌, Some};
ghost use Rattle.ulfm_model.specs.Words.{slot_wing, slot_word};
ghost use Rattle.ulfm_model.specs.declared.contribution.Slot.{Slot};
ghost use Rattle.ulfm_model.specs.declared.limits.Limits.{Limits};
ghost use Rattle.ulfm_words.specs.Blocks.{BlocksAreRead, BlocksHaveOneWord, SlotsAreOfSome};
ghost use Rattle.ulfm_words.specs.Places.{HaveWords};
ghost use Rattle.ulfm_words.specs.Slots.{HaveOneWord, slot_of};

use ulfm_laws::flag_and::FlagAnd;
use ulfm_laws::meld::Packed;

/// Each place has a word of its own: it stands in the row of all words, and that of no other place stands there.
pub fn places_have_words()
    ensures { (limits : Limits) → HaveWords limits }
{}

/// With flags of 64 bits each slot has one word and one wing: those that are read as a slot are the ones that `slot_words` gives. Marks
/// and masks have one of each whatever the flags are; `read_slot` says so.
pub fn slots_have_one_word()
    ensures { HaveOneWord ⟦<FlagAnd as Packed>⟧.pack ⟦<FlagAnd as Packed>⟧.unpack }
{}

/// The word of a slot and its wing are read as that slot, whatever the flags are.
pub fn slots_are_read<P: Packed>()
    ensures { (s : Slot P) → slot_of P.unpack (slot_word P.pack s) (slot_wing P.pack s) ≡ Some s }
{}

/// The word and the wing of what settled members say together, at least one of them, are read as that, whatever the flags are.
pub fn blocks_are_read<P: Packed>()
    ensures read { BlocksAreRead P.pack P.unpack }
    ensures some { SlotsAreOfSome P.meld }
{}

/// A block's word and wing stand for one summary. With flags of 64 bits they are those of it, as they are for marks, masks and clashes
/// whatever the flags are.
pub fn blocks_have_one_word<P: Packed>()
    ensures { BlocksHaveOneWord P.pack P.unpack }
{}
