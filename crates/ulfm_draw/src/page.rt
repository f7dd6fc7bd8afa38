//! A picture while it is written. What begins an element gives another type, and only closing it gives the first type back.
ghost use Rattle.std.specs.Prelude.{◌≡◌, ◌++◌, ◌∷◌, [], IfOk, OnErr, OnOk};
ghost use Rattle.ulfm_draw.specs.Markup.{EndsWith, IsWellFormed, Place, filled, in_group, in_picture, scan};
ghost use Rattle.ulfm_draw.specs.Leaves.{leaf_text};
ghost use Rattle.ulfm_draw.specs.Markup.Place.{Before};

use crate::filling::{Filling, fill, put_words};
use crate::leaf::Leaf;
use std::alloc::{AllocError, Allocator};

/// What the picture's element begins with.
const HEAD: &[u8] =
    b"<svg xmlns=\"http://www.w3.org/2000/svg\" width=\"#\" height=\"#\" viewBox=\"0 0 # #\" role=\"img\" aria-labelledby=\"t d\">\n<title id=\"t\">$</title>\n";

/// Its description.
const DESCRIPTION: &[u8] = b"<desc id=\"d\">$</desc>\n";

/// Its style.
const STYLE: &[u8] = b"<style>$</style>\n";

/// What a group begins with, and one that has a title.
const GROUP: &[u8] = b"<g>\n";

const TITLED: &[u8] = b"<g><title>$</title>\n";

/// What ends a group.
const GROUP_END: &[u8] = b"</g>\n";

/// What the last words of a picture begin with, and what ends them and the picture.
const LAST: &[u8] = b"<text class=\"@\" x=\"24\" y=\"#\"";

const END: &[u8] = b"</text>\n</svg>\n";

/// A picture between its groups.
#[derive(Drop)]
pub struct Page<A: Allocator> {
    bytes: Vec<u8, A>,
    piece: Vec<u8, A>,
    ghost stands: { scan Before bytes.items ≡ in_picture },
}

/// A picture in a group.
#[derive(Drop)]
pub struct Group<A: Allocator> {
    bytes: Vec<u8, A>,
    piece: Vec<u8, A>,
    ghost stands: { scan Before bytes.items ≡ in_group },
}

/// Numbers and words, and no class.
fn worded<'a>(numbers: &'a [u32], words: &'a [u8]) -> Filling<'a>
    ensures class { result.class.now ≡ [] }
    ensures numbers { result.numbers.now ≡ numbers.now }
    ensures words { result.words.now ≡ words.now }
{
    Filling {
        class: b"",
        numbers,
        words,
    }
}

impl<A: Allocator + Copy> Page<A> {
    /// A picture of this size, with its title, its description and its style.
    pub fn open(
        alloc: A,
        width: u32,
        height: u32,
        title: &[u8],
        description: &[u8],
        style: &[u8],
    ) -> Result<Page<A>, AllocError>
        ensures { IfOk result (λ page. page.bytes.items ≡ filled [] (width ∷ height ∷ width ∷ height ∷ []) title.now HEAD.now
            ++ filled [] [] description.now DESCRIPTION.now ++ filled [] [] style.now STYLE.now) }
    {
        let mut bytes = Vec::new(alloc);
        let numbers = [width, height, width, height];
        fill(&mut bytes, HEAD, &worded(&numbers, title))?;
        fill(&mut bytes, DESCRIPTION, &worded(&[], description))?;
        fill(&mut bytes, STYLE, &worded(&[], style))?;
        let piece = Vec::new(alloc);
        Ok(Page { bytes, piece })
    }
}

impl<A: Allocator> Page<A> {
    /// Begins a group.
    pub fn group(self) -> Result<Group<A>, AllocError>
        ensures { IfOk result (λ group. group.bytes.items ≡ self.bytes.items ++ GROUP.now) }
    {
        let Page { mut bytes, piece } = self;
        bytes.extend_from_slice(GROUP)?;
        Ok(Group { bytes, piece })
    }

    /// Begins a group that has a title.
    pub fn titled(self, title: &[u8]) -> Result<Group<A>, AllocError>
        ensures { IfOk result (λ group. group.bytes.items ≡ self.bytes.items ++ filled [] [] title.now TITLED.now) }
    {
        let Page { mut bytes, piece } = self;
        fill(&mut bytes, TITLED, &worded(&[], title))?;
        Ok(Group { bytes, piece })
    }

    /// Ends the picture with words of this class at this y, and gives it.
    pub fn finish(self, class: &[u8], y: u32, words: &[u8]) -> Result<Vec<u8, A>, AllocError>
        ensures well_formed { IfOk result (λ shown. IsWellFormed shown.items) }
        ensures ends { IfOk result (λ shown. EndsWith shown.items words.now) }
    {
        let Page {
            mut bytes,
            piece: _,
        } = self;
        let filling = Filling {
            class,
            numbers: &[y],
            words: b"",
        };
        fill(&mut bytes, LAST, &filling)?;
        bytes.extend_from_slice(b">")?;
        put_words(&mut bytes, words)?;
        bytes.extend_from_slice(END)?;
        Ok(bytes)
    }
}

impl<A: Allocator> Group<A> {
    /// Puts an element into the group, with its class, its numbers and its words in the places that they have in it.
    pub fn put(
        &mut self,
        leaf: Leaf,
        class: &[u8],
        numbers: &[u32],
        words: &[u8],
    ) -> Result<(), AllocError>
        ensures put { OnOk result (self.new.bytes.items ≡ self.old.bytes.items
            ++ filled class.now numbers.now words.now (leaf_text leaf)) }
        ensures failed { OnErr result (self.new.bytes.items ≡ self.old.bytes.items) }
    {
        self.piece.clear();
        let filling = Filling {
            class,
            numbers,
            words,
        };
        fill(&mut self.piece, leaf.text(), &filling)?;
        self.bytes.extend_from_slice(&self.piece)
    }

    /// Ends the group.
    pub fn close(self) -> Result<Page<A>, AllocError>
        ensures { IfOk result (λ page. page.bytes.items ≡ self.bytes.items ++ GROUP_END.now) }
    {
        let Group { mut bytes, piece } = self;
        bytes.extend_from_slice(GROUP_END)?;
        Ok(Page { bytes, piece })
    }
}
