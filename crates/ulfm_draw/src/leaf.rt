//! The elements that a picture's groups are made of.
ghost use Rattle.std.specs.Prelude.{◌≡◌};
ghost use Rattle.ulfm_draw.specs.{Leaves.{leaf_text}, Markup.{in_group, scan}};

/// An element without others in it. In its text `@` stands for a class, `#` for the next number and `$` for words.
#[derive(Clone, Copy, Debug, PartialEq, Eq)]
pub enum Leaf {
    /// A rectangle: its place, its size and the radius of its corners.
    Box,
    /// A line from a place to this x.
    Across,
    /// A line from a place to this y.
    Down,
    /// A disc: its middle and its radius.
    Disc,
    /// A diamond: its upper corner, and six times half its width.
    Diamond,
    /// A cross: its left upper corner.
    Cross,
    /// A triangle: its upper corner, and then its half width, its height and its width.
    Triangle,
    /// A hexagon: its left upper corner.
    Hexagon,
    /// A small diamond: its upper corner.
    Point,
    /// Words: their place.
    Words,
}

impl Leaf {
    /// Its text, with the marks for what is put there.
    pub(crate) fn text(self) -> &'static [u8]
        ensures text { result.now ≡ leaf_text self }
        ensures whole { scan in_group result.now ≡ in_group }
    {
        match self {
            Leaf::Box => b"<rect class=\"@\" x=\"#\" y=\"#\" width=\"#\" height=\"#\" rx=\"#\"/>\n",
            Leaf::Across => b"<path class=\"@\" d=\"M# #H#\"/>\n",
            Leaf::Down => b"<path class=\"@\" d=\"M# #V#\"/>\n",
            Leaf::Disc => b"<circle class=\"@\" cx=\"#\" cy=\"#\" r=\"#\"/>\n",
            Leaf::Diamond => b"<path class=\"@\" d=\"M# #l# #l-# #l-# -#z\"/>\n",
            Leaf::Cross => b"<path class=\"@\" d=\"M# #l6 6m0 -6l-6 6\"/>\n",
            Leaf::Triangle => b"<path class=\"@\" d=\"M# #l# #h-#z\"/>\n",
            Leaf::Hexagon => b"<path class=\"@\" d=\"M# #h6l4 7l-4 7h-6l-4 -7z\"/>\n",
            Leaf::Point => b"<path class=\"@\" d=\"M# #l5 5l-5 5l-5 -5z\"/>\n",
            Leaf::Words => b"<text class=\"@\" x=\"#\" y=\"#\">$</text>\n",
        }
    }
}
