//! Which rank is declared failed in the middle of a script of steps, and when.
ghost use Rattle.std.specs.Prelude.{◌<◌};

/// A rank that is declared failed, and after how many atomic steps of a script's lines.
#[derive(Clone, Copy)]
pub struct Failing {
    /// After how many atomic steps it is declared; for 0 right behind the header.
    pub at: u32,
    /// Who is declared, 0 to 1023, also where the world doesn't have the rank.
    pub rank: u16,
    /// Scripts can name the rank.
    pub ghost fits: { rank < 1024 },
}
