//! At most eight ranks, as a list and as a set of bits.

/// At most eight ranks in an order.
#[derive(Clone, Copy, Debug, PartialEq, Eq)]
pub(crate) struct Few {
    ranks: [u8; 8],
    count: u8,
}

impl Few {
    /// Nobody.
    pub(crate) fn none() -> Few {
        Few {
            ranks: [0; 8],
            count: 0,
        }
    }

    /// The ranks of a set, in their order.
    pub(crate) fn of_set(set: u8) -> Few {
        let mut few = Few::none();
        for rank in 0..8 {
            if has_bit(set, rank) {
                few.add(rank);
            }
        }
        few
    }

    /// One more rank, where there is room.
    pub(crate) fn add(&mut self, rank: u8) {
        if let Some(place) = self.ranks.get_mut(usize::from(self.count)) {
            *place = rank;
            self.count = self.count.saturating_add(1);
        }
    }

    /// How many there are, at most 8.
    pub(crate) fn count(&self) -> u8 {
        self.count
    }

    /// The rank at a place of the list.
    pub(crate) fn get(&self, place: u8) -> Option<u8> {
        if place >= self.count {
            return None;
        }
        self.ranks.get(usize::from(place)).copied()
    }

    /// Whether a rank is one of them.
    pub(crate) fn has(&self, rank: u8) -> bool {
        has_bit(self.set(), rank)
    }

    /// Them as a set.
    pub(crate) fn set(&self) -> u8 {
        let mut set = 0;
        for place in 0..self.count {
            if let Some(rank) = self.get(place) {
                set = with_bit(set, rank);
            }
        }
        set
    }
}

/// The bit of a number below 8; no bit of another.
fn bit(number: u8) -> u8 {
    1u8.checked_shl(u32::from(number)).unwrap_or(0)
}

/// Whether a set has a number.
pub(crate) fn has_bit(set: u8, number: u8) -> bool {
    set & bit(number) != 0
}

/// A set with one more number.
pub(crate) fn with_bit(set: u8, number: u8) -> u8 {
    set | bit(number)
}

/// A set without a number.
pub(crate) fn without_bit(set: u8, number: u8) -> u8 {
    set & !bit(number)
}
