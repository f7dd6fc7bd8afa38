//! The states that are known, each once, compared byte by byte.
use crate::choices::{Act, act_number, act_of};
use std::alloc::{AllocError, Allocator};

/// No state.
const NOBODY: u32 = u32::MAX;

/// Rows, one behind another.
///
/// A row is kept in groups of eight bytes: a byte of bits that says which of them aren't 0, and those.
#[derive(Drop)]
struct Rows<A: Allocator> {
    packed: Vec<u8, A>,
    /// Where each row ends in `packed`.
    ends: Vec<u64, A>,
}

/// By state, the state and the act that led to it.
#[derive(Drop)]
struct Origins<A: Allocator> {
    parents: Vec<u32, A>,
    acts: Vec<u8, A>,
}

/// The states, in the order in which they were found, each with the state and the act that led to it.
#[derive(Drop)]
pub(crate) struct Table<A: Allocator> {
    alloc: A,
    width: usize,
    rows: Rows<A>,
    origins: Origins<A>,
    /// The numbers of states by their sums; a power of two.
    places: Vec<u32, A>,
    row: Vec<u8, A>,
}

/// A sum with one more number.
fn sum_with(sum: u64, number: u64) -> u64 {
    (sum.rotate_left(23) ^ number).wrapping_mul(0x9e37_79b9_7f4a_7c15)
}

/// A sum of bytes, for places in the table.
fn sum_of(bytes: &[u8]) -> u64 {
    let (groups, rest) = bytes.as_chunks::<8>();
    let mut sum = 0xcbf2_9ce4_8422_2325u64;
    for group in groups {
        sum = sum_with(sum, u64::from_le_bytes(*group));
    }
    for byte in rest {
        sum = sum_with(sum, u64::from(*byte));
    }
    sum ^ (sum >> 29)
}

/// Adds a group of eight bytes.
fn pack_group<A: Allocator>(group: &[u8; 8], packed: &mut Vec<u8, A>) -> Result<(), AllocError> {
    let mut kept = [0u8; 9];
    let mut count = 1usize;
    let mut bits = 0u8;
    let mut bit = 1u8;
    for byte in group {
        if *byte != 0 {
            bits |= bit;
            if let Some(place) = kept.get_mut(count) {
                *place = *byte;
            }
            count = count.saturating_add(1);
        }
        bit = bit.wrapping_shl(1);
    }
    kept[0] = bits;
    packed.extend_from_slice(kept.get(..count).unwrap_or(&kept))
}

/// A row as it is kept, in place of what the vector held.
fn pack<A: Allocator>(row: &[u8], packed: &mut Vec<u8, A>) -> Result<(), AllocError> {
    packed.clear();
    let (groups, _) = row.as_chunks::<8>();
    for group in groups {
        if u64::from_le_bytes(*group) == 0 {
            packed.push(0)?;
        } else {
            pack_group(group, packed)?;
        }
    }
    Ok(())
}

/// The row of what is kept, of so many bytes, in place of what the vector held.
fn unpack<A: Allocator>(
    packed: &[u8],
    width: usize,
    row: &mut Vec<u8, A>,
) -> Result<(), AllocError> {
    row.clear();
    let mut bytes = packed.iter();
    for _ in 0..width >> 3 {
        let mut bits = bytes.next().copied().unwrap_or(0);
        let mut group = [0u8; 8];
        if bits != 0 {
            for place in group.iter_mut() {
                if bits & 1 == 1 {
                    *place = bytes.next().copied().unwrap_or(0);
                }
                bits >>= 1;
            }
        }
        row.extend_from_slice(&group)?;
    }
    Ok(())
}

impl<A: Allocator> Rows<A> {
    /// How many rows there are.
    fn count(&self) -> u32 {
        u32::try_from(self.ends.len()).unwrap_or(u32::MAX)
    }

    /// The bytes that are kept of a row.
    fn kept(&self, number: u32) -> &[u8] {
        let at = number as usize;
        let start = match at.checked_sub(1) {
            Some(before) => self.ends.get(before).copied().unwrap_or(0),
            None => 0,
        };
        let end = self.ends.get(at).copied().unwrap_or(0);
        match self.packed.get(start as usize..end as usize) {
            Some(bytes) => bytes,
            None => b"",
        }
    }

    /// Adds what is kept of a row.
    fn push(&mut self, bytes: &[u8]) -> Result<(), AllocError> {
        self.packed.extend_from_slice(bytes)?;
        self.ends.push(self.packed.len() as u64)?;
        Ok(())
    }
}

impl<A: Allocator> Origins<A> {
    /// The state and the act that led to a state; none of the first one.
    fn get(&self, number: u32) -> Option<(u32, Act)> {
        let parent = self.parents.get(number as usize).copied()?;
        let act = self.acts.get(number as usize).copied()?;
        if parent == NOBODY {
            None
        } else {
            Some((parent, act_of(act)))
        }
    }

    /// Adds what led to the next state.
    fn push(&mut self, from: Option<(u32, Act)>) -> Result<(), AllocError> {
        let (parent, act) = match from {
            Some((parent, act)) => (parent, act_number(act)),
            None => (NOBODY, 0),
        };
        self.parents.push(parent)?;
        self.acts.push(act)?;
        Ok(())
    }
}

impl<A: Allocator + Copy + Drop> Table<A> {
    /// No state is known, and rows have so many bytes.
    pub(crate) fn new(alloc: A, width: usize) -> Result<Table<A>, AllocError> {
        Ok(Table {
            alloc,
            width,
            rows: Rows {
                packed: Vec::new(alloc),
                ends: Vec::new(alloc),
            },
            origins: Origins {
                parents: Vec::new(alloc),
                acts: Vec::new(alloc),
            },
            places: vec![in alloc; NOBODY; 4096]?,
            row: Vec::new(alloc),
        })
    }

    /// How many states there are.
    pub(crate) fn count(&self) -> u32 {
        self.rows.count()
    }

    /// How many bytes they take, with what leads to them and the places.
    pub(crate) fn bytes(&self) -> u64 {
        let rows = self.rows.packed.len() as u64;
        let each = (self.rows.ends.len() as u64).saturating_mul(13);
        let places = (self.places.len() as u64).saturating_mul(4);
        rows.saturating_add(each).saturating_add(places)
    }

    /// Reads the row of a state, in place of what the vector held.
    pub(crate) fn load(&self, number: u32, row: &mut Vec<u8, A>) -> Result<(), AllocError> {
        unpack(self.rows.kept(number), self.width, row)
    }

    /// The state and the act that led to a state.
    pub(crate) fn origin(&self, number: u32) -> Option<(u32, Act)> {
        self.origins.get(number)
    }

    /// The place of a row that has this sum: where its state's number stands, or would stand.
    fn place_of(&self, bytes: &[u8], sum: u64) -> (usize, u32) {
        let last = self.places.len().saturating_sub(1);
        let mut place = sum as usize & last;
        for _ in 0..self.places.len() {
            let number = self.places.get(place).copied().unwrap_or(NOBODY);
            if number == NOBODY || self.rows.kept(number) == bytes {
                return (place, number);
            }
            place = place.wrapping_add(1) & last;
        }
        (place, NOBODY)
    }

    /// Adds a row that an act led to from a state, and says whether it is new.
    pub(crate) fn add(&mut self, row: &[u8], from: Option<(u32, Act)>) -> Result<bool, AllocError> {
        let mut bytes = std::mem::replace(&mut self.row, Vec::new(self.alloc));
        let packed = pack(row, &mut bytes);
        let found = match packed {
            Ok(()) => self.add_packed(&bytes, from),
            Err(error) => Err(error),
        };
        self.row = bytes;
        found
    }

    /// Adds what is kept of a row, and says whether it is new.
    fn add_packed(&mut self, bytes: &[u8], from: Option<(u32, Act)>) -> Result<bool, AllocError> {
        let (place, number) = self.place_of(bytes, sum_of(bytes));
        if number != NOBODY {
            return Ok(false);
        }
        let number = self.count();
        self.rows.push(bytes)?;
        self.origins.push(from)?;
        if let Some(at) = self.places.get_mut(place) {
            *at = number;
        }
        if self.rows.ends.len() > self.places.len() >> 1 {
            self.grow()?;
        }
        Ok(true)
    }

    /// Twice as many places.
    fn grow(&mut self) -> Result<(), AllocError> {
        let size = self.places.len().saturating_mul(2);
        self.places = vec![in self.alloc; NOBODY; size]?;
        let last = size.saturating_sub(1);
        for number in 0..self.count() {
            let start = sum_of(self.rows.kept(number)) as usize & last;
            let place = self.free_place(start);
            if let Some(at) = self.places.get_mut(place) {
                *at = number;
            }
        }
        Ok(())
    }

    /// The first free place from one on.
    fn free_place(&self, start: usize) -> usize {
        let last = self.places.len().saturating_sub(1);
        let mut place = start;
        for _ in 0..self.places.len() {
            if self.places.get(place).copied() == Some(NOBODY) {
                return place;
            }
            place = place.wrapping_add(1) & last;
        }
        place
    }
}
