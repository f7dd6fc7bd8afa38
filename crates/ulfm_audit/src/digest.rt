//! The digest of a log: FNV-1a of 64 bits.
ghost use Rattle.std.specs.Prelude.{◌≡◌, ◌++◌, OnOk};
ghost use Rattle.ulfm_audit.specs.Digests.{digest_of, digest_step, digest_text};

use std::alloc::{AllocError, Allocator};
use ulfm_laws::FlagAnd;
use ulfm_script::printing::spelled_digits;

/// The digest of no bytes.
const NOTHING: u64 = 0xcbf2_9ce4_8422_2325;

/// What each step multiplies by.
const PRIME: u64 = 0x100_0000_01b3;

/// The digest with one byte more.
fn step_on(digest: u64, byte: u8) -> u64
    ensures { result ≡ digest_step digest byte }
{
    (digest ^ u64::from(byte)).wrapping_mul(PRIME)
}

/// The digest of these bytes.
pub(crate) fn digest_of(bytes: &[u8]) -> u64
    ensures { result ≡ digest_of bytes.now }
{
    bytes
        .iter()
        .fold(NOTHING, |digest, byte| step_on(digest, *byte))
}

/// Appends a digest, with all its digits.
#[tactic(auto, unfolding(ulfm_script::specs::Digits::padded_text, crate::specs::Digests::digest_text))]
pub(crate) fn print_digest<A: Allocator>(
    text: &mut Vec<u8, A>,
    digest: u64,
) -> Result<(), AllocError>
    ensures { OnOk result (text.new.items ≡ text.old.items ++ digest_text digest) }
{
    let digits = spelled_digits(true, FlagAnd { bits: digest });
    text.extend_from_slice(digits.text())
}
