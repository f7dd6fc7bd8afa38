//! The lines that replies and calls are printed as, and the digits of the flags in them.
ghost use Rattle.std.specs.Prelude.{◌≡◌, ◌<◌, ◌+◌, ◌++◌, ◌∷◌, [], OnOk, ◌≤◌, ◌/◌, ◌%◌, drop};
ghost use Rattle.ulfm_script.specs.Digits.{flag_text, spelled_flag, half_digits, hex_digit, hex_digits, printed_digits, whole_digits};
ghost use Rattle.std.specs.Fmt.{decimal};
ghost use Rattle.ulfm_script.specs.Spelling.{call_text, fields_text, on_comm_text, spelled_text, verb_text};
ghost use Rattle.ulfm_script.specs.Printed.{acked_text, error_text, failed_text, ranks_text, refused_text, reply_text, shrunk_text, standing_text};
ghost use Rattle.ulfm_script.specs.Kept.{kept_digits};

use crate::flag_places::FlagDigits;
use crate::last_group::LastGroup;
use itoa::Buffer;
use std::alloc::{AllocError, Allocator};
use ulfm_laws::FlagAnd;
use ulfm_model::{Call, Refusal, Reply, refusal_number};

/// Appends a reply as scripts print it, without a newline.
///
/// `group` is the group that the reply is about, in order: a communicator's failed group for `FailedGroup`, the new
/// communicator's members for `Shrunk`. Other replies don't look at it. Where it is the group that was printed last, its text is
/// taken from there. After an error nothing is said of the text.
pub fn print_reply<A: Allocator>(
    text: &mut Vec<u8, A>,
    reply: &Reply<FlagAnd>,
    group: &[u16],
    last: &mut LastGroup<A>,
) -> Result<(), AllocError>
    ensures ok { OnOk result (text.new.items ≡ text.old.items ++ reply_text group.now reply.now) }
{
    match *reply {
        Reply::Started => text.extend_from_slice(b"started"),
        Reply::Pending => text.extend_from_slice(b"pending"),
        Reply::Agreed {
            value,
            failed,
            raised,
        } => {
            text.extend_from_slice(b"agreed ")?;
            print_flag(text, value)?;
            print_labelled(text, b" failed ", failed)?;
            print_error(text, raised)
        }
        Reply::Shrunk { comm, context, .. } => print_shrunk(text, comm, context, group, last),
        Reply::FailedGroup { .. } => print_group(text, group, last),
        Reply::Acked { count } => print_acked(text, count),
        Reply::Refused(refusal) => print_refusal(text, refusal),
        Reply::Standing { revoked } => text.extend_from_slice(standing(revoked)),
        Reply::Done => text.extend_from_slice(b"done"),
        Reply::Declared => text.extend_from_slice(b"declared"),
        Reply::AlreadyFailed => text.extend_from_slice(b"already-failed"),
        Reply::Revoked => text.extend_from_slice(b"revoked"),
        Reply::AlreadyRevoked => text.extend_from_slice(b"already-revoked"),
        Reply::Freed => text.extend_from_slice(b"freed"),
    }
}

/// Appends a number in decimal. After an error nothing is said of the text.
#[inline(always)]
pub fn print_number<A: Allocator>(text: &mut Vec<u8, A>, number: u16) -> Result<(), AllocError>
    ensures { OnOk result (text.new.items ≡ text.old.items ++ decimal number) }
{
    print_point(text, u32::from(number))
}

/// Appends a count of events in decimal. Most have one digit, which is put as it is. After an error nothing is said of the text.
#[inline(always)]
pub fn print_point<A: Allocator>(text: &mut Vec<u8, A>, number: u32) -> Result<(), AllocError>
    ensures { OnOk result (text.new.items ≡ text.old.items ++ decimal number) }
{
    if number < 10 {
        return print_digit(text, number as u8);
    }
    print_long(text, number)
}

/// Appends one digit.
#[inline(always)]
fn print_digit<A: Allocator>(text: &mut Vec<u8, A>, number: u8) -> Result<(), AllocError>
    requires { number < 10 }
    ensures { OnOk result (text.new.items ≡ text.old.items ++ (48 + number) ∷ []) }
{
    text.push(b'0' + number)?;
    Ok(())
}

/// Appends a count of more than one digit.
#[inline(never)]
fn print_long<A: Allocator>(text: &mut Vec<u8, A>, number: u32) -> Result<(), AllocError>
    ensures { OnOk result (text.new.items ≡ text.old.items ++ decimal number) }
{
    let mut buffer = Buffer::new();
    text.extend_from_slice(buffer.format(number).as_bytes())
}

/// Each rank behind a space.
#[inline(never)]
pub(crate) fn print_ranks<A: Allocator>(
    text: &mut Vec<u8, A>,
    group: &[u16],
) -> Result<(), AllocError>
    ensures { OnOk result (text.new.items ≡ text.old.items ++ ranks_text group.now) }
{
    for rank in group {
        print_behind(text, *rank)?;
    }
    Ok(())
}

fn print_group<A: Allocator>(
    text: &mut Vec<u8, A>,
    group: &[u16],
    last: &mut LastGroup<A>,
) -> Result<(), AllocError>
    ensures { OnOk result (text.new.items ≡ text.old.items ++ failed_text group.now) }
{
    text.extend_from_slice(b"failed")?;
    if group.is_empty() {
        return text.extend_from_slice(b" none");
    }
    last.put(text, group)
}

fn print_shrunk<A: Allocator>(
    text: &mut Vec<u8, A>,
    comm: u16,
    context: u8,
    group: &[u16],
    last: &mut LastGroup<A>,
) -> Result<(), AllocError>
    ensures { OnOk result (text.new.items ≡ text.old.items ++ shrunk_text comm context group.now) }
{
    print_labelled(text, b"shrunk ", comm)?;
    print_labelled(text, b" context ", u16::from(context))?;
    text.extend_from_slice(b" members")?;
    last.put(text, group)
}

fn print_acked<A: Allocator>(text: &mut Vec<u8, A>, count: u16) -> Result<(), AllocError>
    ensures { OnOk result (text.new.items ≡ text.old.items ++ acked_text count) }
{
    print_labelled(text, b"acked ", count)
}

/// Whether an agree raises an error.
#[inline(always)]
fn print_error<A: Allocator>(text: &mut Vec<u8, A>, raised: bool) -> Result<(), AllocError>
    ensures { OnOk result (text.new.items ≡ text.old.items ++ error_text raised) }
{
    if raised {
        text.extend_from_slice(b" raised")
    } else {
        text.extend_from_slice(b" clean")
    }
}

/// Whether a communicator is revoked.
fn standing(revoked: bool) -> &'static [u8]
    ensures { result.now ≡ standing_text revoked }
{
    if revoked { b"yes" } else { b"no" }
}

fn print_refusal<A: Allocator>(text: &mut Vec<u8, A>, refusal: Refusal) -> Result<(), AllocError>
    ensures { OnOk result (text.new.items ≡ text.old.items ++ refused_text refusal) }
{
    print_labelled(text, b"refused ", u16::from(refusal_number(refusal)))?;
    text.push(b' ')?;
    text.extend_from_slice(refusal.name().as_bytes())
}

/// Appends a call as scripts write it, as `agree 0 0 0000000f`, without a newline. After an error nothing is said of the text.
pub fn print_call<A: Allocator>(
    text: &mut Vec<u8, A>,
    call: &Call<FlagAnd>,
) -> Result<(), AllocError>
    ensures { OnOk result (text.new.items ≡ text.old.items ++ call_text call.now) }
{
    print_spelled_call(text, call, false)
}

/// Appends a call as [`print_call`] does, but its flag with all digits, if it is padded.
pub fn print_spelled_call<A: Allocator>(
    text: &mut Vec<u8, A>,
    call: &Call<FlagAnd>,
    padded: bool,
) -> Result<(), AllocError>
    ensures { OnOk result (text.new.items ≡ text.old.items ++ spelled_text padded call.now) }
{
    text.extend_from_slice(verb(call))?;
    print_fields(text, call, padded)
}

/// The verb of a call as scripts write it, and a space, as `agree `.
pub fn verb(call: &Call<FlagAnd>) -> &'static [u8]
    ensures { result.now ≡ verb_text call.now }
{
    match *call {
        Call::Fail { .. } => b"fail ",
        Call::GetFailed { .. } => b"get ",
        Call::Ack { .. } => b"ack ",
        Call::FailureAck { .. } => b"failure_ack ",
        Call::FailureGetAcked { .. } => b"failure_get_acked ",
        Call::Agree { .. } => b"agree ",
        Call::Shrink { .. } => b"shrink ",
        Call::Barrier { .. } => b"barrier ",
        Call::Poll { .. } => b"poll ",
        Call::Revoke { .. } => b"revoke ",
        Call::IsRevoked { .. } => b"isrevoked ",
        Call::Free { .. } => b"free ",
    }
}

/// What stands behind the verb.
fn print_fields<A: Allocator>(
    text: &mut Vec<u8, A>,
    call: &Call<FlagAnd>,
    padded: bool,
) -> Result<(), AllocError>
    ensures { OnOk result (text.new.items ≡ text.old.items ++ fields_text padded call.now) }
{
    match *call {
        Call::Fail { rank } => print_number(text, rank),
        Call::Ack { rank, comm, count } => {
            print_place(text, rank, comm)?;
            print_behind(text, count)
        }
        Call::Agree { rank, comm, value } => {
            print_place(text, rank, comm)?;
            text.push(b' ')?;
            let digits = spelled_digits(padded, value);
            text.extend_from_slice(digits.text())
        }
        Call::GetFailed { rank, comm }
        | Call::FailureAck { rank, comm }
        | Call::FailureGetAcked { rank, comm }
        | Call::Shrink { rank, comm }
        | Call::Barrier { rank, comm }
        | Call::Poll { rank, comm }
        | Call::Revoke { rank, comm }
        | Call::IsRevoked { rank, comm }
        | Call::Free { rank, comm } => print_place(text, rank, comm),
    }
}

/// A rank and a communicator.
fn print_place<A: Allocator>(text: &mut Vec<u8, A>, rank: u16, comm: u16) -> Result<(), AllocError>
    ensures { OnOk result (text.new.items ≡ text.old.items ++ on_comm_text rank comm []) }
{
    print_number(text, rank)?;
    print_behind(text, comm)
}

/// Appends a number behind a space. After an error nothing is said of the text.
#[inline(always)]
pub fn print_behind<A: Allocator>(text: &mut Vec<u8, A>, number: u16) -> Result<(), AllocError>
    ensures { OnOk result (text.new.items ≡ text.old.items ++ 32 ∷ decimal number) }
{
    text.push(b' ')?;
    print_number(text, number)
}

/// Appends a number behind its label, which is known to each caller: inlined there, it is put as a word of memory or two. After an error
/// nothing is said of the text.
#[inline(always)]
pub fn print_labelled<A: Allocator>(
    text: &mut Vec<u8, A>,
    label: &[u8],
    number: u16,
) -> Result<(), AllocError>
    ensures { OnOk result (text.new.items ≡ text.old.items ++ (label.now ++ decimal number)) }
{
    text.extend_from_slice(label)?;
    print_number(text, number)
}

/// Appends the digits of a flag. After an error nothing is said of the text.
#[inline(always)]
pub fn print_flag<A: Allocator>(text: &mut Vec<u8, A>, flag: FlagAnd) -> Result<(), AllocError>
    ensures { OnOk result (text.new.items ≡ text.old.items ++ flag_text flag) }
{
    let digits = flag_digits(flag);
    text.extend_from_slice(digits.text())
}

/// How many hexadecimal digits half of a flag has.
pub const HALF_DIGITS: usize = 8;

/// How many a whole flag has.
pub const WHOLE_DIGITS: usize = 16;

/// The least flag whose upper half isn't 0.
pub const LEAST_LONG: u64 = 0x1_0000_0000;

/// The lower case hexadecimal digits of each byte, two by two.
static PAIRS: [u8; 512] = *b"000102030405060708090a0b0c0d0e0f101112131415161718191a1b1c1d1e1f\
      202122232425262728292a2b2c2d2e2f303132333435363738393a3b3c3d3e3f\
      404142434445464748494a4b4c4d4e4f505152535455565758595a5b5c5d5e5f\
      606162636465666768696a6b6c6d6e6f707172737475767778797a7b7c7d7e7f\
      808182838485868788898a8b8c8d8e8f909192939495969798999a9b9c9d9e9f\
      a0a1a2a3a4a5a6a7a8a9aaabacadaeafb0b1b2b3b4b5b6b7b8b9babbbcbdbebf\
      c0c1c2c3c4c5c6c7c8c9cacbcccdcecfd0d1d2d3d4d5d6d7d8d9dadbdcdddedf\
      e0e1e2e3e4e5e6e7e8e9eaebecedeeeff0f1f2f3f4f5f6f7f8f9fafbfcfdfeff";

impl FlagDigits {
    /// The digits.
    pub fn text(&self) -> &[u8]
        ensures { result.now ≡ kept_digits self.now }
    {
        &self.all[self.first..]
    }
}

/// A flag as it is printed: eight digits where its upper half is 0, else sixteen.
#[tactic(auto, unfolding(crate::specs::Digits::flag_text))]
pub fn flag_digits(flag: FlagAnd) -> FlagDigits
    ensures { kept_digits result ≡ flag_text flag }
{
    digits_behind(WHOLE_DIGITS - printed_digits(flag), flag.bits)
}

/// A flag as a line spells it: as it is printed, or with all its digits.
#[tactic(auto, unfolding(crate::specs::Digits::padded_text))]
pub fn spelled_digits(padded: bool, flag: FlagAnd) -> FlagDigits
    ensures { kept_digits result ≡ spelled_flag padded flag }
{
    if padded {
        digits_behind(0, flag.bits)
    } else {
        flag_digits(flag)
    }
}

/// How many digits of a flag are printed.
pub fn printed_digits(flag: FlagAnd) -> usize
    ensures { result ≡ printed_digits flag }
{
    if flag.bits < LEAST_LONG {
        HALF_DIGITS
    } else {
        WHOLE_DIGITS
    }
}

/// The digits of a word, of which the first so many are left out.
fn digits_behind(first: usize, bits: u64) -> FlagDigits
    requires { first ≤ whole_digits }
    ensures { kept_digits result ≡ drop first (hex_digits whole_digits bits) }
{
    let a = half_text(bits / LEAST_LONG);
    let b = half_text(bits);
    let all = [
        a[0], a[1], a[2], a[3], a[4], a[5], a[6], a[7], b[0], b[1], b[2], b[3], b[4], b[5], b[6],
        b[7],
    ];
    FlagDigits { all, first }
}

/// The last eight digits of a word.
#[inline(always)]
fn half_text(bits: u64) -> [u8; 8]
    ensures { result ≡ hex_digits half_digits bits }
{
    let a = pair_text(bits / 0x100_0000 % 0x100);
    let b = pair_text(bits / 0x1_0000 % 0x100);
    let c = pair_text(bits / 0x100 % 0x100);
    let d = pair_text(bits % 0x100);
    [a[0], a[1], b[0], b[1], c[0], c[1], d[0], d[1]]
}

/// The digits of a byte.
#[inline(always)]
fn pair_text(byte: u64) -> [u8; 2]
    requires { byte < 256 }
    ensures { result ≡ hex_digit (byte / 16) ∷ hex_digit (byte % 16) ∷ [] }
{
    let from = byte as usize * 2;
    [PAIRS[from], PAIRS[from + 1]]
}
