// What is written out for C.
ghost use Rattle.std.specs.Prelude.{◌≡◌, ◌≢◌, IfOk, pos};
ghost use Rattle.ulfm_c.specs.{Codes.{code}, Written.{Lists, lent}};

use crate::code::refusal_code;
use ulfm_model::Refusal;

// Writes as much of a list as there is room for, and how long it is.
pub(crate) fn write_list(list: &[u16], ranks: &mut [u16], count: &mut usize)
    ensures { Lists list.now (lent ranks.old ranks.new count.new) }
{
    let most = list.len().min(ranks.len());
    ranks[..most].copy_from_slice(&list[..most]);
    *count = list.len();
}

// Writes out what was found, where it was, and answers the code.
pub(crate) fn tell_found(
    answer: Result<(), Refusal>,
    found: &[u16],
    ranks: &mut [u16],
    count: &mut usize,
) -> i32
    ensures code { result ≡ code answer }
    ensures written { IfOk answer (λ _. Lists found.now (lent ranks.old ranks.new count.new)) }
    ensures kept { result ≢ pos 0 → (ranks.new ≡ ranks.old) × (count.new ≡ count.old) }
{
    match answer {
        Ok(()) => {
            write_list(found, ranks, count);
            0
        }
        Err(refusal) => refusal_code(refusal),
    }
}

// Writes out an answer, and answers the code.
pub(crate) fn tell<T: Copy>(answer: Result<T, Refusal>, out: &mut T) -> i32
    ensures code { result ≡ code answer }
    ensures written { IfOk answer (λ told. out.new ≡ told) }
    ensures kept { result ≢ pos 0 → out.new ≡ out.old }
{
    match answer {
        Ok(told) => {
            *out = told;
            0
        }
        Err(refusal) => refusal_code(refusal),
    }
}
