//! The texts and numbers of the arguments that `clap` found.
ghost use Rattle.std.specs.Prelude.{◌≡◌, ◌↔◌, ℕ, ◌<◌, ◌^◌, IfOk, IfSome, IsNone, IsTrue, option_map, string_bytes};
ghost use Rattle.clap.specs.Words.{found_of, first_of, rows_of};
ghost use Rattle.ocfl_arguments.specs.Asks.{HasCount, HasNumber, IsFurther, IsGiven, IsLeftOut, IsRead, MayHaveCount};

use clap::ArgMatches;
use ocfl_report::Further;
use std::alloc::{AllocError, Global};

/// The text of an argument, if it is given.
pub(crate) fn text_of<'a>(inner: &ArgMatches<'a>, id: &str) -> Option<&'a str>
    ensures { option_map (λ s. s.now) result ≡ first_of id.now (rows_of (found_of inner.now)) }
{
    inner.get_str(id)
}

/// The same as a text of its own.
pub(crate) fn copied(
    alloc: Global,
    inner: &ArgMatches<'_>,
    id: &str,
) -> Result<Option<String>, AllocError>
    ensures { IfOk result (λ copy.
        option_map string_bytes copy ≡ first_of id.now (rows_of (found_of inner.now))) }
{
    match text_of(inner, id) {
        Some(text) => Ok(Some(String::from_str(alloc, text)?)),
        None => Ok(None),
    }
}

/// The texts of two arguments, each of which may be left out.
pub(crate) fn each_of(
    alloc: Global,
    inner: &ArgMatches<'_>,
    one: &str,
    other: &str,
) -> Result<(Option<String>, Option<String>), AllocError>
    ensures one { IfOk result (λ both.
        option_map string_bytes both.0 ≡ first_of one.now (rows_of (found_of inner.now))) }
    ensures other { IfOk result (λ both.
        option_map string_bytes both.1 ≡ first_of other.now (rows_of (found_of inner.now))) }
{
    let first = copied(alloc, inner, one)?;
    let second = copied(alloc, inner, other)?;
    Ok((first, second))
}

/// Whether an argument is left out.
pub(crate) fn is_left_out(inner: &ArgMatches<'_>, id: &str) -> bool
    ensures { IsTrue result ↔ IsLeftOut id.now (rows_of (found_of inner.now)) }
{
    text_of(inner, id).is_none()
}

/// Whether a flag is given.
pub(crate) fn is_given(inner: &ArgMatches<'_>, id: &str) -> bool
    ensures { IsTrue result ↔ IsGiven id.now (rows_of (found_of inner.now)) }
{
    match text_of(inner, id) {
        Some(text) => text == "true",
        None => false,
    }
}

/// What an audit is to check beside what every audit checks.
pub(crate) fn further_of(inner: &ArgMatches<'_>) -> Further
    ensures { IsFurther (rows_of (found_of inner.now)) result }
{
    if is_given(inner, "inventories") {
        Further::Inventories
    } else {
        Further::Nothing
    }
}

/// The number of an option.
pub(crate) fn number_of(inner: &ArgMatches<'_>, id: &str) -> Option<u64>
    ensures found { IfSome result (HasNumber id.now (rows_of (found_of inner.now))) }
    ensures missing { IsNone result
        → (n : ℕ) → n < 2 ^ 64 → HasNumber id.now (rows_of (found_of inner.now)) n → ⊥ }
{
    inner.get_one::<u64>(id)
}

/// The number of an option, from 1 up to this one.
pub(crate) fn count_of(inner: &ArgMatches<'_>, id: &str, most: u64) -> Option<usize>
    ensures { IsRead (HasCount id.now most (rows_of (found_of inner.now))) result }
{
    let number = number_of(inner, id)?;
    if 1 <= number && number <= most {
        Some(number as usize)
    } else {
        None
    }
}

/// The same of an option that may be left out: `Some(None)` if it is, and `None` if its text is no
/// such number.
pub(crate) fn count_if_any(inner: &ArgMatches<'_>, id: &str, most: u64) -> Option<Option<u64>>
    ensures { IsRead (MayHaveCount id.now most (rows_of (found_of inner.now))) result }
{
    if is_left_out(inner, id) {
        return Some(None);
    }
    Some(Some(count_of(inner, id, most)? as u64))
}
