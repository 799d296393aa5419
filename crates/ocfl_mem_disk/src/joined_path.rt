//! Which joined report, or which part, a path in the folder of all parts is of.
ghost use Rattle.std.specs.Prelude.{◌≡◌, ◌<◌, ◌^◌, ℕ, IfSome, IsNone, None, Some, option_map};
ghost use Rattle.std.specs.List.{list_any};
ghost use Rattle.ocfl_kept.specs.FilePaths.{part_path, six_digits};
ghost use Rattle.ocfl_mem_disk.specs.Paths.{behind_front, is_dot, joined_name as joined_name_of};
ghost use Rattle.ocfl_mem_disk.specs.Paths.{name_in, without_dot};

/// How many digits a number of 64 bits has at most.
const MOST_DIGITS: usize = 20;

/// A joined report by its path.
#[derive(Clone, Copy)]
pub(crate) struct JoinedName<'a> {
    /// The digits of the number of its cycle.
    pub(crate) digits: &'a [u8],
    pub(crate) whole: bool,
}

/// What is behind a front of a text, if the text has it.
pub(crate) fn behind<'a>(front: &[u8], text: &'a [u8]) -> Option<&'a [u8]>
    ensures { option_map (λ rest. rest.now) result ≡ behind_front front.now text.now }
{
    text.strip_prefix(front)
}

fn has_dot(digits: &[u8]) -> bool
    ensures { result ≡ list_any is_dot digits.now }
{
    digits.contains(&b'.')
}

/// The joined report with these digits, if they are that.
fn without_dot(digits: &[u8], whole: bool) -> Option<JoinedName<'_>>
    ensures found { IfSome result (λ name. without_dot digits.now whole
        ≡ Some (record { digits = name.digits.now; whole = name.whole })) }
    ensures none { IsNone result → without_dot digits.now whole ≡ None }
{
    if has_dot(digits) {
        return None;
    }
    Some(JoinedName { digits, whole })
}

/// The joined report with a name in the folder of all parts.
fn name_in(name: &[u8]) -> Option<JoinedName<'_>>
    ensures found { IfSome result (λ found. name_in (Some name.now)
        ≡ Some (record { digits = found.digits.now; whole = found.whole })) }
    ensures none { IsNone result → name_in (Some name.now) ≡ None }
{
    match behind(b"/reports/cycle-", name) {
        Some(digits) => without_dot(digits, true),
        None => without_dot(behind(b"/reports/incomplete-", name)?, false),
    }
}

/// The joined report that has a path in the folder of all parts, if one can have it.
pub(crate) fn joined_name<'a>(folder: &str, path: &'a str) -> Option<JoinedName<'a>>
    ensures found { IfSome result (λ found. joined_name_of folder.now path.now
        ≡ Some (record { digits = found.digits.now; whole = found.whole })) }
    ensures none { IsNone result → joined_name_of folder.now path.now ≡ None }
{
    name_in(behind(folder.as_bytes(), path.as_bytes())?)
}

/// The number with these digits, if it has 64 bits.
pub(crate) fn number_in(digits: &[u8]) -> Option<u64>
    ensures { IfSome result (λ found. (number : ℕ)
        → digits.now ≡ six_digits number → found ≡ number) }
{
    if digits.len() > MOST_DIGITS {
        return None;
    }
    match std::str::from_utf8(digits) {
        Ok(text) => text.parse().ok(),
        Err(_) => None,
    }
}

/// The part that has a folder with this path, if one can have it.
pub(crate) fn part_in(folder: &str, path: &str) -> Option<u64>
    ensures { IfSome result (λ found. (part : ℕ)
        → path.now ≡ part_path folder.now part → found ≡ part) }
{
    let name = behind(folder.as_bytes(), path.as_bytes())?;
    number_in(behind(b"/part-", name)?)
}
