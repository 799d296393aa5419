//! The line of the log on a closing.
ghost use Rattle.std.specs.Prelude.{◌≡◌, IfOk, string_bytes};
ghost use Rattle.ocfl_closing.specs.Logging.{IsLineOf, IsRowOf, why_said};

use ocfl_accounts::Pair;
use ocfl_closed::{Account, compared, compared_whole, count_of};
use ocfl_messages::{ClosingRow, LogRow, log_line};
use std::alloc::{AllocError, Global};

/// Why it is not known what is new or gone in a cycle that was compared with none. Empty for one
/// that was compared.
fn why_of<'a>(pair: &Pair, account: &'a Account) -> &'a str
    ensures { result.now ≡ why_said pair.now account.now }
{
    if compared(pair) == 0 {
        account.why.as_str()
    } else {
        ""
    }
}

/// The row of the log on the closing of a cycle in a night.
fn row_of<'a>(
    time: u64,
    night: u64,
    pair: &Pair,
    account: &'a Account,
    list: &'a str,
) -> ClosingRow<'a>
    ensures { IsRowOf time night pair.now account.now list.now result }
{
    let (changes, made) = (&account.changes, account.made);
    ClosingRow {
        time,
        night,
        cycle: pair.closed.cycle(),
        report: account.paths.report.as_str(),
        whole: pair.closed.is_whole(),
        findings: account.findings.count,
        lines: made.lines,
        runs: made.runs,
        read_bytes: made.bytes,
        read_files: made.files,
        compared: compared(pair),
        compared_whole: compared_whole(pair),
        why: why_of(pair, account),
        appeared: changes.appeared_count,
        known: changes.known_count,
        repaired: changes.repaired_count,
        back: count_of(&account.back),
        gone: changes.gone_count(),
        objects: changes.objects.count,
        files: changes.files.count,
        unlooked: changes.unlooked,
        expected: changes.expected.count,
        listed: account.listed,
        list,
        left: count_of(pair.closed.left()),
    }
}

/// The line of the log on the closing of a cycle, at this time, in a night that began at that one.
pub(crate) fn closing_line(
    alloc: Global,
    time: u64,
    night: u64,
    pair: &Pair,
    account: &Account,
    list: &str,
) -> Result<String, AllocError>
    ensures { IfOk result (λ line.
        IsLineOf time night pair.now account.now list.now (string_bytes line)) }
{
    let row = row_of(time, night, pair, account, list);
    log_line(alloc, &LogRow::Closing(row))
}
