//! Reading the lines of a checkpoint that have a fixed number.
ghost use Rattle.std.specs.Prelude.{◌≡◌, ◌≢◌, ◌^◌, ◌<◌, ◌++◌, ℕ, All, List, IfSome, IsNone, decimal, codes};
ghost use Rattle.hex.specs.Hex.{encode_lower};
ghost use Rattle.ocfl_report.specs.declared.further.Further.{Further as ModelFurther};
ghost use Rattle.ocfl_state.specs.Checkpoint.{IsDigest, IsMark, checkpoint_first_line};
ghost use Rattle.ocfl_state.specs.CheckpointLines.{field_line, sizes_text, standing_text, IsStanding, mark_text, account_text, IsAccount, body_text, OneLine};
ghost use Rattle.ocfl_state.specs.declared.checkpoint_account.Standing.{Standing as ModelStanding};
ghost use Rattle.ocfl_state.specs.declared.checkpoint_account.Account.{Account as ModelAccount};
ghost use Rattle.ocfl_state.specs.declared.checkpoint_parts.ReportMark.{ReportMark as ModelMark};

use crate::checkpoint_fields::{
    read_count, read_digest, read_names, read_phase, read_sizes, read_whole, split_line,
};
use crate::checkpoint_form::{
    DECLARED, FIRST_LINE_ONE, FIRST_LINE_TWO, LEFT, NAMES, PHASE, PIECES, REPORT, ROOT, SAID, TAIL,
    WHOLE,
};
use crate::checkpoint_parts::{Phase, ReportMark, TopNames};
use ocfl_cursor::after_prefix;
use ocfl_report::Further;

/// What the lines from that of the declaration to that of the whole tell.
#[derive(Clone, Copy)]
pub(crate) struct Standing {
    pub(crate) declared: [u8; 32],
    pub(crate) names: TopNames,
    pub(crate) phase: Phase,
    pub(crate) whole: bool,
}

/// What the lines from that of the report's size to that of how many branches were left out tell.
#[derive(Clone, Copy)]
pub(crate) struct Account {
    pub(crate) report: ReportMark,
    pub(crate) said: u64,
    pub(crate) left: u64,
}

/// Reads the line of a digest. Gives what follows it too.
fn read_digest_line<'a>(front: &[u8], text: &'a [u8]) -> Option<([u8; 32], &'a [u8])>
    ensures found { IfSome result
        (λ read. text.now ≡ field_line front.now (encode_lower read.0) read.1.now) }
    ensures fits { IfSome result (λ read. IsDigest read.0) }
    ensures missing { IsNone result → (d rest : List ℕ) → IsDigest d
        → text.now ≢ field_line front.now (encode_lower d) rest }
{
    let (field, rest) = split_line(front, text)?;
    Some((read_digest(field)?, rest))
}

/// Reads the line of a number. Gives what follows it too.
fn read_count_line<'a>(front: &[u8], text: &'a [u8]) -> Option<(u64, &'a [u8])>
    ensures found { IfSome result
        (λ read. text.now ≡ field_line front.now (decimal read.0) read.1.now) }
    ensures fits { IfSome result (λ read. read.0 < 2 ^ 64) }
    ensures missing { IsNone result → (n : ℕ) (rest : List ℕ) → n < 2 ^ 64
        → text.now ≢ field_line front.now (decimal n) rest }
{
    let (field, rest) = split_line(front, text)?;
    Some((read_count(field)?, rest))
}

/// Reads the line of the report's size. Gives what follows it too.
fn read_sizes_line(text: &[u8]) -> Option<((u64, u64), &[u8])>
    ensures found { IfSome result (λ read. text.now
        ≡ field_line (codes "report ") (sizes_text read.0.0 read.0.1) read.1.now) }
    ensures fits { IfSome result (λ read. (read.0.0 < 2 ^ 64) × (read.0.1 < 2 ^ 64)) }
    ensures missing { IsNone result → (bytes lines : ℕ) (rest : List ℕ)
        → bytes < 2 ^ 64 → lines < 2 ^ 64
        → text.now ≢ field_line (codes "report ") (sizes_text bytes lines) rest }
{
    let (field, rest) = split_line(REPORT, text)?;
    Some((read_sizes(field)?, rest))
}

/// Reads the lines from that of the declaration to that of the whole. Gives what follows them too.
pub(crate) fn read_standing(text: &[u8]) -> Option<(Standing, &[u8])>
    ensures found { IfSome result (λ read. text.now ≡ standing_text read.0 read.1.now) }
    ensures fits { IfSome result (λ read. IsStanding read.0) }
    ensures missing { IsNone result → (standing : ModelStanding) (rest : List ℕ)
        → IsStanding standing → text.now ≢ standing_text standing rest }
{
    let (declared, rest) = read_digest_line(DECLARED, text)?;
    let (names, rest) = split_line(NAMES, rest)?;
    let (phase, rest) = split_line(PHASE, rest)?;
    let (whole, rest) = split_line(WHOLE, rest)?;
    let standing = Standing {
        declared,
        names: read_names(names)?,
        phase: read_phase(phase)?,
        whole: read_whole(whole)?,
    };
    Some((standing, rest))
}

/// Reads the lines of the report. Gives what follows them too.
fn read_mark(text: &[u8]) -> Option<(ReportMark, &[u8])>
    ensures found { IfSome result (λ read. text.now ≡ mark_text read.0 read.1.now) }
    ensures fits { IfSome result (λ read. IsMark read.0) }
    ensures missing { IsNone result → (mark : ModelMark) (rest : List ℕ)
        → IsMark mark → text.now ≢ mark_text mark rest }
{
    let ((bytes, lines), rest) = read_sizes_line(text)?;
    let (pieces, rest) = read_digest_line(PIECES, rest)?;
    let (tail, rest) = read_digest_line(TAIL, rest)?;
    let mark = ReportMark {
        bytes,
        lines,
        pieces,
        tail,
    };
    Some((mark, rest))
}

/// Reads the lines from those of the report to that of how many branches were left out. Gives what
/// follows them too.
pub(crate) fn read_account(text: &[u8]) -> Option<(Account, &[u8])>
    ensures found { IfSome result (λ read. text.now ≡ account_text read.0 read.1.now) }
    ensures fits { IfSome result (λ read. IsAccount read.0) }
    ensures missing { IsNone result → (account : ModelAccount) (rest : List ℕ)
        → IsAccount account → text.now ≢ account_text account rest }
{
    let (report, rest) = read_mark(text)?;
    let (said, rest) = read_count_line(SAID, rest)?;
    let (left, rest) = read_count_line(LEFT, rest)?;
    let account = Account { report, said, left };
    Some((account, rest))
}

/// What the first line and all others with a fixed number tell, and what follows them.
#[derive(Clone, Copy)]
pub(crate) struct Parts<'a> {
    /// What the audit checks further, as the first line tells.
    pub(crate) further: Further,
    /// The path of the root, as its line has it.
    pub(crate) path: &'a [u8],
    pub(crate) standing: Standing,
    pub(crate) account: Account,
    pub(crate) rest: &'a [u8],
}

/// Reads the first line, and all others that have a fixed number.
pub(crate) fn split_body(body: &[u8]) -> Option<Parts<'_>>
    ensures found { IfSome result (λ parts. body.now ≡ body_text parts.further parts.path.now
        parts.standing parts.account parts.rest.now) }
    ensures path { IfSome result (λ parts. OneLine parts.path.now) }
    ensures fits { IfSome result (λ parts. IsStanding parts.standing × IsAccount parts.account) }
    ensures missing { IsNone result → (further : ModelFurther) (path : List ℕ)
        (standing : ModelStanding) (account : ModelAccount) (rest : List ℕ) → OneLine path
        → IsStanding standing → IsAccount account
        → body.now ≢ body_text further path standing account rest }
{
    let (further, lines) = read_first_line(body)?;
    let (path, rest) = split_line(ROOT, lines)?;
    let (standing, rest) = read_standing(rest)?;
    let (account, rest) = read_account(rest)?;
    Some(Parts {
        further,
        path,
        standing,
        account,
        rest,
    })
}

/// Reads the first line, which tells what the audit checks further.
fn read_first_line(body: &[u8]) -> Option<(Further, &[u8])>
    ensures found { IfSome result
        (λ read. body.now ≡ checkpoint_first_line read.0 ++ read.1.now) }
    ensures missing { IsNone result → (further : ModelFurther) (rest : List ℕ)
        → body.now ≢ checkpoint_first_line further ++ rest }
{
    if let Some(rest) = after_prefix(FIRST_LINE_TWO, body) {
        return Some((Further::Inventories, rest));
    }
    Some((Further::Nothing, after_prefix(FIRST_LINE_ONE, body)?))
}
