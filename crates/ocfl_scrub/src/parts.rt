//! What runs of one cycle of a part take together, of which any may stop. The laws of nights rest
//! on it; the other laws are those of `ocfl_laws`.
ghost use Rattle.std.specs.Prelude.{◌≡◌, ◌≤◌, ◌+◌, ◌++◌, ◌/◌, ℕ, List, None, All, map};
ghost use Rattle.ocfl_tree.specs.StorageRoot.{StorageRoot};
ghost use Rattle.ocfl_report.specs.{Text.{text}, declared.further.Further.{Further}};
ghost use Rattle.ocfl_rules.specs.{Audit.{audit, total_cost}, Parts.{Part, within}};
ghost use Rattle.ocfl_rules.specs.Runs.{IsAtLeast, total_files};
ghost use Rattle.ocfl_cursor.specs.Cursor.{Cursor, ended};
ghost use Rattle.ocfl_scrub.specs.Running.{place_in};
ghost use Rattle.ocfl_scrub.specs.Joining.{AreOneCycle, PartRun, cursor_after, left_by, reports_of, unread_together, unstopped};

/// Runs of one cycle of a part, each from the cursor of the one before it. Any may stop at a call
/// that fails, and any may meet content that it cannot read. Their reports, joined, are the audit
/// of the part up to the last cursor. In it just those files are called unreadable that could not
/// be read by the run that took them. If the last run ended, the reports are all of it.
///
/// Of the runs that did not stop there are at most cost / B + files / N + 1, whether or not the
/// cycle has ended, if each budget is at least B and each limit on files at least N.
pub fn runs_that_stop_join()
    ensures reports { (further : Further) (root : StorageRoot) (part : Part) (c : Cursor)
        (runs : List PartRun) → place_in c.state ≡ None → AreOneCycle further root part c runs
        → reports_of runs ++ text (left_by (cursor_after c runs).state
        (within part (audit further root (unread_together further root runs))))
        ≡ text (within part (audit further root (unread_together further root runs))) }
    ensures ended { (further : Further) (root : StorageRoot) (part : Part) (c : Cursor)
        (runs : List PartRun) → place_in c.state ≡ None → AreOneCycle further root part c runs
        → (cursor_after c runs).state ≡ ended
        → reports_of runs
        ≡ text (within part (audit further root (unread_together further root runs))) }
    ensures few { (further : Further) (root : StorageRoot) (part : Part) (c : Cursor)
        (runs : List PartRun) → place_in c.state ≡ None → AreOneCycle further root part c runs
        → (b n : ℕ) → 1 ≤ b → 1 ≤ n → All (IsAtLeast b n) (map (λ r. r.limits) runs)
        → let all = within part (audit further root (unread_together further root runs)) in
        unstopped runs ≤ total_cost all / b + total_files all / n + 1 }
{}
