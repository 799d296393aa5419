//! What a night may do, and what the last cycle cost.
ghost use Rattle.std.specs.Prelude.{◌≡◌, IfOk};
ghost use Rattle.ocfl_given.specs.Planning.{IsPlanOf, last_cost};

use crate::given::Given;
use crate::waiting::{find_wait, say_wait};
use ocfl_kept::stand::Standing;
use ocfl_plan::plan_of;
use ocfl_terms::Plan;
use std::alloc::AllocError;
use std::rt::Files;

/// What a night may do that begins where the nights stood. One that may not begin a new cycle yet
/// says so.
#[tactic(auto, using(crate::proofs::Plans::plan_after))]
pub fn find_plan<R>(rt: &R, given: &Given<'_>, began: Standing) -> Result<Plan, AllocError>
where
    R: Files + AllocGlobal + Eprint,
    ensures { IfOk result (IsPlanOf given.now.asked.now given.now.began given.now.shown began) }
{
    let wait = find_wait(rt, given, began);
    if let Some(wait) = wait {
        say_wait(rt, wait)?;
    }
    Ok(plan_of(given.asked, given.began, given.shown, wait.is_some()))
}

/// What the last cycle cost, if a night that begins where the nights stood begins the next one.
pub fn last_cost(began: Standing) -> Option<u128>
    ensures { result ≡ last_cost began }
{
    if began.has_ended {
        Some(u128::from(began.spent))
    } else {
        None
    }
}
