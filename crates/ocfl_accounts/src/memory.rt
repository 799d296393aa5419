//! Closed reports in memory, which can be made to fail.
ghost use Rattle.std.specs.Prelude.{◌≡◌, ◌<◌, ◌∷◌, ◌%◌, [], Some, None, true, false, refl, IfOk, IsOkUnless, OnErr, OnOk, length};
ghost use Rattle.std.specs.Option.{option_map};
ghost use Rattle.ocfl_accounts.specs.{Causes.{HasCause, IsCause}, Memory.{content_and, is_grave as is_grave_of, kept_of, leaves_now}};
ghost use Rattle.ocfl_accounts.specs.Memory.{counts_now as is_left_now, left_since as was_left_since, only_now as is_left_only, says as says_of};

use crate::closed::Look;
use crate::closings::{ClosingStop, Closings, Found};
use crate::held::{MemAccount, MemCycle, find_in, is_grave, is_put, list_of, look_in};
use crate::pair::Pair;
use ocfl_compare::CompareStop;
use ocfl_tree::Place;
use std::alloc::{AllocError, Global};
use std::marker::Model;
use std::mem;

/// Closed reports in memory. An account is kept once it is put; a crash loses none.
#[derive(Debug)]
pub struct MemClosings {
    alloc: Global,
    cycles: Vec<MemCycle>,
    listed: Option<Vec<Place>>,
    accounts: Vec<MemAccount>,
    /// The list of what was found last.
    found: Vec<u8>,
    faults: u64,
    call: Option<u64>,
    ends: bool,
}

/// Written by hand, so that to let it go is one call wherever that happens.
impl Drop for MemClosings {
    fn drop(self) {
        let MemClosings {
            alloc: _alloc,
            cycles: _cycles,
            listed: _listed,
            accounts: _accounts,
            found: _found,
            faults: _faults,
            call: _call,
            ends: _ends,
        } = self;
    }
}

impl Model for MemClosings {
    ghost use Rattle.std.specs.Option.{option_map};
    ghost use Rattle.ocfl_accounts.specs.Memory.{Folder};

    ghost Value = { Folder };

    ghost view = { λ a. record {
      content = record {
        held = a.cycles.items;
        listed = option_map (λ places. places.items) a.listed;
        accounts = a.accounts.items;
      };
      found = a.found.items;
      faults = a.faults;
      call = a.call;
      ends = a.ends;
    } };
}

impl MemClosings {
    /// Of these cycles, and the objects that must be there, if they are listed; without accounts.
    /// Of two cycles of one number the first counts.
    pub fn new(alloc: Global, cycles: Vec<MemCycle>, listed: Option<Vec<Place>>) -> MemClosings
        ensures { result ≡ record {
          content = record {
            held = cycles.items;
            listed = option_map (λ places. places.items) listed;
            accounts = [];
          };
          found = [];
          faults = 0;
          call = None;
          ends = false;
        } }
    {
        MemClosings {
            alloc,
            cycles,
            listed,
            accounts: Vec::new(alloc),
            found: Vec::new(alloc),
            faults: 0,
            call: None,
            ends: false,
        }
    }

    /// Of the following calls the one of this number, counted from 1, answers `Failed` and does
    /// nothing; with `ends` each call after it too. A later plan takes the place of this one.
    pub fn fail_call(&mut self, number: u64, ends: bool)
        requires { 0 < number }
        ensures { self.new ≡ record self.old { call = Some number; ends = ends } }
    {
        self.call = Some(number);
        self.ends = ends;
    }

    /// The following calls do not fail.
    pub fn fail_none(&mut self)
        ensures { self.new ≡ record self.old { call = None; ends = false } }
    {
        self.call = None;
        self.ends = false;
    }

    /// The accounts that were put, oldest first.
    pub fn accounts(&self) -> &[MemAccount]
        ensures { result.now ≡ self.now.content.accounts }
    {
        self.accounts.as_slice()
    }

    /// Whether the next call is to fail, and which one is, after it.
    fn count_call(&mut self) -> bool
        ensures content { self.new.content ≡ self.old.content }
        ensures found { self.new.found ≡ self.old.found }
        ensures faults { self.new.faults ≡ self.old.faults }
    {
        let Some(number) = self.call else {
            return false;
        };
        if number > 1 {
            self.call = Some(number - 1);
            return false;
        }
        if !self.ends {
            self.call = None;
        }
        true
    }

    /// Counts a failure. `Memory` if no more can be counted.
    fn count_fault(&mut self) -> ClosingStop
        ensures content { self.new.content ≡ self.old.content }
        ensures found { self.new.found ≡ self.old.found }
        ensures cause { IsCause self.old.faults self.new.faults result }
    {
        match self.faults.checked_add(1) {
            Some(faults) => {
                self.faults = faults;
                ClosingStop::Failed
            }
            None => ClosingStop::Memory,
        }
    }

    /// Counts a call, which fails if it is to fail.
    fn begin_call(&mut self) -> Result<(), ClosingStop>
        ensures content { self.new.content ≡ self.old.content }
        ensures found { self.new.found ≡ self.old.found }
        ensures cause { HasCause self.old.faults self.new.faults result }
    {
        if self.count_call() {
            return Err(self.count_fault());
        }
        Ok(())
    }

    /// Keeps an account. The only refusal is `Memory`, and then nothing is changed.
    fn keep(&mut self, account: MemAccount) -> Result<(), ClosingStop>
        ensures ok { OnOk result
            (self.new.content ≡ content_and account self.old.content) }
        ensures err { OnErr result (self.new.content ≡ self.old.content) }
        ensures faults { self.new.faults ≡ self.old.faults }
        ensures only_memory { IsOkUnless result ClosingStop.Memory }
    {
        match self.accounts.push(account) {
            Ok(()) => Ok(()),
            Err(_) => Err(ClosingStop::Memory),
        }
    }

    /// What a search that stopped answers.
    fn stop_after(&mut self, stop: CompareStop) -> ClosingStop
        ensures content { self.new.content ≡ self.old.content }
        ensures cause { IsCause self.old.faults self.new.faults result }
    {
        match stop {
            CompareStop::Memory => ClosingStop::Memory,
            _ => self.count_fault(),
        }
    }
}

/// What is said of a cycle that found so much.
fn text_for(alloc: Global, cycle: u64, found: usize) -> Result<Vec<u8>, AllocError>
    ensures { IfOk result (λ text. text.items ≡ cycle % 256 ∷ found % 256 ∷ []) }
{
    let mut text = Vec::new(alloc);
    text.extend_from_slice(&[(cycle % 256) as u8, (found % 256) as u8])?;
    Ok(text)
}

impl Closings for MemClosings {
    ghost told = { true };

    ghost seen = { λ folder. kept_of folder.content };

    ghost found = { λ folder. folder.found };

    ghost may_leave = { leaves_now };

    ghost moment = { λ folder. length folder.content.accounts };

    ghost left_since = { was_left_since };

    ghost faults = { λ folder. folder.faults };

    ghost with = { λ _. tt };

    ghost says = { λ _. says_of };

    ghost stays = { λ told folder. refl };

    ghost counts_now = { λ told folder t k le now. is_left_now folder t k le now };

    ghost only_now = { λ told folder k left. is_left_only folder k left };

    fn has_account(&mut self, cycle: u64) -> Result<bool, ClosingStop> {
        self.begin_call()?;
        Ok(is_put(&self.accounts, cycle))
    }

    fn look(&mut self, cycle: u64) -> Result<Look, ClosingStop> {
        self.begin_call()?;
        match look_in(self.alloc, &self.cycles, cycle) {
            Ok(look) => Ok(look),
            Err(_) => Err(ClosingStop::Memory),
        }
    }

    fn find(&mut self, pair: &Pair) -> Result<Found, ClosingStop> {
        self.begin_call()?;
        let changes = match find_in(self.alloc, &self.cycles, &self.listed, pair) {
            Ok(changes) => changes,
            Err(stop) => return Err(self.stop_after(stop)),
        };
        let Ok(list) = list_of(self.alloc, &changes) else {
            return Err(ClosingStop::Memory);
        };
        let Ok(text) = text_for(self.alloc, pair.closed.cycle(), changes.len()) else {
            return Err(ClosingStop::Memory);
        };
        let is_grave = is_grave(&changes);
        self.found = list;
        Ok(Found { text, is_grave })
    }

    fn put(&mut self, pair: &Pair) -> Result<(), ClosingStop> {
        self.begin_call()?;
        let account = MemAccount {
            cycle: pair.closed.cycle(),
            list: mem::replace(&mut self.found, Vec::new(self.alloc)),
        };
        self.keep(account)
    }

    fn drop_found(&mut self, _pair: &Pair) -> Result<(), ClosingStop> {
        self.begin_call()
    }

    fn fail(&mut self, _stop: ClosingStop) {}
}
