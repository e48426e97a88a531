//! How many credits each holder has.
ghost use Rattle.std.specs.Prelude.{◌≡◌, ◌+◌, ◌^◌, ◌<◌, ◌≤◌, ◌++◌, length, replicate, position, OnOk, OnErr, IfOk};
ghost use Rattle.view_sums.specs.Total.{SameItems};
ghost use Rattle.pin_core.specs.Accounts.{is_of};
ghost use Rattle.pin_core.specs.Answers.{credits_of};

use crate::holder::Holder;
use crate::refused::Memory;
use std::alloc::Global;
use std::marker::Model;

#[derive(Clone, Copy)]
struct Account {
    holder: Holder,
    credits: u64,
}

/// The credits of all holders, in one account for each. Contracts see a list in which a holder stands once for each of
/// its credits.
#[derive(Drop)]
pub(crate) struct Credits {
    accounts: Vec<Account>,
}

impl Model for Credits {
    ghost use Rattle.std.specs.Prelude.{List};
    ghost use Rattle.pin_core.specs.declared.holder.Holder.{Holder};
    ghost use Rattle.pin_core.specs.Accounts.{account_credits, AreSingle};

    ghost Value = { List Holder };

    ghost view = { λ c. account_credits c.accounts.items };

    ghost invariant = { λ c. AreSingle c.accounts.items };
}

fn find_account(accounts: &[Account], holder: Holder) -> Option<usize>
    ensures { result ≡ position (is_of holder) accounts.now }
{
    accounts.iter().position(|a| a.holder == holder)
}

impl Credits {
    pub(crate) fn open(alloc: Global, holder: Holder, credits: u64) -> Result<Self, Memory>
        ensures { IfOk result (λ c. c ≡ replicate credits holder) }
    {
        let mut accounts = Vec::new(alloc);
        match accounts.push(Account { holder, credits }) {
            Ok(()) => Ok(Credits { accounts }),
            Err(_) => Err(Memory),
        }
    }

    pub(crate) fn of(&self, holder: Holder) -> u64
        ensures { result ≡ credits_of holder self.now }
    {
        match find_account(&self.accounts, holder) {
            Some(k) => self.accounts[k].credits,
            None => 0,
        }
    }

    pub(crate) fn add(&mut self, holder: Holder, credits: u64) -> Result<(), Memory>
        requires { length self.old + credits < 2 ^ 64 }
        ensures ok { OnOk result (SameItems self.new (replicate credits holder ++ self.old)) }
        ensures err { OnErr result (self.new ≡ self.old) }
    {
        if credits == 0 {
            return Ok(());
        }
        match find_account(&self.accounts, holder) {
            Some(k) => {
                self.accounts[k].credits += credits;
                Ok(())
            }
            None => match self.accounts.push(Account { holder, credits }) {
                Ok(()) => Ok(()),
                Err(_) => Err(Memory),
            },
        }
    }

    pub(crate) fn take(&mut self, holder: Holder, credits: u64)
        requires { credits ≤ credits_of holder self.old }
        ensures { SameItems self.old (replicate credits holder ++ self.new) }
    {
        if let Some(k) = find_account(&self.accounts, holder) {
            self.accounts[k].credits -= credits;
        }
    }
}
