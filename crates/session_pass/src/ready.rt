// The list for what a call stores.
ghost use Rattle.std.specs.Prelude.{◌≡◌, ◌+◌, ◌≤◌, [], length, vec_capacity, IfOk, OnOk, IfSome};
ghost use Rattle.std.proofs.Props.{props};
ghost use Rattle.session_pass.specs.declared.ready.TheConstants.{MOST_FRAGS};

use flake_base::{Memory, Seg, Segs};
use std::alloc::Global;

/// The most fragments of a value.
const MOST_FRAGS: usize = 16;

/// For how many fragments a list takes room.
const ROOM: usize = 1024;

/// Has the list of the last call, emptied, for the next one. How much of a list's room is left shows to proofs alone,
/// and none that was filled is known to come back; so what is left for sure is counted, and where that is less than a
/// value can need the next list is a new one.
#[derive(Drop)]
pub(crate) struct Ready {
    alloc: Global,
    list: Option<Segs>,
    left: usize,
    ghost room: { IfSome list (λ l. (l.items ≡ []) × (MOST_FRAGS ≤ left) × (left ≤ l.spare)) } by { Prim.hlevel props },
}

impl Ready {
    pub(crate) fn new(alloc: Global) -> Self {
        Ready {
            alloc,
            list: None,
            left: 0,
        }
    }

    /// An empty list with room for a value's fragments. Memory is taken only where none is ready.
    pub(crate) fn take(&mut self) -> Result<Segs, Memory>
        ensures empty { IfOk result (λ list. list.items ≡ []) }
        ensures left { IfOk result (λ list. self.new.left ≤ list.spare) }
        ensures room { OnOk result (MOST_FRAGS ≤ self.new.left) }
    {
        match self.list.take() {
            Some(list) => Ok(list),
            None => {
                let list = Segs::with_room(self.alloc, ROOM)?;
                self.left = ROOM;
                Ok(list)
            }
        }
    }

    /// Hands out what was put into such a list: in `stored` where that has the room, else as the list itself.
    pub(crate) fn hand_out(&mut self, list: Segs, stored: &mut Vec<Seg>)
        requires left { self.old.left ≤ list.spare + length list.items }
        ensures stored { stored.new.items ≡ list.items }
    {
        if list.is_empty() {
            stored.clear();
        } else if stored.capacity() < list.len() {
            *stored = list.into_vec();
            return;
        } else {
            copy(&list, stored);
        }
        self.keep(list);
    }

    /// Keeps such a list for the next call.
    pub(crate) fn keep(&mut self, list: Segs)
        requires left { self.old.left ≤ list.spare + length list.items }
    {
        let mut list = list;
        if !list.is_empty() {
            self.left = self.left.saturating_sub(list.len());
            list.truncate(0);
        }
        self.list = if MOST_FRAGS <= self.left {
            Some(list)
        } else {
            None
        };
    }
}

// Puts a list's items in the place of others.
fn copy(list: &Segs, stored: &mut Vec<Seg>)
    requires { length list.now.items ≤ vec_capacity stored.old }
    ensures { stored.new.items ≡ list.now.items }
{
    stored.clear();
    for i in 0..list.len() {
        stored.push_reserved(*list.get(i));
    }
}
