//! Variables that stay without a value.

ghost use Rattle.std.specs.Prelude.{◌≡◌, ◌+◌, ◌-◌, ◌<◌, ◌≤◌, length};
ghost use Rattle.lq_terms.specs.Terms.{Terms};
ghost use Rattle.lq_solving.specs.Elaboration.{numbers};
ghost use Rattle.lq_solving.specs.Kept.{IsStore};
ghost use Rattle.lq_evars.specs.Places.{store_of};
ghost use Rattle.lq_sessions.specs.Sessions.{open_among};

use lq_evars::Store;

/// How many variables from a number on have no value, by how many behind it have none.
fn with_one(store: &Store, at: u32, behind: u32) -> u32
    requires at { at < length store.now.variables }
    requires few { behind + at < 4294967295 }
    ensures told { (bank : Terms) → IsStore (store_of bank store.now)
        → behind ≡ open_among (store_of bank store.now) (numbers (at + 1) (length store.now.variables - (at + 1)))
        → result ≡ open_among (store_of bank store.now) (numbers at (length store.now.variables - at)) }
    ensures few { result ≤ behind + 1 }
{
    match store.value(at) {
        Some(_) => behind,
        None => behind + 1,
    }
}

/// How many of a store's variables, from a number on, have no value. It takes no memory.
pub fn unsolved_from(store: &Store, first: u32) -> u32
    requires { first ≤ length store.now.variables }
    ensures { (bank : Terms) → IsStore (store_of bank store.now)
        → result ≡ open_among (store_of bank store.now) (numbers first (length store.now.variables - first)) }
{
    let mut at = store.count();
    let mut open = 0;
    'variables: while at > first {
        at -= 1;
        open = with_one(store, at, open);
    }
    open
}
