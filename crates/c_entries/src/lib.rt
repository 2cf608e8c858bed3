// The entries of a reading as a lent list of numbers, for C: how many entries there are, then of each of 13 its code, its first and its last byte.
#![tactic(auto)]

ghost use Rattle.std.specs.Prelude.{◌+◌, ◌<◌, ◌≡◌, length};
ghost use Rattle.c_entries.specs.Lent.{entries_size, entry_numbers, with_triple, EntriesPut};

use rules::{Entry, Layout};

// How many numbers the entries have.
pub const ENTRIES: usize = 40;

// Three numbers of an entry, behind `at` others.
fn put_entry(list: &mut [u64], at: usize, e: Entry)
    requires { (at < length list.old) × (at + 1 < length list.old) × (at + 2 < length list.old) }
    ensures { list.new ≡ with_triple list.old at e }
{
    list[at] = e.code as u64;
    list[at + 1] = e.first as u64;
    list[at + 2] = e.last as u64;
}

// The entries put into the list.
fn put_all(list: &mut [u64], es: Layout)
    requires { length list.old ≡ entries_size }
    ensures { list.new ≡ entry_numbers es }
{
    list[0] = es.count as u64;
    for (i, e) in es.entries.iter().enumerate() {
        put_entry(list, 3 * i + 1, *e);
    }
}

// The entries put into the list, where it has its numbers; else nothing is changed.
pub fn put(list: &mut [u64], es: Layout)
    ensures { EntriesPut es list.old list.new }
{
    if list.len() == ENTRIES {
        put_all(list, es);
    }
}
