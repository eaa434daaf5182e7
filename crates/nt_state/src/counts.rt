// How many copies of an event are in Active.
ghost use Rattle.std.specs.Prelude.{◌≡◌, ◌<◌, ◌^◌, length, nat_lt};
ghost use Rattle.std.specs.List.{list_any};
ghost use Rattle.nt_semantics.specs.State.{count_at, fewer, more};

use sqlite_items::Items;

pub(crate) fn count_of(counts: &[u64], at: u32) -> u64
    ensures { result ≡ count_at counts.now at }
{
    match counts.get(at as usize) {
        Some(count) => *count,
        None => 0,
    }
}

pub(crate) fn any_left(counts: &[u64]) -> bool
    ensures { result ≡ list_any (nat_lt 0) counts.now }
{
    counts.iter().any(|count| *count > 0)
}

pub(crate) fn any_true(tests: &[bool]) -> bool
    ensures { result ≡ list_any (λ test. test) tests.now }
{
    tests.iter().any(|test| *test)
}

pub(crate) fn add_one(counts: &mut Items<u64>, at: u32)
    requires within { at < length counts.old }
    requires few { count_at counts.old at < 2 ^ 63 }
    ensures { counts.new ≡ more counts.old at }
{
    let count = counts.as_slice()[at as usize];
    counts.set(at as usize, count + 1);
}

pub(crate) fn take_some(counts: &mut Items<u64>, at: u32, some: u64)
    requires { at < length counts.old }
    ensures { counts.new ≡ fewer some counts.old at }
{
    let count = counts.as_slice()[at as usize];
    counts.set(at as usize, count.saturating_sub(some));
}
