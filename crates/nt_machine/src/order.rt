// Orders of slots.
ghost use Rattle.std.specs.Prelude.{◌≡◌, length};
ghost use Rattle.nt_semantics.specs.Same.{is_listed};
ghost use Rattle.nt_semantics.specs.Step.{is_distinct, all_below, is_order};

fn has(number: u32, numbers: &[u32]) -> bool
    ensures { result ≡ is_listed number numbers.now }
{
    for other in numbers {
        if number == *other {
            return true;
        }
    }
    false
}

fn is_distinct(numbers: &[u32]) -> bool
    ensures { result ≡ is_distinct numbers.now }
{
    let mut rest = numbers;
    while let [first, after @ ..] = rest {
        if has(*first, after) {
            return false;
        }
        rest = after;
    }
    true
}

fn all_below(count: usize, numbers: &[u32]) -> bool
    ensures { result ≡ all_below count numbers.now }
{
    for number in numbers {
        if *number as usize >= count {
            return false;
        }
    }
    true
}

/// Whether these are the numbers below `count`, each once.
pub fn names_each_slot(count: usize, numbers: &[u32]) -> bool
    ensures { result ≡ is_order count numbers.now }
{
    if numbers.len() != count {
        return false;
    }
    if !all_below(count, numbers) {
        return false;
    }
    is_distinct(numbers)
}
