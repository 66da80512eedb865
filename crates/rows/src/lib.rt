// The passes over rows of any items: marks of sides, letters of words. Each writes what the items become into a list whose room is reserved.
// What is looked for and what is put stay parameters: a struct of them would be made for one call and taken apart in it.

#![tactic(auto)]

ghost use Rattle.std.specs.Prelude.{◌≡◌, ◌+◌, ◌≤◌, ◌<◌, [], ◌∷◌, ◌++◌, length};
ghost use Rattle.std.specs.Int.NonZero.{non_zero_u32_get};
ghost use Rattle.systems.specs.Rows.{replace_blocks, replace_pairs, row};

use reserved::Reserved;
use std::num::NonZeroU32;

// Writes one more item.
fn put<T: Drop, const N: usize>(out: &mut Reserved<T, N>, item: T)
    requires room { length out.old < N }
    ensures { out.new ≡ out.old ++ item ∷ [] }
{
    out.push(item).unwrap();
}

// The items, with `new` for each ab.
pub fn put_pairs<T: Copy + PartialEq, const N: usize>(
    out: &mut Reserved<T, N>,
    items: &Reserved<T, N>,
    a: T,
    b: T,
    new: T,
)
    ensures items { out.new ≡ replace_pairs (λ m. T.eq m a) (λ m. T.eq m b) new items.now }
    ensures bound { length out.new ≤ length items.now }
{
    out.clear();
    let mut rest = items.as_slice();
    while let [first, after @ ..] = rest {
        match after {
            [second, behind @ ..] if *first == a && *second == b => {
                put(out, new);
                rest = behind;
            }
            _ => {
                put(out, *first);
                rest = after;
            }
        }
    }
}

// A block of `count` times a, or `new` where that is n times.
fn put_block<T: Copy, const N: usize>(
    out: &mut Reserved<T, N>,
    a: T,
    n: NonZeroU32,
    new: T,
    count: usize,
)
    requires room { length out.old + count ≤ N }
    ensures items { out.new ≡ out.old ++ row a (non_zero_u32_get n) new count }
    ensures bound { length out.new ≤ length out.old + count }
{
    if count == n.get() as usize {
        put(out, new);
    } else {
        for _ in 0..count {
            put(out, a);
        }
    }
}

// The items, with `new` for each maximal row of exactly n times a.
pub fn put_blocks<T: Copy + PartialEq, const N: usize>(
    out: &mut Reserved<T, N>,
    items: &Reserved<T, N>,
    a: T,
    n: NonZeroU32,
    new: T,
)
    ensures items { out.new ≡ replace_blocks (λ m. T.eq m a) a (non_zero_u32_get n) new 0 items.now }
    ensures bound { length out.new ≤ length items.now }
{
    out.clear();
    let mut count = 0;
    let mut ahead = items.as_slice();
    while let [item, more @ ..] = ahead {
        if *item == a {
            count += 1;
        } else {
            put_block(out, a, n, new, count);
            put(out, *item);
            count = 0;
        }
        ahead = more;
    }
    put_block(out, a, n, new, count);
}
