// Totals of allocations, by loops over a list of their words.
#![tactic(auto)]

ghost use Rattle.std.specs.Prelude.{◌≡◌, ℕ, max, ◌≤◌, ◌<◌, eqb, length, get_or};
ghost use Rattle.std.specs.List.{find};
ghost use Rattle.theory.specs.Sums.{when};
ghost use Rattle.theory.specs.Lists.{most};
ghost use Rattle.numbers.specs.Numbers.{Is};
ghost use Rattle.owners.specs.Singles.{AtMost};
ghost use Rattle.offers.specs.Places.{at_place, per_buyer};
ghost use Rattle.totals.specs.Totals.{word_total, word_in, word_total_in, word_holders, word_total_by};
ghost use Rattle.totals.specs.Totals.{limit_by, word_payment};

use lists::digit_of;
use numbers::power;
use std::array;
use tables::{Table, entry};

// The word that has 1 as the bundle of each bidder, 0 to 6.
const EACH: u64 = 17895697;

// The sum of what stands in a table for what the bidders own.
pub fn total_of(table: &Table, word: u64) -> u32
    ensures { Is (word_total table.now.bidders.low table.now.bidders.buyers table.now.numbers.now word)
        result 458745 }
{
    let mut total = 0;
    for i in table.bidders.low..=table.bidders.buyers {
        total += entry(table.numbers, i, digit_of(word, i));
    }
    total
}

// Question 9's sum (rule 3.9), what all lots are worth to each bidder: the total of a word in which each has them all.
pub fn limit_of(table: &Table, bundles: usize) -> u32
    requires { (1 ≤ bundles) × (bundles ≤ 16) }
    ensures { Is (limit_by table.now.bidders.low table.now.bidders.buyers bundles table.now.numbers.now)
        result 458745 }
{
    let top = bundles as u64 - 1;
    total_of(table, top * EACH)
}

// Whether a word is one of the economy without `absent`, or of all for 0.
pub fn in_economy(word: u64, absent: usize) -> bool
    requires { absent ≤ 6 }
    ensures { result ≡ word_in absent word }
{
    absent == 0 || digit_of(word, absent) == 0
}

// A word's total if it is one of the economy, else 0.
fn total_in(word: u64, absent: usize, total: u32) -> u32
    requires { absent ≤ 6 }
    ensures { result ≡ when (word_in absent word) total }
{
    if in_economy(word, absent) { total } else { 0 }
}

// The greatest total of the economy without `absent`, or of all for 0.
pub fn greatest_total(list: &[u64], table: &Table, absent: usize) -> u32
    requires { absent ≤ 6 }
    ensures { result ≡ most
        (word_total_in table.now.bidders.low table.now.bidders.buyers table.now.numbers.now absent) list.now }
{
    let mut greatest: u32 = 0;
    for word in list {
        greatest = greatest.max(total_in(*word, absent, total_of(table, *word)));
    }
    greatest
}

// Raises the greatest total of each economy that a word of this total is one of.
fn raise_greatest(greatest: &mut [u32; 7], buyers: usize, word: u64, total: u32)
    requires { (buyers ≤ 6) × (length greatest.old ≡ 7) }
    ensures { (length greatest.new ≡ 7)
        × ((e : ℕ) → e ≤ buyers → get_or greatest.new e 0
        ≡ max (get_or greatest.old e 0) (when (word_in e word) total))
        × ((e : ℕ) → buyers < e → get_or greatest.new e 0 ≡ get_or greatest.old e 0) }
{
    for e in 0..=buyers {
        greatest[e] = greatest[e].max(total_in(word, e, total));
    }
}

// The greatest total of each economy: of all at 0, then without each buyer; 0 at the places past the last buyer.
pub fn greatest_totals(list: &[u64], table: &Table) -> [u32; 7]
    ensures { ((e : ℕ) → e ≤ table.now.bidders.buyers → Is
        (most (word_total_in table.now.bidders.low table.now.bidders.buyers table.now.numbers.now e) list.now)
        (get_or result e 0) 458745)
        × ((e : ℕ) → table.now.bidders.buyers < e → get_or result e 0 ≡ 0) }
{
    let mut greatest = [0; 7];
    for word in list {
        let total = total_of(table, *word);
        raise_greatest(&mut greatest, table.bidders.buyers, *word, total);
    }
    greatest
}

// Whether a word has a total.
fn has_total(table: &Table, total: u32, word: u64) -> bool
    ensures { result ≡ eqb
        (word_total table.now.bidders.low table.now.bidders.buyers table.now.numbers.now word) total }
{
    total_of(table, word) == total
}

// The first word of a total.
pub fn first_of_total(list: &[u64], table: &Table, total: u32) -> Option<u64>
    ensures { result ≡ find
        (λ w. eqb (word_total table.now.bidders.low table.now.bidders.buyers table.now.numbers.now w) total)
        list.now }
{
    list.iter()
        .copied()
        .find(|word| has_total(table, total, *word))
}

// The number of the set of buyers that own something. (`keen_set` of supply has such a loop too; one for both, over a
// test, would be longer by the test's contract and law.)
fn set_of(word: u64, buyers: usize) -> usize
    requires { buyers ≤ 6 }
    ensures { Is (word_holders buyers word) result 63 }
{
    let mut set = 0;
    for i in 0..buyers {
        let bundle = digit_of(word, i + 1);
        if bundle != 0 {
            set += power(i);
        }
    }
    set
}

// The value of each set of buyers, the greatest total that it holds, by its number.
pub fn values(list: &[u64], table: &Table) -> [u32; 64]
    ensures { (n : ℕ) → get_or result n 0 ≡ most
        (word_total_by table.now.bidders.low table.now.bidders.buyers table.now.numbers.now n) list.now }
{
    let mut values = [0u32; 64];
    for word in list {
        let set = set_of(*word, table.bidders.buyers);
        values[set] = values[set].max(total_of(table, *word));
    }
    values
}

// What a buyer pays for its part of an allocation (rules 5.3 and 5.10), by the greatest totals of all and without it; 0
// for an absent buyer. Place k is buyer k + 1's.
fn payment_at(greatest: [u32; 7], table: &Table, word: u64, k: usize) -> u32
    requires { AtMost 458745 greatest }
    ensures { result ≡ at_place table.now.bidders.buyers (word_payment greatest table.now.numbers.now word) k }
{
    if table.bidders.buyers <= k {
        return 0;
    }
    let own = entry(table.numbers, k + 1, digit_of(word, k + 1));
    (greatest[k + 1] + own).saturating_sub(greatest[0])
}

// What each buyer pays: by prices in a sale, by worths in the direct way.
pub fn payments(greatest: [u32; 7], table: &Table, word: u64) -> [u32; 6]
    requires { AtMost 458745 greatest }
    ensures { result ≡ per_buyer table.now.bidders.buyers (word_payment greatest table.now.numbers.now word) }
{
    array::from_fn(|k| payment_at(greatest, table, word, k))
}
