// The list of all allocations, each as one word, in a lent table. A word has four bits for each bidder's bundle (0 to
// 6, what nobody owns is 0's) and four for the owner of each place.
#![tactic(auto)]

ghost use Rattle.std.specs.Prelude.{◌≡◌, ◌+◌, ◌-◌, ◌*◌, ◌^◌, ◌≤◌, ◌<◌, length, take, set};
ghost use Rattle.theory.specs.Lists.{over};
ghost use Rattle.numbers.specs.Numbers.{Is};
ghost use Rattle.owners.specs.Owners.{allocations, bundle_from, single};
ghost use Rattle.owners.specs.Singles.{AtMost};
ghost use Rattle.lists.specs.Words.{digit, owners_of, word_of, words_after, lot_words, share_in};

use numbers::power;
use std::array;

// A digit of a word: a bundle, or an owner.
pub fn digit_of(word: u64, k: usize) -> usize
    requires { k < 16 }
    ensures { Is (digit k word) result 15 }
{
    ((word >> (4 * k)) % 16) as usize
}

// The owners of four places; places past the last hold 0.
pub fn owners_of(word: u64) -> [u8; 4]
    ensures { result ≡ owners_of word }
{
    array::from_fn(|place| digit_of(word, 7 + place) as u8)
}

// Buyer i's bundle in the first lots of an owner list.
pub fn bundle_of(owners: [u8; 4], lots: usize, i: usize) -> usize
    requires { lots ≤ 4 }
    ensures { Is (bundle_from single 0 i (take lots owners)) result 15 }
{
    let mut bundle = 0;
    for lot in 0..lots {
        if usize::from(owners[lot]) == i {
            bundle += power(lot);
        }
    }
    bundle
}

// A word with an owner for one place more.
fn with_place(word: u64, place: usize, share: u64, o: usize) -> u64
    requires { (place < 4) × (share ≤ 15) × (o ≤ 6) × (word ≤ place * 16 ^ 11) }
    ensures { Is (word + (share * 16 ^ o + o * 16 ^ (7 + place))) result ((place + 1) * 16 ^ 11) }
{
    let bundle = share << (4 * o);
    let owner = (o as u64) << (4 * (7 + place));
    word + (bundle + owner)
}

// The word of the first lots of an owner list.
fn word_of(owners: [u8; 4], shares: &[u64], lots: usize) -> u64
    requires { AtMost 6 owners × AtMost 15 shares.now × (lots ≤ 4) × (lots ≤ length shares.now) }
    ensures { result ≡ word_of (share_in shares.now) (take lots owners) }
{
    let mut word = 0;
    for j in 0..lots {
        word = with_place(word, j, shares[j], usize::from(owners[j]));
    }
    word
}

// A copy of an owner list, with one place changed.
fn with_owner(owners: [u8; 4], lot: usize, o: usize) -> [u8; 4]
    requires { (lot < 4) × (o ≤ 6) × AtMost 6 owners }
    ensures { (result ≡ set owners lot o) × AtMost 6 result }
{
    let mut next = owners;
    next[lot] = o as u8;
    next
}

// Writes the words of the lists that go on from the owners of the lots before the last `left`; answers how many. Owners
// are tried in the order of `order`.
fn walk(
    out: &mut [u64],
    order: &[usize],
    shares: &[u64],
    lots: usize,
    owners: [u8; 4],
    left: usize,
) -> usize
    requires { AtMost 6 order.now × AtMost 15 shares.now × AtMost 6 owners × (lots ≤ 4)
        × (lots ≤ length shares.now) × (left ≤ lots) × (length order.now ^ left ≤ length out.old) }
    ensures { (result ≡ length order.now ^ left)
        × (out.new
        ≡ over (words_after (share_in shares.now) (take (lots - left) owners)
        (allocations order.now left)) out.old) }
{
    if left == 0 {
        out[0] = word_of(owners, shares, lots);
        return 1;
    }
    let mut at = 0;
    for owner in order {
        let next = with_owner(owners, lots - left, *owner);
        let n = walk(&mut out[at..], order, shares, lots, next, left - 1);
        at += n;
    }
    at
}

// "The list of all allocations of n lots": writes their words, in order; answers how many. Its contract has every word
// of the table, which a slice of it does not have; `listed` lends the slice.
pub fn list_lots(buyers: usize, lots: usize, out: &mut [u64]) -> usize
    requires { (buyers ≤ 6) × (lots ≤ 4) × (2401 ≤ length out.old) }
    ensures { (result ≡ length (lot_words buyers lots))
        × (out.new ≡ over (lot_words buyers lots) out.old) }
{
    let order: [usize; 7] = [0, 1, 2, 3, 4, 5, 6];
    let shares: [u64; 4] = [1, 2, 4, 8];
    let end = buyers + 1;
    walk(out, &order[..end], &shares, lots, [0; 4], lots)
}

// The list itself: the words, at the front of a table that is lent for them.
pub fn listed(buyers: usize, lots: usize, table: &mut [u64]) -> &[u64]
    requires { (buyers ≤ 6) × (lots ≤ 4) × (2401 ≤ length table.old) }
    ensures { result.now ≡ lot_words buyers lots }
{
    let count = list_lots(buyers, lots, table);
    &table[..count]
}
