// The lowest undersupplied set, by the gains of sets, the revenues of economies and what buyers have left, which a sale
// keeps from round to round. A set of sets is a word of 64 bits: bit n is for the set of number n.
#![tactic(auto)]

ghost use Rattle.std.specs.Prelude.{◌≡◌, true, not, ◌&&◌, ◌+◌, ◌^◌, ◌≤◌, ◌<◌};
ghost use Rattle.theory.specs.Tests.{every, least};
ghost use Rattle.theory.specs.Coalitions.{payoff_of, inside, covers};
ghost use Rattle.numbers.specs.Numbers.{Is, bit};
ghost use Rattle.owners.specs.Owners.{member};
ghost use Rattle.owners.specs.Quick.{present_in, roster};
ghost use Rattle.owners.specs.Singles.{AtMost};
ghost use Rattle.supply.specs.Supply.{at, payoff_at, Gains, greatest, Revenues, Under, Joins, Supplied};
ghost use Rattle.supply.specs.Supply.{Word, KeenBuyers, among, Subsets, lowest_in, one_more};

use numbers::{has, power};

// Gains are kept this much higher, so that none is negative: six buyers have at most 59,994 left.
const SHIFT: u32 = 60000;

// For each set, the word of its subsets.
#[rattlefmt::skip]
static SUBSETS: [u64; 64] = [
    0x0000000000000001, 0x0000000000000003, 0x0000000000000005, 0x000000000000000F,
    0x0000000000000011, 0x0000000000000033, 0x0000000000000055, 0x00000000000000FF,
    0x0000000000000101, 0x0000000000000303, 0x0000000000000505, 0x0000000000000F0F,
    0x0000000000001111, 0x0000000000003333, 0x0000000000005555, 0x000000000000FFFF,
    0x0000000000010001, 0x0000000000030003, 0x0000000000050005, 0x00000000000F000F,
    0x0000000000110011, 0x0000000000330033, 0x0000000000550055, 0x0000000000FF00FF,
    0x0000000001010101, 0x0000000003030303, 0x0000000005050505, 0x000000000F0F0F0F,
    0x0000000011111111, 0x0000000033333333, 0x0000000055555555, 0x00000000FFFFFFFF,
    0x0000000100000001, 0x0000000300000003, 0x0000000500000005, 0x0000000F0000000F,
    0x0000001100000011, 0x0000003300000033, 0x0000005500000055, 0x000000FF000000FF,
    0x0000010100000101, 0x0000030300000303, 0x0000050500000505, 0x00000F0F00000F0F,
    0x0000111100001111, 0x0000333300003333, 0x0000555500005555, 0x0000FFFF0000FFFF,
    0x0001000100010001, 0x0003000300030003, 0x0005000500050005, 0x000F000F000F000F,
    0x0011001100110011, 0x0033003300330033, 0x0055005500550055, 0x00FF00FF00FF00FF,
    0x0101010101010101, 0x0303030303030303, 0x0505050505050505, 0x0F0F0F0F0F0F0F0F,
    0x1111111111111111, 0x3333333333333333, 0x5555555555555555, 0xFFFFFFFFFFFFFFFF,
];

// How many sets so many buyers have, by their number.
static SETS: [usize; 7] = [1, 2, 4, 8, 16, 32, 64];

// The sets of so many buyers, the empty one among them. By a table: a shift as the bound of a loop is made anew at each
// turn, and a sale took 1.3 times as long.
pub fn sets_of(buyers: usize) -> usize
    requires { buyers ≤ 6 }
    ensures { Is (2 ^ buyers) result 64 }
{
    SETS[buyers]
}

// Whether buyer i is a member of the set of a number.
pub fn is_member(set: usize, i: usize) -> bool
    requires { (1 ≤ i) × (i ≤ 6) }
    ensures { result ≡ member set i }
{
    has(set as u64, i - 1)
}

// The table of subsets, whole.
pub fn subsets() -> [u64; 64]
    ensures { Subsets result }
{
    SUBSETS
}

// The sets of some of a set's members.
fn subsets_of(set: usize) -> u64
    requires { set < 64 }
    ensures { Word 6 (among 6 set) result }
{
    SUBSETS[set]
}

// What the members of the set k have left.
fn payoff_of(payoffs: &[u32; 6], buyers: usize, k: usize) -> u32
    requires { (buyers ≤ 6) × AtMost 9999 payoffs.now }
    ensures { Is (payoff_of (roster buyers) (payoff_at payoffs.now) k) result 59994 }
{
    let mut total = 0;
    for i in 1..=buyers {
        if is_member(k, i) {
            total += payoffs[i - 1];
        }
    }
    total
}

// What each set's value is above what its members have left.
pub fn gains(values: &[u32; 64], payoffs: &[u32; 6], buyers: usize) -> [u32; 64]
    requires { (buyers ≤ 6) × AtMost 9999 payoffs.now × AtMost 59994 values.now }
    ensures { Gains buyers values.now payoffs.now result }
{
    let mut next = [0; 64];
    for k in 0..sets_of(buyers) {
        next[k] = SHIFT + values[k] - payoff_of(payoffs, buyers, k);
    }
    next
}

// The set of all keen buyers: those that have something left.
fn keen_set(payoffs: &[u32; 6], buyers: usize) -> usize
    requires { buyers ≤ 6 }
    ensures { KeenBuyers buyers payoffs.now result }
{
    let mut set = 0;
    for i in 0..buyers {
        if 1 <= payoffs[i] {
            set += power(i);
        }
    }
    set
}

// The lowest set of one word that the other lacks, if there is one. A word with no bit has 64 trailing zeros, and 64 is
// no set's number.
fn first_missing(word: u64, other: u64, sets: usize) -> Option<usize>
    requires { sets ≤ 64 }
    ensures { Is (least sets 0 (λ n. bit n word && not (bit n other))) (one_more result) 64 }
{
    let missing = word & !other;
    let n = missing.trailing_zeros() as usize;
    if n < sets {
        return Some(n);
    }
    None
}

// How many buyers there are, and the last economy that sets are judged in. Economies are numbered from 0: number 0 is
// that of all buyers, and the others are each without the buyer of the same number.
#[derive(Clone, Copy)]
pub struct Economies {
    pub buyers: usize,
    pub last: usize,
    pub ghost few: { (buyers ≤ 6) × (last ≤ buyers) },
}

impl Economies {
    // Whether the set k has none but buyers of an economy.
    fn is_inside(self, economy: usize, k: usize) -> bool
        requires { economy ≤ self.buyers }
        ensures { result ≡ inside (roster self.buyers) (present_in economy) k }
    {
        economy == 0 || !is_member(k, economy)
    }

    // The greatest gain of a set in an economy.
    fn revenue(self, gains: &[u32; 64], economy: usize) -> u32
        requires { economy ≤ self.buyers }
        ensures { result ≡ greatest self.buyers gains.now economy }
    {
        let mut best = 0;
        for k in 0..sets_of(self.buyers) {
            if best < gains[k] && self.is_inside(economy, k) {
                best = gains[k];
            }
        }
        best
    }

    // The revenue of each economy.
    pub fn revenues(self, gains: &[u32; 64]) -> [u32; 7]
        ensures { Revenues self.buyers self.last gains.now result }
    {
        let mut next = [0; 7];
        for e in 0..=self.last {
            next[e] = self.revenue(gains, e);
        }
        next
    }

    // The sets whose members in an economy are all in k, a set of that economy.
    fn covered(self, economy: usize, k: usize) -> u64
        requires { (economy ≤ self.buyers) × (k < 2 ^ self.buyers)
            × (inside (roster self.buyers) (present_in economy) k ≡ true) }
        ensures { Word self.buyers (λ n. covers (roster self.buyers) (present_in economy) n k) result }
    {
        if economy == 0 {
            return subsets_of(k);
        }
        subsets_of(k + power(economy - 1))
    }

    // The least revenue. That none is below it is all that its contract says: sets that gain less are passed over.
    fn least_of(self, revenues: &[u32; 7]) -> u32
        ensures { Under self.last revenues.now result }
    {
        let mut least = revenues[0];
        for e in 1..=self.last {
            least = least.min(revenues[e]);
        }
        least
    }

    // Adds the sets that the set k covers to the words of the economies whose revenue is its gain.
    fn reach(self, words: &mut [u64; 7], revenues: &[u32; 7], k: usize, gain: u32)
        requires { k < 2 ^ self.buyers }
        ensures { Joins self.buyers self.last revenues.now gain k words.old words.new }
    {
        for e in 0..=self.last {
            if gain == revenues[e] && self.is_inside(e, k) {
                words[e] |= self.covered(e, k);
            }
        }
    }

    // The sets that are supplied in each economy: those whose members in it are all in a set that gains the revenue. A
    // set that gains less than the least revenue gains none of them.
    pub fn supplied(self, gains: &[u32; 64], revenues: &[u32; 7]) -> [u64; 7]
        ensures { Supplied self.buyers self.last gains.now revenues.now result }
    {
        let least = self.least_of(revenues);
        let mut words = [0; 7];
        for k in 0..sets_of(self.buyers) {
            if least <= gains[k] {
                self.reach(&mut words, revenues, k, gains[k]);
            }
        }
        words
    }

    // The sets that are supplied in every economy.
    fn everywhere(self, words: &[u64; 7]) -> u64
        ensures { Word 6 (λ n. every (self.last + 1) 0 (λ e. bit n (at words.now e))) result }
    {
        let mut word = u64::MAX;
        for e in 0..=self.last {
            word &= words[e];
        }
        word
    }

    // The lowest set of keen buyers that some economy does not supply, if there is one.
    pub fn lowest(self, words: &[u64; 7], payoffs: &[u32; 6]) -> Option<usize>
        ensures { Is (lowest_in self.buyers self.last words.now payoffs.now) (one_more result) 64 }
    {
        let keen = subsets_of(keen_set(payoffs, self.buyers));
        let supplied = self.everywhere(words);
        first_missing(keen, supplied, sets_of(self.buyers))
    }
}
