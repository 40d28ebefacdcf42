// What buyers have left of their worths at prices, and the raise of a round: of prices, and of what a sale keeps.
#![tactic(auto)]

ghost use Rattle.std.specs.Prelude.{◌≡◌, ℕ, ◌-◌, ◌^◌, ◌≤◌, ◌<◌, length};
ghost use Rattle.numbers.specs.Numbers.{Is};
ghost use Rattle.owners.specs.Owners.{member};
ghost use Rattle.owners.specs.Prices.{buyer_rows};
ghost use Rattle.owners.specs.Quick.{left, raised_by};
ghost use Rattle.owners.specs.Singles.{worth_table, AtMost};
ghost use Rattle.supply.specs.Supply.{payoff_at, NextPayoffs, NextGains, NextRevenues, KeenMembers, SmallGains};
ghost use Rattle.supply.specs.Supply.{SmallRevenues};
ghost use Rattle.raising.specs.Raising.{Rows, raised_row, Common, AllBut};

use numbers::{has, power};
use supply::{Economies, is_member, sets_of};

// Worths, lent: a row of sixteen numbers for each of six buyers, by bundles; and how many bundles there are.
#[derive(Clone, Copy)]
pub struct Valuations<'a> {
    pub worths: &'a [u16],
    pub bundles: usize,
    pub ghost whole: { (1 ≤ bundles) × (bundles ≤ 16) × Rows worths.now },
}

impl Valuations<'_> {
    // What buyer i has left of its worth of all lots, whose bundle is the last.
    fn payoff(&self, prices: &[u16], i: usize) -> u32
        requires { (1 ≤ i) × (i ≤ 6) × (2 ≤ self.now.bundles) × Rows prices.now × AtMost 9999 self.now.worths.now }
        ensures { Is (left (buyer_rows 6) (worth_table self.now.worths.now) (self.now.bundles - 1) prices.now i)
            result 9999 }
    {
        let at = 16 * (i - 1) + (self.bundles - 1);
        u32::from(self.worths[at].saturating_sub(prices[at]))
    }

    // What each buyer has left; places of absent buyers hold 0, so a loop over the buyers fills it.
    pub fn payoffs(&self, prices: &[u16], buyers: usize) -> [u32; 6]
        requires { (buyers ≤ 6) × (2 ≤ self.now.bundles) × Rows prices.now × AtMost 9999 self.now.worths.now }
        ensures { AtMost 9999 result × ((i : ℕ) → 1 ≤ i → i ≤ buyers → payoff_at result i
            ≡ left (buyer_rows 6) (worth_table self.now.worths.now) (self.now.bundles - 1) prices.now i) }
    {
        let mut left = [0; 6];
        for i in 0..buyers {
            left[i] = self.payoff(prices, i + 1);
        }
        left
    }

    // Raises the prices of buyer i, which has so much left, for the bundles that it demands.
    fn raise_row(&self, prices: &mut [u16], i: usize, left: u32)
        requires { (1 ≤ i) × (i ≤ 6) × Rows prices.old × AtMost 60001 prices.old }
        ensures { prices.new ≡ raised_row self.now.bundles self.now.worths.now i left prices.old }
    {
        for s in 1..self.bundles {
            let at = 16 * (i - 1) + s;
            let worth = u32::from(self.worths[at]);
            prices[at] += u16::from(left <= worth);
        }
    }

    // Raises the prices of each member for the bundles that it demands (rule 4.11).
    pub fn raise(&self, payoffs: &[u32; 6], prices: &mut [u16], buyers: usize, set: usize)
        requires { (buyers ≤ 6) × Rows prices.old × AtMost 60000 prices.old }
        ensures { prices.new
            ≡ raised_by (buyer_rows buyers) self.now.bundles (worth_table self.now.worths.now) (member set)
            (payoff_at payoffs.now)
            prices.old }
    {
        for i in 1..=buyers {
            if is_member(set, i) {
                self.raise_row(prices, i, payoffs[i - 1]);
            }
        }
    }
}

// Takes 1 from what each member has left.
pub fn lower_payoffs(payoffs: &mut [u32; 6], buyers: usize, set: usize)
    requires { (buyers ≤ 6) × AtMost 9999 payoffs.old × KeenMembers buyers payoffs.old set }
    ensures { (length payoffs.new ≡ 6) × AtMost 9999 payoffs.new
        × NextPayoffs buyers payoffs.old set payoffs.new }
{
    for i in 0..buyers {
        payoffs[i] -= u32::from(is_member(set, i + 1));
    }
}

// How many members two sets have in common.
fn common(set: usize, other: usize) -> u32
    requires { set < 64 }
    ensures { Common set other result }
{
    ((other & set) as u32).count_ones()
}

// Adds to each set's gain how many members of the raised set it has.
pub fn raise_gains(gains: &mut [u32; 64], buyers: usize, set: usize)
    requires { (buyers ≤ 6) × (set < 2 ^ buyers) × SmallGains buyers gains.old }
    ensures { (length gains.new ≡ 64)
        × NextGains buyers gains.old set gains.new }
{
    for k in 0..sets_of(buyers) {
        gains[k] += common(set, k);
    }
}

// The set of all six but the absent buyer, of all for 0.
fn all_but(absent: usize) -> usize
    requires { absent ≤ 6 }
    ensures { AllBut absent result }
{
    if absent == 0 {
        return 63;
    }
    63 - power(absent - 1)
}

// Adds to the revenue of each economy how many members are present, less 1 if its word has not the set.
pub fn raise_revenues(revenues: &mut [u32; 7], words: &[u64; 7], economies: Economies, set: usize)
    requires { (set < 2 ^ economies.buyers) × SmallRevenues economies.last revenues.old }
    ensures { (length revenues.new ≡ 7)
        × NextRevenues economies.buyers economies.last revenues.old words.now set revenues.new }
{
    for e in 0..=economies.last {
        let up = revenues[e] + common(set, all_but(e));
        revenues[e] = up - u32::from(!has(words[e], set));
    }
}
