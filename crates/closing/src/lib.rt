// The closing at prices: the owners, discounts and payments; and whether prices are settled. Both by loops over the
// words of all allocations. Prices are any.
#![tactic(auto)]

ghost use Rattle.std.specs.Prelude.{◌≡◌, ◌+◌, ◌*◌, ◌≤◌, eqb, length};
ghost use Rattle.std.specs.List.{find};
ghost use Rattle.theory.specs.Tests.{every};
ghost use Rattle.owners.specs.Prices.{rows};
ghost use Rattle.owners.specs.Quick.{present_in};
ghost use Rattle.offers.specs.Offers.{Offer, lowest};
ghost use Rattle.offers.specs.Places.{at_place, per_buyer};
ghost use Rattle.lists.specs.Words.{Lent};
ghost use Rattle.closing.specs.Closings.{sale_closing, discount_by};
ghost use Rattle.closing.specs.Supplies.{demand_at, demand_sets, served_by, present_served, economy_closes};
ghost use Rattle.closing.specs.Supplies.{word_supplied};

use demand::Quotes;
use lists::digit_of;
use numbers::has;
use std::array;
use tables::{Bidders, Table};

// Worths and prices, lent, with the bidders that have rows in both.
#[derive(Clone, Copy)]
pub struct Market<'a> {
    pub bidders: Bidders,
    pub quotes: Quotes<'a>,
    pub ghost whole: { (16 * rows bidders.low ≤ length quotes.worths.now)
        × (16 * rows bidders.low ≤ length quotes.prices.now) },
}

impl<'a> Market<'a> {
    // A bidder's demand set, 0 for a number that is no bidder's.
    fn demand_at(&self, i: usize) -> u16
        ensures { result ≡ demand_at self.now.bidders.low self.now.bidders.buyers self.now.quotes.bundles
            self.now.quotes.worths.now self.now.quotes.prices.now i }
    {
        if i < self.bidders.low || self.bidders.buyers < i {
            return 0;
        }
        self.quotes.demand_set(i)
    }

    // What the bidders demand.
    fn demands(&self) -> Demands<'a>
        ensures { (result.sets ≡ demand_sets self.now.bidders.low self.now.bidders.buyers self.now.quotes.bundles
            self.now.quotes.worths.now self.now.quotes.prices.now)
            × (result.prices.bidders ≡ self.now.bidders)
            × (result.prices.numbers.now ≡ self.now.quotes.prices.now) }
    {
        let prices = Table {
            bidders: self.bidders,
            numbers: self.quotes.prices,
        };
        let sets = array::from_fn(|i| self.demand_at(i));
        Demands { sets, prices }
    }
}

// Whether a bidder is present in the economy without `absent`, or of all for 0.
fn is_present(absent: usize, i: usize) -> bool
    ensures { result ≡ present_in absent i }
{
    absent == 0 || i != absent
}

// The demand sets of the bidders, each at its number, and the prices at which they demand.
#[derive(Clone, Copy)]
struct Demands<'a> {
    sets: [u16; 7],
    prices: Table<'a>,
}

impl Demands<'_> {
    // Whether a bidder demands what it owns, or is not present.
    fn is_served(&self, absent: usize, i: usize, word: u64) -> bool
        requires { i ≤ 6 }
        ensures { result ≡ served_by self.now.sets absent word i }
    {
        !is_present(absent, i) || has(u64::from(self.sets[i]), digit_of(word, i))
    }

    // Whether every bidder present demands what it owns.
    fn all_present_served(&self, absent: usize, word: u64) -> bool
        ensures { result ≡ present_served self.now.prices.bidders.low self.now.prices.bidders.buyers
            self.now.sets absent word }
    {
        for i in self.prices.bidders.low..=self.prices.bidders.buyers {
            if !self.is_served(absent, i, word) {
                return false;
            }
        }
        true
    }

    // Whether a word is one of the economy without `absent`, or of all for 0, every bidder present demands what it
    // owns, and it brings `least` or more. With the revenue for that it closes the economy, and that of all the sale
    // (rule 5.1).
    fn closes_economy(&self, absent: usize, least: u32, word: u64) -> bool
        requires { absent ≤ 6 }
        ensures { result ≡ economy_closes self.now.prices.bidders.low self.now.prices.bidders.buyers self.now.sets
            self.now.prices.numbers.now absent least word }
    {
        totals::in_economy(word, absent)
            && self.all_present_served(absent, word)
            && least <= totals::total_of(&self.prices, word)
    }

    // The first such word.
    fn first_in_economy(&self, list: &[u64], absent: usize, least: u32) -> Option<u64>
        requires { absent ≤ 6 }
        ensures { result ≡ find (economy_closes self.now.prices.bidders.low self.now.prices.bidders.buyers
            self.now.sets self.now.prices.numbers.now absent least) list.now }
    {
        list.iter()
            .copied()
            .find(|word| self.closes_economy(absent, least, *word))
    }

    // Whether some word closes an economy, that is, it supplies its keen bidders. The revenue is not asked for where no
    // word gives everybody present a demanded bundle.
    fn is_supplied(&self, list: &[u64], absent: usize) -> bool
        requires { absent ≤ 6 }
        ensures { result ≡ word_supplied self.now.prices.bidders.low self.now.prices.bidders.buyers self.now.sets
            self.now.prices.numbers.now list.now absent }
    {
        let any = self.first_in_economy(list, absent, 0);
        if any.is_none() {
            return false;
        }
        let revenue = totals::greatest_total(list, &self.prices, absent);
        let word = self.first_in_economy(list, absent, revenue);
        word.is_some()
    }

    // Whether all economies supply their keen bidders; none is looked at after the first that does not.
    fn all_supplied(&self, list: &[u64]) -> bool
        ensures { result ≡ every (self.now.prices.bidders.buyers + 1) 0
            (word_supplied self.now.prices.bidders.low self.now.prices.bidders.buyers self.now.sets
            self.now.prices.numbers.now list.now) }
    {
        for e in 0..=self.prices.bidders.buyers {
            let supplied = self.is_supplied(list, e);
            if !supplied {
                return false;
            }
        }
        true
    }
}

// Whether prices are settled (a UCE), by the words of all allocations.
pub fn are_settled(list: &[u64], market: &Market) -> bool
    ensures { (O : Offer) → Lent O list.now market.now.quotes.worths.now market.now.bidders.low
        market.now.bidders.buyers market.now.quotes.bundles →
        result ≡ eqb (lowest O market.now.quotes.prices.now) 0 }
{
    market.demands().all_supplied(list)
}

// Owners, discounts and payments at the closing; those of absent buyers are 0.
#[derive(Drop)]
pub struct Closing {
    pub owners: [u8; 4],
    pub discounts: [u32; 6],
    pub payments: [u32; 6],
}

// A buyer's discount (rule 5.2), 0 for an absent one; place k is buyer k + 1's.
fn discount_at(revenues: [u32; 7], buyers: usize, k: usize) -> u32
    requires { buyers ≤ 6 }
    ensures { result ≡ at_place buyers (discount_by revenues) k }
{
    if buyers <= k {
        return 0;
    }
    revenues[0].saturating_sub(revenues[k + 1])
}

fn discounts(revenues: [u32; 7], buyers: usize) -> [u32; 6]
    requires { buyers ≤ 6 }
    ensures { result ≡ per_buyer buyers (discount_by revenues) }
{
    array::from_fn(|k| discount_at(revenues, buyers, k))
}

// The closing of a sale at its prices, by the words of its allocations: by the first that closes the economy of all,
// and where none does, by the word in which nobody owns anything.
pub fn close_sale(list: &[u64], market: &Market) -> Closing
    ensures { (O : Offer) → Lent O list.now market.now.quotes.worths.now market.now.bidders.low
        market.now.bidders.buyers market.now.quotes.bundles →
        result ≡ sale_closing O market.now.quotes.prices.now }
{
    let demands = market.demands();
    let revenues = totals::greatest_totals(list, &demands.prices);
    let word = demands.first_in_economy(list, 0, revenues[0]).unwrap_or(0);
    let owners = lists::owners_of(word);
    let discounts = discounts(revenues, market.bidders.buyers);
    let payments = totals::payments(revenues, &demands.prices, word);
    Closing {
        owners,
        discounts,
        payments,
    }
}
