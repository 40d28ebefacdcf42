// What stands in a table of prices or worths for a bidder and a bundle. Tables have sixteen numbers to a row: six rows
// for the buyers, and a seventh where there is a house.
#![tactic(auto)]

ghost use Rattle.std.specs.Prelude.{◌+◌, ◌*◌, ◌≤◌, ◌<◌, length};
ghost use Rattle.numbers.specs.Numbers.{Is};
ghost use Rattle.owners.specs.Prices.{rows, row, entry};

// Those who bid: the buyers, 1 to `buyers`, and the house, bidder 0, where `low` is 0.
#[derive(Clone, Copy)]
pub struct Bidders {
    pub low: usize,
    pub buyers: usize,
    pub ghost few: { (low ≤ 1) × (buyers ≤ 6) },
}

// A table, lent, with the bidders that have rows in it.
#[derive(Clone, Copy)]
pub struct Table<'a> {
    pub bidders: Bidders,
    pub numbers: &'a [u16],
    pub ghost whole: { 16 * rows bidders.low ≤ length numbers.now },
}

// A bidder's row: the house, bidder 0, has the last.
fn row_of(i: usize) -> usize
    requires { i ≤ 6 }
    ensures { Is (row i) result 6 }
{
    if i == 0 {
        return 6;
    }
    i - 1
}

// What stands in a table of sixteen numbers to a bidder; the empty bundle has 0, whatever stands at its place.
pub fn entry(table: &[u16], i: usize, s: usize) -> u32
    requires { (i ≤ 6) × (s < 16) × (16 * row i + 16 ≤ length table.now) }
    ensures { Is (entry table.now i s) result 65535 }
{
    if s == 0 {
        return 0;
    }
    let at = 16 * row_of(i) + s;
    u32::from(table[at])
}
