// Powers and bits.
#![tactic(auto)]

ghost use Rattle.std.specs.Prelude.{◌≡◌, ◌^◌, ◌≤◌, ◌<◌};
ghost use Rattle.numbers.specs.Numbers.{Is, bit};

// 2 to the n: the bundles of n lots, the sets of n buyers, or what a bundle of number n adds to a demand set.
pub fn power(n: usize) -> usize
    requires { n ≤ 16 }
    ensures { Is (2 ^ n) result 65536 }
{
    1usize << n
}

// Whether a word has bit n.
pub fn has(word: u64, n: usize) -> bool
    requires { n < 64 }
    ensures { result ≡ bit n word }
{
    (word >> n) % 2 == 1
}
