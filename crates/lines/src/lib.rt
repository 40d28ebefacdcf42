// The lines of worths of a lot sheet: where their places are, the numbers in them, questions 6 to 8.
#![tactic(auto)]

ghost use Rattle.std.specs.Prelude.{◌≡◌, [], ℕ, Bool, ◌+◌, ◌*◌, ◌/◌, ◌%◌, ◌^◌, ◌≤◌, ◌<◌};
ghost use Rattle.numbers.specs.Numbers.{Is};
ghost use Rattle.sheet.specs.Sheets.{line_length, offset, as_sheet, worth_place, worths_in};
ghost use Rattle.sheet.specs.Tables.{has_worth};
ghost use Rattle.sheet.specs.Questions.{fault, ask_each, malformed, too_large, grows, falls, first_wrong, lines_fault};
ghost use Rattle.sheet.specs.Refusals.{refused_as, fault_at};
ghost use Rattle.lines.specs.Places.{first_place};

use numbers::{has, power};
use sheet::{Fault, Refusal, Size};
use std::array;

// The bundles of so many lots, the empty one among them.
pub fn bundles(lots: usize) -> usize
    requires { lots ≤ 4 }
    ensures { Is (2 ^ lots) result 16 }
{
    power(lots)
}

// The bytes of a line of worths: six columns to a bundle, and the line end.
pub fn line_length(lots: usize) -> usize
    requires { lots ≤ 4 }
    ensures { Is (line_length lots) result 91 }
{
    6 * (bundles(lots) - 1) + 1
}

// Where place c of line i begins.
fn offset_of(size: Size, i: usize, c: usize) -> usize
    requires { (i ≤ 6) × (c ≤ 16) }
    ensures { Is (offset size.lots i c) result 1000 }
{
    13 + (i * line_length(size.lots) + 6 * c)
}

// Whether a place of the ninety-six has a worth: buyer and bundle are there, and the bundle is not the empty one.
pub fn has_worth(m: usize, n: usize, k: usize) -> bool
    requires { n ≤ 4 }
    ensures { result ≡ has_worth m n k }
{
    let s = k % 16;
    s != 0 && k / 16 < m && s < bundles(n)
}

// The worth at a place of the ninety-six.
fn worth_place(sheet: &[u8], size: Size, k: usize) -> u32
    requires { k < 96 }
    ensures { result ≡ worth_place size.buyers size.lots sheet.now (k / 16) (k % 16) }
{
    if !has_worth(size.buyers, size.lots, k) {
        return 0;
    }
    fields::field_number(sheet, offset_of(size, k / 16, k % 16 - 1))
}

// The numbers that stand for worths, faults as 0.
pub fn read_numbers(sheet: &[u8], size: Size) -> [u32; 96]
    ensures { result ≡ worths_in size.buyers size.lots sheet.now }
{
    array::from_fn(|k| worth_place(sheet, size, k))
}

// Question 6 at one place: a faulty field or line end. (Lines i and places c are bounded here and below, and have no
// type of their own, since `first_place` alone makes them.)
fn malformed_at(sheet: &[u8], size: Size, i: usize, c: usize) -> bool
    requires { (i ≤ 6) × (c < 16) }
    ensures { result ≡ malformed (as_sheet 0 size.lots []) i c sheet.now }
{
    let at = offset_of(size, i, c);
    if c + 1 < bundles(size.lots) {
        !fields::field_good(sheet, at)
    } else {
        fields::byte_at(sheet, at) != 10
    }
}

// Question 7 at one place: a worth above 9,999.
fn too_large_at(numbers: &[u32; 96], size: Size, i: usize, c: usize) -> bool
    requires { (i < 6) × (c < 16) }
    ensures { result ≡ too_large (as_sheet 0 size.lots numbers.now) i c }
{
    c + 1 < bundles(size.lots) && 9999 < numbers[16 * i + (c + 1)]
}

// Whether the bundle s is worth no less than without any one of its lots (rule 3.8).
fn grows_to(numbers: &[u32; 96], size: Size, i: usize, s: usize) -> bool
    requires { (i < 6) × (s < 16) }
    ensures { result ≡ grows (as_sheet 0 size.lots numbers.now) i s }
{
    let w = numbers[16 * i + s];
    for j in 0..size.lots {
        if has(s as u64, j) {
            let part = 16 * i + (s - bundles(j));
            if w < numbers[part] {
                return false;
            }
        }
    }
    true
}

// Question 8 at one place: a bundle worth less than one with one lot fewer.
fn falls_at(numbers: &[u32; 96], size: Size, i: usize, c: usize) -> bool
    requires { (i < 6) × (c < 16) }
    ensures { result ≡ falls (as_sheet 0 size.lots numbers.now) i c }
{
    c + 1 < bundles(size.lots) && !grows_to(numbers, size, i, c + 1)
}

// The offset of the first place of the lines at which the test holds, of a line and a place in it.
fn first_place<F: Fn(usize, usize) -> bool>(size: Size, test: F) -> Option<u32>
    requires { (i c : ℕ) → i < 6 → c < 16 → F.pre test i c }
    ensures { (t : ℕ → ℕ → Bool) → ((i c : ℕ) (r : Bool) → i < 6 → c < 16 → F.post test i c r → r ≡ t i c) →
        result ≡ first_place size.buyers size.lots t }
{
    let places = bundles(size.lots);
    for k in 0..size.buyers * places {
        let i = k / places;
        let c = k % places;
        if test(i, c) {
            return Some(offset_of(size, i, c) as u32);
        }
    }
    None
}

// Question 6, put to every place of the lines: the offset of the first faulty field or line end.
pub fn first_malformed(sheet: &[u8], size: Size) -> Option<u32>
    ensures { fault_at 6 result ≡ ask_each 6 size.lots
        (first_wrong 6 sheet.now (as_sheet size.buyers size.lots [])) (λ _. fault 0 0) }
{
    first_place(size, |i, c| malformed_at(sheet, size, i, c))
}

// Question 7, put to every place: the offset of the first worth above 9,999.
pub fn first_large(numbers: &[u32; 96], size: Size) -> Option<u32>
    ensures { fault_at 7 result ≡ ask_each 7 size.lots
        (first_wrong 7 [] (as_sheet size.buyers size.lots numbers.now)) (λ _. fault 0 0) }
{
    first_place(size, |i, c| too_large_at(numbers, size, i, c))
}

// Question 8, put to every place: the offset of the first worth that falls.
pub fn first_falling(numbers: &[u32; 96], size: Size) -> Option<u32>
    ensures { fault_at 8 result ≡ ask_each 8 size.lots
        (first_wrong 8 [] (as_sheet size.buyers size.lots numbers.now)) (λ _. fault 0 0) }
{
    first_place(size, |i, c| falls_at(numbers, size, i, c))
}

// A question's fault, if a place is wrong.
fn fault_at(question: u8, wrong: Option<u32>) -> Fault
    ensures { result ≡ fault_at question wrong }
{
    match wrong {
        Some(place) => Fault {
            number: question,
            place,
        },
        None => Fault {
            number: 0,
            place: 0,
        },
    }
}

// Question 6, 7 or 8 by its number, put to every place of the lines: the fault at the first that is wrong. A number that
// is neither 6 nor 7 asks what question 8 does, under its own number.
pub fn ask_each(question: u8, sheet: &[u8], numbers: &[u32; 96], m: usize, n: usize) -> Fault
    requires { (m ≤ 6) × (n ≤ 4) }
    ensures { result ≡ ask_each question n
        (first_wrong question sheet.now (as_sheet m n numbers.now)) (λ _. fault 0 0) }
{
    let size = Size { buyers: m, lots: n };
    match question {
        6 => fault_at(6, first_malformed(sheet, size)),
        7 => fault_at(7, first_large(numbers, size)),
        _ => fault_at(question, first_falling(numbers, size)),
    }
}

// Questions 6, 7 and 8.
pub fn ask_lines(sheet: &[u8], numbers: &[u32; 96], size: Size) -> Result<(), Refusal>
    ensures { refused_as result ≡ lines_fault sheet.now (as_sheet size.buyers size.lots numbers.now) }
{
    if let Some(place) = first_malformed(sheet, size) {
        return Err(Refusal::Malformed(place));
    }
    if let Some(place) = first_large(numbers, size) {
        return Err(Refusal::TooLarge(place));
    }
    if let Some(place) = first_falling(numbers, size) {
        return Err(Refusal::Falls(place));
    }
    Ok(())
}
