// Reads a lot sheet: questions 1 to 8, and its worths.
#![tactic(auto)]

ghost use Rattle.std.specs.Prelude.{◌≡◌, false, ◌≤◌, length, MatchResult};
ghost use Rattle.sheet.specs.Questions.{between, head_good, sheet_fault};
ghost use Rattle.sheet.specs.Refusals.{fault_of};
ghost use Rattle.sheet.specs.Answers.{read_as, sheet_read, worths_read};
ghost use Rattle.reading.specs.Steps.{Small, HeadRead, Passed};

use sheet::{LotSheet, Read, Refusal, Size, Worths};
use std::array;

// The numbers of a first line.
#[derive(Drop)]
struct FirstLine {
    buyers: usize,
    lots: usize,
}

// Question 2.
fn read_head(sheet: &[u8]) -> Result<FirstLine, Refusal>
    requires { 13 ≤ length sheet.now }
    ensures { MatchResult result (HeadRead sheet.now)
        (λ r. (r ≡ Refusal.Head) × (head_good sheet.now ≡ false)) }
{
    let first = fields::read_field(sheet, 0);
    let second = fields::read_field(sheet, first.next);
    let Ok(buyers) = first.field else {
        return Err(Refusal::Head);
    };
    let Ok(lots) = second.field else {
        return Err(Refusal::Head);
    };
    if fields::byte_at(sheet, second.next) != b'\n' {
        return Err(Refusal::Head);
    }
    Ok(FirstLine {
        buyers: buyers as usize,
        lots: lots as usize,
    })
}

// Whether a number is 1 to k.
pub fn is_between(k: usize, m: usize) -> bool
    ensures { result ≡ between k m }
{
    (1..=k).contains(&m)
}

// Questions 1 to 5.
fn ask_head(sheet: &[u8]) -> Result<Size, Refusal>
    ensures { MatchResult result (Passed sheet.now) (λ r. sheet_fault sheet.now ≡ fault_of r) }
{
    let len = sheet.len();
    if len < 13 {
        return Err(Refusal::Short);
    }
    let head = read_head(sheet)?;
    if !is_between(6, head.buyers) {
        return Err(Refusal::Buyers);
    }
    if !is_between(4, head.lots) {
        return Err(Refusal::Lots);
    }
    if len != 13 + head.buyers * lines::line_length(head.lots) {
        return Err(Refusal::Length);
    }
    Ok(Size {
        buyers: head.buyers,
        lots: head.lots,
    })
}

// The numbers as worths, each small enough.
fn narrowed(numbers: &[u32; 96]) -> [u16; 96]
    requires { Small numbers.now }
    ensures { result ≡ numbers.now }
{
    array::from_fn(|k| numbers[k] as u16)
}

// Asks questions 1 to 8.
pub fn read(sheet: &[u8]) -> Result<LotSheet, Refusal>
    ensures { read_as result ≡ worths_read sheet.now }
{
    let size = ask_head(sheet)?;
    let numbers = lines::read_numbers(sheet, size);
    lines::ask_lines(sheet, &numbers, size)?;
    Ok(LotSheet {
        size,
        worths: narrowed(&numbers),
    })
}

// Asks questions 1 to 8: a refusal's number and place, or the buyers, lots and worths of an accepted sheet.
pub fn read_worths(sheet: &[u8]) -> Worths
    ensures { result ≡ worths_read sheet.now }
{
    match read(sheet) {
        Ok(accepted) => {
            let worths = accepted.worths;
            Worths {
                number: 0,
                place: 0,
                buyers: accepted.size.buyers as u8,
                lots: accepted.size.lots as u8,
                worths,
            }
        }
        Err(refusal) => Worths::from(refusal),
    }
}

// Asks questions 1 to 8: a refusal's number and place, or the buyers and lots of an accepted sheet.
pub fn read_sheet(sheet: &[u8]) -> Read
    ensures { result ≡ sheet_read sheet.now }
{
    match read(sheet) {
        Ok(LotSheet { size, .. }) => Read {
            number: 0,
            place: 0,
            buyers: size.buyers as u8,
            lots: size.lots as u8,
        },
        Err(refusal) => Read::from(refusal),
    }
}
