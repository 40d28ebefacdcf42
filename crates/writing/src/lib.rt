// Writes a lot sheet from a list of numbers in the sheet's order.
#![tactic(auto)]

ghost use Rattle.std.specs.Prelude.{◌≡◌, min, ◌+◌, ◌-◌, ◌*◌, ◌/◌, ◌^◌, ◌≤◌, ◌<◌, length, IfOk};
ghost use Rattle.theory.specs.Lists.{over};
ghost use Rattle.numbers.specs.Numbers.{Is};
ghost use Rattle.sheet.specs.Sheets.{line_length};
ghost use Rattle.sheet.specs.Refusals.{refused_as};
ghost use Rattle.sheet.specs.Tables.{cell_at, cells};
ghost use Rattle.writing.specs.Lists.{listed, Fills, row_bytes, sheet_bytes};
ghost use Rattle.writing.specs.Answers.{size_fault, IsSize, write_fault, WriteSays, refused_wrote, wrote_text};
ghost use Rattle.writing.specs.Answers.{typed, first_typed, sheet_text_of};
ghost use Rattle.writing.specs.Claims.{Writes};

use lines::{bundles, first_falling, first_large, has_worth, line_length};
use printing::{Text, put_line};
use reading::is_between;
use sheet::{Fault, Refusal, Size};
use std::array;

// A refusal's number, or 0 and the length of the sheet that was written. The place is 0. No `Result`, since C takes it.
#[repr(C)]
#[derive(Drop)]
pub struct Wrote {
    pub number: u8,
    pub place: u32,
    pub length: u32,
}

impl From<Refusal> for Wrote {
    ghost from_gives = { λ r w. w ≡ refused_wrote r };

    fn from(refusal: Refusal) -> Wrote {
        let fault = Fault::from(refusal);
        Wrote {
            number: fault.number,
            place: fault.place,
            length: 0,
        }
    }
}

// The bytes of a sheet.
fn sheet_length(size: Size) -> usize
    ensures { Is (13 + size.buyers * line_length size.lots) result 559 }
{
    13 + size.buyers * line_length(size.lots)
}

// The list's worth at a place of the ninety-six.
fn listed_place(worths: &[u32], size: Size, k: usize) -> u32
    requires { (k < 96) × (length worths.now ≡ size.buyers * (2 ^ size.lots - 1)) }
    ensures { result ≡ cell_at size.buyers size.lots (listed size.lots worths.now) k }
{
    if !has_worth(size.buyers, size.lots, k) {
        return 0;
    }
    worths[(k / 16) * (bundles(size.lots) - 1) + (k % 16 - 1)]
}

// The table that the list fills.
fn table_of(worths: &[u32], size: Size) -> [u32; 96]
    requires { length worths.now ≡ size.buyers * (2 ^ size.lots - 1) }
    ensures { result ≡ cells size.buyers size.lots (listed size.lots worths.now) }
{
    array::from_fn(|k| listed_place(worths, size, k))
}

// Questions 3 and 4, of so many buyers and lots.
pub fn ask_size(buyers: u32, lots: u32) -> Result<Size, Refusal>
    ensures fault { refused_as result ≡ size_fault buyers lots }
    ensures size { IfOk result (λ size. IsSize buyers lots size) }
{
    let m = buyers as usize;
    let n = lots as usize;
    if !is_between(6, m) {
        return Err(Refusal::Buyers);
    }
    if !is_between(4, n) {
        return Err(Refusal::Lots);
    }
    Ok(Size { buyers: m, lots: n })
}

// The questions, of a list and a buffer of so many bytes. A list has no offsets, so the place is 0.
fn ask_list(buyers: u32, lots: u32, worths: &[u32], room: usize) -> Result<Size, Refusal>
    ensures fault { refused_as result ≡ write_fault buyers lots worths.now room }
    ensures size { IfOk result (λ size. IsSize buyers lots size) }
{
    let size = ask_size(buyers, lots)?;
    if worths.len() != size.buyers * (bundles(size.lots) - 1) {
        return Err(Refusal::Length);
    }
    let numbers = table_of(worths, size);
    if first_large(&numbers, size).is_some() {
        return Err(Refusal::TooLarge(0));
    }
    if first_falling(&numbers, size).is_some() {
        return Err(Refusal::Falls(0));
    }
    if room < sheet_length(size) {
        return Err(Refusal::Room);
    }
    Ok(size)
}

// The lines of worths, at the front of a buffer.
fn put_rows(out: &mut [u8], worths: &[u32], size: Size)
    requires { Fills size.buyers size.lots worths.now × (line_length size.lots * size.buyers ≤ length out.old) }
    ensures { out.new ≡ over (row_bytes size.buyers size.lots worths.now) out.old }
{
    let row = bundles(size.lots) - 1;
    let wide = line_length(size.lots);
    for i in 0..size.buyers {
        let from = row * i;
        put_line(&mut out[wide * i..], &worths[from..from + row]);
    }
}

// The sheet, at the front of a buffer.
fn put_sheet(out: &mut [u8], worths: &[u32], size: Size)
    requires { Fills size.buyers size.lots worths.now × (13 + size.buyers * line_length size.lots ≤ length out.old) }
    ensures { out.new ≡ over (sheet_bytes size.buyers size.lots worths.now) out.old }
{
    put_line(out, &[size.buyers as u32, size.lots as u32]);
    put_rows(&mut out[13..], worths, size);
}

// Writes the sheet of so many buyers and lots with a list of worths at the front of a buffer, unless a question gets a
// no: the number of the first that does, and nothing is written; or 0 and the length of the sheet.
pub fn write_sheet(buyers: u32, lots: u32, worths: &[u32], out: &mut [u8]) -> Wrote
    ensures { WriteSays buyers lots worths.now out.old out.new result }
{
    match ask_list(buyers, lots, worths, out.len()) {
        Err(refusal) => refusal.into(),
        Ok(size) => {
            put_sheet(out, worths, size);
            Wrote {
                number: 0,
                place: 0,
                length: sheet_length(size) as u32,
            }
        }
    }
}

impl Wrote {
    // The text of what was written into some bytes, or of a refusal, whose line is put at their front. By C's number,
    // since that is what both entries that write have at hand.
    pub fn text(self, mut bytes: [u8; 559]) -> Text<559>
        requires { self.place < 1000000 }
        ensures { result ≡ wrote_text self bytes }
    {
        if self.number == 0 {
            return Text {
                bytes,
                length: self.length as usize,
            };
        }
        put_line(&mut bytes, &[u32::from(self.number), self.place]);
        Text { bytes, length: 13 }
    }
}

// The number in the k-th of some fields of six columns; one that is not good counts as too large (rule 11.8).
fn typed_at(numbers: &[u8], k: usize) -> u32
    requires { k < 93 }
    ensures { result ≡ typed numbers.now k }
{
    fields::read_field(numbers, 6 * k).field.unwrap_or(1000000)
}

// The numbers of ninety-one fields, after those of buyers and lots.
fn typed_worths(numbers: &[u8]) -> [u32; 91]
    ensures { result ≡ first_typed numbers.now }
{
    array::from_fn(|k| typed_at(numbers, k + 2))
}

// How many fields so many bytes have after the first two, at most 91; the last may be cut short.
fn typed_count(len: usize) -> usize
    ensures { Is (min 91 ((len + 5) / 6 - 2)) result 91 }
{
    len.div_ceil(6).saturating_sub(2).min(91)
}

// The sheet of numbers in fields of six columns, buyers and lots and then the worths, or the line of its refusal.
pub fn sheet_text(numbers: &[u8]) -> Text<559>
    ensures { result ≡ sheet_text_of numbers.now }
{
    let worths = typed_worths(numbers);
    let count = typed_count(numbers.len());
    let mut bytes = [0; 559];
    let wrote = write_sheet(
        typed_at(numbers, 0),
        typed_at(numbers, 1),
        &worths[..count],
        &mut bytes,
    );
    wrote.text(bytes)
}

// Does nothing. Its contract has the theorems about writing, so that none can be dropped unseen.
pub fn writes_hold()
    ensures { Writes }
{}
