// Makes a trial sheet from a generator: whoever has its four numbers makes the same sheet.
#![tactic(auto)]

ghost use Rattle.std.specs.Prelude.{◌≡◌, ℕ, ◌+◌, ◌≤◌, ◌<◌, length, get_or, IfOk};
ghost use Rattle.numbers.specs.Numbers.{Is};
ghost use Rattle.trial.specs.Worths.{row_worth, worth_without, most_fewer, drawn_worth, most_worths};
ghost use Rattle.sheet.specs.Refusals.{refused_as};
ghost use Rattle.writing.specs.Answers.{IsSize};
ghost use Rattle.trial.specs.Asked.{numbers_fault};
ghost use Rattle.trial.specs.Answers.{TrialSays, trial_asked, trial_lines, as_text, trial_text_of};
ghost use Rattle.trial.specs.Claims.{Trials};

use lines::bundles;
use numbers::has;
use printing::Text;
use sheet::{Refusal, Size};
use writing::{Wrote, ask_size, write_sheet};

// What bundle s is worth without lot j + 1, by the worths of the bundles from 1 on; 0 if it has not that lot, as the
// definition has it, so that the greatest of these is of the lots that it has.
fn worth_without(row: &[u32], s: usize, j: usize) -> u32
    requires { (j < 4) × (s ≤ length row.now + 1) × ((k : ℕ) → get_or row.now k 0 ≤ 9999) }
    ensures { Is (worth_without (row_worth row.now) s j) result 9999 }
{
    if !has(s as u64, j) {
        return 0;
    }
    let rest = s - bundles(j);
    if rest == 0 {
        return 0;
    }
    row[rest - 1]
}

// The greatest worth of bundle s with one lot fewer.
fn most_fewer(row: &[u32], n: usize, s: usize) -> u32
    requires { (n ≤ 4) × (s ≤ length row.now + 1) × ((k : ℕ) → get_or row.now k 0 ≤ 9999) }
    ensures { Is (most_fewer n (row_worth row.now) s) result 9999 }
{
    let mut most: u32 = 0;
    for j in 0..n {
        let fewer = worth_without(row, s, j);
        most = most.max(fewer);
    }
    most
}

// A worth, by the greatest with one lot fewer and a draw.
fn raised_by(top: u32, fewer: u32, value: u32) -> u32
    requires { (top ≤ 9999) × (fewer ≤ 9999) }
    ensures { result ≡ drawn_worth top fewer value }
{
    (fewer + value % (top + 1)).min(9999)
}

// The worths of a trial sheet in the sheet's order, as many as the greatest has. A smaller one takes the first of them.
fn most_worths(number: u16, n: usize, top: u32) -> [u32; 90]
    requires { (1 ≤ n) × (n ≤ 4) × (top ≤ 9999) }
    ensures { result ≡ most_worths number n top }
{
    let size = bundles(n) - 1;
    let mut g = generator::after_draws(100 * u32::from(number));
    let mut t = [0; 90];
    for k in 0..90 {
        let one = generator::draw(g);
        let c = k % size;
        let from = k - c;
        let fewer = most_fewer(&t[from..k], n, c + 1);
        t[k] = raised_by(top, fewer, one.value);
        g = one.next;
    }
    t
}

// Questions 3, 4 and 7, of three numbers; the place is 0, since they have no offsets.
fn ask_trial(buyers: u32, lots: u32, top: u32) -> Result<Size, Refusal>
    ensures fault { refused_as result ≡ numbers_fault buyers lots top }
    ensures size { IfOk result (λ size. IsSize buyers lots size) }
{
    let size = ask_size(buyers, lots)?;
    if 9999 < top {
        return Err(Refusal::TooLarge(0));
    }
    Ok(size)
}

// Writes a trial sheet at the front of a buffer, unless a question gets a no: the number of the first that does, and
// nothing is written; or 0 and the length of the sheet.
pub fn trial_sheet(number: u16, buyers: u32, lots: u32, top: u32, out: &mut [u8]) -> Wrote
    ensures { TrialSays number buyers lots top out.old out.new result }
{
    match ask_trial(buyers, lots, top) {
        Err(refusal) => refusal.into(),
        Ok(size) => {
            let worths = most_worths(number, size.lots, top);
            let count = size.buyers * (bundles(size.lots) - 1);
            write_sheet(buyers, lots, &worths[..count], out)
        }
    }
}

// Whether some bytes are four numbers in six columns each, the first of them at most 65,535.
fn is_asked(numbers: &[u8]) -> bool
    ensures { result ≡ trial_asked numbers.now }
{
    if numbers.len() != 24 {
        return false;
    }
    for k in 0..4 {
        if !fields::field_good(numbers, 6 * k) {
            return false;
        }
    }
    fields::field_number(numbers, 0) <= 65535
}

// The trial sheet of four numbers, or the line of its refusal.
fn text_of(number: u16, buyers: u32, lots: u32, top: u32) -> Text<559>
    ensures { result ≡ as_text (trial_lines number buyers lots top) }
{
    let mut bytes = [0; 559];
    let wrote = trial_sheet(number, buyers, lots, top, &mut bytes);
    wrote.text(bytes)
}

// The trial sheet of four numbers in fields of six columns, or the line of its refusal; nothing of other bytes.
pub fn trial_text(numbers: &[u8]) -> Text<559>
    ensures { result ≡ trial_text_of numbers.now }
{
    if !is_asked(numbers) {
        return Text {
            bytes: [0; 559],
            length: 0,
        };
    }
    let number = fields::field_number(numbers, 0) as u16;
    let buyers = fields::field_number(numbers, 6);
    let lots = fields::field_number(numbers, 12);
    let top = fields::field_number(numbers, 18);
    text_of(number, buyers, lots, top)
}

// Does nothing. Its contract has the theorems about trial sheets, so that none can be dropped unseen.
pub fn trials_hold()
    ensures { Trials }
{}
