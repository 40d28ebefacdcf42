// A sale printed in lines of fields.
#![tactic(auto)]

ghost use Rattle.std.specs.Prelude.{◌≡◌, unwrap_or, [], ◌∷◌, ◌*◌, ◌≤◌, ◌<◌, length};
ghost use Rattle.theory.specs.Lists.{tabulate, over};
ghost use Rattle.fields.specs.Fields.{line_of, lines_of};
ghost use Rattle.printed.specs.Printed.{lot_line, buyer_line, settled_text, Printable, Puts, PrintSays, text_of};
ghost use Rattle.printed.specs.Printed.{Prints};

use printing::{Text, put_line};
use sale::Sale;
use sheet::Fault;

// The lines of the lots, at the front of a buffer.
fn put_lots(out: &mut [u8], owners: [u8; 4], lots: usize)
    requires { (lots ≤ 4) × (13 * lots ≤ length out.old) }
    ensures { out.new ≡ over (lines_of (tabulate lots 0 (lot_line owners))) out.old }
{
    for j in 0..lots {
        put_line(&mut out[13 * j..], &[j as u32 + 1, u32::from(owners[j])]);
    }
}

// The lines of the buyers, at the front of a buffer.
fn put_buyers(out: &mut [u8], r: &Sale)
    requires { Printable r.now × (25 * r.now.buyers ≤ length out.old) }
    ensures { out.new ≡ over (lines_of (tabulate r.now.buyers 0 (buyer_line r.now))) out.old }
{
    let lots = r.lots as usize;
    for i in 0..r.buyers as usize {
        let s = lists::bundle_of(r.owners, lots, i + 1);
        let p = tables::entry(&r.prices, i + 1, s);
        let line = [i as u32 + 1, p, r.discounts[i], r.payments[i]];
        put_line(&mut out[25 * i..], &line);
    }
}

// Prints a refusal: the length of what is printed, or none where it has no room.
fn put_refusal(out: &mut [u8], fault: Fault) -> Option<usize>
    requires { fault.place < 1000000 }
    ensures { Puts (line_of (fault.number ∷ fault.place ∷ [])) out.old out.new (unwrap_or result 0) }
{
    if out.len() < 13 {
        return None;
    }
    put_line(out, &[fault.number as u32, fault.place]);
    Some(13)
}

// Prints a settled sale, in the same way.
fn put_settled(out: &mut [u8], r: &Sale) -> Option<usize>
    requires { Printable r.now }
    ensures { Puts (settled_text r.now) out.old out.new (unwrap_or result 0) }
{
    let lots = r.lots as usize;
    let at = 25 + 13 * lots;
    let end = at + 25 * (r.buyers as usize);
    if out.len() < end {
        return None;
    }
    put_line(out, &[0, r.buyers as u32, r.lots as u32, r.rounds]);
    put_lots(&mut out[25..], r.owners, lots);
    put_buyers(&mut out[at..], r);
    Some(end)
}

// Runs the sale of a sheet, with a record as `run_sale` has it, and prints its answer: the length of what is printed,
// or 0 where it has no room, since C has no Option.
pub fn print_sale(sheet: &[u8], log: &mut [u8], out: &mut [u8]) -> usize
    ensures { PrintSays sheet.now log.old log.new out.old out.new result }
{
    let printed = match selling::try_sell(sheet, log) {
        Ok(sale) => put_settled(out, &sale),
        Err(refusal) => put_refusal(out, Fault::from(refusal)),
    };
    printed.unwrap_or(0)
}

// The printed sale of a sheet, with a record of its own that every sale has room in.
pub fn sale_text(sheet: &[u8]) -> Text<227>
    ensures { result ≡ text_of sheet.now }
{
    let mut log = [0; 59994];
    let mut bytes = [0; 227];
    let length = print_sale(sheet, &mut log, &mut bytes);
    Text { bytes, length }
}

// Does nothing. Its contract has the theorems about printing, so that none can be dropped unseen.
pub fn prints_hold()
    ensures { Prints }
{}
