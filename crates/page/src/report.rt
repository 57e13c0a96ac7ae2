// What the program answers to a page: it reads the page and issues the sheet.
ghost use Rattle.std.specs.Prelude.{◌≡◌, true, false, take, IfOk, Ok as OkOf, Err as ErrOf};
ghost use Rattle.house.specs.House.{house};
ghost use Rattle.items.specs.declared.Counts.{Counts};
ghost use Rattle.lists.specs.Held.{lists_of, shown};
ghost use Rattle.page.specs.Telling.{Tells};
ghost use Rattle.pages.specs.Reads.{read_page};
ghost use Rattle.reports.specs.Meant.{Reported};
ghost use Rattle.reports.specs.Reports.{answer_text, is_issued, is_shown, issued_on, issued_text, refusal_text, report_on, report_text, went_issued, went_text};
ghost use Rattle.results.specs.Figures.{figures};
ghost use Rattle.tables.specs.Issued.{IssuedRightly};
ghost use Rattle.tables.specs.Storage.{contents_of, in_order};

use crate::told::Report;
use calling::calls::PageLists;
use faults::SheetFault;
use house::Value;
use items::Quantity;
use joined::Either;
use lists::lent::Showing;
use memory::encounter::EncounterMemory;
use memory::sheet::SheetMemory;
use page_faults::PageRefusal;
use printing::lines::{add_lines, issued_line, refusal_line, refused_line};
use reading::reading::read;
use results::figure::Figure;
use sheet::states::Draft;
use std::alloc::{AllocError, Global};

// A value that is written over before it is read.
const NO_VALUE: Value = Either::Left(0);

// Are two flights shown with this refusal?
fn is_shown(fault: SheetFault) -> bool
    ensures { result ≡ is_shown fault }
{
    matches!(
        fault,
        SheetFault::Gap | SheetFault::Clash { .. } | SheetFault::Asymmetry
    )
}

// The first n quantities.
fn in_use(quantities: &[Quantity<Value>], n: usize) -> &[Quantity<Value>]
    ensures { result.now ≡ take n quantities.now }
{
    quantities.get(..n).unwrap_or(quantities)
}

// The report on a sheet that was issued.
fn issued(heap: Global, count: u32) -> Result<Report, AllocError>
    ensures { IfOk result (λ x. Tells (issued_text count) true x) }
{
    let text = issued_line(heap, count)?;
    Ok(Report { text, issued: true })
}

// The report on a sheet that was not issued.
fn refused(
    heap: Global,
    fault: SheetFault,
    quantities: &[Quantity<Value>],
    at: &Showing<'_, Value>,
) -> Result<Report, AllocError>
    ensures { IfOk result (λ x. Tells (answer_text quantities.now (ErrOf fault) (shown at.now)) false x) }
{
    let mut text = refused_line(heap, fault.number())?;
    if is_shown(fault) {
        add_lines(heap, &at.encounter(), quantities, &mut text)?;
    }
    Ok(Report {
        text,
        issued: false,
    })
}

// The report on a page that was not read to its end.
fn unread(heap: Global, refusal: PageRefusal) -> Result<Report, AllocError>
    ensures { IfOk result (λ x. Tells (refusal_text refusal) false x) }
{
    let text = refusal_line(heap, refusal)?;
    Ok(Report {
        text,
        issued: false,
    })
}

// Issues the draft and reports.
fn issue(
    heap: Global,
    draft: Draft,
    lists: &PageLists<'_>,
    at: &mut Showing<'_, Value>,
) -> Result<Report, AllocError>
    ensures told { IfOk result (λ x. Tells (went_text (lists_of lists.now) (shown at.old) (OkOf draft.counts)) (went_issued (lists_of lists.now) (shown at.old) (OkOf draft.counts)) x) }
    ensures rightly { in_order house figures draft.counts (lists_of lists.now) ≡ true → IssuedRightly house figures (contents_of draft.counts (lists_of lists.now)) (shown at.old) }
{
    let quantities = in_use(lists.quantities, draft.counts().quantities);
    match draft.issue(lists, at) {
        Ok((_, count)) => issued(heap, count),
        Err((_, fault)) => refused(heap, fault, quantities, at),
    }
}

// Reads a page, issues its sheet and says what came of it, with these lists.
fn answer_with(
    heap: Global,
    page: &[u8],
    lists: &mut PageLists<'_>,
    at: &mut Showing<'_, Value>,
) -> Result<Report, AllocError>
    ensures told { IfOk result (λ x. Tells (report_on page.now (lists_of lists.old) (shown at.old)) (issued_on page.now (lists_of lists.old) (shown at.old)) x) }
    ensures rightly { (n : Counts) → (read_page page.now (lists_of lists.old)).answer ≡ OkOf n → IssuedRightly house figures (contents_of n (read_page page.now (lists_of lists.old)).lists) (shown at.old) }
{
    match read(page, lists) {
        Ok(draft) => issue(heap, draft, lists, at),
        Err(refusal) => unread(heap, refusal),
    }
}

// Reads a page, issues its sheet and says what came of it.
pub fn answer(heap: Global, page: &[u8]) -> Result<Report, AllocError>
    ensures told { IfOk result (λ x. Tells (report_text page.now) (is_issued page.now) x) }
    ensures meant { Reported page.now }
{
    let mut sheet = SheetMemory::new(NO_VALUE, Figure { value: 0 });
    let mut encounter = EncounterMemory::new(NO_VALUE);
    answer_with(heap, page, &mut sheet.lend(), &mut encounter.lend())
}
