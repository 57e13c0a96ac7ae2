// The questions that issue asks of the encounters of a sheet, each over all that are made of
// starts.
//
// That the view is acceptable and the lists whole are premises: both are asked of a `View` and of lists
// in hand, so no ghost field of theirs can say it.
ghost use Rattle.std.specs.Prelude.{◌≡◌, ◌≤◌, true, length, take};
ghost use Rattle.lists.specs.Held.{SameShowing, encounter_of, seen, shown};
ghost use Rattle.seeking.specs.Seeks.{Found, RightlyMarked, Sought, SpannedBy, TellsOf, clash_fault};
ghost use Rattle.tables.specs.Acceptance.{Acceptable};
ghost use Rattle.tables.specs.Contents.{whole};
ghost use Rattle.tables.specs.Issues.{examined, issue};
ghost use Rattle.tables.specs.Outcomes.{outcome as outcome_in};
ghost use Rattle.tables.specs.Starts.{count as count_of, from_starts};
ghost use Rattle.walking.specs.Sought.{Answers};

use crate::marked::seek_by_marks;
use crate::one_by_one::seek_one_by_one;
use faults::SheetFault;
use items::Scope;
use judging::judge::Judge;
use kinds::Kind;
use lists::lent::{Encounter, Showing};
use lists::view::View;
use marks::counting::count_marked;
use marks::filling::{MOST_STARTS, fill};
use marks::marking::blank;
use outcomes::judge::outcome;
use outcomes::outcome::Outcome;
use results::ResultKind;
use sets::{Mark, Met, Span};
use starts::count::count;
use std::mem::size_of_val;

// Shows the earliest encounter made of starts that is sought, of `count` in all; where there is none,
// the needed values are at their least. The spans are those of the marks of all starts; without spans
// the encounters are gone through one by one. (Two parameters, since no struct can be made of marks that
// are lent and no spans.)
fn seek<K: Kind, R: ResultKind, F: Fn(Met) -> bool>(
    view: &View<'_, K, R>,
    count: u32,
    marks: &[Mark<K::Value>],
    spans: Option<&[Span]>,
    is_sought: F,
    at: &mut Showing<'_, K::Value>,
) -> bool
    requires { F.IsAlwaysCallable is_sought }
    ensures after { RightlyMarked K.Kind.meaning view.now marks.now spans.entry → count ≡ count_of K.Kind.meaning (seen view.now)
        → (g f : _) → Answers F.Fn is_sought g
        → TellsOf K.Kind.meaning view.now g f → Sought K.Kind.meaning R.ResultKind.results (seen view.now) f (shown at.old) result (shown at.new) }
    ensures lent { SameShowing at.old at.new }
{
    match spans {
        Some(spans) => seek_by_marks(view, marks, spans, &is_sought, at),
        None => seek_one_by_one(view, count, &is_sought, at),
    }
}

// The columns that clash in the encounter shown.
fn clash<K: Kind, R: ResultKind>(view: &View<'_, K, R>, e: &Encounter<'_, K::Value>) -> SheetFault
    ensures { result ≡ clash_fault (outcome_in K.Kind.meaning R.ResultKind.results (seen view.now) (encounter_of e.now)) }
{
    match outcome(view, e) {
        Outcome::Clash { lowest, other } => SheetFault::Clash { lowest, other },
        // it is asked of no other outcome; a premise that says so would be no plainer
        _ => SheetFault::Clash {
            lowest: 0,
            other: 0,
        },
    }
}

// The count, or the first refusal of a sheet with so many encounters made of starts: each question
// is asked over the whole sheet before the next.
fn questions<K: Kind, R: ResultKind>(
    view: &View<'_, K, R>,
    count: u32,
    marks: &[Mark<K::Value>],
    spans: Option<&[Span]>,
    at: &mut Showing<'_, K::Value>,
) -> Result<u32, SheetFault>
    ensures found { RightlyMarked K.Kind.meaning view.now marks.now spans.entry
        → Acceptable K.Kind.meaning R.ResultKind.results (seen view.now) → whole (shown at.old) ≡ true
        → count ≡ count_of K.Kind.meaning (seen view.now)
        → Found K.Kind.meaning R.ResultKind.results (seen view.now) (shown at.old)
        (examined K.Kind.meaning R.ResultKind.results (seen view.now) (from_starts K.Kind.meaning (seen view.now) (shown at.old))) result (shown at.new) }
    ensures lent { SameShowing at.old at.new }
{
    let judge = Judge::new(view);
    if !seek(view, count, marks, spans, |met| judge.is_open(met), at) {
        return Err(SheetFault::AllBarred);
    }
    // one way through all of them where there is no fault
    if !seek(view, count, marks, spans, |met| judge.is_faulty(met), at) {
        return Ok(count);
    }
    if seek(view, count, marks, spans, |met| judge.is_gap(met), at) {
        return Err(SheetFault::Gap);
    }
    if seek(view, count, marks, spans, |met| judge.is_clash(met), at) {
        return Err(clash(view, &at.encounter()));
    }
    if seek(
        view,
        count,
        marks,
        spans,
        |met| judge.is_asymmetric(met),
        at,
    ) {
        return Err(SheetFault::Asymmetry);
    }
    Ok(count)
}

// The count of the sheet, or the first refusal, where the spans are those of the marks of all starts.
fn find_by_marks<K: Kind, R: ResultKind>(
    view: &View<'_, K, R>,
    marks: &[Mark<K::Value>],
    spans: &[Span],
    at: &mut Showing<'_, K::Value>,
) -> Result<u32, SheetFault>
    requires { view.now.counts.quantities ≤ length spans.now }
    ensures found { SpannedBy K.Kind.meaning view.now marks.now (take (length (seen view.now).quantities) spans.now)
        → Acceptable K.Kind.meaning R.ResultKind.results (seen view.now) → whole (shown at.old) ≡ true
        → Found K.Kind.meaning R.ResultKind.results (seen view.now) (shown at.old)
        (issue K.Kind.meaning R.ResultKind.results (seen view.now) (shown at.old)) result (shown at.new) }
    ensures lent { SameShowing at.old at.new }
{
    let count = count_marked(view, spans).ok_or(SheetFault::TooManyEncounters)?;
    let spans = &spans[..view.counts.quantities];
    questions(view, count, marks, Some(spans), at)
}

// The count of the sheet, or the first refusal. A gap, a clash or an asymmetry is shown; otherwise
// the needed values are left at their least, or untouched where nothing was sought. The starts are
// marked once, for the count too; where there is no room, the encounters are gone through one by one.
pub fn find_fault<K: Kind, R: ResultKind>(
    view: &View<'_, K, R>,
    at: &mut Showing<'_, K::Value>,
) -> Result<u32, SheetFault>
    ensures found { Acceptable K.Kind.meaning R.ResultKind.results (seen view.now)
        → Found K.Kind.meaning R.ResultKind.results (seen view.now) (shown at.old)
        (issue K.Kind.meaning R.ResultKind.results (seen view.now) (shown at.old)) result (shown at.new) }
    ensures lent { SameShowing at.old at.new }
{
    if !at.encounter().is_whole() {
        return Err(SheetFault::EncounterLists);
    }
    let mut marks = [blank(view.quantities[0].least); MOST_STARTS];
    // never so; it tells the proof that the marks fit into memory
    if size_of_val(&marks) > isize::MAX as usize {
        return find_fault_one_by_one(view, at);
    }
    let mut spans = [Span {
        scope: Scope::Pair,
        quantity: 0,
        from: 0,
        to: 0,
    }; 16];
    if !fill(view, &mut marks, &mut spans) {
        return find_fault_one_by_one(view, at);
    }
    find_by_marks(view, &marks, &spans, at)
}

// The same with no starts marked: where there are too many, and to compare with.
pub fn find_fault_one_by_one<K: Kind, R: ResultKind>(
    view: &View<'_, K, R>,
    at: &mut Showing<'_, K::Value>,
) -> Result<u32, SheetFault>
    ensures found { Acceptable K.Kind.meaning R.ResultKind.results (seen view.now)
        → Found K.Kind.meaning R.ResultKind.results (seen view.now) (shown at.old)
        (issue K.Kind.meaning R.ResultKind.results (seen view.now) (shown at.old)) result (shown at.new) }
    ensures lent { SameShowing at.old at.new }
{
    if !at.encounter().is_whole() {
        return Err(SheetFault::EncounterLists);
    }
    let count = count(view).ok_or(SheetFault::TooManyEncounters)?;
    let none = [blank(view.quantities[0].least); 0];
    questions(view, count, &none, None, at)
}
