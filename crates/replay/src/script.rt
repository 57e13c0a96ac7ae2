// The calls of a script, and what is answered to them.
use edits::edit::Edit;
use faults::SheetFault;
use lists::lent::Encounter;

// A call on a sheet. Issue takes the encounter lists as they stand.
#[derive(Clone, Copy)]
pub enum Call<'a, V, C, R> {
    Edit(Edit<V, C, R>),
    Issue,
    LookUp(Encounter<'a, V>),
    Withdraw,
}

// What is answered to a call.
#[derive(Clone, Copy)]
pub enum Answer<R> {
    // The edit is made, or the sheet withdrawn.
    Done,
    // The sheet is issued; its count.
    Issued(u32),
    // The result for the encounter.
    Found(R),
    Refused(SheetFault),
    // The sheet's state does not allow the call: nothing is done.
    NotAllowed,
}

// Why a script is not replayed.
#[derive(Clone, Copy)]
pub enum ReplayFault {
    // The four lists are not of right length.
    Lists,
    // There are fewer places for answers than calls.
    Answers,
}
