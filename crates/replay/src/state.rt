// A sheet in either state, of which neither is a failure.
use sheet::states::{Draft, Issued};

// A draft, or an issued sheet.
#[derive(Drop)]
pub enum Sheet {
    Draft(Draft),
    Issued(Issued),
}
