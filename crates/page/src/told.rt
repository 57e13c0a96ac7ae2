// What is told of a page.

// What is printed, and whether the sheet is issued. There is a text either way, so no `Option` says both.
#[derive(Drop)]
pub struct Report {
    pub text: String,
    pub issued: bool,
}
