// Whether a page is written back as it was read.
use house::measure_value;
use memory::sheet::SheetMemory;
use reading::reading::read;
use results::figure::Figure;
use writing::writing::write;

// Reads a page and writes its draft: how many bytes, or none where one of the two refuses. A test has
// such lines too, and tells which of the two refused; no crate is below both for one function.
fn rewrite(page: &[u8], out: &mut [u8]) -> Option<usize> {
    let mut memory = SheetMemory::new(measure_value(0), Figure { value: 0 });
    let mut lists = memory.lend();
    let draft = read(page, &mut lists).ok()?;
    write(&draft, &lists, out).ok()
}

// Is the page written back, byte for byte?
pub fn is_written_back(page: &[u8], out: &mut [u8]) -> bool {
    rewrite(page, out)
        .and_then(|length| out.get(..length))
        .is_some_and(|text| text == page)
}
