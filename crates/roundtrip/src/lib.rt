// Examples of lines and pages that are read and written back, and of fields that are refused.

#![tactic(auto)]

#[cfg(test)]
mod tests {
    use items::Entry;
    use lines::cursor::Fields;
    use lines::lines::{column_line, row_line};
    use text::types::Placed;
    use writer::buffer::Writer;

    // The fields of a line after its first word; a line that is too long has none.
    fn after_word<'a>(line: &'a [u8]) -> Fields<'a> {
        let mut fields = if line.len() <= 65536 {
            Fields::new(line)
        } else {
            Fields::new(&line[0..0])
        };
        let _word = fields.next_field();
        fields
    }

    // No places yet of the entries of a line: an array, as `entries` takes it.
    fn no_places() -> [Placed; 16] {
        [Placed {
            entry: Entry::Any,
            byte: 0,
        }; 16]
    }

    // Whether a line and its end are what is written up to a place.
    fn is_written(out: &[u8], end: Option<usize>, line: &[u8]) -> bool {
        end.and_then(|end| out.get(..end))
            .and_then(|written| written.strip_suffix(b"\n"))
            .is_some_and(|text| text == line)
    }

    // The byte at which a row's line is refused. Rows and columns have two such functions each: one
    // for both would take a reader, a writer and an answer as closures, for two callers.
    fn row_refused(line: &[u8]) -> Option<usize> {
        row_line(&mut after_word(line)).err()
    }

    // Whether a row's line is counted and then written as it was read.
    fn row_again(line: &[u8]) -> bool {
        let mut fields = after_word(line);
        let Ok(said) = row_line(&mut fields) else {
            return false;
        };
        let mut out = [0; 64];
        let mut counter = Writer::<false>::new(&mut out);
        counter.row(said.row);
        let counted = counter.at;
        let mut writer = Writer::<true>::new(&mut out);
        writer.row(said.row);
        let end = writer.at;
        end == counted && is_written(&out, end, line)
    }

    // The byte at which the line of a column of five entries is refused.
    fn column_refused(line: &[u8]) -> Option<usize> {
        column_line(&mut after_word(line), 5, &mut no_places()).err()
    }

    // Whether the line of a column of five entries is counted and then written as it was read.
    fn column_again(line: &[u8]) -> bool {
        let mut places = no_places();
        let mut fields = after_word(line);
        let Ok(result) = column_line(&mut fields, 5, &mut places) else {
            return false;
        };
        let entries = places.map(|placed| placed.entry);
        let mut out = [0; 64];
        let mut counter = Writer::<false>::new(&mut out);
        counter.column(result, &entries[..5]);
        let counted = counter.at;
        let mut writer = Writer::<true>::new(&mut out);
        writer.column(result, &entries[..5]);
        let end = writer.at;
        end == counted && is_written(&out, end, line)
    }

    #[test]
    fn rows(rt: HostRuntime) {
        assert!(rt; row_again(b"row 0 both"));
        assert!(rt; row_again(b"row 15 A"));
        assert_eq!(rt; row_refused(b"row 0"), Some(1));
        assert_eq!(rt; row_refused(b"row 0 "), Some(7));
        assert_eq!(rt; row_refused(b"row  0 A"), Some(5));
        assert_eq!(rt; row_refused(b"row 00 A"), Some(5));
        assert_eq!(rt; row_refused(b"row 0 any"), Some(7));
        assert_eq!(rt; row_refused(b"row 0 A "), Some(9));
    }

    #[test]
    fn columns(rt: HostRuntime) {
        assert!(rt; column_again(b"column -15 0..280 !-5..5 {0,3,31} 22:00-05:59 ."));
        assert!(rt; column_again(b"column 0 . . {} . 3..0"));
        assert_eq!(rt; column_refused(b"column 0 . . . ."), Some(1));
        assert_eq!(rt; column_refused(b"column 0 . . . . . ."), Some(20));
        assert_eq!(rt; column_refused(b"column -0 . . . . ."), Some(8));
        assert_eq!(rt; column_refused(b"column 0 . {3,0} . . ."), Some(12));
        assert_eq!(rt; column_refused(b"column 0 . . {32} . ."), Some(14));
        assert_eq!(rt; column_refused(b"column 0 . . . 24:00-05:59 ."), Some(16));
    }
}

#[cfg(test)]
mod pages_again {
    use house::{House, measure_value};
    use lists::lent::Lists;
    use memory::sheet::SheetMemory;
    use page_faults::{Layer, PageRefusal, WriteFault};
    use reading::reading::read;
    use results::figure::Figure;
    use writing::writing::write;

    // Why a page is not written back.
    #[derive(Clone, Copy)]
    enum Fault {
        Read(PageRefusal),
        Write(WriteFault),
    }

    impl From<PageRefusal> for Fault {
        fn from(refusal: PageRefusal) -> Fault {
            Fault::Read(refusal)
        }
    }

    impl From<WriteFault> for Fault {
        fn from(fault: WriteFault) -> Fault {
            Fault::Write(fault)
        }
    }

    // Reads a page and writes its sheet: the length of what is written.
    fn rewrite(page: &[u8], out: &mut [u8]) -> Result<usize, Fault> {
        let mut memory = SheetMemory::new(measure_value(0), Figure { value: 0 });
        let mut lists = memory.lend();
        let draft = read(page, &mut lists)?;
        Ok(write(&draft, &lists, out)?)
    }

    // Do all bytes of a buffer have the value?
    fn all_are(buffer: &[u8], value: u8) -> bool {
        buffer.iter().all(|b| *b == value)
    }

    // Is the page written as it was read, and are the bytes after it as they were?
    fn comes_back(page: &[u8]) -> bool {
        let mut out = [7; 512];
        let Ok(length) = rewrite(page, &mut out) else {
            return false;
        };
        out.split_at_checked(length)
            .is_some_and(|(text, rest)| text == page && all_are(rest, 7))
    }

    // Is the page refused for a buffer of 7s that is one byte too short, which is left as it was?
    fn is_refused(page: &[u8], out: &mut [u8]) -> bool {
        matches!(rewrite(page, out), Err(Fault::Write(fault)) if fault.number() == 28)
            && out.len() < page.len()
            && all_are(out, 7)
    }

    // What a refusal in reading tells.
    #[derive(Clone, Copy, PartialEq, Eq, Debug)]
    struct Told {
        number: u8,
        layer: &'static str,
        line: usize,
        byte: usize,
    }

    fn what_is_told(refusal: PageRefusal) -> Told {
        let layer = match refusal.fault.layer() {
            Layer::OfPage => "page",
            Layer::OfKind => "kind",
            Layer::OfSheet => "sheet",
        };
        Told {
            number: refusal.fault.number(),
            layer,
            line: refusal.line,
            byte: refusal.byte,
        }
    }

    // What is told of a page that is refused.
    fn refused(page: &[u8]) -> Option<Told> {
        let mut memory = SheetMemory::new(measure_value(0), Figure { value: 0 });
        read(page, &mut memory.lend())
            .err()
            .map(|refusal| what_is_told(refusal))
    }

    // The same, where the list of quantities is too short.
    fn refused_by_short_lists(page: &[u8]) -> Option<Told> {
        let mut memory: SheetMemory<House, Figure> = SheetMemory::new(
            measure_value(0),
            Figure { value: 0 },
        );
        let Lists {
            quantities,
            rows,
            entries,
            results,
        } = memory.lend();
        let mut lists: Lists<'_, House, Figure> = Lists {
            quantities: &mut quantities[..15],
            rows,
            entries,
            results,
        };
        read(page, &mut lists)
            .err()
            .map(|refusal| what_is_told(refusal))
    }

    fn tells(number: u8, layer: &'static str, line: usize, byte: usize) -> Option<Told> {
        Some(Told {
            number,
            layer,
            line,
            byte,
        })
    }

    const EMPTY: &[u8] = b"end\n";

    const VERTICAL: &[u8] =
        b"flight measure 0 660\nflight names 0 1\nrow 0 A\nrow 0 B\nrow 1 A\nrow 1 B\ncolumn 1000 0..280 . . .\ncolumn 1000 . 0..280 . .\ncolumn 4000 451..660 451..660 {1} .\ncolumn 4000 451..660 451..660 . {1}\ndefault 2000\nend\n";

    const EVERY_FORM: &[u8] =
        b"flight measure -1000000 1000000\npair names 0 31\nflight clock 00:00 23:59\nrow 0 both\nrow 1 pair\nrow 2 either\ncolumn -5 !-7..0 {0,3,31} 22:00-05:59\ncolumn 0 . . .\nnever . {30} .\nnever 1..1 . 00:00-23:59\ndefault -1000000\nend\n";

    #[test]
    fn written_as_read(rt: HostRuntime) {
        assert!(rt; comes_back(EMPTY));
        assert!(rt; comes_back(b"default 0\nend\n"));
        assert!(rt; comes_back(VERTICAL));
        assert!(rt; comes_back(EVERY_FORM));
    }

    #[test]
    fn refusals_with_their_layer(rt: HostRuntime) {
        assert_eq!(rt; refused(b""), tells(25, "page", 1, 1));
        assert_eq!(rt; refused(b"row 0\nend\n"), tells(27, "page", 1, 1));
        assert_eq!(rt;
            refused(b"flight measure 9 0\nend\n"),
            tells(3, "kind", 1, 16)
        );
        assert_eq!(rt;
            refused(b"flight names 0 3\nrow 0 both\nnever {}\nend\n"),
            tells(11, "kind", 3, 7)
        );
        assert_eq!(rt; refused(b"row 0 A\nend\n"), tells(5, "sheet", 1, 5));
        assert_eq!(rt; refused(EMPTY), None);
    }

    #[test]
    fn short_lists_are_refused_first(rt: HostRuntime) {
        assert_eq!(rt; refused_by_short_lists(EMPTY), tells(1, "sheet", 1, 1));
        assert_eq!(rt;
            refused_by_short_lists(&[10; 65537]),
            tells(1, "sheet", 1, 1)
        );
    }

    #[test]
    fn too_short_by_a_byte(rt: HostRuntime) {
        assert!(rt; is_refused(EMPTY, &mut [7; 3]));
        assert!(rt; is_refused(VERTICAL, &mut [7; 208]));
        assert!(rt; is_refused(EVERY_FORM, &mut [7; 221]));
    }
}
