// Tests of the calls on a sheet: each refusal, and which comes first where there are two.

#![tactic(auto)]

#[cfg(test)]
mod issue_tests;

#[cfg(test)]
mod tests {
    use faults::SheetFault;
    use items::{Entry, Mode, Quantity, Row, Scope};
    use lists::lent::Lists;
    use measure::{Band, Measure};
    use memory::sheet::SheetMemory;
    use results::figure::Figure;
    use sheet::states::Draft;
    use std::process::Abort;

    // The number by which users know a refusal, or 0: each line of a test names one number.
    fn number(answer: Result<(), SheetFault>) -> u8 {
        answer.err().map_or(0, |fault| fault.number())
    }

    fn levels(least: i32, greatest: i32) -> Quantity<i32> {
        Quantity {
            scope: Scope::Flight,
            least,
            greatest,
        }
    }

    fn row(quantity: usize, mode: Mode) -> Row {
        Row { quantity, mode }
    }

    fn band(lo: i32, hi: i32) -> Entry<Band> {
        Entry::Cell(Band {
            lo,
            hi,
            inside: true,
        })
    }

    fn figure(value: i32) -> Figure {
        Figure { value }
    }

    // Quantities, rows and columns in turn.
    fn small_sheet(rt: &impl Abort, draft: &mut Draft, lists: &mut Lists<'_, Measure, Figure>) {
        assert_eq!(rt; number(draft.strike_column(lists)), 12);
        assert_eq!(rt; number(draft.add_row(lists, row(0, Mode::Pair))), 5);
        assert_eq!(rt; number(draft.name_quantity(lists, levels(9, 0))), 3);
        assert_eq!(rt; number(draft.name_quantity(lists, levels(0, 9))), 0);
        assert_eq!(rt; number(draft.add_row(lists, row(0, Mode::Pair))), 6);
        assert_eq!(rt; number(draft.add_row(lists, row(0, Mode::A))), 0);
        assert_eq!(rt; number(draft.add_column(lists, figure(1_000_001))), 9);
        assert_eq!(rt; number(draft.set_cell(lists, 0, 0, band(9, 0))), 10);
        assert_eq!(rt; number(draft.add_column(lists, figure(1))), 0);
        assert_eq!(rt; number(draft.set_cell(lists, 0, 0, band(9, 0))), 11);
        assert_eq!(rt; number(draft.set_cell(lists, 0, 16, band(0, 5))), 10);
        assert_eq!(rt; number(draft.set_cell(lists, 0, 0, band(0, 5))), 0);
        assert_eq!(rt; number(draft.set_default(lists, figure(-1_000_001))), 9);
    }

    // One more of each than a sheet can have, at fault otherwise too.
    fn full_sheet(rt: &impl Abort, draft: &mut Draft, lists: &mut Lists<'_, Measure, Figure>) {
        // 16 of each, as many as fit
        for _ in 0..16 {
            let _ = draft.name_quantity(lists, levels(0, 9));
            let _ = draft.add_row(lists, row(0, Mode::B));
            let _ = draft.add_column(lists, figure(1));
            let _ = draft.add_never(lists);
        }
        assert_eq!(rt; number(draft.name_quantity(lists, levels(9, 0))), 2);
        assert_eq!(rt; number(draft.add_row(lists, row(99, Mode::B))), 4);
        assert_eq!(rt; number(draft.add_column(lists, figure(1_000_001))), 7);
        assert_eq!(rt; number(draft.add_never(lists)), 8);
        assert_eq!(rt; number(draft.strike_never(lists)), 0);
        assert_eq!(rt; number(draft.add_never(lists)), 0);
    }

    // Lists of wrong length are refused before all else.
    fn short_lists(rt: &impl Abort, draft: &mut Draft, lists: &mut Lists<'_, Measure, Figure>) {
        assert_eq!(rt; number(draft.add_never(lists)), 1);
        assert_eq!(rt; number(draft.strike_never(lists)), 1);
        assert_eq!(rt; number(draft.name_quantity(lists, levels(9, 0))), 1);
    }

    // Puts what a sheet could use into lists that none uses yet: a draft just opened does not see it.
    fn put_old_items(lists: &mut Lists<'_, Measure, Figure>) {
        lists.quantities.fill(levels(0, 0));
        lists.rows.fill(row(0, Mode::A));
    }

    #[test]
    fn draft_calls(rt: HostRuntime) {
        let mut memory = SheetMemory::new(0, figure(0));
        let mut lists = memory.lend();
        put_old_items(&mut lists);
        small_sheet(&rt, &mut Draft::open(), &mut lists);
        full_sheet(&rt, &mut Draft::open(), &mut lists);
    }

    #[test]
    fn lists_of_wrong_length(rt: HostRuntime) {
        let mut memory: SheetMemory<Measure, Figure> = SheetMemory::new(0, figure(0));
        let Lists {
            quantities,
            rows,
            entries,
            results,
        } = memory.lend();
        let mut lists = Lists {
            quantities,
            rows: &mut rows[..15],
            entries,
            results,
        };
        put_old_items(&mut lists);
        short_lists(&rt, &mut Draft::open(), &mut lists);
    }
}
