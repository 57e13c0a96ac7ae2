// Tests that the way by sets of columns and the way one by one say the same of sheets made at random:
// the same answer, and the same encounter in the lists.

#![tactic(auto)]

#[cfg(test)]
mod random;

#[cfg(test)]
mod tests {
    use crate::random::{Random, write_sheet};
    use faults::SheetFault;
    use house::{House, Value, measure_value};
    use items::Counts;
    use lists::lent::{Lists, Showing};
    use memory::encounter::EncounterMemory;
    use memory::sheet::SheetMemory;
    use results::figure::Figure;
    use seeking::seek::{find_fault, find_fault_one_by_one};
    use sheet::states::Draft;
    use std::test::Fail;

    type PageLists<'a> = Lists<'a, House, Figure>;

    // Do both encounters have the same values?
    fn are_same(one: &Showing<'_, Value>, other: &Showing<'_, Value>) -> bool {
        *one.a == *other.a && *one.b == *other.b && *one.pair == *other.pair
    }

    // What was answered, so many times each.
    #[derive(Clone, Copy)]
    struct Answers {
        issued: u32,
        gaps: u32,
        clashes: u32,
        asymmetries: u32,
        all_barred: u32,
        others: u32,
    }

    impl Answers {
        // One more answer.
        fn note(&mut self, answer: Result<u32, SheetFault>) {
            let place = match answer {
                Ok(_) => &mut self.issued,
                Err(SheetFault::Gap) => &mut self.gaps,
                Err(SheetFault::Clash { .. }) => &mut self.clashes,
                Err(SheetFault::Asymmetry) => &mut self.asymmetries,
                Err(SheetFault::AllBarred) => &mut self.all_barred,
                Err(_) => &mut self.others,
            };
            *place = place.saturating_add(1);
        }

        // Was each answer given that issue has for sheets like these, and no other?
        fn are_all_seen(self) -> bool {
            let seen = [
                self.issued,
                self.gaps,
                self.clashes,
                self.asymmetries,
                self.all_barred,
            ];
            self.others == 0 && seen.iter().all(|n| *n > 0)
        }
    }

    // What both ways say of a sheet, if they say and show the same.
    fn agreed(
        counts: Counts,
        lists: &PageLists<'_>,
    ) -> Result<Option<Result<u32, SheetFault>>, SheetFault> {
        let view = lists.checked(counts)?;
        let mut one = EncounterMemory::new(measure_value(7));
        let mut other = EncounterMemory::new(measure_value(7));
        let by_sets = &mut one.lend();
        let one_by_one = &mut other.lend();
        let said = find_fault(&view, by_sets);
        let same = said == find_fault_one_by_one(&view, one_by_one)
            && are_same(by_sets, one_by_one);
        Ok(same.then_some(said))
    }

    // The answers to so many sheets, if both ways agree on all of them.
    fn all_agreed(seed: u64, sheets: u32) -> Result<Option<Answers>, SheetFault> {
        let mut memory: SheetMemory<House, Figure> = SheetMemory::new(
            measure_value(0),
            Figure { value: 0 },
        );
        let mut random = Random::new(seed);
        let mut answers = Answers {
            issued: 0,
            gaps: 0,
            clashes: 0,
            asymmetries: 0,
            all_barred: 0,
            others: 0,
        };
        for _ in 0..sheets {
            let mut draft = Draft::open();
            let lists = &mut memory.lend();
            write_sheet(&mut random, &mut draft, lists)?;
            let Some(answer) = agreed(draft.counts(), lists)? else {
                return Ok(None);
            };
            answers.note(answer);
        }
        Ok(Some(answers))
    }

    #[test]
    fn both_ways_agree(rt: HostRuntime) -> Result<(), Fail> {
        let answers = all_agreed(20_261_127, 200).map_err(|_| Fail::new(
            "a draft call was refused",
        ))?;
        assert!(rt; answers.is_some_and(|answers| answers.are_all_seen()));
        Ok(())
    }
}
