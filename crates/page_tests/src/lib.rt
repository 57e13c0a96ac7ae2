// Tests of what the program answers.

#![tactic(auto)]

#[cfg(test)]
mod tests {
    use page::report::answer;
    use std::test::Fail;

    // Levels that are split at flight level 280 for flight A alone: exchanged, the flights get
    // another minimum.
    #[test]
    fn lopsided_levels(rt: HostRuntime) -> Result<(), Fail> {
        let page =
            b"flight measure 0 660\nrow 0 A\ncolumn 1000 0..280\ncolumn 2000 281..660\nend\n";
        let report = answer(rt.alloc(), page)?;
        assert!(rt; !report.issued);
        assert!(rt; report.text.as_str() == "refused 18\n0 0 281\n");
        Ok(())
    }

    // A clock's values are printed as on a page, a pair quantity with one.
    #[test]
    fn values_as_on_a_page(rt: HostRuntime) -> Result<(), Fail> {
        let page = b"pair clock 06:05 23:59\nflight names 3 5\nflight measure -7 -2\nend\n";
        let report = answer(rt.alloc(), page)?;
        assert!(rt; report.text.as_str() == "refused 16\n0 06:05\n1 3 3\n2 -7 -7\n");
        Ok(())
    }

    #[test]
    fn accepted(rt: HostRuntime) -> Result<(), Fail> {
        let report = answer(rt.alloc(), b"default 5\nend\n")?;
        assert!(rt; report.issued);
        assert!(rt; report.text.as_str() == "issued 1\n");
        Ok(())
    }
}
