// The input of the programs.
#[cfg(test)]
mod tests {
    use bits::refusal::Refusal;

    // The lengths of the domain's bytes and of the plan's.
    fn lengths(bytes: &[u8]) -> Result<(usize, usize), Refusal> {
        let (domain, plan) = input::split(bytes)?;
        Ok((domain.len(), plan.len()))
    }

    #[test]
    fn inputs_are_split_where_the_domain_ends(rt: HostRuntime) {
        assert_eq!(rt; lengths(&[0, 2, 1, 2, 3, 4, 5]), Ok((2, 3)));
        assert_eq!(rt; lengths(&[0, 2, 1, 2]), Ok((2, 0)));
        assert_eq!(rt; lengths(&[0, 0]), Ok((0, 0)));
        assert_eq!(rt; lengths(&[]), Err(Refusal::Ended { place: 0 }));
        assert_eq!(rt; lengths(&[0]), Err(Refusal::Ended { place: 8 }));
        assert_eq!(rt; lengths(&[0, 2, 1]), Err(Refusal::Ended { place: 24 }));
        assert_eq!(rt; lengths(&[1, 0, 1]), Err(Refusal::Ended { place: 24 }));
    }
}
