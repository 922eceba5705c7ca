// Tests of ranges and digest trees.
#![tactic(auto)]

#[cfg(test)]
mod tests {
    use digest::{Fnv, Sum};
    use element::{Element, Refusal};
    use kinds::Register;
    use tree::{build, is_size, next_range, renew};

    #[test]
    fn ranges_follow_each_other_at_depth_3(rt: HostRuntime) {
        assert_eq!(rt; next_range(8), Some(9));
        assert_eq!(rt; next_range(9), Some(5));
        assert_eq!(rt; next_range(5), Some(3));
        assert_eq!(rt; next_range(11), Some(3));
        assert_eq!(rt; next_range(15), None);
        assert_eq!(rt; next_range(7), None);
        assert_eq!(rt; next_range(1), None);
    }

    #[test]
    fn every_range_number_is_taken(rt: HostRuntime) {
        assert_eq!(rt; next_range(0), Some(1));
        assert_eq!(rt; next_range(65534), Some(65535));
        assert_eq!(rt; next_range(65535), None);
    }

    #[test]
    fn sizes_are_powers_of_two(rt: HostRuntime) {
        assert!(rt; is_size(1) && is_size(2) && is_size(256) && is_size(4096));
        assert!(rt; !is_size(0) && !is_size(3) && !is_size(4095) && !is_size(8192));
    }

    // Under sum every leaf of an empty table has digest 0, and a range above has 1 and its halves' digests.
    #[test]
    fn an_empty_table_has_known_roots(rt: HostRuntime) {
        let mut one = [7; 4];
        assert_eq!(rt; build(&Sum, &[Register::bottom(); 2], &mut one), Ok(()));
        assert!(rt; one == [0, 1, 0, 0]);
        let mut two = [7; 8];
        assert_eq!(rt; build(&Sum, &[Register::bottom(); 4], &mut two), Ok(()));
        assert!(rt; two == [0, 3, 1, 1, 0, 0, 0, 0]);
    }

    #[test]
    fn tables_that_do_not_fit_are_declined(rt: HostRuntime) {
        let mut digests = [7; 6];
        assert_eq!(rt;
            build(&Fnv, &[Register::bottom(); 3], &mut digests),
            Err(Refusal::Size)
        );
        assert_eq!(rt;
            build(&Fnv, &[Register::bottom(); 2], &mut digests),
            Err(Refusal::Size)
        );
        assert_eq!(rt;
            renew(&Fnv, &[Register::bottom(); 3], &mut digests, 9),
            Err(Refusal::Size)
        );
        assert!(rt; digests == [7; 6]);
        let mut fitting = [7; 4];
        assert_eq!(rt;
            renew(&Fnv, &[Register::bottom(); 2], &mut fitting, 2),
            Err(Refusal::Key)
        );
        assert!(rt; fitting == [7; 4]);
    }

    #[test]
    fn a_renewed_table_is_the_one_built_anew(rt: HostRuntime) {
        let mut table = [Register::bottom(); 4];
        let mut digests = [0; 8];
        assert_eq!(rt; build(&Fnv, &table, &mut digests), Ok(()));
        table[2].stamp = 9;
        assert_eq!(rt; renew(&Fnv, &table, &mut digests, 2), Ok(()));
        let mut anew = [0; 8];
        assert_eq!(rt; build(&Fnv, &table, &mut anew), Ok(()));
        assert!(rt; digests == anew);
    }

    // A digest table of any content may be renewed: what it holds is what is digested.
    #[test]
    fn renewal_goes_by_what_the_table_holds(rt: HostRuntime) {
        let mut digests = [9, 9, 9, 9, 1, 2, 3, 4];
        let table = [Register::bottom(); 4];
        assert_eq!(rt; renew(&Sum, &table, &mut digests, 1), Ok(()));
        assert!(rt; digests == [9, 12, 2, 9, 1, 0, 3, 4]);
    }
}
