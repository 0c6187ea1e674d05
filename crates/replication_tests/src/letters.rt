use ballots::{NodeId, RoundsSpent, least_above};

/// The least ballot of a node above a number, and 0 where its rounds are spent or no node has the number.
fn least(above: u64, node: u8) -> u64 {
    match NodeId::new(node) {
        Some(node) => match least_above(above, node) {
            Ok(ballot) => ballot.number(),
            Err(RoundsSpent) => 0,
        },
        None => 0,
    }
}

#[test]
fn the_least_ballot_above(rt: HostRuntime) {
    for (above, node, want) in [
        (0, 1, 9),
        (8, 0, 16),
        (8, 2, 10),
        (10, 0, 16),
        (8_796_093_022_200, 0, 0),
        (8_796_093_022_200, 1, 8_796_093_022_201),
    ] {
        assert_eq!(rt; least(above, node), want, "above {above}");
    }
}
