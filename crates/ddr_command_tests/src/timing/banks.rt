//! The numbers of banks in channels with one rank and with two, counted by hand.
use ddr_samples::sample::{sample, two_ranks};
use ddr_timing::bank::BankId;
use ddr_timing::geometry::Geometry;
use std::test::Fail;

#[test]
fn one_rank_has_as_many_banks_as_the_channel(rt: HostRuntime) -> Result<(), Fail> {
    let shape = sample().geometry;
    assert_eq!(rt; [shape.rank_banks(), shape.banks()], [16, 16]);
    let last = BankId {
        rank: 0,
        group: 3,
        bank: 3,
    };
    assert_eq!(rt; last.number(&shape), 15);
    Ok(())
}

#[test]
fn banks_of_rank_1_are_behind_those_of_rank_0(rt: HostRuntime) -> Result<(), Fail> {
    let shape = two_ranks().geometry;
    assert_eq!(rt; [shape.rank_banks(), shape.banks()], [16, 32]);
    let numbers = [
        number(&shape, 0, 0, 0),
        number(&shape, 0, 1, 2),
        number(&shape, 0, 3, 3),
        number(&shape, 1, 0, 0),
        number(&shape, 1, 1, 2),
        number(&shape, 1, 3, 3),
    ];
    let want = [0, 6, 15, 16, 22, 31].map(Some);
    assert_eq!(rt; numbers, want);
    assert_eq!(rt; number(&shape, 2, 0, 0), None);
    Ok(())
}

/// With two groups a rank has 8 banks.
#[test]
fn rank_of_two_groups_has_8_banks(rt: HostRuntime) -> Result<(), Fail> {
    let mut shape = two_ranks().geometry;
    shape.groups = 2;
    assert_eq!(rt; [shape.rank_banks(), shape.banks()], [8, 16]);
    assert_eq!(rt; number(&shape, 1, 0, 0), Some(8));
    assert_eq!(rt; number(&shape, 1, 1, 3), Some(15));
    Ok(())
}

/// The number of a bank, if there is one.
fn number(shape: &Geometry, rank: u32, group: u32, bank: u32) -> Option<u32> {
    if rank < shape.ranks && group < shape.groups && bank < 4 {
        Some(BankId { rank, group, bank }.number(shape))
    } else {
        None
    }
}
