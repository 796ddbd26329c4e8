//! Rows of profile S opened, written, closed and read again, by hand calculation.
use ddr_row_array::row_array::RowArray;
use ddr_samples::sample::{sample, two_ranks};
use ddr_timing::units::LINE_BYTES;
use std::alloc::{AllocError, Global};
use std::test::Fail;

/// The first four bytes of a line of the bank's open row.
fn first_four(rows: &RowArray, bank: u32, line: u32) -> Option<[u8; 4]> {
    let mut bytes = [0xee; 64];
    if rows.read(bank, line, &mut bytes) {
        Some([bytes[0], bytes[1], bytes[2], bytes[3]])
    } else {
        None
    }
}

#[test]
fn write_is_read_back(rt: HostRuntime) -> Result<(), Fail> {
    let mut rows = RowArray::open(rt.alloc(), &sample())?;
    rows.ensure(0, 0)?;
    rows.activate(0, 0);

    let mut bytes = [0x77; 64];
    bytes[0] = 0x0a;
    bytes[1] = 0x0b;
    bytes[2] = 0x0c;
    bytes[3] = 0x0d;
    assert!(rt; rows.write(0, 0, 0xf, &bytes));
    assert!(rt; first_four(&rows, 0, 0) == Some([0x0a, 0x0b, 0x0c, 0x0d]));
    let burst = rows.burst(0, 0).ok_or("the row is open")?;
    assert_eq!(rt; burst.len(), 64);
    assert!(rt; burst.iter().skip(4).all(|b| *b == 0), "masked bytes stay");
    assert!(rt; first_four(&rows, 0, 1) == Some([0; 4]), "the next line");
    assert!(rt; first_four(&rows, 0, 7) == Some([0; 4]), "the last line");
    assert!(rt; first_four(&rows, 0, 8) == None, "past the last line");
    assert!(rt; !rows.write(0, 8, 0xf, &bytes));
    assert!(rt; first_four(&rows, 1, 0) == None, "another bank is idle");
    assert!(rt; rows.burst(16, 0).is_none(), "there is no bank 16");

    rows.precharge(0);
    assert!(rt; rows.burst(0, 0).is_none(), "the bank is idle");
    assert!(rt; first_four(&rows, 0, 0) == None);
    assert!(rt; !rows.write(0, 0, 0xf, &bytes));

    rows.ensure(0, 1)?;
    rows.activate(0, 1);
    assert!(rt; first_four(&rows, 0, 0) == Some([0; 4]), "another row");
    rows.precharge(0);

    rows.ensure(0, 0)?;
    rows.activate(0, 0);
    assert!(rt;
        first_four(&rows, 0, 0) == Some([0x0a, 0x0b, 0x0c, 0x0d]),
        "the bytes stay"
    );
    Ok(())
}

#[test]
fn lent_line_is_written(rt: HostRuntime) -> Result<(), Fail> {
    let mut rows = RowArray::open(rt.alloc(), &sample())?;
    rows.ensure(5, 15)?;
    rows.activate(5, 15);
    if let Some(burst) = rows.burst_mut(5, 3) {
        burst.copy_from_slice(&[0x5a; 64]);
    }
    assert!(rt; first_four(&rows, 5, 3) == Some([0x5a; 4]));
    assert!(rt; first_four(&rows, 5, 2) == Some([0; 4]), "the line before");
    assert!(rt; first_four(&rows, 5, 4) == Some([0; 4]), "the line after");
    assert!(rt; rows.burst_mut(5, 8).is_none(), "past the last line");
    assert!(rt; rows.burst_mut(4, 3).is_none(), "another bank is idle");
    Ok(())
}

/// A line in which byte i is 0x40 + i.
const LINE: [u8; LINE_BYTES] = [
    0x40, 0x41, 0x42, 0x43, 0x44, 0x45, 0x46, 0x47, 0x48, 0x49, 0x4a, 0x4b, 0x4c, 0x4d, 0x4e, 0x4f,
    0x50, 0x51, 0x52, 0x53, 0x54, 0x55, 0x56, 0x57, 0x58, 0x59, 0x5a, 0x5b, 0x5c, 0x5d, 0x5e, 0x5f,
    0x60, 0x61, 0x62, 0x63, 0x64, 0x65, 0x66, 0x67, 0x68, 0x69, 0x6a, 0x6b, 0x6c, 0x6d, 0x6e, 0x6f,
    0x70, 0x71, 0x72, 0x73, 0x74, 0x75, 0x76, 0x77, 0x78, 0x79, 0x7a, 0x7b, 0x7c, 0x7d, 0x7e, 0x7f,
];

/// The line that a write of `LINE` with the mask leaves in a row that was just stored.
fn masked(alloc: Global, mask: u64) -> Result<[u8; LINE_BYTES], AllocError> {
    let mut rows = RowArray::open(alloc, &sample())?;
    rows.ensure(2, 7)?;
    rows.activate(2, 7);
    rows.write(2, 5, mask, &LINE);
    let mut bytes = [0xee; LINE_BYTES];
    rows.read(2, 5, &mut bytes);
    Ok(bytes)
}

/// A mask with the first four bytes, the last four, and how many bytes aren't 0.
const MASKS: [(u64, [u8; 4], [u8; 4], usize); 8] = [
    (0, [0; 4], [0; 4], 0),
    (
        u64::MAX,
        [0x40, 0x41, 0x42, 0x43],
        [0x7c, 0x7d, 0x7e, 0x7f],
        64,
    ),
    (0x0f, [0x40, 0x41, 0x42, 0x43], [0; 4], 4),
    (0x8000_0000_0000_0001, [0x40, 0, 0, 0], [0, 0, 0, 0x7f], 2),
    (
        0xaaaa_aaaa_aaaa_aaaa,
        [0, 0x41, 0, 0x43],
        [0, 0x7d, 0, 0x7f],
        32,
    ),
    (
        0x5555_5555_5555_5555,
        [0x40, 0, 0x42, 0],
        [0x7c, 0, 0x7e, 0],
        32,
    ),
    (0x0000_00ff_0000_0000, [0; 4], [0; 4], 8),
    (
        0xff00_0000_0000_00fe,
        [0, 0x41, 0x42, 0x43],
        [0x7c, 0x7d, 0x7e, 0x7f],
        15,
    ),
];

#[test]
fn masks_pick_bytes(rt: HostRuntime) -> Result<(), Fail> {
    for (mask, first, last, count) in MASKS {
        let line = masked(rt.alloc(), mask)?;
        assert_eq!(rt; [line[0], line[1], line[2], line[3]], first, "{mask:x}");
        assert_eq!(rt; [line[60], line[61], line[62], line[63]], last, "{mask:x}");
        assert_eq!(rt; line.iter().filter(|b| **b != 0).count(), count, "{mask:x}");
    }
    Ok(())
}

/// The first bytes of row 3 of bank 0, which is opened after row 3 of bank 1 was ensured, and those of that row.
fn opened_behind(alloc: Global) -> Result<[u8; 2], AllocError> {
    let mut rows = RowArray::open(alloc, &sample())?;
    rows.ensure(0, 3)?;
    rows.ensure(1, 3)?;
    rows.activate(0, 3);
    rows.activate(1, 3);
    rows.write(0, 0, 1, &[0x33; LINE_BYTES]);
    rows.write(1, 0, 1, &[0x44; LINE_BYTES]);
    let mut first = [0xee; LINE_BYTES];
    let mut second = [0xee; LINE_BYTES];
    rows.read(0, 0, &mut first);
    rows.read(1, 0, &mut second);
    Ok([first[0], second[0]])
}

#[test]
fn row_ensured_before_another_has_its_own_bytes(rt: HostRuntime) -> Result<(), Fail> {
    assert!(rt; opened_behind(rt.alloc())? == [0x33, 0x44]);
    Ok(())
}

/// Row 3 of bank 6, which is bank 2 of group 1 in rank 0, and row 3 of bank 22, which is the same of rank 1.
#[test]
fn ranks_have_rows_of_their_own(rt: HostRuntime) -> Result<(), Fail> {
    let mut rows = RowArray::open(rt.alloc(), &two_ranks())?;
    rows.ensure(6, 3)?;
    rows.activate(6, 3);
    assert!(rt; rows.burst(22, 5).is_none(), "rank 1 is idle");
    assert!(rt; rows.write(6, 5, u64::MAX, &[0x33; LINE_BYTES]));
    rows.ensure(22, 3)?;
    rows.activate(22, 3);
    assert!(rt;
        first_four(&rows, 22, 5) == Some([0; 4]),
        "rank 1 was not written"
    );
    assert!(rt; rows.write(22, 5, 1, &[0x44; LINE_BYTES]));
    assert!(rt; first_four(&rows, 6, 5) == Some([0x33; 4]));
    assert!(rt; first_four(&rows, 22, 5) == Some([0x44, 0, 0, 0]));

    rows.precharge(6);
    assert!(rt; rows.burst(6, 5).is_none(), "the bank of rank 0 is idle");
    assert!(rt;
        first_four(&rows, 22, 5) == Some([0x44, 0, 0, 0]),
        "that of rank 1 is not"
    );
    assert!(rt; rows.burst(32, 5).is_none(), "there is no bank 32");
    Ok(())
}
