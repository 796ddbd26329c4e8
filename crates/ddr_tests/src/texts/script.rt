//! Lines of a script at the ends of their ranges.
use ddr_text::script::{Instruction, parse_instruction};
use std::alloc::Global;

/// How many rounds a line asks for, where it does.
fn rounds_of(alloc: Global, line: &str) -> Option<u32> {
    match parse_instruction(alloc, 2, line) {
        Ok(Instruction::Cycle { rounds }) => Some(rounds),
        _ => None,
    }
}

const ROUNDS: &[(&str, Option<u32>)] = &[
    ("cycle 0", None),
    ("cycle 1", Some(1)),
    ("cycle 1000000", Some(1_000_000)),
    ("cycle 1000001", None),
];

#[test]
fn rounds_of_a_line(rt: HostRuntime) {
    for (line, rounds) in ROUNDS {
        assert_eq!(rt; rounds_of(rt.alloc(), line), *rounds, "{line}");
    }
}
