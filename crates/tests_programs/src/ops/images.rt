//! The operators of an image.
use bl_ops::{Op, by_code, by_image_code, eval, image_code, row, table};
use std::test::Fail;

/// Operators of images, with their codes.
static CODES: [(u8, Op); 4] = [
    (0x00, Op::Move),
    (0x01, Op::Outside),
    (0x1B, Op::Select),
    (0xAD, Op::I64ExtendI32U),
];

/// How many have their code before the first that hasn't.
fn coded() -> u32 {
    let mut passed = 0u32;
    for (code, op) in &CODES {
        if by_image_code(*code) != Some(*op) || image_code(*op) != *code {
            break;
        }
        passed = passed.wrapping_add(1);
    }
    passed
}

/// Operators at three operands, and the number that they give.
static NUMBERS: [(Op, u64, u64, u64, u64); 6] = [
    (Op::Move, u64::MAX, 1, 2, u64::MAX),
    (Op::Select, 7, 9, 0x1_0000_0000, 9),
    (Op::Select, 7, 9, 0x8000_0000, 7),
    (Op::Outside, 65_532, 1, 4, 0),
    (Op::Outside, 65_533, 1, 4, 1),
    (Op::Outside, 0xFFFF_FFFF, 65_536, 0x1_0000_0008, 1),
];

/// How many give that number before the first that doesn't.
fn giving() -> u32 {
    let mut passed = 0u32;
    for (op, a, b, c, number) in &NUMBERS {
        if eval(*op, *a, *b, *c) != *number {
            break;
        }
        passed = passed.wrapping_add(1);
    }
    passed
}

/// Whether each row of the table is that of the operator of its code.
fn are_rows() -> bool {
    let all = table();
    for one in all.rows() {
        let found = match by_code(one.code) {
            Some(op) => row(op),
            None => None,
        };
        if found != Some(*one) {
            return false;
        }
    }
    true
}

/// Move, Select and Outside, by their rules; and every integer operator by its code.
#[test]
fn operators_of_an_image(rt: HostRuntime) -> Result<(), Fail> {
    assert_eq!(rt; coded(), 4);
    assert_eq!(rt; giving(), 6);
    assert!(rt; are_rows());
    Ok(())
}
