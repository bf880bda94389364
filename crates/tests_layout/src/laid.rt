//! What programs are laid out as, and which programs are refused.
use bl_asm::assemble_checked;
use bl_base::{NoMemory, Pos};
use bl_image::decode_image;
use bl_layout::{Code, lay_out};
use bl_program::WellFormed;
use std::alloc::Global;
use std::test::Fail;
use tests_samples::{ADD_ONE_IMAGE, LOADS_IMAGE};

/// A function of one variable: 7: v0 = v0 + 1; 8: to 7 if v0 is not 0, else to the trap 0.
const COUNTING_IMAGE: [u8; 26] = [
    0x42, 0x4C, 0x49, 0x4D, 0x01, 0x00, 0x00, 0x01, 0x00, 0x00, 0x01, 0x02, 0x00, 0x00, 0x00, 0x6A,
    0x00, 0x00, 0x00, 0x01, 0x01, 0x03, 0x00, 0x00, 0x07, 0x00,
];

/// The first instruction of each of its positions: the traps have one instruction each, and the two commands four.
const COUNTING_STARTS: [u32; 10] = [0, 1, 2, 3, 4, 5, 6, 7, 11, 15];

/// The bytes of its traps: seven jumps to themselves.
const TRAP_BYTES: [u8; 35] = [
    0xE9, 0xFB, 0xFF, 0xFF, 0xFF, 0xE9, 0xFB, 0xFF, 0xFF, 0xFF, 0xE9, 0xFB, 0xFF, 0xFF, 0xFF, 0xE9,
    0xFB, 0xFF, 0xFF, 0xFF, 0xE9, 0xFB, 0xFF, 0xFF, 0xFF, 0xE9, 0xFB, 0xFF, 0xFF, 0xFF, 0xE9, 0xFB,
    0xFF, 0xFF, 0xFF,
];

/// The bytes of its two commands: `mov eax, [rsp+0]`, `mov ecx, 1`, `add eax, ecx`, `mov [rsp+0], rax`, then `mov eax, [rsp+0]`, `test eax, eax`,
/// `jne` to byte 35 and `jmp` to byte 0.
const FUNCTION_BYTES: [u8; 47] = [
    0x40, 0x8B, 0x84, 0x24, 0x00, 0x00, 0x00, 0x00, 0x40, 0xB9, 0x01, 0x00, 0x00, 0x00, 0x40, 0x03,
    0xC1, 0x48, 0x89, 0x84, 0x24, 0x00, 0x00, 0x00, 0x00, 0x40, 0x8B, 0x84, 0x24, 0x00, 0x00, 0x00,
    0x00, 0x40, 0x85, 0xC0, 0x0F, 0x85, 0xD6, 0xFF, 0xFF, 0xFF, 0xE9, 0xAE, 0xFF, 0xFF, 0xFF,
];

/// The program that the bytes are the image of; bytes that are none are answered like want of memory.
fn program_of(alloc: Global, image: &[u8]) -> Result<WellFormed, NoMemory> {
    match decode_image(alloc, image) {
        Ok(program) => Ok(program),
        Err(_) => Err(NoMemory),
    }
}

/// An image's program as instructions, or the position that is refused.
fn laid_out(alloc: Global, image: &[u8]) -> Result<Result<Code, Pos>, NoMemory> {
    let program = program_of(alloc, image)?;
    lay_out(alloc, &program)
}

/// Whether bytes are those of the traps and then those of the function.
fn are_bytes(bytes: &[u8]) -> bool {
    match bytes.split_at_checked(TRAP_BYTES.len()) {
        Some((traps, function)) => {
            traps == TRAP_BYTES.as_slice() && function == FUNCTION_BYTES.as_slice()
        }
        None => false,
    }
}

/// Whether code has these first instructions and these bytes.
fn is_counting(alloc: Global, code: &Code) -> Result<bool, NoMemory> {
    if code.starts.as_slice() != COUNTING_STARTS.as_slice() {
        return Ok(false);
    }
    match &assemble_checked(alloc, &code.instructions)? {
        Some(bytes) => Ok(are_bytes(bytes)),
        None => Ok(false),
    }
}

/// Whether the image's program is laid out so.
fn counts(alloc: Global) -> Result<bool, NoMemory> {
    match &laid_out(alloc, &COUNTING_IMAGE)? {
        Ok(code) => is_counting(alloc, code),
        Err(_) => Ok(false),
    }
}

/// Whether an image's program is refused at a position.
fn refuses(alloc: Global, image: &[u8], position: u32) -> Result<bool, NoMemory> {
    match &laid_out(alloc, image)? {
        Ok(_) => Ok(false),
        Err(found) => Ok(*found == Pos(position)),
    }
}

#[test]
fn a_program_is_laid_out_command_by_command(rt: HostRuntime) -> Result<(), Fail> {
    assert!(rt; counts(rt.alloc())?);
    Ok(())
}

#[test]
fn the_first_command_without_a_template_is_refused(rt: HostRuntime) -> Result<(), Fail> {
    assert!(rt; refuses(rt.alloc(), &ADD_ONE_IMAGE, 11)?);
    assert!(rt; refuses(rt.alloc(), &LOADS_IMAGE, 15)?);
    Ok(())
}
