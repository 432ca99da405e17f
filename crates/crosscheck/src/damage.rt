// Damage to the bytes of a table.
use crate::dice::Dice;
use crate::layout::put;
use crate::second::file::File;
use crate::second::sections::Section;
use std::alloc::{AllocError, Global};

// A header field with a value at or past the end of its range: byte, width, value.
pub const FIELD_VALUES: [(u64, u64, u64); 30] = [
    (0, 2, 0),
    (0, 2, 128),
    (0, 2, 129),
    (0, 2, 65535),
    (2, 2, 0),
    (2, 2, 1),
    (2, 2, 256),
    (2, 2, 257),
    (4, 2, 0),
    (4, 2, 257),
    (4, 2, 65535),
    (6, 2, 0),
    (6, 2, 5),
    (6, 2, 257),
    (8, 2, 4095),
    (8, 2, 4096),
    (8, 2, 65535),
    (10, 2, 0),
    (10, 2, 1),
    (10, 2, 2048),
    (10, 2, 2049),
    (12, 4, 0),
    (12, 4, 4294967295),
    (16, 4, 1),
    (20, 4, 1),
    (24, 4, 1),
    (28, 2, 1),
    (28, 2, 65535),
    (30, 2, 1),
    (30, 2, 256),
];

// Lengths of a file at and past the ends of their range, in a section or not.
pub const LENGTHS: [usize; 12] = [0, 1, 31, 32, 33, 47, 48, 100, 400, 65534, 65535, 65536];

// No deadline above this is tried number by number, unless the table was drawn so.
const LONGEST: u64 = 1_000_000;

fn put_field(dice: &mut Dice, file: &mut [u8]) {
    let (byte, width, value) = dice.pick(&FIELD_VALUES);
    put(file, byte, width, value);
}

// Changes one number of two bytes in a section: to a neighbour, a small number or any number.
fn change_number(dice: &mut Dice, file: &mut [u8]) {
    let table = File { bytes: file };
    let section = dice.pick(&[
        Section::Flows,
        Section::Links,
        Section::Entries,
        Section::Entries,
        Section::List,
        Section::List,
    ]);
    let numbers = section.bytes(table) / 2;
    let at = section
        .start(table)
        .saturating_add(dice.below(numbers).saturating_mul(2));
    let old = table.number(at, 2);
    let small = dice.below(80);
    let listed = dice.below(table.links().saturating_add(3));
    let any = dice.below(65536);
    let value = dice.pick(&[
        old.saturating_add(1),
        old.saturating_sub(1),
        small,
        listed,
        listed,
        any,
    ]);
    put(file, at, 2, value);
}

// Puts a section so that it just ends within the file, one byte past it, or over another section.
fn move_section(dice: &mut Dice, file: &mut [u8]) {
    let table = File { bytes: file };
    let section = dice.pick(&Section::ALL);
    let last = table.len().saturating_sub(section.bytes(table));
    let over = dice.pick(&Section::ALL).start(table);
    let at = dice.pick(&[last, last.saturating_add(1), over]);
    put(file, section as u64, 4, at);
}

fn change_byte(dice: &mut Dice, file: &mut [u8], below: u64) {
    let at = dice.below(below.min(file.len() as u64));
    put(file, at, 1, dice.below(256));
}

fn change_length(dice: &mut Dice, file: &mut Vec<u8>) -> Result<(), AllocError> {
    let shorter = dice.below(file.len() as u64);
    let one_less = (file.len() as u64).saturating_sub(1);
    let length = dice.pick(&[shorter, shorter, one_less, 0, 31, 32, 65534, 65535, 65536]);
    file.resize(length as usize, 0)
}

// Whether a flow has a deadline that would take too long to try number by number.
fn too_long(file: File) -> bool {
    (1..=file.flows().min(128))
        .map(|flow| file.record(flow).flow.pace)
        .any(|pace| pace.deadline > LONGEST && pace.deadline <= pace.separation)
}

fn change(dice: &mut Dice, file: &mut Vec<u8>) -> Result<(), AllocError> {
    match dice.below(12) {
        0 => change_length(dice, file)?,
        1 => put_field(dice, file.as_mut_slice()),
        2 => change_byte(dice, file.as_mut_slice(), 32),
        3 => move_section(dice, file.as_mut_slice()),
        4 | 5 => change_byte(dice, file.as_mut_slice(), 65536),
        _ => change_number(dice, file.as_mut_slice()),
    }
    Ok(())
}

// A copy of a table with one or two things changed.
pub fn damaged(heap: Global, dice: &mut Dice, file: File) -> Result<Vec<u8>, AllocError> {
    let mut copy = Vec::from_slice(heap, file.bytes)?;
    change(dice, &mut copy)?;
    if dice.once_in(4) {
        change(dice, &mut copy)?;
    }
    let table = File {
        bytes: copy.as_slice(),
    };
    if too_long(table) {
        return Vec::from_slice(heap, file.bytes);
    }
    Ok(copy)
}
