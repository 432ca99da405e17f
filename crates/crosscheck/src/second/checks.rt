// The checks of a file's size, header and sections, and of its records.
use crate::answer::Refusal;
use crate::case::Case;
use crate::numbered::Reason;
use crate::second::file::File;
use crate::second::records::{Flow, Pace, Record, Slot};
use crate::second::sections::Section;

// Whether the header field that starts at a byte is out of its range. By the byte, since that is how a refusal tells a field.
fn field_wrong(file: File, byte: u64) -> bool {
    match byte {
        0 => !(1..=128).contains(&file.flows()),
        2 => !(1..=256).contains(&file.nodes()),
        8 => file.spare() > 4095,
        10 => file.links() > 2048,
        16 | 20 | 24 => file.is_mesh() && file.number(byte, 4) > 0,
        28 => file.is_mesh() && file.numbers() > 0,
        30 => file.number(30, 2) > 0,
        _ => false,
    }
}

// The size, the lowest field at fault, the profile; and the slot that the table gives.
fn check_header(file: File) -> Result<Slot, Refusal> {
    if !(32..=65535).contains(&file.len()) {
        return Err(Refusal::new(Reason::Size, 0, 0));
    }
    if let Some(byte) = (0..32).find(|byte| field_wrong(file, *byte)) {
        return Err(Refusal::new(Reason::Field, 0, byte));
    }
    file.slot().ok_or(Refusal::new(Reason::Profile, 0, 6))
}

// The first section that ends past the file, told at its offset field; a mesh has flows alone.
fn check_sections(file: File) -> Result<(), Refusal> {
    let past = Section::ALL
        .into_iter()
        .filter(|section| !file.is_mesh() || *section == Section::Flows)
        .find(|section| section.overruns(file));
    match past {
        Some(section) => Err(Refusal::new(Reason::Section, 0, section as u64)),
        None => Ok(()),
    }
}

// Whether a fabric can be made from a file.
pub fn check_fabric(file: File) -> Result<(), Refusal> {
    check_header(file)?;
    check_sections(file)
}

// The header, the fit, and then the sections.
pub fn check_file(case: &Case) -> Result<Slot, Refusal> {
    let file = case.file;
    let slot = check_header(file)?;
    if file.flows() > case.limit || file.nodes() != case.network.file.nodes() {
        return Err(Refusal::new(Reason::Misfit, 0, 0));
    }
    check_sections(file)?;
    Ok(slot)
}

// Whether a flow's nodes, payload, separation or deadline are out of range.
fn flow_wrong(flow: &Flow, nodes: u64) -> bool {
    let Pace {
        separation,
        deadline,
    } = flow.pace;
    flow.source >= nodes
        || flow.destination >= nodes
        || flow.source == flow.destination
        || !(1..=65535).contains(&flow.payload)
        || separation == 0
        || !(1..=separation).contains(&deadline)
}

// One record, and that its separation is no shorter than a slot.
fn check_record(record: &Record, nodes: u64, slot: u64) -> Result<(), Refusal> {
    if flow_wrong(&record.flow, nodes) {
        Err(record.refused(Reason::Record))
    } else if record.flow.pace.separation < slot {
        Err(record.refused(Reason::Separation))
    } else {
        Ok(())
    }
}

// Flow by flow: the record, and that its separation is no shorter than a slot.
pub fn check_records(file: File, slot: u64) -> Result<(), Refusal> {
    (1..=file.flows()).try_for_each(|flow| check_record(&file.record(flow), file.nodes(), slot))
}
