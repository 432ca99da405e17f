// The checks of a file's size, header and sections.
ghost use Rattle.std.specs.Prelude.{◌≡◌, length};
ghost use Rattle.table.specs.Checks.{checked_header, checked_file, first_fault, unless, size_checks, shape_checks, unlisted_checks, reserved_checks, profile_checks, section_checks};

use crate::fault::LoadFault;
use crate::header::Header;
use crate::profile::Profile;

fn check_size(len: usize) -> Result<(), LoadFault>
    ensures { result ≡ unless (first_fault (size_checks len)) tt }
{
    if !(32..=65535).contains(&len) {
        return Err(LoadFault::Size);
    }
    Ok(())
}

// The fields that describe flows, nodes, intervals and links.
fn check_shape(header: &Header) -> Result<(), LoadFault>
    ensures { result ≡ unless (first_fault (shape_checks header.now)) tt }
{
    if !(1..=128).contains(&header.flows) {
        return Err(LoadFault::Field { byte: 0 });
    }
    let nodes = u32::from(header.width) * u32::from(header.height);
    if !(1..=256).contains(&nodes) {
        return Err(LoadFault::Field { byte: 2 });
    }
    if header.spare > 4095 {
        return Err(LoadFault::Field { byte: 8 });
    }
    if header.links > 2048 {
        return Err(LoadFault::Field { byte: 10 });
    }
    Ok(())
}

// The fields that are zero where no links are listed.
fn check_unlisted(header: &Header) -> Result<(), LoadFault>
    ensures { result ≡ unless (first_fault (unlisted_checks header.now)) tt }
{
    if header.links > 0 {
        return Ok(());
    }
    if header.links_at > 0 {
        return Err(LoadFault::Field { byte: 16 });
    }
    if header.routes_at > 0 {
        return Err(LoadFault::Field { byte: 20 });
    }
    if header.numbers_at > 0 {
        return Err(LoadFault::Field { byte: 24 });
    }
    if header.numbers > 0 {
        return Err(LoadFault::Field { byte: 28 });
    }
    Ok(())
}

fn check_reserved(header: &Header) -> Result<(), LoadFault>
    ensures { result ≡ unless (first_fault (reserved_checks header.now)) tt }
{
    if header.reserved > 0 {
        return Err(LoadFault::Field { byte: 30 });
    }
    Ok(())
}

fn check_profile(header: &Header) -> Result<(), LoadFault>
    ensures { result ≡ unless (first_fault (profile_checks header.now)) tt }
{
    Profile::try_from(header.profile)?;
    Ok(())
}

// The header of a file, if its size, its fields and its profile are in order.
pub fn check_header(bytes: &[u8]) -> Result<Header, LoadFault>
    ensures { result ≡ checked_header bytes.now }
{
    check_size(bytes.len())?;
    let header = Header::read(bytes);
    check_shape(&header)?;
    check_unlisted(&header)?;
    check_reserved(&header)?;
    check_profile(&header)?;
    Ok(header)
}

// Whether the sections of a file of so many bytes end within it.
pub fn check_sections(header: &Header, len: usize) -> Result<(), LoadFault>
    ensures { result ≡ unless (first_fault (section_checks len header.now)) tt }
{
    if header.flows_at as usize + 16 * usize::from(header.flows) > len {
        return Err(LoadFault::Section { byte: 12 });
    }
    if header.links == 0 {
        return Ok(());
    }
    if header.links_at as usize + 4 * usize::from(header.links) > len {
        return Err(LoadFault::Section { byte: 16 });
    }
    if header.routes_at as usize + 4 * usize::from(header.flows) > len {
        return Err(LoadFault::Section { byte: 20 });
    }
    if header.numbers_at as usize + 2 * usize::from(header.numbers) > len {
        return Err(LoadFault::Section { byte: 24 });
    }
    Ok(())
}

// The header of a file that is in order with its sections: what a fabric asks of the file it is made from.
pub fn check_file(bytes: &[u8]) -> Result<Header, LoadFault>
    ensures { result ≡ checked_file bytes.now }
{
    let header = check_header(bytes)?;
    check_sections(&header, bytes.len())?;
    Ok(header)
}
