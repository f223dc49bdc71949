// One interval record: whether it stands whole, and whether it is of the kind that is due.
ghost use Rattle.std.specs.Prelude.{◌≡◌, ◌||◌, eqb};
ghost use Rattle.book.specs.Record.{markets_of, verdict};
ghost use Rattle.interval_records.specs.Record.{known_length, whole, due_verdict, link_verdict, head_verdict};

use crate::layout::region_length;
use book::record::Refusal;
use codec::{get_u8, get_u16, get_u32};

// Whether a record may be this long: of a known kind it has the kind's length, of another any.
fn fits_kind(services: u8, kind: u16, size: usize) -> bool
    ensures { let known = known_length (markets_of services) kind in result ≡ (eqb known 0 || eqb size known) }
{
    match kind {
        16 => size == 12,
        17 => size == region_length(services),
        18 => size == 14,
        _ => true,
    }
}

// Whether a record stands whole at a place, with its kind's length where the kind is known. Any place: lengths are compared by subtraction.
fn whole(services: u8, bytes: &[u8], at: usize) -> bool
    ensures { result ≡ whole (markets_of services) bytes.now at }
{
    if bytes.len() < at {
        return false;
    }
    let left = bytes.len() - at;
    if left < 6 {
        return false;
    }
    let size = get_u32(bytes, at) as usize;
    let kind = get_u16(bytes, at + 4);
    ((6 <= size) & (size <= left)) & fits_kind(services, kind, size)
}

// 40 and 41 of the record at a place, where one of this kind is due.
pub fn due_verdict(kind: u16, services: u8, bytes: &[u8], at: usize) -> Result<(), Refusal>
    ensures { verdict result ≡ due_verdict kind (markets_of services) bytes.now at }
{
    if !whole(services, bytes, at) {
        return Err(Refusal::Broken);
    }
    if get_u16(bytes, at + 4) != kind {
        return Err(Refusal::RecordKind);
    }
    Ok(())
}

// 40 and 41 of the additional link's record at a place, where it is due.
pub fn link_verdict(linked: bool, services: u8, bytes: &[u8], at: usize) -> Result<(), Refusal>
    ensures { verdict result ≡ link_verdict linked (markets_of services) bytes.now at }
{
    if !linked {
        return Ok(());
    }
    due_verdict(18, services, bytes, at)
}

// 40 and 41 of the head at a place, its region total last.
pub fn head_verdict(regions: u8, services: u8, bytes: &[u8], at: usize) -> Result<(), Refusal>
    ensures { verdict result ≡ head_verdict regions (markets_of services) bytes.now at }
{
    due_verdict(16, services, bytes, at)?;
    if get_u8(bytes, at + 11) != regions {
        return Err(Refusal::RecordKind);
    }
    Ok(())
}
