//! Where drafts are, and the files that they are for: behind links, and on devices.
use crate::places::{draft_name, path_of};
use cw_base::{Bytes, Memory};
use std::alloc::Global;
use std::fs;

/// How many links are followed, one to the next. More of them are taken for a circle.
const MOST_LINKS: u8 = 40;

/// Where a draft is, and where the file is that it is for.
#[derive(Drop)]
pub(super) enum DraftPlaces {
    /// A file of its own beside the named one.
    Beside { draft: Bytes, place: Bytes },
    /// A device takes the bytes as they come: it has none that could stay.
    Device(Bytes),
}

impl DraftPlaces {
    /// Where the draft of a name is: beside the file to which the name leads.
    pub(super) fn of(rt: &HostRuntime, alloc: Global, name: &[u8]) -> Result<DraftPlaces, Memory> {
        let place = behind_links(rt, alloc, name)?;
        if is_device(rt, place.as_slice()) {
            return Ok(DraftPlaces::Device(place));
        }
        let draft = draft_name(alloc, place.as_slice())?;
        Ok(DraftPlaces::Beside { draft, place })
    }

    /// The place of the file that takes the draft's bytes.
    pub(super) fn of_draft(&self) -> &[u8] {
        match self {
            DraftPlaces::Beside { draft, .. } => draft.as_slice(),
            DraftPlaces::Device(place) => place.as_slice(),
        }
    }

    /// The place of the file that the draft is for.
    pub(super) fn of_file(&self) -> &[u8] {
        match self {
            DraftPlaces::Beside { place, .. } => place.as_slice(),
            DraftPlaces::Device(place) => place.as_slice(),
        }
    }
}

// The place to which a name leads: behind all links, where it is one.
fn behind_links(rt: &HostRuntime, alloc: Global, name: &[u8]) -> Result<Bytes, Memory> {
    let mut place = Bytes::from_slice(alloc, name)?;
    for _ in 0..MOST_LINKS {
        match led_to(rt, alloc, place.as_slice())? {
            Some(next) => place = next,
            None => break,
        }
    }
    Ok(place)
}

// Where the link at a place leads: from its own folder, unless from the root on. None where it is no link.
fn led_to(rt: &HostRuntime, alloc: Global, link: &[u8]) -> Result<Option<Bytes>, Memory> {
    let Some(path) = path_of(link) else {
        return Ok(None);
    };
    let Ok(text) = fs::read_link(rt, path) else {
        return Ok(None);
    };
    let text = text.as_path().as_str().as_bytes();
    let from = match link.iter().rposition(|byte| *byte == b'/') {
        Some(slash) if !text.starts_with(b"/") => slash + 1,
        _ => 0,
    };
    let mut place = Bytes::from_slice(alloc, &link[..from])?;
    place.append(text)?;
    Ok(Some(place))
}

// Whether there is something at a place that is no file with bytes of its own, as a device.
fn is_device(rt: &HostRuntime, place: &[u8]) -> bool {
    let Some(path) = path_of(place) else {
        return false;
    };
    match fs::metadata(rt, path) {
        Ok(found) => !found.is_file(),
        Err(_) => false,
    }
}
