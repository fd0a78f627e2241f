//! Names of places: in folders in which files are looked for, and of drafts.
ghost use Rattle.std.specs.Prelude.{◌≡◌, ◌++◌, [], IfOk, IfSome, OnOk};
ghost use Rattle.cw_desk.specs.Drafts.{draft_name};
ghost use Rattle.cw_desk.specs.Places.{folders_of, place_in, places_in, places_of, says_where, with_folder};

use cw_base::{Bytes, Memory};
use std::alloc::Global;

// Whether a name says where its file is: from the root on, or from this folder or the one above it on.
fn says_where(name: &[u8]) -> bool
    ensures { result ≡ says_where name.now }
{
    name.starts_with(b"/") || name.starts_with(b"./") || name.starts_with(b"../")
}

/// The places at which the file of a name is looked for that isn't at its own: in each folder of a list, in their
/// order. A name from the root on, or from this folder or the one above it on, says where its file is, so there are
/// none.
pub(crate) fn places_of(alloc: Global, list: &[u8], name: &[u8]) -> Result<Vec<Bytes>, Memory>
    ensures { IfOk result (λ places. places.items ≡ places_of list.now name.now) }
{
    if says_where(name) {
        return Ok(Vec::new(alloc));
    }
    let folders = folders_in(alloc, list)?;
    let places = places_in(alloc, folders.as_slice(), name);
    drop(folders);
    places
}

// The folders of a list, set apart by colons, in their order. Between two colons with nothing between them is none.
fn folders_in(alloc: Global, list: &[u8]) -> Result<Vec<Bytes>, Memory>
    ensures { IfOk result (λ folders. folders.items ≡ folders_of list.now) }
{
    let mut folders = Vec::new(alloc);
    add_folders(alloc, list, &mut folders).and(Ok(folders))
}

// Adds the folders of a list where none are.
fn add_folders(alloc: Global, list: &[u8], folders: &mut Vec<Bytes>) -> Result<(), Memory>
    requires { folders.old.items ≡ [] }
    ensures { OnOk result (folders.new.items ≡ folders_of list.now) }
{
    let mut from = 0;
    for at in 0..list.len() {
        if list[at] == b':' {
            add_folder(alloc, &list[from..at], folders)?;
            from = at + 1;
        }
    }
    add_folder(alloc, &list[from..], folders)
}

// Adds a folder, unless nothing names it.
fn add_folder(alloc: Global, folder: &[u8], folders: &mut Vec<Bytes>) -> Result<(), Memory>
    ensures { OnOk result (folders.new.items ≡ with_folder folder.now folders.old.items) }
{
    if !folder.is_empty() {
        folders.push(Bytes::from_slice(alloc, folder)?)?;
    }
    Ok(())
}

// The places of a name in folders, in their order.
fn places_in(alloc: Global, folders: &[Bytes], name: &[u8]) -> Result<Vec<Bytes>, Memory>
    ensures { IfOk result (λ places. places.items ≡ places_in folders.now name.now) }
{
    let mut places = Vec::new(alloc);
    add_places(alloc, folders, name, &mut places).and(Ok(places))
}

// Adds the places of a name in folders.
fn add_places(
    alloc: Global,
    folders: &[Bytes],
    name: &[u8],
    places: &mut Vec<Bytes>,
) -> Result<(), Memory>
    ensures { OnOk result (places.new.items ≡ places.old.items ++ places_in folders.now name.now) }
{
    for folder in folders {
        places.push(place_in(alloc, folder.as_slice(), name)?)?;
    }
    Ok(())
}

// The place of a name in a folder.
fn place_in(alloc: Global, folder: &[u8], name: &[u8]) -> Result<Bytes, Memory>
    ensures { IfOk result (λ place. place ≡ place_in folder.now name.now) }
{
    let mut place = Bytes::from_slice(alloc, folder)?;
    place.push(b'/')?;
    place.append(name)?;
    Ok(place)
}

/// The path of a place. The system's calls take paths that are text, so a name that isn't UTF-8 has none.
pub(crate) fn path_of(place: &[u8]) -> Option<&str>
    ensures { IfSome result (λ path. path.now ≡ place.now) }
{
    str::from_utf8(place).ok()
}

/// The name of the draft of a file.
pub fn draft_name(alloc: Global, name: &[u8]) -> Result<Bytes, Memory>
    ensures { IfOk result (λ draft. draft ≡ draft_name name.now) }
{
    let mut draft = Bytes::from_slice(alloc, name)?;
    draft.append(b".new")?;
    Ok(draft)
}
