//! Folders of real files.
use std::env::Env;
use std::fs;
use std::test::Fail;
use std::time::{SystemTime, UNIX_EPOCH};

fn enter(rt: HostRuntime, folder: &str) -> Result<(), Fail> {
    fs::create_dir(&rt, folder)?;
    rt.set_current_dir(folder)?;
    Ok(())
}

/// Goes into a new folder, in which the names of a test stand for themselves.
pub fn enter_new_folder(rt: HostRuntime) -> Result<(), Fail> {
    let now = SystemTime::now(&rt)?.duration_since(UNIX_EPOCH)?.as_nanos();
    let above = std::env::temp_dir(&rt)?;
    let folder = format!(in rt.alloc(); "{}/cweb-{now}", above.as_str())?;
    enter(rt, folder.as_str())
}

/// Whether a file has these bytes.
pub fn has_bytes(rt: HostRuntime, name: &str, wanted: &[u8]) -> Result<bool, Fail> {
    let bytes = fs::read(&rt, name)?;
    Ok(bytes.as_slice() == wanted)
}

/// Writes files.
pub fn write_files(rt: HostRuntime, files: &[(&[u8], &[u8])]) -> Result<(), Fail> {
    for (name, bytes) in files {
        let Ok(name) = str::from_utf8(name) else {
            return Err(Fail::from("the name of a file is text"));
        };
        fs::write(&rt, name, *bytes)?;
    }
    Ok(())
}
