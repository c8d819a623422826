//! How real files are stored: whole or not at all, behind links, with their permissions.
use crate::refusing::{Refused, RefusingFiles};
use circ_outer::{HostShelf, OuterFault, Shelf};
use std::os::unix::fs::{MetadataExt, PermissionsExt, symlink};
use std::process::Abort;
use std::test::Fail;
use std::{env, fs, io, process};

/// An empty folder for a test.
fn new_folder(rt: &HostRuntime, name: &str) -> io::Result<String> {
    let folder = env::temp_dir(rt)?.into_string();
    let id = process::id(rt.process());
    let path = format!(in rt.alloc(); "{folder}/circ_{name}_{id}")?;
    fs::create_dir(rt, path.as_str())?;
    Ok(path)
}

/// How many files a folder has.
fn files_in(rt: &(impl fs::Files + AllocGlobal + Clone), folder: &str) -> io::Result<usize> {
    let mut count = 0usize;
    for entry in fs::read_dir(rt, folder)? {
        let _ = entry?;
        count = count.saturating_add(1);
    }
    Ok(count)
}

/// The path of a name in a folder.
fn path_in(rt: &impl AllocGlobal, folder: &str, name: &str) -> io::Result<String> {
    Ok(format!(in rt.alloc(); "{folder}/{name}")?)
}

fn assert_holds(
    rt: &(impl Abort + fs::Files + AllocGlobal + Clone),
    path: &str,
    want: &str,
) -> Result<(), Fail> {
    let text = fs::read_to_string(rt, path)?;
    assert!(rt; text.as_str() == want, "{path}");
    Ok(())
}

fn assert_leads(
    rt: &(impl Abort + fs::Files + AllocGlobal + Clone),
    link: &str,
    want: &str,
) -> Result<(), Fail> {
    let target = fs::read_link(rt, link)?;
    assert!(rt; target.as_str() == want, "{link}");
    Ok(())
}

#[test]
fn a_file_is_replaced_alone(rt: HostRuntime) -> Result<(), Fail> {
    let folder = new_folder(&rt, "alone")?;
    let path = path_in(&rt, folder.as_str(), "p")?;
    let mut shelf = HostShelf::new(rt.clone()?);
    assert_replaced(&rt, &mut shelf, folder.as_str(), path.as_str())
}

fn assert_replaced(
    rt: &(impl Abort + fs::Files + AllocGlobal + Clone),
    shelf: &mut HostShelf<HostRuntime>,
    folder: &str,
    path: &str,
) -> Result<(), Fail> {
    shelf.put(path, b"old")?;
    assert_holds(rt, path, "old")?;
    fs::set_permissions(rt, path, fs::Permissions::from_mode(0o640))?;
    shelf.put(path, b"new")?;
    assert_holds(rt, path, "new")?;
    assert!(rt; fs::metadata(rt, path)?.mode() & 0o7777 == 0o640);
    assert_alone(rt, shelf, folder)
}

/// A file is alone in its folder, and no call failed.
fn assert_alone(
    rt: &(impl Abort + fs::Files + AllocGlobal + Clone),
    shelf: &HostShelf<HostRuntime>,
    folder: &str,
) -> Result<(), Fail> {
    assert!(rt; files_in(rt, folder)? == 1);
    assert!(rt; shelf.faults() == 0);
    assert!(rt; shelf.failed_name().is_none());
    fs::remove_dir_all(rt, folder)?;
    Ok(())
}

#[test]
fn links_lead_where_they_did(rt: HostRuntime) -> Result<(), Fail> {
    let folder = new_folder(&rt, "links")?;
    make_links(&rt, folder.as_str())?;
    let mut shelf = HostShelf::new(rt.clone()?);
    assert_links_lead(&rt, &mut shelf, folder.as_str())
}

/// Links a name to another name, which leads to a file that is not there, and a third to itself.
fn make_links(rt: &(impl fs::Files + AllocGlobal), folder: &str) -> io::Result<()> {
    let first = path_in(rt, folder, "first")?;
    symlink(rt, "p", first.as_str())?;
    let second = path_in(rt, folder, "second")?;
    symlink(rt, first.as_str(), second.as_str())?;
    let around = path_in(rt, folder, "around")?;
    symlink(rt, "around", around.as_str())
}

fn assert_links_lead(
    rt: &(impl Abort + fs::Files + AllocGlobal + Clone),
    shelf: &mut HostShelf<HostRuntime>,
    folder: &str,
) -> Result<(), Fail> {
    for text in ["old", "new"] {
        assert_put_behind(rt, shelf, folder, text)?;
        assert!(rt; files_in(rt, folder)? == 4);
    }
    assert_not_put_around(rt, shelf, folder)?;
    fs::remove_dir_all(rt, folder)?;
    Ok(())
}

/// A text that is put behind two links is held by the file, and the links lead where they did.
fn assert_put_behind(
    rt: &(impl Abort + fs::Files + AllocGlobal + Clone),
    shelf: &mut HostShelf<HostRuntime>,
    folder: &str,
    text: &str,
) -> Result<(), Fail> {
    let second = path_in(rt, folder, "second")?;
    shelf.put(second.as_str(), text.as_bytes())?;
    let path = path_in(rt, folder, "p")?;
    assert_holds(rt, path.as_str(), text)?;
    let first = path_in(rt, folder, "first")?;
    assert_leads(rt, first.as_str(), "p")?;
    assert_leads(rt, second.as_str(), first.as_str())
}

fn assert_not_put_around(
    rt: &(impl Abort + fs::Files + AllocGlobal + Clone),
    shelf: &mut HostShelf<HostRuntime>,
    folder: &str,
) -> Result<(), Fail> {
    let around = path_in(rt, folder, "around")?;
    assert!(rt; shelf.put(around.as_str(), b"new") == Err(OuterFault::Failed));
    assert!(rt; shelf.failed_name() == Some(around.as_bytes()));
    Ok(())
}

#[test]
fn what_is_left_of_a_killed_put_is_no_hindrance(rt: HostRuntime) -> Result<(), Fail> {
    let folder = new_folder(&rt, "left")?;
    let mut shelf = HostShelf::new(rt.clone()?);
    assert_put_beside(&rt, &mut shelf, folder.as_str())
}

fn assert_put_beside(
    rt: &(impl Abort + fs::Files + AllocGlobal + Clone),
    shelf: &mut HostShelf<HostRuntime>,
    folder: &str,
) -> Result<(), Fail> {
    let left = path_in(rt, folder, ".circ-new-0")?;
    fs::write(rt, left.as_str(), "left")?;
    let path = path_in(rt, folder, "p")?;
    shelf.put(path.as_str(), b"new")?;
    assert_holds(rt, path.as_str(), "new")?;
    assert_holds(rt, left.as_str(), "left")?;
    assert!(rt; files_in(rt, folder)? == 2);
    fs::remove_dir_all(rt, folder)?;
    Ok(())
}

#[test]
fn a_put_that_fails_leaves_what_was_there(rt: HostRuntime) -> Result<(), Fail> {
    let folder = new_folder(&rt, "fails")?;
    let path = path_in(&rt, folder.as_str(), "p")?;
    for refused in [
        Refused::Open,
        Refused::Write,
        Refused::Sync,
        Refused::Rename,
    ] {
        let files = RefusingFiles {
            rt: rt.clone()?,
            refused,
        };
        assert_put_fails(
            &rt,
            &mut HostShelf::new(files),
            folder.as_str(),
            path.as_str(),
        )?;
    }
    fs::remove_dir_all(&rt, folder.as_str())?;
    Ok(())
}

fn assert_put_fails(
    rt: &(impl Abort + fs::Files + AllocGlobal + Clone),
    shelf: &mut HostShelf<RefusingFiles>,
    folder: &str,
    path: &str,
) -> Result<(), Fail> {
    assert!(rt; shelf.put(path, b"new") == Err(OuterFault::Failed));
    assert!(rt; files_in(rt, folder)? == 0);
    fs::write(rt, path, "old")?;
    assert_old_is_left(rt, shelf, folder, path)
}

fn assert_old_is_left(
    rt: &(impl Abort + fs::Files + AllocGlobal + Clone),
    shelf: &mut HostShelf<RefusingFiles>,
    folder: &str,
    path: &str,
) -> Result<(), Fail> {
    assert!(rt; shelf.put(path, b"new") == Err(OuterFault::Failed));
    assert_holds(rt, path, "old")?;
    assert!(rt; files_in(rt, folder)? == 1);
    assert!(rt; shelf.faults() == 2);
    fs::remove_file(rt, path)?;
    Ok(())
}
