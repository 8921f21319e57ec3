//! A disk in files of a folder: its calls, and what it opens to.
use crate::case::{Case, Subject};
use crate::crashes::opens_to;
use disk::{Area, Disk, DiskFault, FileDisk, MemoryDisk};
use ids::Refusal;
use std::alloc::Global;
use std::fs::{File, Files, OpenOptions};
use std::io;

/// A case for a disk in files.
#[derive(Drop)]
pub(crate) struct InFiles<'a, R> {
    pub rt: &'a R,
    pub alloc: Global,
    pub disk: Option<FileDisk>,
}

impl<R: Files<File = File>> Subject for InFiles<'_, R> {
    fn take(&mut self, case: &mut Case) {
        match case.verb() {
            "at" => {
                let disk = FileDisk::at(self.rt, self.alloc, case.word(1), true);
                self.hold(disk, case);
            }
            "over" => {
                let disk = disk_over(self.rt, self.alloc, case.word(1));
                self.hold(disk.map_err(|_error| Refusal::Disk), case);
            }
            "leave" => {
                drop(self.disk.take());
                case.text("ok");
            }
            _ => match &mut self.disk {
                Some(disk) => on_disk(self.alloc, disk, case),
                None => case.unknown(),
            },
        }
    }
}

impl<R> InFiles<'_, R> {
    // Holds the disk, unless it was refused.
    fn hold(&mut self, disk: Result<FileDisk, Refusal>, case: &mut Case) {
        match disk {
            Ok(disk) => {
                self.disk = Some(disk);
                case.text("ok");
            }
            Err(refusal) => case.refused(refusal),
        }
    }
}

// A disk over new files of a folder.
fn disk_over<R: Files<File = File>>(rt: &R, alloc: Global, folder: &str) -> io::Result<FileDisk> {
    let select = new_file(rt, alloc, folder, "select")?;
    let a = new_file(rt, alloc, folder, "a")?;
    let b = new_file(rt, alloc, folder, "b")?;
    Ok(FileDisk::over(select, a, b, MemoryDisk::new(alloc)))
}

fn new_file<R: Files<File = File>>(
    rt: &R,
    alloc: Global,
    folder: &str,
    name: &str,
) -> io::Result<File> {
    let path = format!(in alloc; "{folder}/{name}")?;
    let mut options = OpenOptions::new();
    options.read(true).write(true).create(true).truncate(true);
    options.open(rt, path.as_str())
}

// A call of the disk.
fn on_disk(alloc: Global, disk: &mut FileDisk, case: &mut Case) {
    match case.verb() {
        "sync" => put_done(disk.sync(), case),
        "failures" => case.show(&disk.failures()),
        "opens" => match opens_to(alloc, disk) {
            Ok(outcome) => case.show(&outcome),
            Err(_) => case.lacks_memory(),
        },
        "read" => read_from(alloc, disk, case),
        "write" => {
            let area = area_in(case);
            let bytes = case.bytes(2);
            if case.goes_on() {
                put_done(disk.write_at(area, 0, &bytes), case);
            }
        }
        _ => case.unknown(),
    }
}

// `read AREA AT COUNT`
fn read_from(alloc: Global, disk: &mut FileDisk, case: &mut Case) {
    let area = area_in(case);
    let Ok(mut into) = vec![in alloc; 0; case.number(3)] else {
        case.lacks_memory();
        return;
    };
    match disk.read(area, case.number(2), &mut into) {
        Ok(found) => {
            into.truncate(found);
            case.put_bytes(&into);
        }
        Err(_) => case.refused(Refusal::Disk),
    }
}

fn put_done(done: Result<(), DiskFault>, case: &mut Case) {
    match done {
        Ok(()) => case.text("ok"),
        Err(_) => case.refused(Refusal::Disk),
    }
}

// The area of a disk that the second word names.
fn area_in(case: &mut Case) -> Area {
    match case.word(1) {
        "select" => return Area::Select,
        "a" => return Area::A,
        "b" => return Area::B,
        _ => case.unknown(),
    }
    Area::Select
}
