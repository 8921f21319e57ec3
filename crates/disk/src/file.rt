//! A disk in three files of a folder. It keeps a copy of what the files hold, and answers only from
//! that copy. After a failure it compares the files or writes them again before a sync succeeds.
//!
//! A read compares the file with the copy, including its end; a difference is a failure. A write is
//! recorded before the file is touched. Short writes are continued, and interrupted calls repeated.
//! A sync syncs the files that were written since the last one. If a write fails, its range is read
//! back and accepted as it is found; the next sync first compares all files, and fails while they
//! differ. After a failed sync, the next one first rewrites each range that was written since the
//! last successful one, because the system may have dropped what it couldn't write and would then
//! report success. The file `select` is locked while the disk exists.
ghost use Rattle.std.specs.Prelude.{◌≡◌, ◌⊎◌, ◌+◌, ◌≤◌, length, All, IfErr, IfOk, OnOk};
ghost use Rattle.disk.specs.Areas.{Areas, Changes, Torn, part};
ghost use Rattle.disk.specs.Memory.{blank};
ghost use Rattle.disk.specs.Record.{areas_of, at_risk, leaves, moments, left_since, reads_left};
ghost use Rattle.disk.specs.Record.{counts_now, IsUnsynced, Loaded, only_now, room};

use crate::account::Account;
use crate::state::{Contents, Range};
use crate::{Area, Disk, DiskFault, MemoryDisk};
use ids::Refusal;
use std::alloc::{AllocError, Global};
use std::fs::{DirBuilder, File, Files, OpenFile, OpenOptions};
use std::io::{self, ErrorKind, Read};
use std::os::unix::fs::{DirBuilderExt, FileExt, OpenOptionsExt};
use std::path::{Path, PathBuf};

/// How many bytes of a file are compared at a time.
const PIECE: usize = 4096;
/// The permissions of what is created: other users may neither read images nor lock a file.
const OWN_FOLDER: u32 = 0o700;

const OWN_FILE: u32 = 0o600;

/// A disk in the files `select`, `a` and `b` of a folder, one for each area.
///
/// It keeps a copy of what the files hold, and answers from that copy. So a read that finds other
/// bytes in a file is a failure. After a failed write, a sync fails while a file differs from the
/// copy. After a failed sync, the next one rewrites what it has to vouch for.
///
/// `F` is the type of the files: the system's own, or others in tests.
pub struct FileDisk<F = File> {
    select: F,
    a: F,
    b: F,
    account: Account,
    // A write failed, so a file may hold other bytes than the account says.
    doubted: bool,
    // A sync failed, so the system may have dropped what it hadn't written.
    stale: bool,
    // What is saved gets a seal.
    seals: bool,
}

// Written out, so that the crates above need not prove again how each field is dropped.
impl<F: Drop> Drop for FileDisk<F> {
    fn drop(self) {
        let FileDisk {
            select: _,
            a: _,
            b: _,
            account: _,
            doubted: _,
            stale: _,
            seals: _,
        } = self;
    }
}

impl FileDisk {
    /// Opens the disk in this folder. A missing folder or file is created, for this user alone, and
    /// what is found counts as unsynced. While this disk exists, no other one can be opened in the
    /// folder. `seals` says whether what is saved gets seals.
    ///
    /// Fails with `Disk` if the system refuses something, if one of the files isn't a regular file,
    /// or if another `FileDisk` has the folder open. Fails with `Memory` if there isn't enough
    /// memory for what the files hold.
    pub fn at<R: Files<File = File>>(
        rt: &R,
        alloc: Global,
        folder: &str,
        seals: bool,
    ) -> Result<Self, Refusal>
        ensures unsynced { IfOk result (λ d. IsUnsynced d.account.state) }
        ensures seals { IfOk result (λ d. d.seals ≡ seals) }
        ensures refused { IfErr result (λ e. (e ≡ Refusal.Disk) ⊎ (e ≡ Refusal.Memory)) }
    {
        match open_folder(rt, alloc, Path::new(folder), seals) {
            Ok(disk) => Ok(disk),
            Err(error) => Err(refusal_of(error)),
        }
    }

    /// Opens `count` disks, in the folders `0`, `1` and so on of this one, like [`FileDisk::at`].
    /// The names of the folders above them are synced once for all.
    ///
    /// Fails as [`FileDisk::at`] does; then no folder stays open.
    pub fn each_in<R: Files<File = File>>(
        rt: &R,
        alloc: Global,
        folder: &str,
        count: u8,
        seals: bool,
    ) -> Result<Vec<Self>, Refusal>
        ensures count { IfOk result (λ ds. length ds.items ≡ count) }
        ensures unsynced { IfOk result (λ ds. All (λ d. IsUnsynced d.account.state) ds.items) }
        ensures seals { IfOk result (λ ds. All (λ d. d.seals ≡ seals) ds.items) }
        ensures refused { IfErr result (λ e. (e ≡ Refusal.Disk) ⊎ (e ≡ Refusal.Memory)) }
    {
        match open_each(rt, alloc, Path::new(folder), count, seals) {
            Ok(disks) => Ok(disks),
            Err(error) => Err(refusal_of(error)),
        }
    }
}

/// How a failure to open a disk is told.
fn refusal_of(error: io::Error) -> Refusal
    ensures { (result ≡ Refusal.Disk) ⊎ (result ≡ Refusal.Memory) }
{
    if error.kind() == ErrorKind::OutOfMemory {
        Refusal::Memory
    } else {
        Refusal::Disk
    }
}

/// The disk in this folder, or the error of the system or the allocator.
fn open_folder<R: Files<File = File>>(
    rt: &R,
    alloc: Global,
    folder: Path<'_>,
    seals: bool,
) -> io::Result<FileDisk>
    ensures unsynced { IfOk result (λ d. IsUnsynced d.account.state) }
    ensures seals { IfOk result (λ d. d.seals ≡ seals) }
{
    make_folder(rt, alloc, folder)?;
    open_made(rt, alloc, folder, seals)
}

/// The disks in the folders `0`, `1` and so on of a folder.
fn open_each<R: Files<File = File>>(
    rt: &R,
    alloc: Global,
    folder: Path<'_>,
    count: u8,
    seals: bool,
) -> io::Result<Vec<FileDisk>>
    ensures count { IfOk result (λ ds. length ds.items ≡ count) }
    ensures unsynced { IfOk result (λ ds. All (λ d. IsUnsynced d.account.state) ds.items) }
    ensures seals { IfOk result (λ ds. All (λ d. d.seals ≡ seals) ds.items) }
{
    make_folder(rt, alloc, folder)?;
    make_parts(rt, alloc, folder, count)?;
    open_parts(rt, alloc, folder, count, seals)
}

/// Creates the folders `0`, `1` and so on of a folder, if they are missing, and makes their names
/// survive a crash.
fn make_parts<R: Files<File = File>>(
    rt: &R,
    alloc: Global,
    folder: Path<'_>,
    count: u8,
) -> io::Result<()> {
    for part in 0..count {
        let path = part_of(alloc, folder, part)?;
        create(rt, path.as_path())?;
    }
    sync_above(&open_to_sync(rt, folder)?)
}

/// Opens the disks in these folders, which exist.
fn open_parts<R: Files<File = File>>(
    rt: &R,
    alloc: Global,
    folder: Path<'_>,
    count: u8,
    seals: bool,
) -> io::Result<Vec<FileDisk>>
    ensures count { IfOk result (λ ds. length ds.items ≡ count) }
    ensures unsynced { IfOk result (λ ds. All (λ d. IsUnsynced d.account.state) ds.items) }
    ensures seals { IfOk result (λ ds. All (λ d. d.seals ≡ seals) ds.items) }
{
    let mut disks = Vec::new(alloc);
    for part in 0..count {
        let path = part_of(alloc, folder, part)?;
        let disk = open_made(rt, alloc, path.as_path(), seals)?;
        disks.push(disk)?;
    }
    Ok(disks)
}

/// The path of a folder that a number names.
fn part_of(alloc: Global, folder: Path<'_>, part: u8) -> io::Result<PathBuf> {
    let name = format!(in alloc; "{part}")?;
    Ok(folder.join(alloc, name.as_str())?)
}

/// The disk in a folder that exists.
fn open_made<R: Files<File = File>>(
    rt: &R,
    alloc: Global,
    folder: Path<'_>,
    seals: bool,
) -> io::Result<FileDisk>
    ensures unsynced { IfOk result (λ d. IsUnsynced d.account.state) }
    ensures seals { IfOk result (λ d. d.seals ≡ seals) }
{
    let (mut select, mut a, mut b) = open_files(rt, alloc, folder)?;
    open_to_sync(rt, folder)?.sync_all()?;
    let mut account = Account::new(alloc, Contents::new(alloc));
    load_all(&mut account, &mut select, &mut a, &mut b)?;
    // The files have just been read, so nothing needs a comparison or a second write.
    Ok(FileDisk {
        select,
        a,
        b,
        account,
        doubted: false,
        stale: false,
        seals,
    })
}

/// Opens the three files of a folder, or creates them. The file `select` is locked before the
/// others are touched.
fn open_files<R: Files<File = File>>(
    rt: &R,
    alloc: Global,
    folder: Path<'_>,
) -> io::Result<(File, File, File)> {
    let select = open_file(rt, alloc, folder, "select")?;
    lock(&select)?;
    let a = open_file(rt, alloc, folder, "a")?;
    let b = open_file(rt, alloc, folder, "b")?;
    Ok((select, a, b))
}

/// Creates a folder, and those above it, if they are missing, and makes their names survive a
/// crash.
fn make_folder<R: Files<File = File>>(rt: &R, alloc: Global, folder: Path<'_>) -> io::Result<()> {
    let mut absent = absent_folders(rt, alloc, folder)?;
    while let Some(path) = absent.pop() {
        create(rt, path)?;
    }
    sync_names(rt, folder)
}

/// The folder and those above it that are missing, the lowest first.
fn absent_folders<'a, R: Files<File = File>>(
    rt: &R,
    alloc: Global,
    folder: Path<'a>,
) -> io::Result<Vec<Path<'a>>> {
    let mut absent = Vec::new(alloc);
    let mut path = folder;
    for _ in 0..folder.as_str().len() {
        if !is_absent(rt, path)? {
            break;
        }
        absent.push(path)?;
        match path.parent() {
            Some(above) => path = above,
            None => break,
        }
    }
    Ok(absent)
}

/// Whether a folder with a name is missing.
fn is_absent<R: Files<File = File>>(rt: &R, folder: Path<'_>) -> io::Result<bool> {
    Ok(!folder.as_str().is_empty() && !folder.try_exists(rt)?)
}

/// Syncs the names of a folder and of those above it, also if they were there: whoever created them
/// may have been killed before its sync. It stops below a folder that this process may not open,
/// but the folder above the first one has to be opened.
fn sync_names<R: Files<File = File>>(rt: &R, folder: Path<'_>) -> io::Result<()> {
    let Some(mut above) = folder.parent() else {
        return Ok(());
    };
    sync_above(&open_to_sync(rt, above)?)?;
    for _ in 0..folder.as_str().len() {
        let Some(next) = above.parent() else {
            break;
        };
        let Ok(opened) = open_to_sync(rt, next) else {
            break;
        };
        sync_above(&opened)?;
        above = next;
    }
    Ok(())
}

/// Syncs a folder above a disk's own. Its file system may have nothing to sync, for example if it
/// can't be written or makes its folders by itself; Linux then answers EINVAL, EROFS or EOPNOTSUPP.
fn sync_above(folder: &File) -> io::Result<()> {
    match folder.sync_all() {
        Err(error) if has_no_sync(error.kind()) => Ok(()),
        synced => synced,
    }
}

/// Whether this kind of failure says that there is nothing to sync.
fn has_no_sync(kind: ErrorKind) -> bool {
    matches!(
        kind,
        ErrorKind::InvalidInput | ErrorKind::ReadOnlyFilesystem | ErrorKind::Unsupported
    )
}

/// Creates a folder for this user alone, if it is missing.
fn create<R: Files<File = File>>(rt: &R, folder: Path<'_>) -> io::Result<()> {
    let mut builder = DirBuilder::new();
    builder.mode(OWN_FOLDER);
    match builder.create(rt, folder) {
        Err(error) if error.kind() == ErrorKind::AlreadyExists => Ok(()),
        made => made,
    }
}

/// Opens a file of a folder, or creates it.
fn open_file<R: Files<File = File>>(
    rt: &R,
    alloc: Global,
    folder: Path<'_>,
    name: &str,
) -> io::Result<File> {
    let path = folder.join(alloc, name)?;
    open_regular(rt, path.as_path())
}

/// Opens a file, or creates it. Fails if it isn't a regular file.
fn open_regular<R: Files<File = File>>(rt: &R, path: Path<'_>) -> io::Result<File> {
    let file = open_or_make(rt, path)?;
    if !file.metadata()?.is_file() {
        return Err(ErrorKind::InvalidInput.into());
    }
    Ok(file)
}

/// Opens a file to read and write it, or creates it for this user alone.
fn open_or_make<R: Files<File = File>>(rt: &R, path: Path<'_>) -> io::Result<File> {
    let mut options = OpenOptions::new();
    options.read(true).write(true).create(true).mode(OWN_FILE);
    options.open(rt, path)
}

/// Locks a file; fails if somebody else has locked it.
fn lock(file: &File) -> io::Result<()> {
    if file.try_lock().is_err() {
        return Err(ErrorKind::ResourceBusy.into());
    }
    Ok(())
}

/// Opens a folder; the empty path is the current one.
fn open_to_sync<R: Files<File = File>>(rt: &R, folder: Path<'_>) -> io::Result<File> {
    let path = if folder.as_str().is_empty() {
        Path::new(".")
    } else {
        folder
    };
    File::open(rt, path)
}

/// Reads the three files whole into an empty disk. Their content counts as unsynced.
fn load_all(account: &mut Account, select: &mut File, a: &mut File, b: &mut File) -> io::Result<()>
    requires { areas_of account.old.state.held ≡ blank }

    ensures { OnOk result (IsUnsynced account.new.state) }
{
    load(account, Area::Select, select)?;
    load(account, Area::A, a)?;
    load(account, Area::B, b)
}

/// Reads a file whole. Its content counts as unsynced.
fn load(account: &mut Account, area: Area, file: &mut File) -> io::Result<()>
    ensures { OnOk result (Loaded area account.old.state account.new.state) }
{
    let mut content = Vec::new(account.alloc);
    file.read_to_end(&mut content)?;
    match account.risk(area, 0, content.len()) {
        Ok(()) => {}
        Err(_) => return Err(AllocError.into()),
    }
    account.state.set(area, content);
    Ok(())
}

impl<F: FileExt + OpenFile> FileDisk<F> {
    /// The disk in these files, which should hold what `memory` holds. That isn't taken on trust:
    /// the first sync compares them, and fails while they differ. What is saved gets no seals.
    pub fn over(select: F, a: F, b: F, memory: MemoryDisk) -> Self
        ensures { result.account ≡ memory.account }
    {
        FileDisk {
            select,
            a,
            b,
            account: memory.into_account(),
            doubted: true,
            stale: false,
            seals: false,
        }
    }

    fn file(&self, area: Area) -> &F {
        match area {
            Area::Select => &self.select,
            Area::A => &self.a,
            Area::B => &self.b,
        }
    }

    /// Whether each file holds what it should.
    fn agrees(&self) -> bool {
        [Area::Select, Area::A, Area::B].iter().all(|area| holds(
            self.file(*area),
            0,
            self.account.state.held.part(*area),
            true,
        ))
    }

    /// Rewrites each range that was written since the last sync.
    fn write_again(&self) -> io::Result<()> {
        for range in &self.account.state.ranges {
            self.write_range(range)?;
        }
        Ok(())
    }

    /// Writes what the disk holds in a range.
    fn write_range(&self, range: &Range) -> io::Result<()> {
        let held = self.account.state.held.part(range.area);
        if range.at >= held.len() {
            return Ok(());
        }
        let rest = &held[range.at..];
        let bytes = &rest[..range.len.min(rest.len())];
        self.file(range.area).write_all_at(bytes, range.at as u64)
    }

    /// Accepts what is in a range of a file after a write there has failed. If the file can't be
    /// read, or lost bytes, the disk keeps what it held.
    fn look_again(&mut self, area: Area, at: usize, len: usize)
        requires within { at ≤ length (part area (areas_of self.old.account.state.held)) }
        requires room { at + len ≤ room area self.old.account.state.held }

        ensures change { Changes area (Torn at len)
            (areas_of self.old.account.state.held) (areas_of self.new.account.state.held) }
        ensures crash { (c : Areas) → leaves self.new.account.state c →
            (c ≡ areas_of self.new.account.state.held) ⊎ leaves self.old.account.state c }
        ensures risk { (c : Areas) → at_risk self.old.account.state c
            → at_risk self.new.account.state c }
        ensures past { self.new.account.past ≡ self.old.account.past }
        ensures failures { self.new.account.failures ≡ self.old.account.failures }
    {
        if let Ok(found) = read_range(self.account.alloc, self.file(area), at, len) {
            self.account.state.write(area, at, &found);
        }
    }

    /// Whether an area was written since the last sync.
    fn is_written(&self, area: Area) -> bool {
        self.account
            .state
            .ranges
            .iter()
            .any(|range| range.area == area)
    }

    /// Writes through to the device what was written since the last sync, or after a failure all
    /// files, once they are known to hold what they should. Returns whether they do and everything
    /// succeeded.
    fn write_through(&mut self) -> bool
        ensures { self.new.account ≡ self.old.account }
    {
        let all = self.doubted || self.stale;
        if self.doubted && !self.agrees() {
            return false;
        }
        self.doubted = false;
        if self.stale && self.write_again().is_err() {
            self.doubted = true;
            return false;
        }
        self.stale = self.sync_files(all).is_err();
        !self.stale
    }

    /// Writes the files through to the device: all of them, or those that were written since the
    /// last sync.
    fn sync_files(&self, all: bool) -> io::Result<()> {
        for area in [Area::A, Area::B, Area::Select] {
            if all || self.is_written(area) {
                self.file(area).sync_all()?;
            }
        }
        Ok(())
    }
}

/// What a file holds in a range, up to the end of the file.
fn read_range<F: FileExt>(alloc: Global, file: &F, at: usize, len: usize) -> io::Result<Vec<u8>>
    ensures { IfOk result (λ v. length v.items ≤ len) }
{
    let mut found = vec![in alloc; 0; len]?;
    let mut n = 0;
    for _ in 0..len {
        if n >= found.len() {
            break;
        }
        match file.read_at(&mut found[n..], (at as u64).wrapping_add(n as u64)) {
            Ok(0) => break,
            Ok(more) => n += more,
            Err(error) if error.kind() == ErrorKind::Interrupted => {}
            Err(error) => return Err(error),
        }
    }
    found.truncate(n.min(len));
    Ok(found)
}

/// Whether a file ends at this offset or before it.
fn ends_at<F: FileExt>(file: &F, offset: u64) -> bool {
    match file.read_exact_at(&mut [0; 1], offset) {
        Ok(()) => false,
        Err(error) => error.kind() == ErrorKind::UnexpectedEof,
    }
}

/// Whether a file holds these bytes at this offset; at most `PIECE` bytes are compared.
fn holds_piece<F: FileExt>(file: &F, offset: u64, bytes: &[u8], piece: &mut [u8; PIECE]) -> bool {
    let found = &mut piece[..bytes.len().min(PIECE)];
    file.read_exact_at(found, offset).is_ok() && &*found == bytes
}

/// Whether a file holds these bytes at this offset and, if `ends` is true, nothing after them.
fn holds<F: FileExt>(file: &F, at: usize, bytes: &[u8], ends: bool) -> bool {
    let mut piece = [0; PIECE];
    let mut offset = at as u64;
    for expected in bytes.chunks(PIECE) {
        if !holds_piece(file, offset, expected, &mut piece) {
            return false;
        }
        offset = offset.wrapping_add(expected.len() as u64);
    }
    !ends || ends_at(file, offset)
}

impl<F: FileExt + OpenFile> Disk for FileDisk<F> {
    ghost seen = { λ d. areas_of d.account.state.held };

    ghost may_leave = { λ d. leaves d.account.state };

    ghost moment = { λ d. moments d.account.past.value };

    ghost left_since = { λ d. left_since d.account.past.value d.account.state };

    ghost faults = { λ d. d.account.failures };

    ghost seals = { λ d. d.seals };

    fn read(&mut self, area: Area, at: usize, into: &mut [u8]) -> Result<usize, DiskFault> {
        let n = self.account.state.held.read(area, at, into);
        let ends = n < into.len();
        if !holds(self.file(area), at, &into[..n], ends) {
            return Err(self.account.fault(DiskFault::Device));
        }
        Ok(n)
    }

    fn write_at(&mut self, area: Area, at: usize, bytes: &[u8]) -> Result<(), DiskFault> {
        // The range is recorded before the file is touched.
        self.account.begin(area, at, bytes.len())?;
        if self.file(area).write_all_at(bytes, at as u64).is_err() {
            self.doubted = true;
            self.look_again(area, at, bytes.len());
            return Err(self.account.fault(DiskFault::Device));
        }
        self.account.state.write(area, at, bytes);
        Ok(())
    }

    fn sync(&mut self) -> Result<(), DiskFault> {
        if !self.write_through() {
            return Err(self.account.fault(DiskFault::Device));
        }
        self.account.settle();
        Ok(())
    }

    fn failures(&self) -> u64 {
        self.account.failures
    }

    fn seals(&self) -> bool {
        self.seals
    }

    ghost reads_left = { λ d. reads_left d.account.state };

    ghost counts_now = { λ d. counts_now d.account };

    ghost only_now = { λ d. only_now d.account };
}
