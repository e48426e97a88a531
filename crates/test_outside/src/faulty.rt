//! The host's files, but every other read and write is interrupted, a read at the end fails, and a disk gets full.
use std::alloc::Allocator;
use std::fmt::Display;
use std::fs::{Metadata, OpenFile, OpenOptions, Permissions};
use std::io;
use std::io::{ErrorKind, PipeReader, PipeWriter, Read, Seek, SeekFrom, Write};
use std::os::fd::BorrowedFd;
use std::os::unix::net::SocketAddr;
use std::path::PathBuf;
use std::rt::Files;
use std::sync::atomic::{AtomicUsize, Ordering};

/// What the files of a host share.
#[derive(Drop)]
pub struct Disk {
    // How many bytes it still takes.
    left: AtomicUsize,
    // How many reads were tried.
    reads: AtomicUsize,
}

impl Disk {
    pub fn new(left: usize) -> Self {
        Disk {
            left: AtomicUsize::new(left),
            reads: AtomicUsize::new(0),
        }
    }

    pub fn left(&self) -> usize {
        self.left.load(Ordering::SeqCst)
    }

    pub fn set_left(&self, left: usize) {
        self.left.store(left, Ordering::SeqCst);
    }

    pub fn reads(&self) -> usize {
        self.reads.load(Ordering::SeqCst)
    }
}

/// A file on such a disk.
#[derive(Drop)]
pub struct FaultyFile<'a, F> {
    file: F,
    disk: &'a Disk,
    interrupted: bool,
}

impl<'a, F> FaultyFile<'a, F> {
    // Whether this call is interrupted.
    fn interrupts(&mut self) -> bool {
        self.interrupted = !self.interrupted;
        self.interrupted
    }
}

impl<'a, F: Read> Read for FaultyFile<'a, F> {
    fn read(&mut self, room: &mut [u8]) -> io::Result<usize> {
        let reads = self.disk.reads.load(Ordering::SeqCst);
        self.disk
            .reads
            .store(reads.saturating_add(1), Ordering::SeqCst);
        if self.interrupts() {
            return Err(io::Error::from(ErrorKind::Interrupted));
        }
        match self.file.read(room)? {
            0 => Err(io::Error::from(ErrorKind::UnexpectedEof)),
            count => Ok(count),
        }
    }
}

// At most 3,000 bytes a write.
impl<'a, F: Write> Write for FaultyFile<'a, F> {
    fn write(&mut self, buf: &[u8]) -> io::Result<usize> {
        if self.interrupts() {
            return Err(io::Error::from(ErrorKind::Interrupted));
        }
        let left = self.disk.left();
        let count = buf.len().min(left).min(3000);
        if count == 0 {
            return Err(io::Error::from(ErrorKind::StorageFull));
        }
        let count = self.file.write(&buf[..count])?;
        self.disk.set_left(left.saturating_sub(count));
        Ok(count)
    }

    fn flush(&mut self) -> io::Result<()> {
        self.file.flush()
    }
}

impl<'a, F: Seek> Seek for FaultyFile<'a, F> {
    fn seek(&mut self, to: SeekFrom) -> io::Result<u64> {
        self.file.seek(to)
    }
}

impl<'a, F: OpenFile> OpenFile for FaultyFile<'a, F> {
    fn metadata(&self) -> io::Result<Metadata> {
        self.file.metadata()
    }

    fn set_len(&self, size: u64) -> io::Result<()> {
        self.file.set_len(size)
    }

    fn sync_all(&self) -> io::Result<()> {
        self.file.sync_all()
    }

    fn sync_data(&self) -> io::Result<()> {
        self.file.sync_data()
    }
}

/// A host with such a disk.
#[derive(Drop)]
pub struct FaultyHost<'a, R> {
    pub rt: R,
    pub disk: &'a Disk,
}

impl<'a, R: Files> Files for FaultyHost<'a, R> {
    type File = FaultyFile<'a, R::File>;

    type Dir = R::Dir;

    fn open_file(&self, how: &OpenOptions, path: &str) -> io::Result<FaultyFile<'a, R::File>> {
        Ok(FaultyFile {
            file: self.rt.open_file(how, path)?,
            disk: self.disk,
            interrupted: false,
        })
    }

    fn open_dir(&self, path: &str) -> io::Result<R::Dir> {
        self.rt.open_dir(path)
    }

    fn metadata(&self, path: &str) -> io::Result<Metadata> {
        self.rt.metadata(path)
    }

    fn symlink_metadata(&self, path: &str) -> io::Result<Metadata> {
        self.rt.symlink_metadata(path)
    }

    fn copy(&self, from: &str, to: &str) -> io::Result<u64> {
        self.rt.copy(from, to)
    }

    fn rename(&self, from: &str, to: &str) -> io::Result<()> {
        self.rt.rename(from, to)
    }

    fn remove_file(&self, path: &str) -> io::Result<()> {
        self.rt.remove_file(path)
    }

    fn create_dir(&self, path: &str) -> io::Result<()> {
        self.rt.create_dir(path)
    }

    fn remove_dir(&self, path: &str) -> io::Result<()> {
        self.rt.remove_dir(path)
    }

    fn remove_dir_all<B: Allocator>(&self, alloc: B, path: &str) -> io::Result<()> {
        self.rt.remove_dir_all(alloc, path)
    }

    fn canonicalize<B: Allocator>(&self, alloc: B, path: &str) -> io::Result<PathBuf<B>> {
        self.rt.canonicalize(alloc, path)
    }

    fn read_link<B: Allocator>(&self, alloc: B, path: &str) -> io::Result<PathBuf<B>> {
        self.rt.read_link(alloc, path)
    }

    fn hard_link(&self, original: &str, link: &str) -> io::Result<()> {
        self.rt.hard_link(original, link)
    }

    fn set_permissions(&self, path: &str, perm: Permissions) -> io::Result<()> {
        self.rt.set_permissions(path, perm)
    }

    fn symlink(&self, original: &str, link: &str) -> io::Result<()> {
        self.rt.symlink(original, link)
    }

    fn pipe(&self) -> io::Result<(PipeReader, PipeWriter)> {
        self.rt.pipe()
    }

    fn chown(&self, path: &str, uid: Option<u32>, gid: Option<u32>) -> io::Result<()> {
        self.rt.chown(path, uid, gid)
    }

    fn lchown(&self, path: &str, uid: Option<u32>, gid: Option<u32>) -> io::Result<()> {
        self.rt.lchown(path, uid, gid)
    }

    fn create_dir_with_mode(&self, path: &str, mode: u32) -> io::Result<()> {
        self.rt.create_dir_with_mode(path, mode)
    }

    fn bind_unix(&self, socket: BorrowedFd<'_>, addr: &SocketAddr) -> io::Result<()> {
        self.rt.bind_unix(socket, addr)
    }
}

impl<'a, R: Print> Print for FaultyHost<'a, R> {
    fn print<D: Display + Drop>(&self, value: D) -> io::Result<()> {
        self.rt.print(value)
    }

    fn println<D: Display + Drop>(&self, value: D) -> io::Result<()> {
        self.rt.println(value)
    }

    fn write_all(&self, bytes: &[u8]) -> io::Result<()> {
        self.rt.write_all(bytes)
    }
}
