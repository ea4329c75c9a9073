//! A system that has no memory for files; all else is that of the machine.

ghost use Rattle.std.specs.Prelude.{◌≡◌, ◌+◌, IfOk, string_len};

use std::alloc::{Alloc, Allocator};
use std::fs::{Metadata, OpenOptions};
use std::io;
use std::io::{ErrorKind, Input, Lines};
use std::net::{Net, SocketAddr};
use std::rt::Files;
use std::time::{Clock, Duration};

#[derive(Clone, Copy)]
pub struct Poor<'a, R> {
    /// The machine's.
    pub rt: &'a R,
}

fn no_memory() -> io::Error {
    io::Error::from(ErrorKind::OutOfMemory)
}

impl<'a, R: Alloc> Alloc for Poor<'a, R> {
    type A = R::A;

    fn alloc(&self) -> R::A {
        self.rt.alloc()
    }
}

impl<'a, R: Files> Files for Poor<'a, R> {
    type File = R::File;

    type Dir = R::Dir;

    fn open_file(&self, _how: &OpenOptions, _path: &str) -> io::Result<R::File> {
        Err(no_memory())
    }

    fn open_dir(&self, _path: &str) -> io::Result<R::Dir> {
        Err(no_memory())
    }

    fn metadata(&self, _path: &str) -> io::Result<Metadata> {
        Err(no_memory())
    }

    fn symlink_metadata(&self, _path: &str) -> io::Result<Metadata> {
        Err(no_memory())
    }

    fn copy(&self, _from: &str, _to: &str) -> io::Result<u64> {
        Err(no_memory())
    }

    fn rename(&self, _from: &str, _to: &str) -> io::Result<()> {
        Err(no_memory())
    }

    fn remove_file(&self, _path: &str) -> io::Result<()> {
        Err(no_memory())
    }

    fn create_dir(&self, _path: &str) -> io::Result<()> {
        Err(no_memory())
    }

    fn remove_dir(&self, _path: &str) -> io::Result<()> {
        Err(no_memory())
    }

    fn remove_dir_all<B: Allocator>(&self, _alloc: B, _path: &str) -> io::Result<()> {
        Err(no_memory())
    }
}

impl<'a, R: Net> Net for Poor<'a, R> {
    type Stream = R::Stream;

    type Listener = R::Listener;

    fn bind(&self, addr: SocketAddr) -> io::Result<R::Listener> {
        self.rt.bind(addr)
    }

    fn connect(&self, addr: SocketAddr) -> io::Result<R::Stream> {
        self.rt.connect(addr)
    }
}

impl<'a, R: Clock> Clock for Poor<'a, R> {
    fn monotonic(&self) -> io::Result<Duration> {
        self.rt.monotonic()
    }

    fn since_1970(&self) -> io::Result<Duration> {
        self.rt.since_1970()
    }
}

impl<'a, R: Input> Input for Poor<'a, R> {
    type Reader = R::Reader;

    fn read_line<A: Allocator + Clone>(&self, buf: &mut String<A>) -> io::Result<usize>
        ensures ok { IfOk result (λ n. string_len buf.new ≡ string_len buf.old + n) }
    {
        self.rt.read_line(buf)
    }

    fn lines<A: Allocator>(&self, alloc: A) -> Lines<R::Reader, A> {
        self.rt.lines(alloc)
    }

    fn reader(&self) -> R::Reader {
        self.rt.reader()
    }
}
